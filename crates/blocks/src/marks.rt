ghost use Rattle.std.specs.Prelude.{◌≡◌, ◌+◌, ◌≤◌};
ghost use Rattle.blocks.specs.Numbers.{other, base, within, fresh};

use std::ops::Range;

// A block's two halves: the current list lies on the one, the draft on the other.
#[derive(Clone, Copy, Debug, PartialEq, Eq)]
pub enum Half {
    First,
    Second,
}

impl Half {
    pub(crate) fn other(self) -> Half
        ensures { result ≡ other self }
    {
        match self {
            Half::First => Half::Second,
            Half::Second => Half::First,
        }
    }

    // Where a sheet of so many bytes stands in its block.
    pub(crate) fn range(self, size: usize) -> Range<usize>
        requires { size ≤ 40000 }
        ensures from { result.start ≡ base size self }
        ensures to { result.end ≡ base size self + size }
    {
        match self {
            Half::First => 0..size,
            Half::Second => size..size + size,
        }
    }
}

// The numbers of a block store: its limits, the half with the current list, how many lines that and the draft have.
// No fact ties them to one another or to the block, so a store tests them on every call. With a ghost field here a store
// could lie under no layer: "a type argument holds a `&mut` and a struct that has a ghost field".
#[derive(Clone, Copy)]
pub struct Marks {
    pub lines: usize,
    pub bytes: usize,
    pub list: Half,
    pub count: usize,
    pub draft: Option<usize>,
}

impl Marks {
    // No lines and no draft.
    pub(crate) fn new(lines: usize, bytes: usize) -> Marks
        ensures { result ≡ fresh lines bytes }
    {
        Marks {
            lines,
            bytes,
            list: Half::First,
            count: 0,
            draft: None,
        }
    }

    // Are the counts within the limit of lines?
    pub(crate) fn within(self) -> bool
        ensures { result ≡ within self }
    {
        self.count <= self.lines && self.draft.is_none_or(|n| n <= self.lines)
    }
}
