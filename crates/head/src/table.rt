ghost use Rattle.std.specs.Prelude.{◌≤◌};

use records::sid::Sid;
use sets::Lists;

// The most deltas that a head has.
pub const MOST_DELTAS: usize = 63;

// One delta of the head. The predecessor is the number that its record writes, 0 for none, and no Option.
#[derive(Clone, Copy)]
pub struct Entry {
    pub sid: Sid,
    pub serial: u8,
    pub predecessor: u8,
    pub lists: Lists,
}

// The deltas of a head, newest first: the first `count` of the entries. By the project's rule it is an array in a plain
// struct: a library has no heap, and one entry is lent and filled while its records are read.
#[derive(Clone, Copy)]
pub struct Table {
    pub(crate) entries: [Entry; MOST_DELTAS],
    pub(crate) count: usize,
    ghost few: { count ≤ 63 },
}

mod methods;

pub(crate) use methods::{has_sid, last_serial};
