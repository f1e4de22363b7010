ghost use Rattle.std.specs.Prelude.{◌≤◌};

// The numbers of one sheet: its limits, and how many lines lie on it. The sheet itself is lent beside them, once to be
// read and once to be written, so it is no field.
#[derive(Clone, Copy)]
pub(crate) struct Tally {
    pub lines: usize,
    pub bytes: usize,
    pub count: usize,
    ghost few: { lines ≤ 4000 },
    ghost small: { bytes ≤ 24000 },
    ghost within: { count ≤ lines },
}
