// How many lines a set shows, and their bytes, each line with its LF.
#[derive(Clone, Copy, Debug, PartialEq, Eq)]
pub struct Measure {
    pub lines: usize,
    pub bytes: usize,
}
