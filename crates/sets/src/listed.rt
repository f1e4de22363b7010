use crate::set::SerialSet;

// The serials that a delta or a call lists: what it brings in, and what it leaves out.
#[derive(Clone, Copy)]
pub struct Lists {
    pub includes: SerialSet,
    pub excludes: SerialSet,
}
