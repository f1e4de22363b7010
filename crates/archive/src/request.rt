ghost use Rattle.std.specs.Prelude.{◌≡◌};
ghost use Rattle.weave.specs.Tables.{listed};
ghost use Rattle.archive.specs.Requests.{lists_of};

use records::sid::Sid;
use sets::{Lists, SerialSet};

// A version with a call's lists: serial n is bit n of a mask. By the project's rule a call hands its lists over so.
#[derive(Clone, Copy)]
pub struct Request {
    pub sid: Sid,
    pub includes: u64,
    pub excludes: u64,
}

impl Request {
    // The lists as sets.
    pub(crate) fn lists(self) -> Lists
        ensures { listed result ≡ lists_of self }
    {
        Lists {
            includes: SerialSet::from_mask(self.includes),
            excludes: SerialSet::from_mask(self.excludes),
        }
    }
}
