ghost use Rattle.std.specs.Prelude.{◌≡◌};
ghost use Rattle.weave.specs.Open.{number, is_insertion, is_deletion};

use queue::Keyed;

// An open mark with its serial.
#[derive(Clone, Copy)]
pub(crate) enum Mark {
    Insert(u8),
    Delete(u8),
}

impl Mark {
    pub(crate) fn is_insertion(self) -> bool
        ensures { result ≡ is_insertion self }
    {
        matches!(self, Mark::Insert(_))
    }

    pub(crate) fn is_deletion(self) -> bool
        ensures { result ≡ is_deletion self }
    {
        matches!(self, Mark::Delete(_))
    }
}

impl Keyed for Mark {
    ghost number = { number };

    fn key(&self) -> u64 {
        match *self {
            Mark::Insert(n) | Mark::Delete(n) => u64::from(n),
        }
    }
}
