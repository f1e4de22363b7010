ghost use Rattle.std.specs.Prelude.{◌≡◌, ◌≤◌, [], length};
ghost use Rattle.head.specs.Heads.{has_sid, last_serial};
ghost use Rattle.head.specs.Tables.{entries, serial_of};

use super::{Entry, MOST_DELTAS, Table};
use records::sid::Sid;
use sets::{Lists, SerialSet};

// Is the SID that of one of the entries?
pub(crate) fn has_sid(es: &[Entry], sid: Sid) -> bool
    ensures { result ≡ has_sid es.now sid }
{
    es.iter().any(|e| e.sid == sid)
}

// The serial of the last of the entries.
pub(crate) fn last_serial(es: &[Entry]) -> Option<u8>
    ensures { result ≡ last_serial es.now }
{
    es.last().map(|e| e.serial)
}

impl Table {
    // A table with no entries.
    pub(crate) fn new() -> Table
        ensures { entries result ≡ [] }
    {
        let sid = Sid {
            release: 0,
            level: 0,
            branch: 0,
            sequence: 0,
        };
        let none = SerialSet::empty();
        let lists = Lists {
            includes: none,
            excludes: none,
        };
        let blank = Entry {
            sid,
            serial: 0,
            predecessor: 0,
            lists,
        };
        Table {
            entries: [blank; MOST_DELTAS],
            count: 0,
        }
    }

    // The deltas, newest first.
    pub fn entries(&self) -> &[Entry]
        ensures value { result.now ≡ entries self.now }
        ensures few { length result.now ≤ 63 }
    {
        &self.entries[0..self.count]
    }

    // How many deltas there are.
    pub fn len(&self) -> usize
        ensures { result ≡ length (entries self.now) }
    {
        self.entries().len()
    }

    // The serial of the delta of that SID.
    pub fn find(&self, sid: Sid) -> Option<u8>
        ensures { result ≡ serial_of (entries self.now) sid }
    {
        self.entries()
            .iter()
            .find(|e| e.sid == sid)
            .map(|e| e.serial)
    }
}
