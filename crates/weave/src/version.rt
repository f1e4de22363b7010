ghost use Rattle.std.specs.Prelude.{◌≡◌, ℕ, ◌<◌, length, ◌==◌};
ghost use Rattle.sets.specs.Serials.{serials};
ghost use Rattle.head.specs.Tables.{entries};
ghost use Rattle.weave.specs.Versions.{marks, marked_or, set_of};
ghost use Rattle.weave.specs.Tables.{listed, deltas};

use head::table::{Entry, Table};
use sets::{Lists, SerialSet};

// Is a serial in: as marked, else if it is the one reached?
fn is_in(marked: Lists, reached: u8, n: u8) -> bool
    ensures { result ≡ marked_or (marks (listed marked) n) (reached == n) }
{
    let key = u64::from(n);
    !marked.excludes.contains(key) && (marked.includes.contains(key) || reached == n)
}

// The set for a version with a call's lists, from the newest entry down. The serial of an entry is how many are left.
fn set_in(table: &[Entry], version: u8, call: Lists) -> SerialSet
    requires { length table.now < 64 }
    ensures { (k : ℕ) → serials result k ≡ set_of (deltas table.now) version (listed call) k }
{
    let mut set = SerialSet::empty();
    let mut marked = call;
    // 0 once the first delta was reached, as its record writes it, and no Option
    let mut reached = version;
    let mut rest = table;
    'entries: while let Some((entry, older)) = rest.split_first() {
        // `as` is proved to lose nothing
        let n = rest.len() as u8;
        let stands = is_in(marked, reached, n);
        if reached == n {
            reached = entry.predecessor;
        }
        if stands {
            set = set.with(n);
            marked = Lists {
                includes: marked.includes.union(entry.lists.includes),
                excludes: marked
                    .excludes
                    .union(entry.lists.excludes.without(marked.includes)),
            };
        }
        rest = older;
    }
    set
}

// The set for a version with a call's lists.
pub fn set_of(table: &Table, version: u8, call: Lists) -> SerialSet
    ensures { (k : ℕ) → serials result k ≡ set_of (deltas (entries table.now)) version (listed call) k }
{
    set_in(table.entries(), version, call)
}
