ghost use Rattle.std.specs.Prelude.{◌≡◌, ℕ, Some, None, MatchResult};
ghost use Rattle.sets.specs.Serials.{serials};
ghost use Rattle.head.specs.Tables.{entries};
ghost use Rattle.weave.specs.Tables.{listed};
ghost use Rattle.archive.specs.Requests.{is_bad, first_bad, request_refusal, request_set};

use crate::request::Request;
use head::table::Table;
use lines::fault::{Cause, Fault};
use sets::{Lists, SERIALS, SerialSet};
use weave::version::set_of;

// Is the serial listed, and 0, above the number of deltas, or in both lists?
fn is_bad(top: u8, lists: Lists, serial: u8) -> bool
    ensures { result ≡ is_bad top (listed lists) serial }
{
    let key = u64::from(serial);
    let included = lists.includes.contains(key);
    let excluded = lists.excludes.contains(key);
    (included || excluded) && (serial == 0 || serial > top || included && excluded)
}

// The smallest bad serial of the lists.
fn first_bad(top: u8, lists: Lists) -> Option<u8>
    ensures { result ≡ first_bad top (listed lists) }
{
    // `as` is proved to lose nothing, here and below
    (0..SERIALS as u8).find(|serial| is_bad(top, lists, *serial))
}

// The set that a request asks for.
pub fn choose(table: &Table, request: Request) -> Result<SerialSet, Fault>
    ensures { MatchResult result (λ s. (request_refusal (entries table.now) request ≡ None) × ((k : ℕ) → serials s k ≡ request_set (entries table.now) request k)) (λ f. request_refusal (entries table.now) request ≡ Some f) }
{
    let version = table
        .find(request.sid)
        .ok_or(Fault::plain(Cause::NoSuchVersion))?;
    let lists = request.lists();
    match first_bad(table.len() as u8, lists) {
        Some(serial) => Err(Fault::of_serial(Cause::ListedSerial, serial)),
        None => Ok(set_of(table, version, lists)),
    }
}
