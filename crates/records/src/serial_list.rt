ghost use Rattle.std.specs.Prelude.{◌≡◌, ◌<◌, true};
ghost use Rattle.records.specs.SerialLists.{serial_list, allowed};

use crate::numeral::read_serial_number;
use lines::fault::Cause;
use sets::SerialSet;

// May n stand in a list of the delta `own`, after `last`, with the serials of `other` taken?
fn is_allowed(n: u32, last: u32, own: u8, other: SerialSet) -> bool
    ensures value { result ≡ allowed n last own other }
    ensures below { result ≡ true → n < own }
{
    last < n && n < u32::from(own) && !other.contains(u64::from(n))
}

// The set of the serials in a list of the delta `own`, one blank between them; none may be in `other`.
pub fn read_serials(rest: &[u8], own: u8, other: SerialSet) -> Result<SerialSet, Cause>
    ensures { result ≡ serial_list own other rest.now }
{
    // 0 lies below every serial; an Option would be wrapped again at each turn
    let mut last = 0;
    // None once a serial is not allowed; the words after it are read for their form alone.
    let mut list = Some(SerialSet::empty());
    for word in rest.split(|b| *b == b' ') {
        let n = read_serial_number(word).ok_or(Cause::HeadForm)?;
        list = match list {
            // `as` is proved to lose nothing
            Some(set) if is_allowed(n, last, own, other) => Some(set.with(n as u8)),
            _ => None,
        };
        last = n;
    }
    list.ok_or(Cause::HeadContent)
}
