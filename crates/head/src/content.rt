ghost use Rattle.std.specs.Prelude.{◌≡◌, ◌<◌, true};
ghost use Rattle.head.specs.Heads.{sound, follows};

use crate::table::{Entry, MOST_DELTAS, has_sid, last_serial};
use records::delta_record::DeltaRecord;

// May the serial n come after `before`, that of the last entry? (The bound goes by clause to the one caller that needs it; a
// type for a tested record would be made in one place and taken apart in the next.)
fn follows_on(before: Option<u8>, n: u32) -> bool
    ensures value { result ≡ follows before n }
    ensures small { result ≡ true → n < 256 }
{
    match before {
        // `as` is proved to lose nothing
        None => (1..=MOST_DELTAS as u32).contains(&n),
        Some(before) => u32::from(before).checked_sub(1) == Some(n),
    }
}

// Does a delta record fit in after the entries?
pub(crate) fn is_sound(es: &[Entry], d: DeltaRecord) -> bool
    ensures value { result ≡ sound es.now d }
    ensures small { result ≡ true → (d.serial < 256) × (d.predecessor < 256) }
{
    d.real
        && follows_on(last_serial(es), d.serial)
        && d.predecessor < d.serial
        && (d.serial == 1 || 0 < d.predecessor)
        && !has_sid(es, d.sid)
}
