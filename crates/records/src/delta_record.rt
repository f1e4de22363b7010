ghost use Rattle.std.specs.Prelude.{◌≡◌};
ghost use Rattle.std.specs.Option.{option_map};
ghost use Rattle.records.specs.Pieces.{cut};
ghost use Rattle.records.specs.DeltaRecords.{six, field_words, delta_from, delta_record};

use crate::calendar::{is_day, is_time, read_triple};
use crate::name::is_user;
use crate::numeral::read_serial_number;
use crate::sid::{Sid, read_sid};

// What a delta record says; `real` where its date and time are real. The flag stays: the project judges form apart from
// content, and a record of the right form is taken apart whole. The predecessor is 0 for none, as the record writes it.
#[derive(Clone, Copy)]
pub struct DeltaRecord {
    pub sid: Sid,
    pub real: bool,
    pub serial: u32,
    pub predecessor: u32,
}

// The six words of a delta record.
#[derive(Clone, Copy)]
struct Fields<'a> {
    sid: &'a [u8],
    date: &'a [u8],
    time: &'a [u8],
    user: &'a [u8],
    serial: &'a [u8],
    predecessor: &'a [u8],
}

// The words between single blanks, if they are six.
fn six_words(rest: &[u8]) -> Option<Fields<'_>>
    ensures { option_map field_words result ≡ six (cut 32 rest.now) }
{
    let mut words = rest.split(|b| *b == b' ');
    let fields = Fields {
        sid: words.next()?,
        date: words.next()?,
        time: words.next()?,
        user: words.next()?,
        serial: words.next()?,
        predecessor: words.next()?,
    };
    match words.next() {
        None => Some(fields),
        Some(_) => None,
    }
}

// What the words say.
fn say(words: Fields<'_>) -> Option<DeltaRecord>
    ensures { result ≡ delta_from (field_words words.entry) }
{
    let sid = read_sid(words.sid)?;
    let (yy, month, day) = read_triple(words.date, b'/')?;
    let (hour, minute, second) = read_triple(words.time, b':')?;
    if !is_user(words.user) {
        return None;
    }
    let serial = read_serial_number(words.serial)?;
    let predecessor = read_serial_number(words.predecessor)?;
    let real = is_day(yy, month, day) && is_time(hour, minute, second);
    Some(DeltaRecord {
        sid,
        real,
        serial,
        predecessor,
    })
}

// A delta record; none where its form is wrong.
pub fn read_delta(line: &[u8]) -> Option<DeltaRecord>
    ensures { result ≡ delta_record line.now }
{
    let [1, b'd', b' ', b'D', b' ', rest @ ..] = line else {
        return None;
    };
    let words = six_words(rest)?;
    say(words)
}
