ghost use Rattle.std.specs.Prelude.{◌≡◌};
ghost use Rattle.records.specs.BodyMeaning.{meaning};
ghost use Rattle.records.specs.BodyRecords.{record_of};

use crate::numeral::read_serial_up_to;

// A record of the body, taken apart: a mark with its serial, or text that is a part of the line.
#[derive(Clone, Copy)]
pub enum BodyRecord<'a> {
    Insert(u8),
    Delete(u8),
    End(u8),
    Text(&'a [u8]),
}

// A record of a body whose greatest serial is `top`; none where it begins with the byte 1 and is no control record.
pub fn read_record(line: &[u8], top: u8) -> Option<BodyRecord<'_>>
    ensures { meaning result ≡ record_of top line.now }
{
    match line {
        [1, letter, b' ', word @ ..] => {
            let serial = read_serial_up_to(word, top)?;
            match letter {
                b'I' => Some(BodyRecord::Insert(serial)),
                b'D' => Some(BodyRecord::Delete(serial)),
                b'E' => Some(BodyRecord::End(serial)),
                _ => None,
            }
        }
        [1, ..] => None,
        _ => Some(BodyRecord::Text(line)),
    }
}
