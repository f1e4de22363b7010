ghost use Rattle.std.specs.Prelude.{◌≡◌};
ghost use Rattle.records.specs.Sids.{part, sid};

use crate::numeral::read_numeral;

// A SID. By the project's rule it is four numbers, with 0 for an absent part.
#[derive(Clone, Copy, Debug, PartialEq, Eq)]
pub struct Sid {
    pub release: u16,
    pub level: u16,
    pub branch: u16,
    pub sequence: u16,
}

// A part of a SID, 1 to 9,999.
fn read_part(word: &[u8]) -> Option<u16>
    ensures { result ≡ part word.now }
{
    let n = u16::try_from(read_numeral(word, 4)?).ok()?;
    (n > 0).then_some(n)
}

// A SID has two parts or four, joined by dots.
pub fn read_sid(word: &[u8]) -> Option<Sid>
    ensures { result ≡ sid word.now }
{
    let mut parts = word.split(|b| *b == b'.');
    let release = read_part(parts.next()?)?;
    let level = read_part(parts.next()?)?;
    let Some(third) = parts.next() else {
        return Some(Sid {
            release,
            level,
            branch: 0,
            sequence: 0,
        });
    };
    let branch = read_part(third)?;
    let sequence = read_part(parts.next()?)?;
    match parts.next() {
        Some(_) => None,
        None => Some(Sid {
            release,
            level,
            branch,
            sequence,
        }),
    }
}
