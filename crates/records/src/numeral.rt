ghost use Rattle.std.specs.Prelude.{◌≡◌, ◌^◌, ◌<◌, ◌≤◌, length, IfSome};
ghost use Rattle.records.specs.Numerals.{reads, numeral, serial_number, serial_up_to};

// The most digits of a serial.
pub(crate) const SERIAL_DIGITS: usize = 5;

// The number that up to five digits write. A `for`, since a fold's closure would know no bound of n and had to check each sum.
fn read_digits(word: &[u8]) -> Option<u32>
    requires { length word.now ≤ 5 }
    ensures value { result ≡ reads 0 word.now }
    ensures small { IfSome result (λ n. n < 10 ^ length word.now) }
{
    let mut n: u32 = 0;
    for b in word {
        if !b.is_ascii_digit() {
            return None;
        }
        n = n * 10 + u32::from(*b - b'0');
    }
    Some(n)
}

// The number that a word writes with 1 to `most` digits and no leading zero.
pub(crate) fn read_numeral(word: &[u8], most: usize) -> Option<u32>
    requires { most ≤ 5 }
    ensures value { result ≡ numeral most word.now }
    ensures small { IfSome result (λ n. n < 10 ^ most) }
{
    match word {
        [] | [b'0', _, ..] => None,
        _ if word.len() > most => None,
        _ => read_digits(word),
    }
}

// The serial that a word writes, whether a delta has it or not.
#[tactic(auto, unfolding(crate::specs::Numerals::serial_number))]
pub(crate) fn read_serial_number(word: &[u8]) -> Option<u32>
    ensures value { result ≡ serial_number word.now }
    ensures small { IfSome result (λ n. n < 100000) }
{
    read_numeral(word, SERIAL_DIGITS)
}

// A serial from 1 to `top`.
pub(crate) fn read_serial_up_to(word: &[u8], top: u8) -> Option<u8>
    ensures { result ≡ serial_up_to top word.now }
{
    let n = u8::try_from(read_serial_number(word)?).ok()?;
    (1..=top).contains(&n).then_some(n)
}
