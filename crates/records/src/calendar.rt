ghost use Rattle.std.specs.Prelude.{◌≡◌, ◌<◌, IfSome};
ghost use Rattle.records.specs.Calendar.{pair, triple, days_in, real_day, real_time};

// How many days a month has in a year of 1969 to 2068.
fn days_in(year: u16, month: u8) -> u8
    ensures { result ≡ days_in year month }
{
    match month {
        2 if year % 4 == 0 => 29,
        2 => 28,
        4 | 6 | 9 | 11 => 30,
        _ => 31,
    }
}

// A day of 1969 to 2068.
pub(crate) fn is_day(yy: u8, month: u8, day: u8) -> bool
    ensures { result ≡ real_day yy month day }
{
    let century = if yy >= 69 { 1900 } else { 2000 };
    let days = days_in(century + u16::from(yy), month);
    (1..=12).contains(&month) && (1..=days).contains(&day)
}

pub(crate) fn is_time(hour: u8, minute: u8, second: u8) -> bool
    ensures { result ≡ real_time hour minute second }
{
    hour <= 23 && minute <= 59 && second <= 59
}

// The number that two digits write.
fn read_two(a: u8, b: u8) -> Option<u8>
    ensures value { result ≡ pair a b }
    ensures small { IfSome result (λ n. n < 100) }
{
    if !(a.is_ascii_digit() && b.is_ascii_digit()) {
        return None;
    }
    Some((a - b'0') * 10 + (b - b'0'))
}

// Three numbers of two digits, joined by a mark. They stay a tuple: a date and a time name them differently.
pub(crate) fn read_triple(word: &[u8], mark: u8) -> Option<(u8, u8, u8)>
    ensures { result ≡ triple mark word.now }
{
    let [a, b, s, c, d, t, e, f] = word else {
        return None;
    };
    if *s != mark || *t != mark {
        return None;
    }
    Some((read_two(*a, *b)?, read_two(*c, *d)?, read_two(*e, *f)?))
}
