ghost use Rattle.std.specs.Prelude.{◌≡◌, ◌+◌, ◌/◌, ◌%◌, ◌≤◌, drop, sum};
ghost use Rattle.checksum.specs.Sum.{sum_of, marked, KnownSums};
ghost use Rattle.checksum.specs.Layer.{summed};
ghost use Rattle.checksum.specs.Change.{ChangeSeen};

use lines::each::Lines;
use lines::line::{LONGEST, fetch_in};
use lines::source::LineSource;

// The length of the line that holds a sum.
pub const SUM_LENGTH: usize = 7;

// The line that holds the sum 0.
pub(crate) const ZERO_LINE: [u8; SUM_LENGTH] = *b"\x01h00000";

// The line that holds a sum: the byte 1, h and five digits.
pub fn sum_line(total: u16) -> [u8; SUM_LENGTH]
    ensures line { result ≡ marked total }
    ensures known { KnownSums }
{
    let [mark, letter, ..] = ZERO_LINE;
    [
        mark,
        letter,
        digit(total, 10000),
        digit(total, 1000),
        digit(total, 100),
        digit(total, 10),
        digit(total, 1),
    ]
}

// The digit of a number that counts this unit. By hand, and the `as` proved to lose nothing: a format could fail.
fn digit(n: u16, unit: u16) -> u8
    requires { 1 ≤ unit }
    ensures { result ≡ 48 + n / unit % 10 }
{
    b'0' + (n / unit % 10) as u8
}

// The sum of all lines of a source: every byte of the lines, and 10 for each line, modulo 65,536.
pub fn sum_of<S: LineSource>(source: &S) -> u16
    ensures { result ≡ sum_of (S.LineSource.lines source.now) }
{
    sum_after(source, 0)
}

// Does the first line hold the sum of the others? Where it does, it no longer does once any one byte is changed.
pub fn holds_sum<S: LineSource>(source: &S) -> bool
    ensures is { result ≡ summed (S.LineSource.lines source.now) }
    ensures seen { ChangeSeen }
{
    let want = sum_line(sum_after(source, 1));
    fetch_in(source, 1, &mut [0; LONGEST]).is_some_and(|line| line == want.as_slice())
}

// The sum of the lines after the first `skipped` ones.
pub(crate) fn sum_after<S: LineSource>(source: &S, skipped: usize) -> u16
    ensures { result ≡ sum_of (drop skipped (S.LineSource.lines source.now)) }
{
    let mut lines = Lines::after(source, skipped);
    let mut room = [0; LONGEST];
    let mut total = 0;
    // one room for all lines: a `for` would move each line, which costs more than many a read
    while let Some(line) = lines.next_in(&mut room) {
        total = add_line(total, line);
    }
    total
}

// The sum so far with one line more.
fn add_line(before: u16, line: &[u8]) -> u16
    ensures { result ≡ (before + (sum line.now + 10)) % 65536 }
{
    line.iter()
        .fold(before, |total, b| total.wrapping_add(u16::from(*b)))
        .wrapping_add(10)
}
