ghost use Rattle.std.specs.Prelude.{◌≡◌, ◌≤◌, length};
ghost use Rattle.lines.specs.Rows.{rows, row_len, is_whole, scanned, Marked};

use crate::fault::{Cause, Fault};
use crate::line::{LF, LONGEST};
use crate::source::MOST_LINES;

// The place of every 64th row is kept.
pub(crate) const STEP: usize = 64;

// So many places are enough for 4,000 rows.
pub(crate) const MARKS: usize = 63;

// How many bytes stand before the first LF.
pub(crate) fn row_len(bytes: &[u8]) -> usize
    ensures is { result ≡ row_len bytes.now }
    ensures within { result ≤ length bytes.now }
{
    bytes.iter().position(|b| *b == LF).unwrap_or(bytes.len())
}

// Is a row a line with its LF?
fn is_whole(row: &[u8]) -> bool
    ensures { result ≡ is_whole row.now }
{
    matches!(row, [line @ .., LF] if line.len() <= LONGEST)
}

// The number of rows, or the refusal that names the first wrong one.
pub(crate) fn scan(bytes: &[u8]) -> Result<usize, Fault>
    ensures { result ≡ scanned bytes.now }
{
    // counted by hand, since the count is the answer
    let mut count = 0;
    for row in bytes.split_inclusive(|b| *b == LF) {
        count += 1;
        if count > MOST_LINES || !is_whole(row) {
            // `as` is proved to lose nothing
            return Err(Fault::at(Cause::TextForm, count as u16));
        }
    }
    Ok(count)
}

// The places of rows 1, 65, 129 and so on.
pub(crate) fn mark_starts(bytes: &[u8]) -> [usize; MARKS]
    requires { length (rows bytes.now) ≤ 4000 }
    ensures { Marked bytes.now result }
{
    let mut starts = [0; MARKS];
    let mut at = 0;
    for (i, row) in bytes.split_inclusive(|b| *b == LF).enumerate() {
        if i % STEP == 0 {
            starts[i / STEP] = at;
        }
        at += row.len();
    }
    starts
}
