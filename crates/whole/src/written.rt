ghost use Rattle.std.specs.Prelude.{◌≡◌, ◌+◌, ◌<◌, ◌∷◌, ◌++◌, length, take, drop};
ghost use Rattle.lines.specs.Faults.{verdict, left};
ghost use Rattle.lines.specs.Lines.{fronted};
ghost use Rattle.lines.specs.Rows.{lines_in, held};
ghost use Rattle.whole.specs.Whole.{row_at, row_refusal, text_of, text_refusal};

use crate::measure::total_bytes;
use lines::each::Lines;
use lines::fault::{Cause, Fault};
use lines::line::{LF, LONGEST};
use lines::source::LineSource;

// Puts the lines of a source, each with its LF, at the front of the buffer, keeps the rest and answers their length. A
// text source over these bytes has the same lines.
pub fn write_text<S: LineSource>(source: &S, buf: &mut [u8]) -> Result<usize, Fault>
    ensures answer { result ≡ verdict (text_refusal (S.LineSource.lines source.now) (length buf.old)) (length (text_of (S.LineSource.lines source.now))) }
    ensures bytes { buf.new ≡ left (text_refusal (S.LineSource.lines source.now) (length buf.old)) (fronted (text_of (S.LineSource.lines source.now)) buf.old) buf.old }
    ensures back { lines_in (held (text_of (S.LineSource.lines source.now))) ≡ S.LineSource.lines source.now }
{
    if buf.len() < total_bytes(source) + source.count() {
        return Err(Fault::plain(Cause::BufferTooSmall));
    }
    let mut lines = Lines::of(source);
    let mut room = [0; LONGEST];
    let mut at = 0;
    while let Some(line) = lines.next_in(&mut room) {
        put_row(line, buf, at);
        at += line.len() + 1;
    }
    Ok(at)
}

// Puts a line and its LF into the buffer from `at` on, and answers the place after them.
pub fn append_row(line: &[u8], buf: &mut [u8], at: usize) -> Result<usize, Fault>
    ensures answer { result ≡ verdict (row_refusal (length line.now) at (length buf.old)) (at + length line.now + 1) }
    ensures bytes { buf.new ≡ left (row_refusal (length line.now) at (length buf.old)) (row_at line.now at buf.old) buf.old }
{
    let space = buf.len();
    let len = line.len();
    if at >= space || space - at <= len {
        return Err(Fault::plain(Cause::BufferTooSmall));
    }
    put_row(line, buf, at);
    Ok(at + len + 1)
}

// Puts a line and its LF into the buffer from `at` on.
fn put_row(line: &[u8], buf: &mut [u8], at: usize)
    requires { at + length line.now < length buf.old }
    ensures { buf.new ≡ take at buf.old ++ (line.now ++ (10 ∷ drop (at + length line.now + 1) buf.old)) }
{
    let end = at + line.len();
    buf[at..end].copy_from_slice(line);
    buf[end] = LF;
}
