ghost use Rattle.std.specs.Prelude.{◌≡◌, ℕ, ◌≤◌, List, length, take, IfSome};
ghost use Rattle.std.specs.Option.{option_map};
ghost use Rattle.lines.specs.Faults.{verdict, left};
ghost use Rattle.lines.specs.Lines.{is_line, fetched, fronted, put_refusal};

use crate::fault::{Cause, Fault};
use crate::source::LineSource;
use std::marker::Model;

// The byte that ends a line of a text.
pub const LF: u8 = 10;

// The most bytes that a line has.
pub const LONGEST: usize = 240;

// Are these bytes a line?
pub fn is_line(line: &[u8]) -> bool
    ensures { result ≡ is_line line.now }
{
    line.len() <= LONGEST && !line.contains(&LF)
}

// Puts a line at the front of the buffer, keeps the rest and answers the length.
pub fn put_line(line: &[u8], buf: &mut [u8]) -> Result<usize, Fault>
    ensures answer { result ≡ verdict (put_refusal (length line.now) (length buf.old)) (length line.now) }
    ensures bytes { buf.new ≡ left (put_refusal (length line.now) (length buf.old)) (fronted line.now buf.old) buf.old }
{
    let len = line.len();
    if buf.len() < len {
        return Err(Fault::plain(Cause::ReadBufferShort));
    }
    buf[0..len].copy_from_slice(line);
    Ok(len)
}

// A line that was fetched, in room of its own: an array and its length, since a library has no heap.
#[derive(Drop)]
pub struct Fetched {
    bytes: [u8; LONGEST],
    len: usize,
}

impl Model for Fetched {
    ghost Value = { List ℕ };

    ghost view = { λ l. take l.len l.bytes };

    ghost invariant = { λ l. l.len ≤ 240 };
}

impl Fetched {
    // The bytes of the line.
    pub fn as_slice(&self) -> &[u8]
        ensures { result.now ≡ self.now }
    {
        &self.bytes[..self.len]
    }
}

// Line n of a source, counted from 1, if it has that line, in room that is lent for it.
pub fn fetch_in<'r, S: LineSource>(
    source: &S,
    n: usize,
    room: &'r mut [u8; LONGEST],
) -> Option<&'r [u8]>
    ensures line { option_map (λ x. x.now) result ≡ fetched (S.LineSource.lines source.now) n }
{
    let Ok(len) = source.read(n, room) else {
        return None;
    };
    Some(&room[..len])
}

// Line n of a source, counted from 1, if it has that line.
pub fn fetch<S: LineSource>(source: &S, n: usize) -> Option<Fetched>
    ensures line { result ≡ fetched (S.LineSource.lines source.now) n }
    ensures short { IfSome result (λ l. length l ≤ 240) }
{
    let mut bytes = [0; LONGEST];
    let len = source.read(n, &mut bytes).ok()?;
    Some(Fetched { bytes, len })
}
