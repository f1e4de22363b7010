ghost use Rattle.std.specs.Prelude.{◌≡◌, ◌+◌, ◌-◌, ◌*◌, ◌/◌, ◌%◌, ◌<◌, ◌≤◌, [], ◌∷◌, length};
ghost use Rattle.blocks.specs.Indexed.{span, ends_in, word_of, indexed_lines, indexed_size, IndexedLaid};
ghost use Rattle.blocks.specs.IndexedLaws.{indexed_grows, indexed_counted, indexed_lawful, indexed_laid, indexed_kind};

use crate::layout::Layout;
use crate::tally::Tally;
use lines::line::LONGEST;
use std::ops::Range;

// An index of the lines of a sheet, and their text.
#[derive(Default, Drop)]
pub struct Indexed;

// The length that an index entry gives to its line, which starts at `start` in a text of `room` bytes: none where the
// entry has another start, at most 240, and at most what is left.
fn span_of(entry: &[u8; 4], room: usize, start: usize) -> usize
    requires { start ≤ room }
    ensures { result ≡ span entry.now room 0 start }
{
    let [a, b, c, d] = *entry;
    let given = usize::from(u16::from_le_bytes([a, b]));
    // cut as the 16 bits that it is (the cast loses nothing): with one type for both bounds, a few entries take longer
    let len = usize::from(u16::from_le_bytes([c, d]).min(LONGEST as u16));
    if given != start {
        return 0;
    }
    len.min(room - start)
}

// Where the line behind those of some index entries starts.
fn end_of(entries: &[[u8; 4]], room: usize) -> usize
    ensures is { result ≡ ends_in entries.now room }
    ensures within { result ≤ room }
{
    let mut start = 0;
    for entry in entries {
        start += span_of(entry, room, start);
    }
    start
}

// The bytes of a number, the low one first.
fn bytes_of(number: usize) -> [u8; 2]
    requires { number < 65536 }
    ensures { result ≡ word_of number }
{
    // `as` is proved to lose nothing
    (number as u16).to_le_bytes()
}

impl Layout for Indexed {
    ghost size = { indexed_size };

    ghost lines = { indexed_lines };

    ghost laid = { IndexedLaid };

    ghost KIND = { 3 };

    ghost grows = { indexed_grows };

    ghost counted = { indexed_counted };

    ghost lawful = { indexed_lawful };

    ghost laid_none = { indexed_laid };

    ghost lawful_kind = { indexed_kind };

    const KIND: u8 = 3;

    fn size(limit: usize, bytes: usize) -> usize {
        4 * limit + bytes
    }

    fn used(sheet: &[u8], tally: Tally) -> usize {
        let (entries, _) = sheet.as_chunks::<4>();
        end_of(&entries[..tally.count], tally.bytes)
    }

    fn place(sheet: &[u8], tally: Tally, row: usize) -> Range<usize> {
        let (entries, _) = sheet.as_chunks::<4>();
        let start = end_of(&entries[..row], tally.bytes);
        let len = span_of(&entries[row], tally.bytes, start);
        let from = 4 * tally.lines + start;
        from..from + len
    }

    fn append(sheet: &mut [u8], tally: Tally, used: usize, line: &[u8]) {
        let [a, b] = bytes_of(used);
        let [c, d] = bytes_of(line.len());
        let entry = 4 * tally.count;
        sheet[entry..entry + 4].copy_from_slice(&[a, b, c, d]);
        let start = 4 * tally.lines + used;
        sheet[start..start + line.len()].copy_from_slice(line);
    }
}
