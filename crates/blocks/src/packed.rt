ghost use Rattle.std.specs.Prelude.{◌≡◌, ◌+◌, ◌≤◌, length, take};
ghost use Rattle.blocks.specs.Packed.{upto, stops, packed_lines, packed_size, PackedLaid};
ghost use Rattle.blocks.specs.PackedLaws.{packed_grows, packed_counted, packed_lawful, packed_laid, packed_kind};

use crate::layout::Layout;
use crate::tally::Tally;
use lines::line::{LF, LONGEST};
use std::ops::Range;

// The lines of a sheet, packed, each ended by LF.
#[derive(Default, Drop)]
pub struct Packed;

// The length of the line that these bytes begin with.
fn line_len(bytes: &[u8]) -> usize
    ensures is { result ≡ upto (take 240 bytes.now) }
    ensures short { result ≤ 240 }
    ensures within { result ≤ length bytes.now }
{
    bytes
        .iter()
        .take(LONGEST)
        .take_while(|byte| **byte != LF)
        .count()
}

// Where the line behind the first `count` lines starts, which may be behind the sheet.
fn stop_of(sheet: &[u8], count: usize) -> usize
    requires { count ≤ 4000 }
    ensures is { result ≡ stops sheet.now count }
    ensures within { result ≤ length sheet.now + count }
    ensures above { count ≤ result }
{
    let mut start: usize = 0;
    for _line in 0..count {
        let rest = &sheet[start.min(sheet.len())..];
        start += line_len(rest) + 1;
    }
    start
}

impl Layout for Packed {
    ghost size = { packed_size };

    ghost lines = { λ _ s n. packed_lines s n };

    ghost laid = { λ _ s ls. PackedLaid s ls };

    ghost KIND = { 2 };

    ghost grows = { packed_grows };

    ghost counted = { λ _ s n. packed_counted s n };

    ghost lawful = { λ _ s n. packed_lawful s n };

    ghost laid_none = { λ _ s. packed_laid s };

    ghost lawful_kind = { packed_kind };

    const KIND: u8 = 2;

    fn size(limit: usize, bytes: usize) -> usize {
        limit + bytes
    }

    fn used(sheet: &[u8], tally: Tally) -> usize {
        stop_of(sheet, tally.count) - tally.count
    }

    fn place(sheet: &[u8], tally: Tally, row: usize) -> Range<usize> {
        let start = stop_of(sheet, row).min(sheet.len());
        start..start + line_len(&sheet[start..])
    }

    fn append(sheet: &mut [u8], tally: Tally, used: usize, line: &[u8]) {
        let start = used + tally.count;
        let end = start + line.len();
        sheet[start..end].copy_from_slice(line);
        sheet[end] = LF;
    }
}
