ghost use Rattle.std.specs.Prelude.{◌≡◌, ◌+◌, ◌-◌, ◌<◌, ◌≤◌, ◌⊎◌, true, [], ◌∷◌, ◌++◌, map, length, Some, Ok, OnOk, slice_set};
ghost use Rattle.std.specs.Result.{MatchResult};
ghost use Rattle.lines.specs.declared.fault.Cause.TheVariants.{NoSuchLine};
ghost use Rattle.lines.specs.Faults.{plain, verdict, left};
ghost use Rattle.lines.specs.Lines.{is_line, line_of, fronted, put_refusal, add_refusal, patch_refusal, read_refusal};
ghost use Rattle.blocks.specs.Laid.{clean};

use crate::layout::Layout;
use crate::tally::Tally;
use lines::fault::{Cause, Fault};
use lines::line::LF;

// A byte of a line: a stray LF is read as 0. An index can let one into a line.
fn cleaned(byte: u8) -> u8
    ensures { result ≡ clean byte }
{
    if byte == LF { 0 } else { byte }
}

// Puts the bytes of a line at the front of the buffer, cleaned, keeps the rest and answers the length. One pass, which
// reads nothing back: so the compiler can leave the writing out where a caller wants the length alone.
fn put_clean(line: &[u8], buf: &mut [u8]) -> Result<usize, Fault>
    ensures answer { result ≡ verdict (put_refusal (length line.now) (length buf.old)) (length line.now) }
    ensures bytes { buf.new ≡ left (put_refusal (length line.now) (length buf.old)) (fronted (map clean line.now) buf.old) buf.old }
{
    if buf.len() < line.len() {
        return Err(Fault::plain(Cause::ReadBufferShort));
    }
    for (i, byte) in line.iter().enumerate() {
        buf[i] = cleaned(*byte);
    }
    Ok(line.len())
}

// The row of line `number`, which is counted from 1; the row is counted from 0.
fn row_of(tally: Tally, number: usize) -> Result<usize, Fault>
    ensures { MatchResult result (λ row. (row < tally.count) × (number ≡ row + 1)) (λ e. (e ≡ plain NoSuchLine) × ((number ≡ 0) ⊎ (tally.count < number))) }
{
    number
        .checked_sub(1)
        .filter(|row| *row < tally.count)
        .ok_or(Fault::plain(Cause::NoSuchLine))
}

// Puts line `number` of a sheet, counted from 1, at the front of the buffer.
pub(crate) fn read_line<L: Layout>(
    sheet: &[u8],
    tally: Tally,
    number: usize,
    buf: &mut [u8],
) -> Result<usize, Fault>
    requires { length sheet.now ≡ L.Layout.size tally.lines tally.bytes }
    ensures answer { result ≡ verdict (read_refusal (L.Layout.lines tally.lines sheet.now tally.count) number (length buf.old)) (length (line_of (L.Layout.lines tally.lines sheet.now tally.count) number)) }
    ensures bytes { buf.new ≡ left (read_refusal (L.Layout.lines tally.lines sheet.now tally.count) number (length buf.old)) (fronted (line_of (L.Layout.lines tally.lines sheet.now tally.count) number) buf.old) buf.old }
{
    let place = L::place(sheet, tally, row_of(tally, number)?);
    put_clean(&sheet[place], buf)
}

// Puts a line behind those of a sheet, where that passes no limit.
// (No type for a tested line: it would be made in two calls and used once in each.)
pub(crate) fn add_line<L: Layout>(sheet: &mut [u8], tally: Tally, line: &[u8]) -> Result<(), Fault>
    requires size { length sheet.old ≡ L.Layout.size tally.lines tally.bytes }
    requires line { is_line line.now ≡ true }
    ensures answer { result ≡ verdict (add_refusal (Some (L.Layout.lines tally.lines sheet.old tally.count)) (tally.lines, tally.bytes) line.now) tt }
    ensures few { OnOk result (tally.count + 1 ≤ tally.lines) }
    ensures taken { MatchResult result (λ _. L.Layout.lines tally.lines sheet.new (tally.count + 1) ≡ L.Layout.lines tally.lines sheet.old tally.count ++ (line.now ∷ [])) (λ _. sheet.new ≡ sheet.old) }
    ensures layout { result ≡ Ok tt → L.Layout.laid tally.lines sheet.old (L.Layout.lines tally.lines sheet.old tally.count) → L.Layout.laid tally.lines sheet.new (L.Layout.lines tally.lines sheet.new (tally.count + 1)) }
{
    // tested first, so that a sheet that has its last line is not gone over
    if tally.count >= tally.lines {
        return Err(Fault::plain(Cause::NoRoom));
    }
    let used = L::used(sheet, tally);
    if used + line.len() > tally.bytes {
        return Err(Fault::plain(Cause::NoRoom));
    }
    L::append(sheet, tally, used, line);
    Ok(())
}

// Replaces line `number` of a sheet, counted from 1, by one of equal length.
pub(crate) fn change_line<L: Layout>(
    sheet: &mut [u8],
    tally: Tally,
    number: usize,
    line: &[u8],
) -> Result<(), Fault>
    requires size { length sheet.old ≡ L.Layout.size tally.lines tally.bytes }
    requires line { is_line line.now ≡ true }
    ensures answer { result ≡ verdict (patch_refusal (Some (L.Layout.lines tally.lines sheet.old tally.count)) number line.now) tt }
    ensures taken { MatchResult result (λ _. L.Layout.lines tally.lines sheet.new tally.count ≡ slice_set (L.Layout.lines tally.lines sheet.old tally.count) (number - 1) line.now) (λ _. sheet.new ≡ sheet.old) }
    ensures layout { L.Layout.laid tally.lines sheet.old (L.Layout.lines tally.lines sheet.old tally.count) → L.Layout.laid tally.lines sheet.new (L.Layout.lines tally.lines sheet.new tally.count) }
{
    let place = L::place(sheet, tally, row_of(tally, number)?);
    let old = &mut sheet[place];
    if line.len() != old.len() {
        return Err(Fault::plain(Cause::OtherLength));
    }
    old.copy_from_slice(line);
    Ok(())
}
