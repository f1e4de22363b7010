ghost use Rattle.std.specs.Prelude.{◌≡◌, ℕ, ◌+◌, ◌-◌, ◌<◌, ◌≤◌, true, List, [], ◌∷◌, ◌++◌, map, length, take, drop, slice_index_or};
ghost use Rattle.std.specs.List.{AllByRecursion};
ghost use Rattle.lines.specs.Lines.{is_line, LawfulKind, total};
ghost use Rattle.blocks.specs.Laid.{clean, Turned};

use crate::tally::Tally;
use std::ops::Range;

// How the lines of a sheet lie in its bytes. The trait has no name outside this crate, so its functions have no callers
// there.
pub(crate) trait Layout {
    // The bytes of a sheet, by its limit of lines and its limit of bytes.
    ghost size: { ℕ → ℕ → ℕ };

    // The first n lines of a sheet, whatever its bytes are, by its limit of lines, its bytes and n.
    ghost lines: { ℕ → List ℕ → ℕ → List (List ℕ) };

    // These lines lie at the front of a sheet as the layout has them, by its limit of lines, its bytes and the lines.
    ghost laid: { ℕ → List ℕ → List (List ℕ) → Type 0 };

    // The kind of a store with such sheets, a number as a health is.
    ghost KIND: { ℕ };

    ghost grows: { (L B : ℕ) → size L 0 ≤ size L B };

    ghost counted: { (L : ℕ) (s : List ℕ) (n : ℕ) → length (lines L s n) ≡ n };

    ghost lawful: { (L : ℕ) (s : List ℕ) (n : ℕ) → AllByRecursion (λ l. is_line l ≡ true) (lines L s n) };

    ghost laid_none: { (L : ℕ) (s : List ℕ) → laid L s [] };

    ghost lawful_kind: { LawfulKind KIND };

    const KIND: u8;

    fn size(limit: usize, bytes: usize) -> usize
        requires few { limit ≤ 4000 }
        requires small { bytes ≤ 24000 }
        ensures is { result ≡ size limit bytes }
        ensures small { result ≤ 40000 };

    // How many bytes the lines of a sheet have, LF not counted.
    fn used(sheet: &[u8], tally: Tally) -> usize
        requires size { length sheet.now ≡ size tally.lines tally.bytes }
        ensures is { result ≡ total (lines tally.lines sheet.now tally.count) }
        ensures small { result ≤ length sheet.now };

    // Where line `row` of a sheet lies, counted from 0. Any line of that length can be written there in its place.
    fn place(sheet: &[u8], tally: Tally, row: usize) -> Range<usize>
        requires size { length sheet.now ≡ size tally.lines tally.bytes }
        requires row { row < tally.count }
        ensures from { result.start ≤ result.end }
        ensures to { result.end ≤ length sheet.now }
        ensures line { map clean (take (result.end - result.start) (drop result.start sheet.now)) ≡ slice_index_or (lines tally.lines sheet.now tally.count) row [] }
        ensures turns { (l : List ℕ) → is_line l ≡ true → length l ≡ result.end - result.start → Turned lines laid tally.lines sheet.now tally.count row result.start l };

    // Puts a line behind those of a sheet, which have `used` bytes.
    fn append(sheet: &mut [u8], tally: Tally, used: usize, line: &[u8])
        requires size { length sheet.old ≡ size tally.lines tally.bytes }
        requires used { used ≡ total (lines tally.lines sheet.old tally.count) }
        requires few { tally.count < tally.lines }
        requires room { used + length line.now ≤ tally.bytes }
        requires line { is_line line.now ≡ true }
        ensures taken { lines tally.lines sheet.new (tally.count + 1) ≡ lines tally.lines sheet.old tally.count ++ (line.now ∷ []) }
        ensures layout { laid tally.lines sheet.old (lines tally.lines sheet.old tally.count) → laid tally.lines sheet.new (lines tally.lines sheet.new (tally.count + 1)) };
}
