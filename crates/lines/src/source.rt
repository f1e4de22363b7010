ghost use Rattle.std.specs.Prelude.{◌≡◌, ℕ, List, length};
ghost use Rattle.lines.specs.Faults.{verdict, left};
ghost use Rattle.lines.specs.Lines.{Lawful, line_of, fronted, read_refusal};

use crate::fault::Fault;

// The most lines that a source has.
pub const MOST_LINES: usize = 4000;

// A list of at most 4,000 lines, and a health: 0, or the kind of the lowest source in the pile that is not whole.
// None of the calls changes the source.
pub trait LineSource {
    ghost lines: { Self → List (List ℕ) };

    ghost health: { Self → ℕ };

    ghost lawful: { (s : Self) → Lawful (lines s) };

    // How many lines there are.
    fn count(&self) -> usize
        ensures { result ≡ length (lines self.now) };

    // A number and no enum or Option: somebody else's source may have any kind up to 255, and a refusal names it as one.
    fn health(&self) -> u8
        ensures { result ≡ health self.now };

    // Puts line n, counted from 1, at the front of the buffer, keeps the rest and answers the line's length.
    fn read(&self, n: usize, buf: &mut [u8]) -> Result<usize, Fault>
        ensures answer { result ≡ verdict (read_refusal (lines self.now) n (length buf.old)) (length (line_of (lines self.now) n)) }
        ensures bytes { buf.new ≡ left (read_refusal (lines self.now) n (length buf.old)) (fronted (line_of (lines self.now) n) buf.old) buf.old };
}
