ghost use Rattle.std.specs.Prelude.{◌≡◌, length};
ghost use Rattle.lines.specs.Faults.{verdict, left};
ghost use Rattle.lines.specs.Lines.{LawfulDraft, LawfulLimits, LawfulKind, line_of, fronted, draft_lines, begin_refusal, add_refusal, look_refusal, patch_refusal, keep_refusal};
ghost use Rattle.lines.specs.Stores.{Store, begun, added, patched, kept};

use crate::fault::Fault;
use crate::source::LineSource;

// The most bytes that a store takes, LF not counted.
pub const MOST_BYTES: usize = 24000;

// A line source that can be rewritten: it has also a draft, absent or a list of lines, a limit of lines and one of
// bytes, and the kind of the lowest store in the pile. What a storing call leaves is one value.
pub trait LineStore: LineSource {
    ghost store: { Self → Store };

    // Members and no laws: only a law may name a law, and a draft that is seen as a source names the first.
    ghost lawful_draft: { (s : Self) → LawfulDraft (store s).draft };

    ghost lawful_limits: { (s : Self) → LawfulLimits (store s).limits };

    ghost lawful_bottom: { (s : Self) → LawfulKind (store s).bottom };

    // The limit of lines and that of bytes, a pair by the project's rule.
    fn limits(&self) -> (usize, usize)
        ensures { result ≡ (store self.now).limits };

    // The kind of the lowest store in the pile: a number, as a health is.
    fn bottom(&self) -> u8
        ensures { result ≡ (store self.now).bottom };

    // Makes the draft the empty list.
    fn begin(&mut self) -> Result<(), Fault>
        ensures answer { result ≡ verdict (begin_refusal (store self.old).limits) tt }
        ensures store { store self.new ≡ begun (store self.old) };

    // Appends a line to the draft.
    fn add(&mut self, line: &[u8]) -> Result<(), Fault>
        ensures answer { result ≡ verdict (add_refusal (store self.old).draft (store self.old).limits line.now) tt }
        ensures store { store self.new ≡ added line.now (store self.old) };

    // Reads draft line n as `read` does.
    fn look(&self, n: usize, buf: &mut [u8]) -> Result<usize, Fault>
        ensures answer { result ≡ verdict (look_refusal (store self.now).draft n (length buf.old)) (length (line_of (draft_lines (store self.now).draft) n)) }
        ensures bytes { buf.new ≡ left (look_refusal (store self.now).draft n (length buf.old)) (fronted (line_of (draft_lines (store self.now).draft) n) buf.old) buf.old };

    // Replaces draft line n by one of equal length.
    fn patch(&mut self, n: usize, line: &[u8]) -> Result<(), Fault>
        ensures answer { result ≡ verdict (patch_refusal (store self.old).draft n line.now) tt }
        ensures store { store self.new ≡ patched n line.now (store self.old) };

    // Makes the draft the current list, the draft absent and the health 0.
    fn keep(&mut self) -> Result<(), Fault>
        ensures answer { result ≡ verdict (keep_refusal (store self.old).draft) tt }
        ensures store { store self.new ≡ kept (store self.old) };

    // The list and the health are those of the source.
    ghost same_lines: { (s : Self) → Self.LineSource.lines s ≡ (store s).lines };

    ghost same_health: { (s : Self) → Self.LineSource.health s ≡ (store s).health };
}
