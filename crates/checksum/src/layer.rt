ghost use Rattle.std.specs.Prelude.{◌≡◌};
ghost use Rattle.lines.specs.Faults.{verdict};
ghost use Rattle.lines.specs.Lines.{begin_refusal, add_refusal, patch_refusal, keep_refusal};
ghost use Rattle.lines.specs.Stores.{begun, added, patched, kept};
ghost use Rattle.checksum.specs.Layer.{rest, layer_health, number_below, over, begun_below, added_below, patched_below, kept_below, rest_lawful, above_lawful, limits_lawful};

use crate::draft::{begin_below, keep_below, need_draft};
use crate::sum::{SUM_LENGTH, holds_sum};
use lines::fault::{Cause, Fault};
use lines::line::is_line;
use lines::source::{LineSource, MOST_LINES};
use lines::store::LineStore;

// The layer's kind, a number as a health is, and its health where the sum does not hold.
const KIND: u8 = 4;

// A layer over any source, and a store over any store. Its lines are those below without the first, which holds
// their sum.
#[derive(Drop)]
pub struct Checksum<S> {
    below: S,
}

impl<S> Checksum<S> {
    // The layer over a source.
    pub fn new(below: S) -> Checksum<S>
        ensures { result.below ≡ below }
    {
        Checksum { below }
    }

    // The source below.
    pub fn below(&self) -> &S
        ensures { result.now ≡ self.now.below }
    {
        &self.below
    }

    // The source below, taken out of the layer.
    pub fn into_below(self) -> S
        ensures { result ≡ self.below }
    {
        self.below
    }
}

// The number below of line n. It is n + 1, so that n is lower than MOST_LINES; else no line has it.
fn number_below(n: usize) -> Result<usize, Fault>
    ensures { result ≡ number_below n }
{
    if n == 0 || n >= MOST_LINES {
        return Err(Fault::plain(Cause::NoSuchLine));
    }
    Ok(n + 1)
}

impl<S: LineSource> LineSource for Checksum<S> {
    ghost lines = { λ c. rest (S.LineSource.lines c.below) };

    ghost health = { λ c. layer_health (S.LineSource.health c.below) (S.LineSource.lines c.below) };

    ghost lawful = { λ c. rest_lawful (S.LineSource.lines c.below) (S.LineSource.lawful c.below) };

    fn count(&self) -> usize {
        self.below.count().saturating_sub(1)
    }

    fn health(&self) -> u8 {
        let below = self.below.health();
        if below != 0 {
            return below;
        }
        if holds_sum(&self.below) { 0 } else { KIND }
    }

    fn read(&self, n: usize, buf: &mut [u8]) -> Result<usize, Fault> {
        self.below.read(number_below(n)?, buf)
    }
}

impl<S: LineStore> LineStore for Checksum<S> {
    ghost store = { λ c. over (S.LineStore.store c.below) };

    ghost lawful_draft = { λ c. above_lawful (S.LineStore.store c.below).draft (S.LineStore.lawful_draft c.below) };

    ghost lawful_limits = { λ c. limits_lawful (S.LineStore.store c.below).limits (S.LineStore.lawful_limits c.below) };

    ghost lawful_bottom = { λ c. S.LineStore.lawful_bottom c.below };

    ghost same_lines = { λ c i. rest (S.LineStore.same_lines c.below i) };

    ghost same_health = { λ c i. layer_health (S.LineStore.same_health c.below i) (S.LineStore.same_lines c.below i) };

    fn limits(&self) -> (usize, usize) {
        let (lines, bytes) = self.below.limits();
        if lines < 1 || bytes < SUM_LENGTH {
            return (0, 0);
        }
        (lines - 1, bytes - SUM_LENGTH)
    }

    fn bottom(&self) -> u8 {
        self.below.bottom()
    }

    // The storing calls repeat the clauses of their trait, whose place an impl's own take, and add `below`.
    fn begin(&mut self) -> Result<(), Fault>
        ensures answer { result ≡ verdict (begin_refusal (over (S.LineStore.store self.old.below)).limits) tt }
        ensures store { over (S.LineStore.store self.new.below) ≡ begun (over (S.LineStore.store self.old.below)) }
        ensures below { S.LineStore.store self.new.below ≡ begun_below (S.LineStore.store self.old.below) }
    {
        begin_below(&mut self.below)
    }

    fn add(&mut self, line: &[u8]) -> Result<(), Fault>
        ensures answer { result ≡ verdict (add_refusal (over (S.LineStore.store self.old.below)).draft (over (S.LineStore.store self.old.below)).limits line.now) tt }
        ensures store { over (S.LineStore.store self.new.below) ≡ added line.now (over (S.LineStore.store self.old.below)) }
        ensures below { S.LineStore.store self.new.below ≡ added_below line.now (S.LineStore.store self.old.below) }
    {
        need_draft(&self.below)?;
        self.below.add(line)
    }

    // Inlined for the same reason as that of the stores below: a layer above asks it how long the first line is.
    #[inline]
    fn look(&self, n: usize, buf: &mut [u8]) -> Result<usize, Fault> {
        need_draft(&self.below)?;
        self.below.look(number_below(n)?, buf)
    }

    fn patch(&mut self, n: usize, line: &[u8]) -> Result<(), Fault>
        ensures answer { result ≡ verdict (patch_refusal (over (S.LineStore.store self.old.below)).draft n line.now) tt }
        ensures store { over (S.LineStore.store self.new.below) ≡ patched n line.now (over (S.LineStore.store self.old.below)) }
        ensures below { S.LineStore.store self.new.below ≡ patched_below n line.now (S.LineStore.store self.old.below) }
    {
        need_draft(&self.below)?;
        if !is_line(line) {
            return Err(Fault::plain(Cause::NotALine));
        }
        self.below.patch(number_below(n)?, line)
    }

    fn keep(&mut self) -> Result<(), Fault>
        ensures answer { result ≡ verdict (keep_refusal (over (S.LineStore.store self.old.below)).draft) tt }
        ensures store { over (S.LineStore.store self.new.below) ≡ kept (over (S.LineStore.store self.old.below)) }
        ensures below { S.LineStore.store self.new.below ≡ kept_below (S.LineStore.store self.old.below) }
    {
        keep_below(&mut self.below)
    }
}
