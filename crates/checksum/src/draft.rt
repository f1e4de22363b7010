ghost use Rattle.std.specs.Prelude.{◌≡◌, ◌≤◌, length, nat_le};
ghost use Rattle.lines.specs.Faults.{verdict};
ghost use Rattle.lines.specs.Lines.{draft_lines, begin_refusal, keep_refusal};
ghost use Rattle.checksum.specs.Layer.{above, draft_lawful, limits_above, begun_below, kept_below};

use crate::sum::{SUM_LENGTH, ZERO_LINE, sum_after, sum_line};
use lines::fault::{Cause, Fault};
use lines::line::LONGEST;
use lines::source::{LineSource, MOST_LINES};
use lines::store::LineStore;

// Has the draft a line n, counted from 1?
fn has_line<S: LineStore>(store: &S, n: usize) -> bool
    requires { 1 ≤ n }
    ensures { result ≡ nat_le n (length (draft_lines (S.LineStore.store store.now).draft)) }
{
    store.look(n, &mut [0; LONGEST]).is_ok()
}

// The draft of a store, seen as a source: no lines where it is absent.
#[derive(Drop)]
struct Draft<'a, S> {
    of: &'a S,
}

impl<'a, S: LineStore> LineSource for Draft<'a, S> {
    ghost lines = { λ d. draft_lines (S.LineStore.store d.of.now).draft };

    ghost health = { λ _. 0 };

    ghost lawful = { λ d. draft_lawful (S.LineStore.store d.of.now).draft (S.LineStore.lawful_draft d.of.now) };

    fn count(&self) -> usize {
        (1..=MOST_LINES)
            .take_while(|n| has_line(self.of, *n))
            .count()
    }

    fn health(&self) -> u8 {
        0
    }

    fn read(&self, n: usize, buf: &mut [u8]) -> Result<usize, Fault> {
        match self.of.look(n, buf) {
            Err(fault) if fault.cause == Cause::NoDraft => Err(Fault::plain(Cause::NoSuchLine)),
            answer => answer,
        }
    }
}

// Refuses where the draft below has no first line of the length of one that holds a sum.
pub(crate) fn need_draft<S: LineStore>(below: &S) -> Result<(), Fault>
    ensures { result ≡ verdict (keep_refusal (above (S.LineStore.store below.now).draft)) tt }
{
    // with room for that length, so that a longer line is refused
    match below.look(1, &mut [0; SUM_LENGTH]) {
        Ok(SUM_LENGTH) => Ok(()),
        _ => Err(Fault::plain(Cause::NoDraft)),
    }
}

// Begins a draft below, and puts a first line into it that keeps the place of the sum.
pub(crate) fn begin_below<S: LineStore>(below: &mut S) -> Result<(), Fault>
    ensures answer { result ≡ verdict (begin_refusal (limits_above (S.LineStore.store below.old).limits)) tt }
    ensures store { S.LineStore.store below.new ≡ begun_below (S.LineStore.store below.old) }
{
    let (lines, bytes) = below.limits();
    if lines < 2 || bytes < SUM_LENGTH {
        return Err(Fault::plain(Cause::NoRoom));
    }
    below.begin()?;
    below.add(&ZERO_LINE)
}

// Writes the sum of the draft's other lines into its first line, and keeps the draft.
pub(crate) fn keep_below<S: LineStore>(below: &mut S) -> Result<(), Fault>
    ensures answer { result ≡ verdict (keep_refusal (above (S.LineStore.store below.old).draft)) tt }
    ensures store { S.LineStore.store below.new ≡ kept_below (S.LineStore.store below.old) }
{
    need_draft(below)?;
    let line = sum_line(sum_after(&Draft { of: below }, 1));
    below.patch(1, &line)?;
    below.keep()
}
