ghost use Rattle.std.specs.Prelude.{◌≡◌, length};
ghost use Rattle.lines.specs.Faults.{verdict, left};
ghost use Rattle.lines.specs.Lines.{fronted};
ghost use Rattle.whole.specs.Whole.{text_of};
ghost use Rattle.weave.specs.Handing.{body_refusal, shown_of, measure_of, chosen_set, hand_refusal};

use crate::measure::Measure;
use crate::walk::walk;
use crate::write::write;
use lines::fault::{Cause, Fault};
use lines::source::LineSource;
use sets::SerialSet;

// Checks the rules of the body that stands after `head` lines; `top` is the greatest serial. (No struct of the three: a
// caller has the source and a head, and would build it for one call, to be taken apart in the next.)
pub fn check_body<S: LineSource>(source: &S, head: usize, top: u8) -> Result<(), Fault>
    ensures { result ≡ verdict (body_refusal top head (S.LineSource.lines source.now)) tt }
{
    walk(source, head, SerialSet::empty(), top)?;
    Ok(())
}

// Checks the body, and puts what the set that was chosen shows of it at the front of the buffer. Where no set could be
// chosen, the body is checked all the same, since a breach of it is answered first.
pub fn hand_out<S: LineSource>(
    source: &S,
    head: usize,
    top: u8,
    chosen: Result<SerialSet, Fault>,
    out: &mut [u8],
) -> Result<Measure, Fault>
    ensures answer { result ≡ verdict (hand_refusal top head (S.LineSource.lines source.now) chosen (length out.old)) (measure_of (shown_of top (chosen_set chosen) head (S.LineSource.lines source.now))) }
    ensures bytes { out.new ≡ left (hand_refusal top head (S.LineSource.lines source.now) chosen (length out.old)) (fronted (text_of (shown_of top (chosen_set chosen) head (S.LineSource.lines source.now))) out.old) out.old }
{
    let set = chosen.unwrap_or(SerialSet::empty());
    let measure = walk(source, head, set, top)?;
    chosen?;
    if measure.bytes > out.len() {
        return Err(Fault::plain(Cause::BufferTooSmall));
    }
    write(source, head, set, top, out)?;
    Ok(measure)
}
