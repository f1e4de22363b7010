ghost use Rattle.std.specs.Prelude.{◌≡◌};
ghost use Rattle.lines.specs.Faults.{verdict};
ghost use Rattle.sets.specs.Serials.{serials};
ghost use Rattle.weave.specs.Handing.{body_refusal, shown_of, measure_of};

use crate::marks::{FREE, OpenMarks, SLOTS};
use crate::measure::Measure;
use crate::shown::Shown;
use lines::fault::Fault;
use lines::line::LONGEST;
use lines::source::LineSource;
use sets::SerialSet;

// Checks the rules of the body that stands after `head` lines, and measures what the set shows of it.
pub(crate) fn walk<S: LineSource>(
    source: &S,
    head: usize,
    set: SerialSet,
    top: u8,
) -> Result<Measure, Fault>
    ensures { result ≡ verdict (body_refusal top head (S.LineSource.lines source.now)) (measure_of (shown_of top (serials set) head (S.LineSource.lines source.now))) }
{
    let mut slots = [FREE; SLOTS];
    let marks = OpenMarks::none(&mut slots, top);
    let mut measure = Measure { lines: 0, bytes: 0 };
    let mut shown = Shown::of(source, head, set, marks);
    let mut room = [0; LONGEST];
    while let Some(line) = shown.next_in(&mut room) {
        let line = line?;
        measure.lines += 1;
        measure.bytes += line.len() + 1;
    }
    Ok(measure)
}
