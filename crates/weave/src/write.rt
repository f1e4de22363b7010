ghost use Rattle.std.specs.Prelude.{◌≡◌, ◌≤◌, length, None, Ok};
ghost use Rattle.lines.specs.Lines.{fronted};
ghost use Rattle.whole.specs.Whole.{text_of};
ghost use Rattle.sets.specs.Serials.{serials};
ghost use Rattle.weave.specs.Handing.{body_refusal, shown_of};

use crate::marks::{FREE, OpenMarks, SLOTS};
use crate::shown::Shown;
use lines::fault::Fault;
use lines::line::LONGEST;
use lines::source::LineSource;
use sets::SerialSet;
use whole::written::append_row;

// Puts the lines that the set shows of a body without breach, each with its LF, at the front of a buffer that has room.
pub(crate) fn write<S: LineSource>(
    source: &S,
    head: usize,
    set: SerialSet,
    top: u8,
    out: &mut [u8],
) -> Result<(), Fault>
    requires valid { body_refusal top head (S.LineSource.lines source.now) ≡ None }
    requires fits { length (text_of (shown_of top (serials set) head (S.LineSource.lines source.now))) ≤ length out.old }
    ensures answer { result ≡ Ok tt }
    ensures bytes { out.new ≡ fronted (text_of (shown_of top (serials set) head (S.LineSource.lines source.now))) out.old }
{
    let mut slots = [FREE; SLOTS];
    let marks = OpenMarks::none(&mut slots, top);
    let mut at = 0;
    let mut shown = Shown::of(source, head, set, marks);
    let mut room = [0; LONGEST];
    while let Some(line) = shown.next_in(&mut room) {
        let line = line?;
        at = append_row(line, out, at)?;
    }
    Ok(())
}
