ghost use Rattle.std.specs.Prelude.{◌≡◌, ◌≤◌, length, IfOk};
ghost use Rattle.lines.specs.Faults.{verdict, left};
ghost use Rattle.lines.specs.Lines.{fronted};
ghost use Rattle.whole.specs.Whole.{text_of};
ghost use Rattle.head.specs.Tables.{entries, loaded};
ghost use Rattle.weave.specs.Handing.{measure_of};
ghost use Rattle.archive.specs.Reading.{head_of, val_answer, get_refusal, get_lines};

use crate::choice::choose;
use crate::request::Request;
use head::reading::{Head, read_head};
use lines::fault::{Cause, Fault};
use lines::source::LineSource;
use weave::hand::{check_body, hand_out};
use weave::measure::Measure;

// The head of an archive that is whole.
fn open_head<S: LineSource>(source: &S) -> Result<Head, Fault>
    ensures value { loaded result ≡ head_of (S.LineSource.health source.now) (S.LineSource.lines source.now) }
    ensures few { IfOk result (λ h. length (entries h.table) ≤ 63) }
{
    // The health stays a number: so it stands in the trait of sources, by the project's rule, 0 where all is whole.
    let health = source.health();
    if health != 0 {
        return Err(Fault::in_layer(Cause::NotWhole, health));
    }
    read_head(source)
}

// Checks an archive, head and body, and answers the number of its deltas.
pub fn val<S: LineSource>(source: &S) -> Result<u8, Fault>
    ensures { result ≡ val_answer (head_of (S.LineSource.health source.now) (S.LineSource.lines source.now)) (S.LineSource.lines source.now) }
{
    let head = open_head(source)?;
    // `as` is proved to lose nothing, here and below: a head has at most 63 deltas
    let count = head.table.len() as u8;
    check_body(source, head.records, count)?;
    Ok(count)
}

// Puts the table of a version at the front of the buffer, each line with its LF, keeps the rest, and answers how many
// lines and bytes it has.
pub fn get<S: LineSource>(source: &S, request: Request, out: &mut [u8]) -> Result<Measure, Fault>
    ensures answer { result ≡ verdict (get_refusal (head_of (S.LineSource.health source.now) (S.LineSource.lines source.now)) (S.LineSource.lines source.now) request (length out.old)) (measure_of (get_lines (head_of (S.LineSource.health source.now) (S.LineSource.lines source.now)) (S.LineSource.lines source.now) request)) }
    ensures bytes { out.new ≡ left (get_refusal (head_of (S.LineSource.health source.now) (S.LineSource.lines source.now)) (S.LineSource.lines source.now) request (length out.old)) (fronted (text_of (get_lines (head_of (S.LineSource.health source.now) (S.LineSource.lines source.now)) (S.LineSource.lines source.now) request)) out.old) out.old }
{
    let head = open_head(source)?;
    let chosen = choose(&head.table, request);
    hand_out(source, head.records, head.table.len() as u8, chosen, out)
}
