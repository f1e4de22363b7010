// The lines that a set shows of a body, one after another.
ghost use Rattle.std.specs.Prelude.{◌≤◌};

use crate::marks::OpenMarks;
use lines::source::LineSource;
use sets::SerialSet;

mod steps;

// What a set shows of a body from a place on, with the marks that are open there. A breach of the rules comes last. (No Model,
// and no `Lines` inside: a breach names the place, which a clause could not see then.)
#[derive(Drop)]
pub(crate) struct Shown<'a, S: LineSource> {
    source: &'a S,
    place: usize,
    set: SerialSet,
    marks: OpenMarks<'a>,
    ghost from: { 1 ≤ place },
    ghost near: { place ≤ 4001 },
}
