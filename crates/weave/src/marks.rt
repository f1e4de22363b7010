// The marks that are open at a place of a body.
ghost use Rattle.std.specs.Prelude.{◌<◌};
ghost use Rattle.queue.specs.Items.{room};
ghost use Rattle.weave.specs.Open.{open_marks, Bounded};

use crate::mark::Mark;
use queue::{Queue, Slot};

mod rules;

// So many slots have room for the marks of all serials that a byte can hold.
pub(crate) const SLOTS: usize = 256;

pub(crate) const FREE: Slot<Mark> = Slot {
    key: 0,
    element: Mark::Insert(0),
};

// The open marks of a body whose greatest serial is `top`, by rising serial. (No Model: its value would be a pair, and each
// clause names one half of it.)
#[derive(Drop)]
pub(crate) struct OpenMarks<'a> {
    queue: Queue<'a, Mark>,
    pub(crate) top: u8,
    ghost bounded: { Bounded top (open_marks queue) },
    ghost fits: { top < room queue },
}
