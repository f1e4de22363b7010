// An ordered queue over lent slots.
ghost use Rattle.std.specs.Prelude.{◌≤◌, length, take};
ghost use Rattle.queue.specs.Slots.{keys, Rising};

use crate::slots::Slot;

mod made;
mod methods;

// The first `len` slots hold elements by rising key; the others are free. (A number beside the slots, since they are lent
// and no heap is used: a `Vec` would own them.)
#[derive(Drop)]
pub struct Queue<'a, E> {
    slots: &'a mut [Slot<E>],
    len: usize,
    ghost fits: { len ≤ length slots.now },
    ghost rising: { Rising (keys (take len slots.now)) },
}

// Why an element was not stored.
#[derive(Clone, Copy, Debug, PartialEq, Eq)]
pub enum Unstored {
    Duplicate,
    Full,
}
