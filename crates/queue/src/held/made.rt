// A new queue, and how much it holds.
ghost use Rattle.std.specs.Prelude.{◌≡◌, [], length};
ghost use Rattle.queue.specs.Items.{items, room};

use super::Queue;
use crate::slots::Slot;

impl<'a, E> Queue<'a, E> {
    // A queue over these slots that holds nothing, whatever they hold.
    pub fn new(slots: &'a mut [Slot<E>]) -> Self
        ensures empty { items result ≡ [] }
        ensures room { room result ≡ length slots.old }
    {
        Queue { slots, len: 0 }
    }

    // How many elements are held.
    pub fn len(&self) -> usize
        ensures { result ≡ length (items self.now) }
    {
        self.len
    }
}
