// What a queue answers, and what is put in and taken out.
ghost use Rattle.std.specs.Prelude.{◌≡◌, ◌<◌, ◌≤◌, [], length, MatchOption, MatchResult, slice_index_or};
ghost use Rattle.std.specs.List.{slice_get};
ghost use Rattle.queue.specs.Slots.{StandsAt, FitsAt, holds, under, without};
ghost use Rattle.queue.specs.Items.{items, room, answer, after};

use super::{Queue, Unstored};
use crate::slots::{Keyed, Slot};

impl<'a, E> Queue<'a, E> {
    // The slots in use, by rising key.
    pub fn items(&self) -> &[Slot<E>]
        ensures { result.now ≡ items self.now }
    {
        &self.slots[..self.len]
    }

    // The place of the slot with this key, or the place where one would go.
    fn search(&self, key: u64) -> Result<usize, usize>
        ensures { MatchResult result
            (StandsAt key (items self.now))
            (FitsAt key (items self.now)) }
    {
        self.items().binary_search_by_key(&key, |slot| slot.key)
    }

    // Whether a slot has this key.
    #[tactic(auto, using(crate::proofs::Placed::told))]
    pub fn holds(&self, key: u64) -> bool
        ensures { result ≡ holds key (items self.now) }
    {
        self.search(key).is_ok()
    }

    // Takes every element out. (That the room stays is said by each call that changes a queue, since a contract here says
    // all that stays.)
    pub fn clear(&mut self)
        ensures after { items self.new ≡ [] }
        ensures room { room self.new ≡ room self.old }
    {
        self.len = 0;
    }
}

impl<'a, E: Copy> Queue<'a, E> {
    // The slot at a place, counted from 0.
    pub fn slot(&self, at: usize) -> Option<Slot<E>>
        ensures answer { result ≡ slice_get (items self.now) at }
        ensures stands { MatchOption result (length (items self.now) ≤ at) (λ s. (at < length (items self.now)) × ((d : Slot E) → s ≡ slice_index_or (items self.now) at d)) }
    {
        self.items().get(at).copied()
    }

    // The element under this key.
    pub fn get(&self, key: u64) -> Option<E>
        ensures { result ≡ under key (items self.now) }
    {
        let at = self.search(key).ok()?;
        Some(self.items()[at].element)
    }

    // Takes the element under this key out.
    pub fn remove(&mut self, key: u64) -> Option<E>
        ensures answer { result ≡ under key (items self.old) }
        ensures after { items self.new ≡ without key (items self.old) }
        ensures room { room self.new ≡ room self.old }
    {
        let at = self.search(key).ok()?;
        let element = self.slots[at].element;
        self.len -= 1;
        self.slots[at..=self.len].rotate_left(1);
        Some(element)
    }
}

impl<'a, E: Keyed + Copy> Queue<'a, E> {
    // Puts the element in at its place, unless its key is held or no slot is free.
    #[tactic(auto, using(crate::proofs::Placed::told))]
    pub fn insert(&mut self, element: E) -> Result<(), Unstored>
        ensures answer { result ≡ answer (room self.old) (E.Keyed.number element) (items self.old) }
        ensures after { items self.new ≡ after (room self.old) (record { key = E.Keyed.number element; element = element }) (items self.old) }
        ensures room { room self.new ≡ room self.old }
    {
        let key = element.key();
        let Err(at) = self.search(key) else {
            return Err(Unstored::Duplicate);
        };
        if self.len == self.slots.len() {
            return Err(Unstored::Full);
        }
        self.slots[self.len] = Slot { key, element };
        self.slots[at..=self.len].rotate_right(1);
        self.len += 1;
        Ok(())
    }
}
