// What the rules say of open marks, and what a record opens and closes.
ghost use Rattle.std.specs.Prelude.{◌≡◌, true, [], is_some};
ghost use Rattle.records.specs.BodyMeaning.{meaning};
ghost use Rattle.sets.specs.Serials.{serials};
ghost use Rattle.weave.specs.Handing.{seen};
ghost use Rattle.weave.specs.Marks.{inserter, deleted_above, visible, with_mark, then_open};
ghost use Rattle.weave.specs.Open.{number, kind, open_marks};
ghost use Rattle.weave.specs.Rules.{empty, may_open, may_close, allowed};

use super::{OpenMarks, SLOTS};
use crate::mark::Mark;
use queue::{Queue, Slot};
use records::body_record::BodyRecord;
use sets::SerialSet;

impl<'a> OpenMarks<'a> {
    // No open mark.
    pub(crate) fn none(slots: &'a mut [Slot<Mark>; SLOTS], top: u8) -> OpenMarks<'a>
        ensures none { open_marks result.queue ≡ [] }
        ensures top { result.top ≡ top }
    {
        let queue = Queue::new(slots);
        OpenMarks { queue, top }
    }

    // The greatest open insertion. (No `Option`: where there is none, the rules compare with 0 and ask a set for 0.)
    fn inserter(&self) -> u64
        ensures { result ≡ inserter (open_marks self.now.queue) }
    {
        let slots = self.queue.items();
        let newest = slots.iter().rev().find(|slot| slot.element.is_insertion());
        newest.map_or(0, |slot| slot.key)
    }

    // Does the set have an open deletion above `low`?
    fn is_deleted_above(&self, set: SerialSet, low: u64) -> bool
        ensures { result ≡ deleted_above (serials set) low (open_marks self.now.queue) }
    {
        let slots = self.queue.items();
        let mut above = slots.iter().rev().take_while(|slot| slot.key > low);
        above.any(|slot| slot.element.is_deletion() && set.contains(slot.key))
    }

    // Does the set show a line that stands here?
    #[tactic(auto, unfolding(crate::specs::Marks::visible))]
    fn shows(&self, set: SerialSet) -> bool
        ensures { result ≡ visible (serials set) (open_marks self.now.queue) }
    {
        let n = self.inserter();
        set.contains(n) && !self.is_deleted_above(set, n)
    }

    // Is a record a line that the set shows here?
    pub(crate) fn is_seen(&self, set: SerialSet, next: Option<BodyRecord>) -> bool
        ensures { result ≡ is_some (seen (serials set) (open_marks self.now.queue) (meaning next.entry)) }
    {
        matches!(next, Some(BodyRecord::Text(_))) && self.shows(set)
    }

    // Is every mark closed?
    pub(crate) fn is_empty(&self) -> bool
        ensures { result ≡ empty (open_marks self.now.queue) }
    {
        self.queue.items().is_empty()
    }

    // Closes every mark.
    pub(crate) fn clear(&mut self)
        ensures none { open_marks self.new.queue ≡ [] }
        ensures top { self.new.top ≡ self.old.top }
    {
        self.queue.clear();
    }

    // May a mark of this serial open here?
    #[tactic(auto, using(crate::proofs::Held::holds_is), unfolding(crate::specs::Rules::may_open))]
    fn may_open(&self, n: u8) -> bool
        ensures { result ≡ may_open self.now.top n (open_marks self.now.queue) }
    {
        let key = u64::from(n);
        n <= self.top && !self.queue.holds(key) && self.inserter() < key
    }

    // May the mark of this serial close here?
    #[tactic(auto, using(crate::proofs::Held::is_open_under, crate::proofs::Held::is_deleting_under), unfolding(crate::specs::Rules::may_close))]
    fn may_close(&self, n: u8) -> bool
        ensures { result ≡ may_close n (open_marks self.now.queue) }
    {
        let key = u64::from(n);
        match self.queue.get(key) {
            Some(Mark::Delete(_)) => true,
            Some(Mark::Insert(_)) => self.inserter() == key,
            None => false,
        }
    }

    // Does a record keep the body's rules here?
    pub(crate) fn allows(&self, next: Option<BodyRecord>) -> bool
        ensures { result ≡ allowed self.now.top (open_marks self.now.queue) (meaning next.entry) }
    {
        match next {
            Some(BodyRecord::Insert(n) | BodyRecord::Delete(n)) => self.may_open(n),
            Some(BodyRecord::End(n)) => self.may_close(n),
            Some(BodyRecord::Text(_)) => self.inserter() > 0,
            None => false,
        }
    }

    // Opens a mark that may open. It is refused neither as held nor for want of room, since its serial is at most `top`.
    #[tactic(auto, using(crate::proofs::Held::opened, crate::proofs::Held::bounded_opened))]
    fn begin(&mut self, mark: Mark)
        requires { may_open self.old.top (number mark) (open_marks self.old.queue) ≡ true }
        ensures after { open_marks self.new.queue ≡ with_mark (kind mark (number mark)) (open_marks self.old.queue) }
        ensures top { self.new.top ≡ self.old.top }
    {
        let _ = self.queue.insert(mark);
    }

    // Opens or closes what an allowed record opens or closes.
    #[tactic(auto, using(crate::proofs::Held::without_is))]
    pub(crate) fn follow(&mut self, next: Option<BodyRecord>)
        requires { allowed self.old.top (open_marks self.old.queue) (meaning next) ≡ true }
        ensures after { open_marks self.new.queue ≡ then_open (open_marks self.old.queue) (meaning next.entry) }
        ensures top { self.new.top ≡ self.old.top }
    {
        match next {
            Some(BodyRecord::Insert(n)) => self.begin(Mark::Insert(n)),
            Some(BodyRecord::Delete(n)) => self.begin(Mark::Delete(n)),
            Some(BodyRecord::End(n)) => {
                self.queue.remove(u64::from(n));
            }
            Some(BodyRecord::Text(_)) | None => {}
        }
    }
}
