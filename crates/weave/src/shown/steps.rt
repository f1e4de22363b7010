// How the lines that are shown follow one another.
ghost use Rattle.std.specs.Prelude.{◌≡◌, ◌+◌, ◌≤◌, [], ◌∷◌, take, drop, Some, Err, MatchOption, IfSome, IfOk};
ghost use Rattle.std.specs.Option.{option_map};
ghost use Rattle.lines.specs.Lines.{fetched};
ghost use Rattle.lines.specs.Faults.{placed};
ghost use Rattle.records.specs.BodyRecords.{body};
ghost use Rattle.sets.specs.Serials.{serials};
ghost use Rattle.weave.specs.Coming.{breach_at, lent, in_room, coming, to_come};
ghost use Rattle.weave.specs.Open.{open_marks};

use super::Shown;
use crate::marks::OpenMarks;
use lines::fault::{Cause, Fault};
use lines::line::LONGEST;
use lines::source::{LineSource, MOST_LINES};
use records::body_record::read_record;
use sets::SerialSet;

impl<'a, S: LineSource> Shown<'a, S> {
    // What a set shows of the body that stands after `head` lines, where no mark is open.
    pub(crate) fn of(
        source: &'a S,
        head: usize,
        set: SerialSet,
        marks: OpenMarks<'a>,
    ) -> Shown<'a, S>
        requires { open_marks marks.queue ≡ [] }
        ensures { to_come (S.LineSource.lines result.source.now) result.set result.marks result.place ≡ coming (serials set) marks.entry.top [] (head + 1) (body marks.entry.top (drop head (S.LineSource.lines source.now))) }
    {
        let place = head.min(source.count()) + 1;
        Shown {
            source,
            place,
            set,
            marks,
        }
    }

    // The breach at this place. Nothing comes after it: no source has the line at the place that is set (an Option of a
    // place would have to be asked at each step).
    fn stop(&mut self) -> Fault
        ensures breach { Err result ≡ breach_at self.old.place }
        ensures over { to_come (S.LineSource.lines self.new.source.now) self.new.set self.new.marks self.new.place ≡ [] }
    {
        // `as` is proved to lose nothing
        let fault = Fault::at(Cause::BodyRule, self.place as u16);
        self.place = MOST_LINES + 1;
        self.marks.clear();
        fault
    }

    // Goes on to what comes next. A line is left at the front of the room, and its length is answered: a part of the room that
    // is lent in a loop can't be handed out of it.
    fn seek(&mut self, room: &mut [u8; LONGEST]) -> Option<Result<usize, Fault>>
        ensures steps { MatchOption result
            ((to_come (S.LineSource.lines self.old.source.now) self.old.set self.old.marks self.old.place ≡ []) × (to_come (S.LineSource.lines self.new.source.now) self.new.set self.new.marks self.new.place ≡ []))
            (λ next. to_come (S.LineSource.lines self.old.source.now) self.old.set self.old.marks self.old.place ≡ in_room room.new next ∷ to_come (S.LineSource.lines self.new.source.now) self.new.set self.new.marks self.new.place) }
        ensures short { IfSome result (λ next. IfOk next (λ len. len ≤ 240)) }
    {
        'records: while let Some(len) = read_into(self.source, self.place, room) {
            let record = read_record(&room[..len], self.marks.top);
            if !self.marks.allows(record) {
                return Some(Err(self.stop()));
            }
            let is_seen = self.marks.is_seen(self.set, record);
            self.marks.follow(record);
            self.place += 1;
            if is_seen {
                return Some(Ok(len));
            }
        }
        if self.marks.is_empty() {
            return None;
        }
        Some(Err(self.stop()))
    }

    // What comes next, a line in room that is lent for it: with room of its own each line would be moved, which costs more
    // than many a read.
    pub(crate) fn next_in<'r>(
        &mut self,
        room: &'r mut [u8; LONGEST],
    ) -> Option<Result<&'r [u8], Fault>>
        ensures { MatchOption result
            ((to_come (S.LineSource.lines self.old.source.now) self.old.set self.old.marks self.old.place ≡ []) × (to_come (S.LineSource.lines self.new.source.now) self.new.set self.new.marks self.new.place ≡ []))
            (λ next. to_come (S.LineSource.lines self.old.source.now) self.old.set self.old.marks self.old.place ≡ lent next ∷ to_come (S.LineSource.lines self.new.source.now) self.new.set self.new.marks self.new.place) }
    {
        match self.seek(room)? {
            Ok(len) => Some(Ok(&room[..len])),
            Err(breach) => Some(Err(breach)),
        }
    }
}

// Puts line n of a source at the front of the room, and answers its length, if the source has that line.
fn read_into<S: LineSource>(source: &S, n: usize, room: &mut [u8; LONGEST]) -> Option<usize>
    ensures line { option_map (λ len. take len room.new) result ≡ fetched (S.LineSource.lines source.now) n }
    ensures short { IfSome result (λ len. len ≤ 240) }
{
    let Ok(len) = source.read(n, room) else {
        return None;
    };
    Some(len)
}
