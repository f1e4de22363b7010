ghost use Rattle.std.specs.Prelude.{◌≡◌, ℕ, ◌+◌, ◌≤◌, [], ◌∷◌, List, length, drop};
ghost use Rattle.std.specs.Fn.{FnOnceReturnsAt};
ghost use Rattle.std.specs.Str.{bytes_eq};
ghost use Rattle.lines.specs.Faults.{placed};
ghost use Rattle.records.specs.HeadRecords.{counts_record, comment_record};
ghost use Rattle.records.specs.DeltaRecords.{delta_record};
ghost use Rattle.head.specs.Reading.{here, taken, take_as, demand, list_at, Takes};

use lines::each::Lines;
use lines::fault::{Cause, Fault};
use lines::line::Fetched;
use lines::source::LineSource;
use records::delta_record::{DeltaRecord, read_delta};
use records::head_record::{is_comment_record, is_counts, is_mark, list_after};
use records::serial_list::read_serials;
use sets::SerialSet;
use std::marker::Model;

// The records of a source that are still to come. A clause sees the place of the next one, and the lines from it on.
#[derive(Drop)]
pub(crate) struct Records<'a, S: LineSource> {
    source: &'a S,
    passed: usize,
}

impl<'a, S: LineSource> Model for Records<'a, S> {
    ghost Value = { ℕ × List (List ℕ) };

    ghost view = { λ r. (r.passed + 1, drop r.passed (S.LineSource.lines r.source.now)) };

    ghost invariant = { λ r. r.passed ≤ 4000 };
}

impl<'a, S: LineSource> Records<'a, S> {
    // All records of a source.
    pub(crate) fn of(source: &'a S) -> Records<'a, S>
        ensures { result ≡ (1, S.LineSource.lines source.now) }
    {
        Records { source, passed: 0 }
    }

    // How many records were passed.
    pub(crate) fn passed(&self) -> usize
        ensures { result + 1 ≡ self.now.0 }
    {
        self.passed
    }

    // A refusal that names the place of the next record.
    pub(crate) fn refuse(&self, cause: Cause) -> Fault
        ensures { result ≡ placed cause self.now.0 }
    {
        // `as` is proved to lose nothing; `try_from` would add a failure that cannot happen.
        Fault::at(cause, self.passed as u16 + 1)
    }

    // The next record; a fault of form where there is none.
    fn peek(&self) -> Result<Fetched, Fault>
        ensures { result ≡ here self.now }
    {
        Lines::after(self.source, self.passed)
            .next()
            .ok_or(self.refuse(Cause::HeadForm))
    }

    // Passes the next record, as what is read in it; a fault of form where nothing can be.
    fn take<T, F: FnOnce(&[u8]) -> Option<T>>(&mut self, read: F) -> Result<T, Fault>
        requires { F.IsAlwaysCallable read }
        ensures { Takes (FnOnceReturnsAt F.FnOnce read) self.old result self.new }
    {
        let record = self.peek()?;
        let value = read(record.as_slice()).ok_or(self.refuse(Cause::HeadForm))?;
        self.passed += 1;
        Ok(value)
    }

    // A record with counts.
    pub(crate) fn take_counts(&mut self) -> Result<(), Fault>
        ensures { taken result self.new ≡ demand counts_record self.old }
    {
        self.take(|line| is_counts(line).then_some(()))
    }

    // A record with a comment.
    pub(crate) fn take_comment(&mut self) -> Result<(), Fault>
        ensures { taken result self.new ≡ demand comment_record self.old }
    {
        self.take(|line| is_comment_record(line).then_some(()))
    }

    // A record that is just a mark.
    pub(crate) fn take_mark(&mut self, mark: &[u8]) -> Result<(), Fault>
        ensures { taken result self.new ≡ demand (λ l. bytes_eq l mark.now) self.old }
    {
        self.take(|line| is_mark(line, mark).then_some(()))
    }

    // A delta record.
    pub(crate) fn take_delta(&mut self) -> Result<DeltaRecord, Fault>
        ensures { taken result self.new ≡ take_as delta_record self.old }
    {
        self.take(read_delta)
    }

    // The set that a list record names; the empty set where another record stands, which is not passed.
    pub(crate) fn take_list(
        &mut self,
        letter: u8,
        own: u8,
        other: SerialSet,
    ) -> Result<SerialSet, Fault>
        ensures { taken result self.new ≡ list_at (1 ∷ letter ∷ 32 ∷ []) own other self.old }
    {
        let record = self.peek()?;
        let Some(serials) = list_after(record.as_slice(), letter) else {
            return Ok(SerialSet::empty());
        };
        // a match: with `map_err` and `?` the goals of both exits stayed open
        match read_serials(serials, own, other) {
            Ok(set) => {
                self.passed += 1;
                Ok(set)
            }
            Err(cause) => Err(self.refuse(cause)),
        }
    }
}
