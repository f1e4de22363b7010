ghost use Rattle.std.specs.Prelude.{◌≡◌, ℕ, ◌≤◌, List, [], ◌∷◌, length, drop, MatchOption};
ghost use Rattle.std.specs.Iterator.{at_most};
ghost use Rattle.std.specs.Map.Iter.{TakesFirst};

use crate::line::{Fetched, LONGEST, fetch, fetch_in};
use crate::source::{LineSource, MOST_LINES};
use std::marker::Model;

// The lines of a source that are still to come, one after another.
#[derive(Drop)]
pub struct Lines<'a, S: LineSource> {
    source: &'a S,
    passed: usize,
}

impl<'a, S: LineSource> Model for Lines<'a, S> {
    ghost Value = { List (List ℕ) };

    ghost view = { λ r. drop r.passed (S.LineSource.lines r.source.now) };

    ghost invariant = { λ r. r.passed ≤ 4000 };
}

impl<'a, S: LineSource> Lines<'a, S> {
    // All lines of a source.
    pub fn of(source: &'a S) -> Lines<'a, S>
        ensures { result ≡ S.LineSource.lines source.now }
    {
        Lines { source, passed: 0 }
    }

    // The lines of a source without the first ones.
    pub fn after(source: &'a S, passed: usize) -> Lines<'a, S>
        ensures { result ≡ drop passed (S.LineSource.lines source.now) }
    {
        Lines {
            source,
            passed: passed.min(MOST_LINES),
        }
    }

    // The next line, in room that is lent for it: a pass over many lines needs room once.
    pub fn next_in<'r>(&mut self, room: &'r mut [u8; LONGEST]) -> Option<&'r [u8]>
        ensures { MatchOption result ((self.old ≡ []) × (self.new ≡ [])) (λ line. self.old ≡ line.now ∷ self.new) }
    {
        let line = fetch_in(self.source, self.passed + 1, room)?;
        self.passed += 1;
        Some(line)
    }
}

impl<'a, S: LineSource> Iterator for Lines<'a, S> {
    type Item = Fetched;

    ghost next_gives = { TakesFirst (λ l. l) };

    ghost remaining = { λ ls. at_most (length ls) };

    fn next(&mut self) -> Option<Fetched> {
        let line = fetch(self.source, self.passed + 1)?;
        self.passed += 1;
        Some(line)
    }
}
