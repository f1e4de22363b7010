ghost use Rattle.std.specs.Prelude.{◌≡◌, ℕ, ◌<◌, Bool, false, not, ◌&&◌, ◌||◌, ◌==◌};
ghost use Rattle.sets.specs.Bits.{bit};
ghost use Rattle.sets.specs.Serials.{serials, unlisted, with_serial};

use super::{SerialSet, WORDS};
use std::array::from_fn;

impl SerialSet {
    // The set without serials.
    #[tactic(auto, using(crate::proofs::Words::bits_none))]
    pub fn empty() -> SerialSet
        ensures value { result ≡ unlisted }
        ensures serials { (k : ℕ) → serials result k ≡ false }
    {
        SerialSet { words: [0; WORDS] }
    }

    // Bit n of the mask for serial n. (Not `From<u64>`: `SerialSet::from(n)` would read as the set of one serial.)
    #[tactic(auto, using(crate::proofs::Words::bits_mask))]
    pub fn from_mask(mask: u64) -> SerialSet
        ensures { (k : ℕ) → serials result k ≡ bit mask k }
    {
        let mut words = [0; WORDS];
        words[0] = mask;
        SerialSet { words }
    }

    // Does the set have the serial?
    pub fn contains(self, n: u64) -> bool
        ensures { result ≡ serials self n }
    {
        // `as` is proved to lose nothing
        let word = self.words.get((n / 64) as usize);
        word.is_some_and(|w| w >> (n % 64) & 1 == 1)
    }

    // The set with one serial more; as it is where the serial is past those that a set holds.
    pub fn with(self, n: u8) -> SerialSet
        ensures value { result ≡ with_serial self n }
        ensures serials { n < 64 → (k : ℕ) → serials result k ≡ (serials self k || n == k) }
    {
        let mut words = self.words;
        // `as` only widens; with `From` the proof had two names for one number, and the goal of this arm stayed open
        let at = n as usize / 64;
        // no `get_mut`, which of an array tells a proof nothing of the elements
        if at < WORDS {
            words[at] |= 1 << (n % 64);
        }
        SerialSet { words }
    }

    // The serials of both sets.
    pub fn union(self, other: SerialSet) -> SerialSet
        ensures { (k : ℕ) → serials result k ≡ (serials self k || serials other k) }
    {
        SerialSet {
            words: from_fn(|i| self.words[i] | other.words[i]),
        }
    }

    // The serials of this set that the other does not have.
    pub fn without(self, other: SerialSet) -> SerialSet
        ensures { (k : ℕ) → serials result k ≡ (serials self k && not (serials other k)) }
    {
        SerialSet {
            words: from_fn(|i| self.words[i] & !other.words[i]),
        }
    }
}
