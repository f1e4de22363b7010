// How many words hold a set. The facts about sets are proved over the number of words.
pub(crate) const WORDS: usize = 1;

// A set holds serials below this.
pub const SERIALS: u64 = 64;

// A set of serials: serial n is bit n % 64 of word n / 64.
#[derive(Clone, Copy)]
pub struct SerialSet {
    words: [u64; WORDS],
}

mod methods;
