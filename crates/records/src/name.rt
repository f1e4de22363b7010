ghost use Rattle.std.specs.Prelude.{◌≡◌};
ghost use Rattle.records.specs.Names.{user, comment};

// The most bytes of a user's name, and of a comment.
const LONGEST_USER: usize = 8;

const LONGEST_COMMENT: usize = 100;

// A user's name: 1 to 8 bytes from a to z and 0 to 9.
pub(crate) fn is_user(word: &[u8]) -> bool
    ensures { result ≡ user word.now }
{
    (1..=LONGEST_USER).contains(&word.len())
        && word
            .iter()
            .all(|b| b.is_ascii_lowercase() || b.is_ascii_digit())
}

// A comment: at most 100 bytes from 32 to 126.
pub(crate) fn is_comment(word: &[u8]) -> bool
    ensures { result ≡ comment word.now }
{
    word.len() <= LONGEST_COMMENT && word.iter().all(|b| matches!(b, b' '..=b'~'))
}
