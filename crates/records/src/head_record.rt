ghost use Rattle.std.specs.Prelude.{◌≡◌, [], ◌∷◌};
ghost use Rattle.std.specs.List.{list_all};
ghost use Rattle.std.specs.Option.{option_map};
ghost use Rattle.std.specs.Str.{bytes_eq};
ghost use Rattle.records.specs.Numerals.{digit};
ghost use Rattle.records.specs.HeadRecords.{after, counts_record, comment_record};

use crate::name::is_comment;

// Is a record just this mark?
pub fn is_mark(line: &[u8], mark: &[u8]) -> bool
    ensures { result ≡ bytes_eq line.now mark.now }
{
    line == mark
}

// Are all the bytes digits?
fn are_digits(word: &[u8]) -> bool
    ensures { result ≡ list_all digit word.now }
{
    word.iter().all(|b| b.is_ascii_digit())
}

// The counts: three numbers of five digits, joined by "/".
pub fn is_counts(line: &[u8]) -> bool
    ensures { result ≡ counts_record line.now }
{
    match line {
        [1, b's', b' ', rest @ ..] => {
            rest.len() == 17
                && rest[5] == b'/'
                && rest[11] == b'/'
                && are_digits(&rest[..5])
                && are_digits(&rest[6..11])
                && are_digits(&rest[12..])
        }
        _ => false,
    }
}

// A comment after its mark and a blank.
pub fn is_comment_record(line: &[u8]) -> bool
    ensures { result ≡ comment_record line.now }
{
    match line {
        [1, b'c', b' ', rest @ ..] => is_comment(rest),
        _ => false,
    }
}

// What follows the mark of a list record: the byte 1, a letter and a blank.
pub fn list_after(line: &[u8], letter: u8) -> Option<&[u8]>
    ensures { option_map (λ x. x.now) result ≡ after (1 ∷ letter ∷ 32 ∷ []) line.now }
{
    match line {
        [1, kind, b' ', rest @ ..] if *kind == letter => Some(rest),
        _ => None,
    }
}
