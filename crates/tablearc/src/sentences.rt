use lines::fault::Cause;

// How the program is called.
pub(crate) const USAGE: &str = "usage: tablearc < TABLE
Stores the table on standard input, one line for each motor or valve, in two stores,
reads it back, compares it line for line, and shows that a damaged copy is found out.";

// What a refusal means, in a plain sentence. The sentences are this program's own, and a type with `Display` would
// only wrap this match.
pub(crate) fn sentence(cause: Cause) -> &'static str {
    match cause {
        Cause::NotWhole => "The archive is damaged: the layer named is not whole.",
        Cause::HeadForm =>
            "The head's record at this place has the wrong form, or the head ends early.",
        Cause::HeadContent =>
            "The head's record at this place has a wrong date, time, serial, predecessor, list or version.",
        Cause::BodyRule => "The record at this place breaks a rule of the body.",
        Cause::NoSuchVersion => "There is no such version.",
        Cause::ListedSerial =>
            "This serial is 0, is above the number of deltas, or stands in both lists.",
        Cause::UserName => "A user name has 1 to 8 letters from a to z or digits.",
        Cause::SidTooHigh => "The new version's number would have a part above 9999.",
        Cause::GrantsFull => "Eight grants are out already.",
        Cause::GrantMismatch => "The grant does not belong to this archive.",
        Cause::BufferTooSmall => "The buffer is too small.",
        Cause::TooManyDeltas => "The archive has its 63 deltas.",
        Cause::NotEmpty => "The store has lines already, or grants are out.",
        Cause::NotGranted => "This version is not granted.",
        Cause::OtherUser => "The grant is another user's.",
        Cause::InHand => "The grant is in hand.",
        Cause::DateOrTime => "There is no such date or time.",
        Cause::Comment => "A comment has at most 100 printable characters.",
        Cause::Script => "The script is wrong at this line.",
        Cause::FirstText => "A line of the text must not begin with the byte 1.",
        Cause::NoSuchLine => "There is no such line.",
        Cause::ReadBufferShort => "The buffer is shorter than the line.",
        Cause::NotALine => "A line has at most 240 bytes and no line end in it.",
        Cause::NoRoom => "The store has no room for this.",
        Cause::OtherLength => "The new line has another length.",
        Cause::NoDraft => "No draft was begun.",
        Cause::TextForm =>
            "The line at this place has more than 240 bytes, is line 4001, or lacks its line end.",
        Cause::BlockForm =>
            "The block is too short for its limits, or a limit is above 4000 lines or 24000 bytes.",
    }
}
