ghost use Rattle.std.specs.Prelude.{◌≡◌, ◌≤◌, length};
ghost use Rattle.std.specs.Option.{option_map};
ghost use Rattle.lines.specs.Rows.{rows, wrong_row, checked, held, lines_in, start_of, part, line_in, spot, Marked};
ghost use Rattle.lines.specs.TextLaws.{lawful};

use crate::fault::{Cause, Fault};
use crate::line::put_line;
use crate::rows::{MARKS, STEP, mark_starts, row_len, scan};
use crate::source::LineSource;

// Kind 1: bytes held for reading, each line ended by LF. The places of some lines are kept, so that a read does not
// begin at the first.
#[derive(Clone, Copy)]
pub struct Text<'a> {
    bytes: &'a [u8],
    count: usize,
    starts: [usize; MARKS],
    ghost whole: { wrong_row bytes.now ≡ 0 },
    ghost counted: { count ≡ length (rows bytes.now) },
    ghost marked: { Marked bytes.now starts },
}

impl<'a> Text<'a> {
    // Refuses bytes of which some line is over 240 bytes, is line 4,001 or lacks its LF.
    pub fn check(bytes: &[u8]) -> Result<(), Fault>
        ensures { result ≡ checked bytes.now }
    {
        scan(bytes)?;
        Ok(())
    }

    // The text source over the bytes; with no lines where `check` refuses them.
    pub fn new(bytes: &'a [u8]) -> Text<'a>
        ensures value { result.bytes.now ≡ held bytes.now }
        ensures place { result.bytes.ref_ptr ≡ bytes.entry.ref_ptr }
    {
        match scan(bytes) {
            Ok(count) => {
                let starts = mark_starts(bytes);
                Text {
                    bytes,
                    count,
                    starts,
                }
            }
            Err(_) => Text {
                bytes: &bytes[0..0],
                count: 0,
                starts: [0; MARKS],
            },
        }
    }

    // Line n, counted from 1, as that part of the bytes.
    pub fn line(&self, n: usize) -> Option<&'a [u8]>
        ensures part { option_map (λ x. x.now) result ≡ part self.now.bytes.now n }
        ensures place { option_map (λ x. x.ref_ptr) result ≡ spot self.now.bytes.ref_ptr self.now.bytes.now n }
        ensures line { option_map (λ x. x.now) result ≡ line_in self.now.bytes.now n }
    {
        if n == 0 || n > self.count {
            return None;
        }
        let bytes = self.bytes;
        let start = self.start(n);
        let end = start + row_len(&bytes[start..]);
        Some(&bytes[start..end])
    }

    // Where line n begins: it is looked for from the mark before it.
    fn start(&self, n: usize) -> usize
        requires from { 1 ≤ n }
        requires to { n ≤ self.now.count }
        ensures is { result ≡ start_of (lines_in self.now.bytes.now) n }
        ensures within { result ≤ length self.now.bytes.now }
    {
        let bytes = self.bytes;
        let mark = (n - 1) / STEP;
        let mut at = self.starts[mark];
        for _ in STEP * mark + 1..n {
            at += row_len(&bytes[at..]) + 1;
        }
        at
    }
}

impl<'a> LineSource for Text<'a> {
    ghost lines = { λ t. lines_in t.bytes.now };

    ghost health = { λ _. 0 };

    ghost lawful = { λ t. lawful t.bytes.now t.whole };

    fn count(&self) -> usize {
        self.count
    }

    fn health(&self) -> u8 {
        0
    }

    fn read(&self, n: usize, buf: &mut [u8]) -> Result<usize, Fault> {
        let line = self.line(n).ok_or(Fault::plain(Cause::NoSuchLine))?;
        put_line(line, buf)
    }
}
