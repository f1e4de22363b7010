use anyhow::anyhow;
use lines::fault::Fault;
use records::sid::Sid;
use std::alloc::AllocError;
use std::fmt;

// Word k of a line, counted from 0; empty where there is none.
pub(crate) fn word(line: &str, k: usize) -> &str {
    line.split_whitespace().nth(k).unwrap_or("")
}

// Word k as a number.
pub(crate) fn number(line: &str, k: usize) -> anyhow::Result<usize> {
    Ok(word(line, k).parse::<usize>()?)
}

// Numbers joined by dots; an absent part is 0.
pub(crate) fn sid_of(text: &str) -> anyhow::Result<Sid> {
    Ok(Sid {
        release: part(text, 0)?,
        level: part(text, 1)?,
        branch: part(text, 2)?,
        sequence: part(text, 3)?,
    })
}

fn part(text: &str, k: usize) -> anyhow::Result<u16> {
    Ok(text.split('.').nth(k).unwrap_or("0").parse::<u16>()?)
}

// The includes and excludes of a get, from word 3 on.
pub(crate) fn lists(line: &str) -> anyhow::Result<(u64, u64)> {
    let mut includes = 0;
    let mut excludes = 0;
    for w in line.split_whitespace().skip(3) {
        if let Some(serial) = w.strip_prefix('+') {
            includes |= bit(serial)?;
        } else if let Some(serial) = w.strip_prefix('-') {
            excludes |= bit(serial)?;
        } else {
            return Err(anyhow!("a word of a get is no list"));
        }
    }
    Ok((includes, excludes))
}

fn bit(serial: &str) -> anyhow::Result<u64> {
    let n = serial.parse::<u32>()?;
    if n > 63 {
        return Err(anyhow!("a listed serial is above 63"));
    }
    Ok(1 << n)
}

// What the next byte of a line of an s-file stands for.
#[derive(Clone, Copy)]
enum Next {
    Itself,
    Escaped,
    High,
    Low(u8),
}

// The line that a line of the table stands for, and an LF.
pub(crate) fn push_line(out: &mut Vec<u8>, line: &str) -> anyhow::Result<()> {
    let mut next = Next::Itself;
    for b in line.bytes() {
        next = match next {
            Next::Itself => push_plain(out, b)?,
            Next::Escaped => push_escaped(out, b)?,
            Next::High => Next::Low(digit(b)?),
            Next::Low(high) => {
                out.push((high << 4) | digit(b)?)?;
                Next::Itself
            }
        };
    }
    out.push(10)?;
    Ok(())
}

fn push_plain(out: &mut Vec<u8>, b: u8) -> Result<Next, AllocError> {
    if b == b'\\' {
        return Ok(Next::Escaped);
    }
    out.push(b)?;
    Ok(Next::Itself)
}

// Behind a backslash 1 stands for the byte 1, a backslash for itself, x for two digits that follow.
fn push_escaped(out: &mut Vec<u8>, b: u8) -> anyhow::Result<Next> {
    match b {
        b'1' => out.push(1)?,
        b'\\' => out.push(b)?,
        b'x' => return Ok(Next::High),
        _ => return Err(anyhow!("a line of an s-file has a bad escape")),
    }
    Ok(Next::Itself)
}

// A hexadecimal digit's value, below 16.
fn digit(b: u8) -> anyhow::Result<u8> {
    match b {
        b'0'..=b'9' => Ok(b - b'0'),
        b'a'..=b'f' => Ok(b - b'a' + 10),
        _ => Err(anyhow!("a line of an s-file has a bad digit")),
    }
}

// Bytes as they are printed: 33 to 126 but the backslash as they are, the others in hexadecimal. Crate conformance has
// the same five, from `word` on, and says why.
#[derive(Clone, Copy)]
pub(crate) struct Shown<'a>(pub(crate) &'a [u8]);

impl<'a> fmt::Display for Shown<'a> {
    // By runs, a byte of either kind and the plain ones behind it, since a write for each byte takes longer.
    fn fmt<W: fmt::Write>(&self, f: &mut fmt::Formatter<W>) -> fmt::Result {
        for run in self.0.chunk_by(|_, next| is_plain(*next)) {
            let plain = match run.split_first() {
                Some((byte, rest)) if !is_plain(*byte) => {
                    write!(f, "\\{byte:02x}")?;
                    rest
                }
                _ => run,
            };
            // Plain bytes are ASCII, so this is all of them.
            f.write_str(str::from_utf8(plain).unwrap_or(""))?;
        }
        Ok(())
    }
}

fn is_plain(byte: u8) -> bool {
    byte != b'\\' && byte.is_ascii_graphic()
}

// Prints an answer, or the four numbers of a refusal.
pub(crate) fn print_answer<T: fmt::Display + Drop>(
    rt: &HostRuntime,
    answer: Result<T, Fault>,
) -> anyhow::Result<()> {
    match answer {
        Ok(value) => println!(rt; "ok {value}")?,
        Err(fault) => println!(rt; "? {fault}")?,
    }
    Ok(())
}
