use lines::fault::Fault;
use std::alloc::{AllocError, Global};
use std::fmt;

// Word k of a line, counted from 0; empty where there is none.
pub(crate) fn word(line: &str, k: usize) -> &str {
    line.split_whitespace().nth(k).unwrap_or("")
}

// Word k as a number.
pub(crate) fn number(line: &str, k: usize) -> anyhow::Result<usize> {
    Ok(word(line, k).parse::<usize>()?)
}

// The bytes that the words from k on stand for.
pub(crate) fn bytes_from(heap: Global, line: &str, k: usize) -> anyhow::Result<Vec<u8>> {
    let mut out = Vec::new(heap);
    for w in line.split_whitespace().skip(k) {
        push_word(&mut out, w)?;
    }
    Ok(out)
}

// A word, or WORD*N for N times WORD.
fn push_word(out: &mut Vec<u8>, w: &str) -> anyhow::Result<()> {
    let (piece, times) = match w.split_once('*') {
        Some((piece, times)) => (piece, times.parse::<usize>()?),
        None => (w, 1),
    };
    for _ in 0..times {
        push_piece(out, piece)?;
    }
    Ok(())
}

// A backslash and n stand for LF, and 1 for the byte 1, s for a blank, a backslash for itself.
fn push_piece(out: &mut Vec<u8>, piece: &str) -> Result<(), AllocError> {
    let mut bytes = piece.bytes();
    while let Some(b) = bytes.next() {
        if b != b'\\' {
            out.push(b)?;
        } else if let Some(letter) = bytes.next() {
            out.push(unescaped(letter))?;
        }
    }
    Ok(())
}

fn unescaped(b: u8) -> u8 {
    match b {
        b'n' => 10,
        b'1' => 1,
        b's' => 32,
        _ => b,
    }
}

// Bytes as they are printed: 33 to 126 but the backslash as they are, the others in hexadecimal. Crate
// conformance_sfiles has the same five, from `word` on: in a library they would be public calls, whose contracts have to
// pin each answer, and of the words of a text the kit states no list.
#[derive(Clone, Copy)]
pub(crate) struct Shown<'a>(pub(crate) &'a [u8]);

impl<'a> fmt::Display for Shown<'a> {
    // By runs, a byte of either kind and the plain ones behind it, since a write for each byte takes longer.
    fn fmt<W: fmt::Write>(&self, f: &mut fmt::Formatter<W>) -> fmt::Result {
        for run in self.0.chunk_by(|_, next| is_plain(*next)) {
            let plain = match run.split_first() {
                Some((byte, rest)) if !is_plain(*byte) => {
                    write!(f, "\\{byte:02x}")?;
                    rest
                }
                _ => run,
            };
            // Plain bytes are ASCII, so this is all of them.
            f.write_str(str::from_utf8(plain).unwrap_or(""))?;
        }
        Ok(())
    }
}

fn is_plain(byte: u8) -> bool {
    byte != b'\\' && byte.is_ascii_graphic()
}

// Prints an answer with a value, or the four numbers of a refusal.
pub(crate) fn print_answer<T: fmt::Display + Drop>(
    rt: &HostRuntime,
    answer: Result<T, Fault>,
) -> anyhow::Result<()> {
    match answer {
        Ok(value) => println!(rt; "ok {value}")?,
        Err(fault) => println!(rt; "? {fault}")?,
    }
    Ok(())
}

// Prints an answer without a value, and so without the blank before one.
pub(crate) fn print_done(rt: &HostRuntime, answer: Result<(), Fault>) -> anyhow::Result<()> {
    match answer {
        Ok(()) => println!(rt; "ok")?,
        Err(fault) => println!(rt; "? {fault}")?,
    }
    Ok(())
}
