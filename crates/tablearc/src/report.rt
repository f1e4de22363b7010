use crate::sentences::sentence;
use lines::fault::Fault;
use std::fmt;

// What became of a table that was stored: what reading it back found, and the room that is left.
#[derive(Clone, Copy, Debug)]
pub struct Kept {
    pub lines: usize,
    pub bytes: usize,
    pub sum: u16,
    pub health: u8,
    // the first line that does not read as it was given
    pub difference: Option<usize>,
    // lines and bytes
    pub room: (usize, usize),
}

impl fmt::Display for Kept {
    fn fmt<W: fmt::Write>(&self, f: &mut fmt::Formatter<W>) -> fmt::Result {
        let Kept {
            lines,
            bytes,
            sum,
            health,
            ..
        } = *self;
        let (more_lines, more_bytes) = self.room;
        writeln!(
            f,
            "{lines} lines, {bytes} bytes, sum {sum:05}, health {health}"
        )?;
        match self.difference {
            None => writeln!(f, "  every line reads as it was given")?,
            Some(n) => writeln!(f, "  line {n} does not read as it was given")?,
        }
        write!(f, "  room left: {more_lines} lines and {more_bytes} bytes")
    }
}

// Prints a refusal: its four numbers, and a plain sentence.
pub(crate) fn print_refusal(rt: &impl Eprint, fault: Fault) -> anyhow::Result<()> {
    let text = sentence(fault.cause);
    eprintln!(rt; "? {fault}")?;
    eprintln!(rt; "{text}")?;
    Ok(())
}
