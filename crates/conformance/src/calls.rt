use crate::words::{Shown, bytes_from, number, print_done, word};
use checksum::layer::Checksum;
use checksum::sum::{sum_line, sum_of};
use lines::fault::Fault;
use lines::source::LineSource;
use lines::store::LineStore;
use lines::text::Text;
use whole::measure::total_bytes;
use whole::stored::store_whole;

// One call of a source; was there one of that name? Each call takes other words and answers another type, so a table of
// functions would need one type for them all.
pub(crate) fn call_source<S: LineSource>(
    rt: &HostRuntime,
    line: &str,
    source: &S,
) -> anyhow::Result<bool> {
    match word(line, 0) {
        "count" => println!(rt; "ok {}", source.count())?,
        "health" => println!(rt; "ok {}", source.health())?,
        "bytes" => println!(rt; "ok {}", total_bytes(source))?,
        "sum" => {
            let sum = sum_line(sum_of(source));
            println!(rt; "ok {}", Shown(&sum))?;
        }
        "read" => {
            let mut buf = buffer(rt, line)?;
            let answer = source.read(number(line, 1)?, buf.as_mut_slice());
            print_read(rt, answer, buf.as_slice())?;
        }
        _ => return Ok(false),
    }
    Ok(true)
}

// One call of a store; was there one of that name? A `bool`, since this is all that is asked, as of a source.
pub(crate) fn call_store<S: LineStore>(
    rt: &HostRuntime,
    line: &str,
    store: &mut S,
) -> anyhow::Result<bool> {
    match word(line, 0) {
        "limits" => {
            let (lines, bytes) = store.limits();
            println!(rt; "ok {lines} {bytes}")?;
        }
        "bottom" => println!(rt; "ok {}", store.bottom())?,
        "begin" => print_done(rt, store.begin())?,
        "add" => {
            let bytes = bytes_from(rt.alloc(), line, 1)?;
            print_done(rt, store.add(bytes.as_slice()))?;
        }
        "adds" => {
            let bytes = bytes_from(rt.alloc(), line, 2)?;
            print_done(rt, add_many(store, number(line, 1)?, bytes.as_slice()))?;
        }
        "look" => {
            let mut buf = buffer(rt, line)?;
            let answer = store.look(number(line, 1)?, buf.as_mut_slice());
            print_read(rt, answer, buf.as_slice())?;
        }
        "patch" => {
            let bytes = bytes_from(rt.alloc(), line, 2)?;
            print_done(rt, store.patch(number(line, 1)?, bytes.as_slice()))?;
        }
        "keep" => print_done(rt, store.keep())?,
        "copy" => {
            let bytes = bytes_from(rt.alloc(), line, 2)?;
            print_done(rt, copy_text(bytes.as_slice(), number(line, 1)?, store))?;
        }
        _ => return Ok(false),
    }
    Ok(true)
}

// Adds a line so many times, up to the first refusal.
fn add_many<S: LineStore>(store: &mut S, times: usize, line: &[u8]) -> Result<(), Fault> {
    for _ in 0..times {
        store.add(line)?;
    }
    Ok(())
}

// Stores a text under so many layers as a whole. Each number of layers is a type of its own, so each has an arm.
fn copy_text<S: LineStore>(bytes: &[u8], layers: usize, store: &mut S) -> Result<(), Fault> {
    let text = Text::new(bytes);
    match layers {
        0 => store_whole(&text, store),
        1 => store_whole(&Checksum::new(text), store),
        _ => store_whole(&Checksum::new(Checksum::new(text)), store),
    }
}

// The buffer of a read: as many dots as word 2 says.
fn buffer(rt: &HostRuntime, line: &str) -> anyhow::Result<Vec<u8>> {
    let space = number(line, 2)?;
    Ok(vec![in rt.alloc(); b'.'; space]?)
}

// Prints what a read answered, and the whole buffer, refused or not.
fn print_read(rt: &HostRuntime, answer: Result<usize, Fault>, buf: &[u8]) -> anyhow::Result<()> {
    let text = Shown(buf);
    match answer {
        Ok(len) => println!(rt; "ok {len} {text}")?,
        Err(fault) => {
            println!(rt; "? {fault}")?;
            println!(rt; "  {text}")?;
        }
    }
    Ok(())
}
