use crate::words::{Shown, lists, number, print_answer, push_line, sid_of, word};
use anyhow::anyhow;
use archive::reading::{get, val};
use archive::request::Request;
use checksum::layer::Checksum;
use lines::fault::Fault;
use lines::source::LineSource;
use lines::text::Text;
use weave::measure::Measure;

// How an s-file is read: as it is, or under a layer.
#[derive(Clone, Copy)]
enum Kind {
    Plain,
    Summed,
}

// The kind of the case that begins with this line, if one does.
fn kind_of(line: &str) -> Option<Kind> {
    match word(line, 0) {
        "plain" => Some(Kind::Plain),
        "summed" => Some(Kind::Summed),
        _ => None,
    }
}

// Runs each case of a table. The lines of an s-file are no lines of the table's own.
pub(crate) fn run_cases(rt: &HostRuntime, table: &[String]) -> anyhow::Result<()> {
    let mut rest = table;
    while let Some((line, after)) = rest.split_first() {
        rest = after;
        if let Some(kind) = kind_of(line.as_str()) {
            let Some((file, calls)) = after.split_at_checked(number(line.as_str(), 1)?) else {
                return Err(anyhow!("the table ends inside an s-file"));
            };
            run_case(rt, kind, file, calls)?;
            rest = calls;
        }
    }
    Ok(())
}

// Runs a case: an s-file, and calls up to the next case.
fn run_case(rt: &HostRuntime, kind: Kind, file: &[String], calls: &[String]) -> anyhow::Result<()> {
    let mut bytes = Vec::new(rt.alloc());
    for row in file {
        push_line(&mut bytes, row.as_str())?;
    }
    print_answer(rt, Text::check(bytes.as_slice()).map(|()| "text"))?;
    let text = Text::new(bytes.as_slice());
    match kind {
        Kind::Plain => ask(rt, calls, &text),
        Kind::Summed => ask(rt, calls, &Checksum::new(text)),
    }
}

// The calls of a case.
fn ask<S: LineSource>(rt: &HostRuntime, calls: &[String], source: &S) -> anyhow::Result<()> {
    for call in calls {
        let line = call.as_str();
        if kind_of(line).is_some() {
            return Ok(());
        }
        match word(line, 0) {
            "val" => print_answer(rt, val(source))?,
            "get" => ask_get(rt, line, source)?,
            "" | "#" => (),
            _ => return Err(anyhow!("a line of the table is no call")),
        }
    }
    Ok(())
}

// One get, into a buffer of dots.
fn ask_get<S: LineSource>(rt: &HostRuntime, line: &str, source: &S) -> anyhow::Result<()> {
    let (includes, excludes) = lists(line)?;
    let request = Request {
        sid: sid_of(word(line, 1))?,
        includes,
        excludes,
    };
    let room = number(line, 2)?;
    let mut buf = vec![in rt.alloc(); b'.'; room]?;
    let answer = get(source, request, buf.as_mut_slice());
    print_get(rt, answer, buf.as_slice())
}

// Prints what a get answered, and the whole buffer, refused or not.
fn print_get(rt: &HostRuntime, answer: Result<Measure, Fault>, buf: &[u8]) -> anyhow::Result<()> {
    match answer {
        Ok(measure) => {
            let lines = measure.lines;
            let bytes = measure.bytes;
            println!(rt; "ok {lines} {bytes}")?;
        }
        Err(fault) => println!(rt; "? {fault}")?,
    }
    println!(rt; "  {}", Shown(buf))?;
    Ok(())
}
