use crate::calls::{call_source, call_store};
use crate::words::{Shown, bytes_from, number, print_answer, word};
use anyhow::anyhow;
use blocks::store::{Image, IndexedBlock};
use checksum::layer::Checksum;
use lines::source::LineSource;
use lines::store::LineStore;
use lines::text::Text;

// What a case is about.
#[derive(Clone, Copy, Debug, PartialEq, Eq)]
enum Kind {
    Text,
    Block(BlockKind),
}

#[derive(Clone, Copy, Debug, PartialEq, Eq)]
enum BlockKind {
    Image,
    Indexed,
}

// The kind of the case that begins with this line, if one does.
fn kind_of(line: &str) -> Option<Kind> {
    match word(line, 0) {
        "text" => Some(Kind::Text),
        "image" => Some(Kind::Block(BlockKind::Image)),
        "indexed" => Some(Kind::Block(BlockKind::Indexed)),
        _ => None,
    }
}

fn is_case(line: &str) -> bool {
    kind_of(line).is_some()
}

// Runs each case of a table.
pub(crate) fn run_cases(rt: &HostRuntime, table: &[String]) -> anyhow::Result<()> {
    for (at, line) in table.iter().enumerate() {
        let calls = &table[at + 1..];
        match kind_of(line.as_str()) {
            Some(Kind::Text) => run_text(rt, line.as_str(), calls)?,
            Some(Kind::Block(kind)) => run_block(rt, kind, line.as_str(), calls)?,
            None => {}
        }
    }
    Ok(())
}

// A text under so many layers. Each number of layers is a type of its own, so each has an arm here and in `pile_up`.
fn run_text(rt: &HostRuntime, line: &str, rest: &[String]) -> anyhow::Result<()> {
    let bytes = bytes_from(rt.alloc(), line, 2)?;
    print_answer(rt, Text::check(bytes.as_slice()).map(|()| "text"))?;
    let text = Text::new(bytes.as_slice());
    match number(line, 1)? {
        0 => ask(rt, rest, &text),
        1 => ask(rt, rest, &Checksum::new(text)),
        2 => ask(rt, rest, &Checksum::new(Checksum::new(text))),
        _ => ask(rt, rest, &Checksum::new(Checksum::new(Checksum::new(text)))),
    }
}

// The calls of a case over a source.
fn ask<S: LineSource>(rt: &HostRuntime, rest: &[String], source: &S) -> anyhow::Result<()> {
    for line in rest {
        if is_case(line.as_str()) {
            return Ok(());
        }
        known(call_source(rt, line.as_str(), source)?, line.as_str())?;
    }
    Ok(())
}

// The two kinds of block are one store whose layouts have no name outside its crate; a function generic in the store would be
// handed `check` and `new`, and nothing else would be left of it.
fn run_block(rt: &HostRuntime, kind: BlockKind, line: &str, rest: &[String]) -> anyhow::Result<()> {
    let layers = number(line, 1)?;
    let lines = number(line, 2)?;
    let bytes = number(line, 3)?;
    let size = number(line, 4)?;
    let mut block = vec![in rt.alloc(); b'#'; size]?;
    match kind {
        BlockKind::Image => {
            let made = Image::check(block.as_slice(), lines, bytes);
            print_answer(rt, made.map(|()| "image"))?;
            let store = Image::new(block.as_mut_slice(), lines, bytes);
            pile_up(rt, rest, layers, store)?;
        }
        BlockKind::Indexed => {
            let made = IndexedBlock::check(block.as_slice(), lines, bytes);
            print_answer(rt, made.map(|()| "indexed"))?;
            let store = IndexedBlock::new(block.as_mut_slice(), lines, bytes);
            pile_up(rt, rest, layers, store)?;
        }
    }
    show_block(rt, rest, block.as_slice())
}

// The calls of a case over a store under so many layers.
fn pile_up<S: LineStore + Drop>(
    rt: &HostRuntime,
    rest: &[String],
    layers: usize,
    store: S,
) -> anyhow::Result<()> {
    match layers {
        0 => use_pile(rt, rest, store),
        1 => use_pile(rt, rest, Checksum::new(store)),
        2 => use_pile(rt, rest, Checksum::new(Checksum::new(store))),
        _ => use_pile(rt, rest, Checksum::new(Checksum::new(Checksum::new(store)))),
    }
}

// The calls on a pile, and those on one layer more once the case puts it on.
fn use_pile<S: LineStore + Drop>(
    rt: &HostRuntime,
    rest: &[String],
    mut store: S,
) -> anyhow::Result<()> {
    let rest = use_store(rt, rest, &mut store)?;
    if let Some((line, calls)) = rest.split_first() {
        if word(line.as_str(), 0) == "layer" {
            println!(rt; "ok layer")?;
            use_store(rt, calls, &mut Checksum::new(store))?;
        }
    }
    Ok(())
}

fn ends_calls(line: &str) -> bool {
    is_case(line) || matches!(word(line, 0), "block" | "layer")
}

// The calls on a store, up to the next line that is none; that line and those behind it.
fn use_store<'t, S: LineStore>(
    rt: &HostRuntime,
    lines: &'t [String],
    store: &mut S,
) -> anyhow::Result<&'t [String]> {
    let end = lines.iter().position(|line| ends_calls(line.as_str()));
    let (calls, rest) = lines.split_at(end.unwrap_or(lines.len()));
    for call in calls {
        let line = call.as_str();
        if !call_store(rt, line, store)? {
            known(call_source(rt, line, store)?, line)?;
        }
    }
    Ok(rest)
}

// The parts of the block that the case asks for, once the store has let go of it.
fn show_block(rt: &HostRuntime, rest: &[String], block: &[u8]) -> anyhow::Result<()> {
    for text in rest {
        let line = text.as_str();
        if is_case(line) {
            return Ok(());
        }
        if word(line, 0) == "block" {
            let start = number(line, 1)?.min(block.len());
            let len = number(line, 2)?.min(block.len() - start);
            println!(rt; "ok {}", Shown(&block[start..start + len]))?;
        }
    }
    Ok(())
}

// A line that is empty, a comment or a call; else the run ends.
fn known(called: bool, line: &str) -> anyhow::Result<()> {
    let first = word(line, 0);
    if called || first.is_empty() || first == "#" {
        return Ok(());
    }
    Err(anyhow!("a line of the table is no call"))
}
