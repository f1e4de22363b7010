#![tactic(auto)]

mod calls;
mod cases;
mod words;

use cases::run_cases;
use std::io::{BufRead, BufReader};

fn main(rt: HostRuntime) -> anyhow::Result<()> {
    run(&rt)
}

// Runs each case of the table on standard input. (Alike in both programs: reading it is all that a library would have.)
fn run(rt: &HostRuntime) -> anyhow::Result<()> {
    let heap = rt.alloc();
    let mut table = Vec::new(heap);
    for line in BufReader::new(heap, rt.stdin())?.lines(heap) {
        table.push(line?)?;
    }
    run_cases(rt, table.as_slice())
}
