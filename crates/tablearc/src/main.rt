#![tactic(auto)]

mod damage;
mod failure;
mod keeping;
mod report;
mod sentences;
mod stores;

use failure::Failure;
use report::print_refusal;
use sentences::USAGE;
use std::env;
use std::io::Read;
use std::process::ExitCode;
use stores::keep_in_both;

fn main(rt: HostRuntime) -> anyhow::Result<ExitCode> {
    match run(&rt) {
        Ok(()) => return Ok(ExitCode::SUCCESS),
        Err(Failure::Usage) => eprintln!(rt; "{USAGE}")?,
        Err(Failure::Refused(fault)) => print_refusal(&rt, fault)?,
        Err(Failure::Broken(error)) => return Err(error),
    }
    Ok(ExitCode::FAILURE)
}

// Keeps the table on standard input.
fn run(rt: &HostRuntime) -> Result<(), Failure> {
    if env::args(rt)?.count() > 1 {
        return Err(Failure::Usage);
    }
    let mut bytes = Vec::new(rt.alloc());
    rt.stdin().read_to_end(&mut bytes)?;
    keep_in_both(rt, bytes.as_slice())
}
