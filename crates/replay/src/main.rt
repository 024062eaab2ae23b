//! Replays scripts over stores in memory, one of a server and one of a client: cases of commands, requests and runs of the client,
//! each with the reply that it gets.
//!
//! The script stands on standard input. `crates/replay/README.md` says what its lines are.
#![tactic(auto)]

mod agreement;
mod client_runs;
mod commands;
mod failure;
mod filling;
mod replies;
mod requests;
mod script;
mod session;
mod source;

use failure::Failure;
use std::io::{self, BufReader, BufWriter};
use std::process::ExitCode;

fn main(rt: HostRuntime) -> ExitCode {
    match run(&rt) {
        Ok(0) => ExitCode::SUCCESS,
        Ok(refusals) => {
            let _ = eprintln!(rt; "memory was refused {refusals} times");
            ExitCode::SUCCESS
        }
        Err(failure) => {
            let _ = rt.eprintln(failure);
            ExitCode::from(failure.status())
        }
    }
}

fn run(rt: &(impl Input + Print + AllocGlobal)) -> Result<u64, Failure> {
    let alloc = rt.alloc();
    let mut input = BufReader::new(alloc, rt.reader())?;
    let mut output = BufWriter::new(alloc, io::writer(rt))?;
    script::replay(alloc, &mut input, &mut output)
}
