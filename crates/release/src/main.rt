//! The program `release`: one subcommand for each task of a release repository.
#![tactic(auto)]

mod help;
mod init;
mod lengths;
mod printing;
mod prune;
mod publish;
mod put;
mod run;
mod serve;
mod trusting;

use cli_faults::Fault;
use run::{report, run};
use std::env::{self, Env};
use std::io;
use std::process::ExitCode;

fn main(rt: HostRuntime) -> ExitCode {
    let mut err = rt.stderr();
    let status = match words(&rt) {
        Ok(words) => run(&rt, &words, &mut rt.stdout(), &mut err),
        Err(fault) => report(&fault, &mut rt.stdout(), &mut err),
    };
    ExitCode::from(status)
}

// The words of the command line, the program's own name first. One that is no text is a fault of the line.
fn words(rt: &(impl Env + AllocGlobal)) -> Result<Vec<String>, Fault> {
    match env::args(rt) {
        Ok(words) => Ok(words.collect(rt.alloc())?),
        Err(e) if e.kind() == io::ErrorKind::OutOfMemory => Err(Fault::Memory),
        Err(_) => Err(Fault::Usage(String::from_str(
            rt.alloc(),
            "error: an argument is not UTF-8\n",
        )?)),
    }
}
