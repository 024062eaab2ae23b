//! Prints the verdict on each case that standard input lists, one a line.
#![tactic(auto)]

mod case;
mod covering;
mod failure;
mod lines;
mod rule_case;
mod rule_text;
mod ruling;
mod verdict;
mod words;

use failure::Failure;
use std::io::{self, BufReader, BufWriter};
use std::process::ExitCode;

fn main(rt: HostRuntime) -> ExitCode {
    match run(&rt) {
        Ok(()) => ExitCode::SUCCESS,
        Err(failure) => {
            let _ = rt.eprintln(failure);
            ExitCode::from(failure.status())
        }
    }
}

fn run(rt: &(impl Input + Print + AllocGlobal)) -> Result<(), Failure> {
    let alloc = rt.alloc();
    let mut input = BufReader::new(alloc, rt.reader())?;
    let mut output = BufWriter::new(alloc, io::writer(rt))?;
    lines::answer_all(alloc, &mut input, &mut output)
}
