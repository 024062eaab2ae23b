//! Times what the project does. It is run by hand, and never by a test.
#![tactic(auto)]

mod documents;
mod failure;
mod layout_rates;
mod lms_rates;
mod rate;

use failure::Failure;
use std::env;
use std::process::ExitCode;
use std::rt::{Clock, Env, Files};

fn main(rt: HostRuntime) -> ExitCode {
    match run(&rt) {
        Ok(()) => ExitCode::SUCCESS,
        Err(failure) => {
            let _ = rt.eprintln(failure);
            ExitCode::from(failure.status())
        }
    }
}

// Makes the measurement that the words of the command line ask for. The first word is the program's name.
fn run(rt: &(impl Env + Files + Clock + Print + AllocGlobal)) -> Result<(), Failure> {
    let words: Vec<String> = env::args(rt)?.collect(rt.alloc())?;
    measured(rt, words.as_slice())
}

fn measured(
    rt: &(impl Files + Clock + Print + AllocGlobal),
    words: &[String],
) -> Result<(), Failure> {
    match words {
        [_, task, rounds] if task.as_str() == "lms" => lms_rates::measure(rt, rounds_of(rounds)?),
        [_, task, rounds, kind, file] if task.as_str() == "documents" => {
            documents::measure(rt, rounds_of(rounds)?, kind, file)
        }
        [_, task, rounds, targets, path, layout, links @ ..] if task.as_str() == "layout" => {
            layout_rates::measure(rt, rounds_of(rounds)?, targets, path, layout, links)
        }
        _ => Err(Failure::Usage),
    }
}

// How often a measurement is repeated: at least once.
fn rounds_of(word: &str) -> Result<u32, Failure> {
    match word.parse::<u32>().unwrap_or(0) {
        0 => Err(Failure::Usage),
        rounds => Ok(rounds),
    }
}
