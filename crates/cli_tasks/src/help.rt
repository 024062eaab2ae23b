//! The table of denials, which help has besides.
ghost use Rattle.std.specs.Prelude.{IsTrue, map, string_bytes};
ghost use Rattle.cli_tasks.specs.CommandLine.{AsksForDenials};

use crate::tasks::Usage;
use cli_words::DENIALS;
use std::alloc::Global;

/// Whether the words ask for the table of denials: the program's own name, `help` and `denials`.
pub fn asks_for_denials(words: &[String]) -> bool
    ensures { IsTrue result → AsksForDenials (map (λ w. string_bytes w) words.now) }
{
    match words {
        [_, help, denials] => help.as_str() == "help" && denials.as_str() == "denials",
        _ => false,
    }
}

/// The table of denials, as help.
pub fn denials(alloc: Global) -> Usage {
    match String::from_str(alloc, DENIALS) {
        Ok(text) => Usage::Help(text),
        Err(_) => Usage::OutOfMemory,
    }
}
