//! The words of the command line of `release`, as `clap` is told of them: subcommands, options and operands, and what help says of them.
#![tactic(auto)]

ghost use Rattle.std.specs.Prelude.{◌≡◌, IfOk, codes};
ghost use Rattle.clap.specs.Words.{App, app_of, new_app};
ghost use Rattle.cli_words.specs.Made.{Makes, line_of};
ghost use Rattle.cli_words.specs.Subcommands.{needs_subcommand, release_line, with_command, with_version};

mod options;
mod subcommands;
mod texts;

use clap::Command;
use options::with;
pub use options::{VERBOSE, Word};
use std::alloc::{AllocError, Global};
pub use subcommands::{COMMON, PROGRAM, SUBCOMMANDS, Subcommand, subcommand_at};
use subcommands::{
    CANON, DRAFT, EXPORT, GET, INIT, KEY, PRUNE, PUBLISH, PUT, SERVE, SHOW, SIGN, UPDATE,
};
pub use texts::{DENIALS, VERSION};

/// The whole command line.
pub fn release<'a>(alloc: Global) -> Result<Command<'a>, AllocError>
    ensures { IfOk result (λ c. app_of c ≡ release_line) }
{
    let command = begun(alloc);
    let command = with_one(command, made(alloc, CANON));
    let command = with_one(command, made(alloc, DRAFT));
    let command = with_one(command, made(alloc, EXPORT));
    let command = with_one(command, made(alloc, GET));
    let command = with_one(command, made(alloc, INIT));
    let command = with_one(command, made(alloc, KEY));
    let command = with_one(command, made(alloc, PRUNE));
    let command = with_one(command, made(alloc, PUBLISH));
    let command = with_one(command, made(alloc, PUT));
    let command = with_one(command, made(alloc, SERVE));
    let command = with_one(command, made(alloc, SHOW));
    let command = with_one(command, made(alloc, SIGN));
    with_one(command, made(alloc, UPDATE))
}

// The program, before its subcommands.
fn begun<'a>(alloc: Global) -> Result<Command<'a>, AllocError>
    ensures { Makes (needs_subcommand (with_version (new_app (codes "release")))) result }
{
    Ok(
        Command::new(alloc, "release")
            .about("A release repository after The Update Framework 1.0")
            .version(texts::VERSION)
            .after_help(PROGRAM)
            .subcommand_required(true),
    )
}

// The command with one more subcommand, if there was memory for both.
fn with_one<'a>(
    command: Result<Command<'a>, AllocError>,
    subcommand: Result<Command<'a>, AllocError>,
) -> Result<Command<'a>, AllocError>
    ensures { (a b : App) → Makes a command.entry → Makes b subcommand.entry → Makes (with_command a b) result }
{
    command?.subcommand(subcommand?)
}

// A subcommand, as `clap` has it.
fn made<'a>(alloc: Global, subcommand: Subcommand<'a>) -> Result<Command<'a>, AllocError>
    ensures { Makes (line_of subcommand.entry) result }
{
    let command = bare(alloc, subcommand);
    let command = with(alloc, command, COMMON);
    with(alloc, command, subcommand.words)
}

// The same without any argument.
fn bare<'a>(alloc: Global, subcommand: Subcommand<'a>) -> Result<Command<'a>, AllocError>
    ensures { Makes (new_app subcommand.entry.name.now) result }
{
    Ok(
        Command::new(alloc, subcommand.name)
            .about(subcommand.about)
            .after_help(subcommand.after),
    )
}
