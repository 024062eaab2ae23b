//! The options and operands of the subcommands, as `clap` is told of them.
ghost use Rattle.std.specs.Prelude.{◌≡◌, Some, false};
ghost use Rattle.clap.specs.Words.{App, Rule, rule_of, with_rule};
ghost use Rattle.clap.specs.declared.builder.value_parser.ValueParser.TheVariants.{Unsigned};
ghost use Rattle.cli_words.specs.Made.{Makes, rule_word, with_words};
ghost use Rattle.cli_words.specs.Subcommands.{flag_rule, many_rule, operand_rule, operands_rule, option_rule, required_rule, verbose_rule};

use clap::builder::ValueParser;
use clap::{Arg, ArgAction, Command};
use limits::MOST_DOCUMENTS;
use std::alloc::{AllocError, Global};

/// An argument of a subcommand: its name, the name of its value, and what help says of it.
#[derive(Clone, Copy)]
pub enum Word<'a> {
    /// `--NAME VALUE`
    Option(&'a str, &'a str, &'a str),
    /// `--NAME VALUE`, which has to be there.
    Required(&'a str, &'a str, &'a str),
    /// `--NAME VALUE`, where the value is a number between these bounds.
    Number(&'a str, &'a str, &'a str, u64, u64),
    /// The same, which has to be there.
    RequiredNumber(&'a str, &'a str, &'a str, u64, u64),
    /// `--NAME VALUE ..`, as often as it is given.
    Many(&'a str, &'a str, &'a str),
    /// `--NAME`, which takes no value.
    Flag(&'a str, &'a str),
    /// An operand, which has to be there.
    Operand(&'a str, &'a str, &'a str),
    /// Operands, as many as documents of a batch, or none.
    Operands(&'a str, &'a str, &'a str),
    /// `--verbose`, `-v`
    Verbose,
}

/// What help says of `--verbose`.
pub const VERBOSE: &str = "Tell what is done, and what faults are about, on standard error";

/// `--at SECONDS`
pub(crate) const AT: Word<'static> = Word::Number(
    "at",
    "SECONDS",
    "The moment, in seconds since 1970-01-01T00:00:00Z, in place of the clock's",
    0,
    253402300799,
);

/// `--db FILE`
pub(crate) const DB: Word<'static> = Word::Required(
    "db",
    "FILE",
    "The database file of the repository, made where there is none",
);

/// `--seed S`
pub(crate) const SEED: Word<'static> = Word::Option(
    "seed",
    "S",
    "The seed file: 96 hex digits of lower case, I and SEED, and a line feed",
);

/// `--ots W`
pub(crate) const OTS: Word<'static> = Word::Number(
    "ots",
    "W",
    "The width of the one-time signatures: 1, 2, 4 or 8 (of a new key 4 where it is not given)",
    1,
    8,
);

/// `--height H`
pub(crate) const HEIGHT: Word<'static> = Word::Number(
    "height",
    "H",
    "The height of the tree: 5 for 32 signatures, 10 for 1,024 (of a new key 10 where it is not given)",
    5,
    10,
);

/// The command with more arguments, if there was memory for it so far.
pub(crate) fn with<'a>(
    alloc: Global,
    command: Result<Command<'a>, AllocError>,
    words: &[Word<'a>],
) -> Result<Command<'a>, AllocError>
    ensures { (a : App) → Makes a command.entry → Makes (with_words a words.now) result }
{
    let mut command = command;
    for word in words {
        command = with_one(command, arg_of(alloc, *word));
    }
    command
}

// The command with one more argument.
fn with_one<'a>(
    command: Result<Command<'a>, AllocError>,
    arg: Arg<'a>,
) -> Result<Command<'a>, AllocError>
    requires local { arg.global ≡ false }
    ensures { (a : App) (r : Rule) → Makes a command.entry → rule_of arg.entry ≡ r → Makes (with_rule a r) result }
{
    command?.arg(arg)
}

// The argument, as `clap` has it.
fn arg_of<'a>(alloc: Global, word: Word<'a>) -> Arg<'a>
    ensures rule { rule_of result ≡ rule_word word.entry }
    ensures local { result.global ≡ false }
{
    match word {
        Word::Option(name, value, help) => option(alloc, name, value, help),
        Word::Required(name, value, help) => required(alloc, name, value, help),
        Word::Number(name, value, help, least, most) => {
            within(option(alloc, name, value, help), least, most)
        }
        Word::RequiredNumber(name, value, help, least, most) => {
            within(required(alloc, name, value, help), least, most)
        }
        Word::Many(name, value, help) => many(alloc, name, value, help),
        Word::Flag(name, help) => flag(alloc, name, help),
        Word::Operand(name, value, help) => operand(alloc, name, value, help),
        Word::Operands(name, value, help) => operands(alloc, name, value, help),
        Word::Verbose => verbose(alloc),
    }
}

fn option<'a>(alloc: Global, name: &'a str, value: &'a str, help: &'a str) -> Arg<'a>
    ensures rule { rule_of result ≡ option_rule name.entry.now }
    ensures local { result.global ≡ false }
{
    Arg::new(alloc, name)
        .long(name)
        .value_name(value)
        .help(help)
        .action(ArgAction::Set)
}

fn required<'a>(alloc: Global, name: &'a str, value: &'a str, help: &'a str) -> Arg<'a>
    ensures rule { rule_of result ≡ required_rule (option_rule name.entry.now) }
    ensures local { result.global ≡ false }
{
    option(alloc, name, value, help).required(true)
}

fn many<'a>(alloc: Global, name: &'a str, value: &'a str, help: &'a str) -> Arg<'a>
    ensures rule { rule_of result ≡ many_rule name.entry.now }
    ensures local { result.global ≡ false }
{
    option(alloc, name, value, help).action(ArgAction::Append)
}

fn flag<'a>(alloc: Global, name: &'a str, help: &'a str) -> Arg<'a>
    ensures rule { rule_of result ≡ flag_rule name.entry.now }
    ensures local { result.global ≡ false }
{
    Arg::new(alloc, name)
        .long(name)
        .help(help)
        .action(ArgAction::Count)
}

fn within<'a>(arg: Arg<'a>, least: u64, most: u64) -> Arg<'a>
    ensures rule { rule_of result ≡ record (rule_of arg.entry) { parser = Some (Unsigned least most) } }
    ensures local { result.global ≡ arg.entry.global }
{
    arg.value_parser(ValueParser::unsigned(least, most))
}

fn operand<'a>(alloc: Global, id: &'a str, name: &'a str, help: &'a str) -> Arg<'a>
    ensures rule { rule_of result ≡ operand_rule id.entry.now }
    ensures local { result.global ≡ false }
{
    Arg::new(alloc, id)
        .value_name(name)
        .help(help)
        .required(true)
        .action(ArgAction::Set)
}

fn operands<'a>(alloc: Global, id: &'a str, name: &'a str, help: &'a str) -> Arg<'a>
    ensures rule { rule_of result ≡ operands_rule id.entry.now }
    ensures local { result.global ≡ false }
{
    Arg::new(alloc, id)
        .value_name(name)
        .help(help)
        .action(ArgAction::Append)
        .num_args(1..=MOST_DOCUMENTS)
}

fn verbose<'a>(alloc: Global) -> Arg<'a>
    ensures rule { rule_of result ≡ verbose_rule }
    ensures local { result.global ≡ false }
{
    Arg::new(alloc, "verbose")
        .long("verbose")
        .short('v')
        .help(VERBOSE)
        .action(ArgAction::Count)
}
