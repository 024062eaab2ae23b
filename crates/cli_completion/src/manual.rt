//! The manual page, in the language of roff.
use crate::words::{Told, told_of};
use cli_words::{COMMON, PROGRAM, SUBCOMMANDS, VERSION, Word, subcommand_at};
use show_texts::Text;

const NAME: &str = ".SH NAME
release \\- a release repository after The Update Framework 1.0
.SH SYNOPSIS
.B release
.I SUBCOMMAND
.RI [ WORD\\ .. ]
.SH DESCRIPTION
It holds signed metadata and target files in a database file, and serves them; it is a client with a trusted state of its own; and it signs
by LMS and HSS keys, of which no leaf signs twice.
.SH OPTIONS OF EACH SUBCOMMAND
";

/// Says the manual page.
pub(crate) fn say(text: &mut Text) {
    text.say(".\\\" As 'release help man' prints it.\n.TH RELEASE 1 \"\" \"release ");
    text.say(VERSION);
    text.say("\"\n");
    text.say(NAME);
    say_words(text, COMMON);
    text.say(".SH SUBCOMMANDS\n");
    for place in 0..SUBCOMMANDS {
        if let Some(subcommand) = subcommand_at(place) {
            text.say(".SS ");
            text.say(subcommand.name);
            text.say("\n");
            say_plain(text, subcommand.about);
            text.say(".\n");
            say_words(text, subcommand.words);
        }
    }
    text.say(".SH AN EXAMPLE, AND EXIT STATUSES\n.nf\n");
    say_plain(text, PROGRAM);
    text.say("\n.fi\n");
}

fn say_words(text: &mut Text, words: &[Word<'_>]) {
    for word in words {
        say_word(text, &told_of(*word));
    }
}

// A word with its value, and what help says of it.
fn say_word(text: &mut Text, told: &Told<'_>) {
    text.say(".TP\n");
    if !told.is_operand {
        text.say("\\fB\\-\\-");
        say_plain(text, told.name);
        text.say("\\fR ");
    }
    text.say("\\fI");
    say_plain(text, told.value);
    text.say("\\fR\n");
    say_plain(text, told.help);
    text.say(".\n");
}

// The text, in which no byte is a command of roff: a backslash and a hyphen are written out, and a mark of no width stands before what may begin
// a line.
fn say_plain(text: &mut Text, said: &str) {
    for byte in said.as_bytes() {
        match *byte {
            b'\\' => text.say("\\e"),
            b'-' => text.say("\\-"),
            b'.' => text.say("\\&."),
            b'\'' => text.say("\\(aq"),
            byte => text.say_byte(byte),
        }
    }
}
