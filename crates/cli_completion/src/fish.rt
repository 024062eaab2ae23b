//! Completion in fish.
use crate::words::{Named, Told, told_of};
use cli_words::{COMMON, SUBCOMMANDS, Word, subcommand_at};
use show_texts::Text;

const BEGIN: &str = "# Completion of release in fish, as 'release help fish' prints it.
complete -c release -f
complete -c release -s h -l help -d 'Print help'
complete -c release -n __fish_use_subcommand -l version -d 'Print version'
complete -c release -n __fish_use_subcommand -a help -d 'Print help'
";

/// Says what fish reads.
pub(crate) fn say(text: &mut Text) {
    text.say(BEGIN);
    for place in 0..SUBCOMMANDS {
        if let Some(subcommand) = subcommand_at(place) {
            text.say(
                "complete -c release -n '__fish_use_subcommand; or __fish_seen_subcommand_from help' -a ",
            );
            text.say(subcommand.name);
            say_help(text, subcommand.about);
            say_words(text, subcommand.name, COMMON);
            say_words(text, subcommand.name, subcommand.words);
        }
    }
}

fn say_words(text: &mut Text, subcommand: &str, words: &[Word<'_>]) {
    for word in words {
        let told = told_of(*word);
        text.say("complete -c release -n '__fish_seen_subcommand_from ");
        text.say(subcommand);
        text.say("'");
        say_word(text, &told);
    }
}

// An option, or what stands without its name.
fn say_word(text: &mut Text, told: &Told<'_>) {
    if !told.is_operand {
        text.say(" -l ");
        text.say(told.name);
    }
    if told.is_operand || told.has_value() {
        text.say(match told.named() {
            Named::File => " -r -F",
            Named::Folder => " -x -a '(__fish_complete_directories)'",
            Named::Other => " -x",
        });
    }
    say_help(text, told.help);
}

// The help, within single quotation marks, and the end of the line.
fn say_help(text: &mut Text, help: &str) {
    text.say(" -d '");
    for byte in help.as_bytes() {
        if matches!(*byte, b'\'' | b'\\') {
            text.say("\\");
        }
        text.say_byte(*byte);
    }
    text.say("'\n");
}
