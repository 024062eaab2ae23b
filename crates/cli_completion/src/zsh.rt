//! Completion in zsh.
use crate::words::{Named, Told, told_of};
use cli_words::{COMMON, SUBCOMMANDS, Word, subcommand_at};
use show_texts::Text;

const BEGIN: &str = "#compdef release
# Completion of release in zsh, as 'release help zsh' prints it.
_release() {
    local -a subcommands
    subcommands=(
";

const CASES: &str = "        'help:Print help'
    )
    if (( CURRENT == 2 )) || [ \"$words[2]\" = help ]; then
        _describe subcommand subcommands
        return
    fi
    local subcommand=$words[2]
    shift words
    (( CURRENT-- ))
    case $subcommand in
";

const END: &str = "    esac
}
if [ \"$funcstack[1]\" = _release ]; then
    _release \"$@\"
else
    compdef _release release
fi
";

/// Says what zsh reads.
pub(crate) fn say(text: &mut Text) {
    text.say(BEGIN);
    for place in 0..SUBCOMMANDS {
        if let Some(subcommand) = subcommand_at(place) {
            text.say("        '");
            text.say(subcommand.name);
            text.say(":");
            say_plain(text, subcommand.about);
            text.say("'\n");
        }
    }
    text.say(CASES);
    for place in 0..SUBCOMMANDS {
        if let Some(subcommand) = subcommand_at(place) {
            text.say("    ");
            text.say(subcommand.name);
            text.say(")\n        _arguments \\\n");
            say_words(text, COMMON);
            say_words(text, subcommand.words);
            text.say("            '--help[Print help]'\n        ;;\n");
        }
    }
    text.say(END);
}

fn say_words(text: &mut Text, words: &[Word<'_>]) {
    for word in words {
        let told = told_of(*word);
        text.say("            '");
        say_word(text, &told);
        text.say("' \\\n");
    }
}

// An option with its help and its value, or an operand with its name.
fn say_word(text: &mut Text, told: &Told<'_>) {
    if told.is_many {
        text.say("*");
    }
    if told.is_operand {
        if !told.is_many {
            text.say("1");
        }
    } else {
        text.say("--");
        text.say(told.name);
        text.say("[");
        say_plain(text, told.help);
        text.say("]");
    }
    if told.is_operand || told.has_value() {
        text.say(":");
        say_plain(text, told.value);
        text.say(match told.named() {
            Named::File => ":_files",
            Named::Folder => ":_files -/",
            Named::Other => ": ",
        });
    }
}

// The text, as it stands within single quotation marks and within brackets.
fn say_plain(text: &mut Text, said: &str) {
    for byte in said.as_bytes() {
        match *byte {
            b'\'' => text.say("'\\''"),
            b':' | b'[' | b']' | b'\\' => {
                text.say("\\");
                text.say_byte(*byte);
            }
            byte => text.say_byte(byte),
        }
    }
}
