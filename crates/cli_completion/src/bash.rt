//! Completion in bash.
use crate::words::{Named, Told, told_of};
use cli_words::{COMMON, SUBCOMMANDS, Word, subcommand_at};
use show_texts::Text;

const BEGIN: &str = "# Completion of release in bash, as 'release help bash' prints it.
_release() {
    local word=${COMP_WORDS[COMP_CWORD]} last=${COMP_WORDS[COMP_CWORD-1]} words=
    if [ \"$COMP_CWORD\" -eq 1 ] || [ \"${COMP_WORDS[1]}\" = help ]; then
        mapfile -t COMPREPLY < <(compgen -W '";

const NAMES: &str = "help --help --version' -- \"$word\")
        return
    fi
    case ${COMP_WORDS[1]} in
";

const VALUES: &str = "    esac
    case \"${COMP_WORDS[1]} $last\" in
";

const END: &str = "    esac
    case $word in
    -*) mapfile -t COMPREPLY < <(compgen -W \"$words\" -- \"$word\") ;;
    *) mapfile -t COMPREPLY < <(compgen -f -- \"$word\") ;;
    esac
}
complete -o filenames -F _release release
";

/// Says what bash reads.
pub(crate) fn say(text: &mut Text) {
    text.say(BEGIN);
    for place in 0..SUBCOMMANDS {
        if let Some(subcommand) = subcommand_at(place) {
            text.say(subcommand.name);
            text.say(" ");
        }
    }
    text.say(NAMES);
    for place in 0..SUBCOMMANDS {
        if let Some(subcommand) = subcommand_at(place) {
            text.say("    ");
            text.say(subcommand.name);
            text.say(") words='");
            say_names(text, COMMON);
            say_names(text, subcommand.words);
            text.say("--help' ;;\n");
        }
    }
    text.say(VALUES);
    for place in 0..SUBCOMMANDS {
        if let Some(subcommand) = subcommand_at(place) {
            say_values(text, subcommand.name, COMMON);
            say_values(text, subcommand.name, subcommand.words);
        }
    }
    text.say(END);
}

// The names of options, a space after each.
fn say_names(text: &mut Text, words: &[Word<'_>]) {
    for word in words {
        let told = told_of(*word);
        if !told.is_operand {
            text.say("--");
            text.say(told.name);
            text.say(" ");
        }
    }
}

// What comes after an option, where that is not any file.
fn say_values(text: &mut Text, subcommand: &str, words: &[Word<'_>]) {
    for word in words {
        let told = told_of(*word);
        if told.has_value() {
            say_value(text, subcommand, &told);
        }
    }
}

fn say_value(text: &mut Text, subcommand: &str, told: &Told<'_>) {
    let values = match told.named() {
        Named::File => return,
        Named::Folder => "mapfile -t COMPREPLY < <(compgen -d -- \"$word\"); return ;;\n",
        Named::Other => "return ;;\n",
    };
    text.say("    '");
    text.say(subcommand);
    text.say(" --");
    text.say(told.name);
    text.say("') ");
    text.say(values);
}
