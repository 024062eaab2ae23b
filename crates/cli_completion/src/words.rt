//! A word of the table, as a shell and a page tell it.
use cli_words::{VERBOSE, Word};

/// What a value names.
#[derive(Clone, Copy, PartialEq, Eq)]
pub(crate) enum Named {
    File,
    Folder,
    Other,
}

/// A word of a command line.
#[derive(Clone, Copy)]
pub(crate) struct Told<'a> {
    pub(crate) name: &'a str,
    /// The name of its value: empty where it takes none.
    pub(crate) value: &'a str,
    pub(crate) help: &'a str,
    /// Whether it stands without its name.
    pub(crate) is_operand: bool,
    /// Whether it may be given more than once.
    pub(crate) is_many: bool,
}

impl Told<'_> {
    /// What its value names, by the name of the value.
    pub(crate) fn named(&self) -> Named {
        match self.value {
            "DIR" | "FOLDER" => Named::Folder,
            "B" | "DOC" | "FILE" | "K.key" | "NAME" | "OUT" | "ROOT" | "S" | "WORD" => Named::File,
            _ => Named::Other,
        }
    }

    /// Whether it is an option with a value.
    pub(crate) fn has_value(&self) -> bool {
        !self.is_operand && !self.value.is_empty()
    }
}

/// What a word is.
pub(crate) fn told_of<'a>(word: Word<'a>) -> Told<'a> {
    match word {
        Word::Option(name, value, help) => once(name, value, help),
        Word::Required(name, value, help) => once(name, value, help),
        Word::Number(name, value, help, _, _) => once(name, value, help),
        Word::RequiredNumber(name, value, help, _, _) => once(name, value, help),
        Word::Many(name, value, help) => many(once(name, value, help)),
        Word::Flag(name, help) => once(name, "", help),
        Word::Operand(name, value, help) => operand(once(name, value, help)),
        Word::Operands(name, value, help) => many(operand(once(name, value, help))),
        Word::Verbose => once("verbose", "", VERBOSE),
    }
}

fn once<'a>(name: &'a str, value: &'a str, help: &'a str) -> Told<'a> {
    Told {
        name,
        value,
        help,
        is_operand: false,
        is_many: false,
    }
}

fn many(told: Told<'_>) -> Told<'_> {
    Told {
        is_many: true,
        ..told
    }
}

fn operand(told: Told<'_>) -> Told<'_> {
    Told {
        is_operand: true,
        ..told
    }
}
