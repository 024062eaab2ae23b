//! What shells complete of a command line of `release`, and its manual page: both made from the table of `cli_words`.
#![tactic(auto)]

mod bash;
mod fish;
mod manual;
mod words;
mod zsh;

use show_texts::Text;
use std::alloc::{AllocError, Global};

/// The page that a word asks for: `man` the manual page, in the language of roff, and `bash`, `fish` and `zsh` what such a shell reads to
/// complete subcommands, their options, and files and folders where a value is one. Of other words there is none.
pub fn page(alloc: Global, word: &str) -> Result<Option<Vec<u8>>, AllocError> {
    let mut text = Text::new(alloc);
    match word {
        "bash" => bash::say(&mut text),
        "fish" => fish::say(&mut text),
        "man" => manual::say(&mut text),
        "zsh" => zsh::say(&mut text),
        _ => return Ok(None),
    }
    Ok(Some(text.done()?))
}
