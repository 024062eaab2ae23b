//! What help has besides that of `clap`: `help N` and `help NAME`, what a denial says and what to do next; and the pages that are made from the
//! table of the subcommands.
use cli_completion::page;
use cli_denial_help::asked;
use std::alloc::{AllocError, Global};

/// What `help N` and `help NAME` print, where a denial has this number or this name: the line with which a command is denied so, and the
/// denial's paragraph. Of other words it is nothing.
pub fn denial_asked(alloc: Global, words: &[String]) -> Result<Option<String>, AllocError> {
    let [_, help, denial] = words else {
        return Ok(None);
    };
    if help.as_str() != "help" {
        return Ok(None);
    }
    match asked(denial.as_str()) {
        Some(found) => {
            let (number, name, text) = (found.number, found.name, found.text);
            Ok(Some(format!(in alloc; "denied {number} {name}\n{text}")?))
        }
        None => Ok(None),
    }
}

/// What `help man`, `help bash`, `help fish` and `help zsh` print. Of other words it is nothing.
pub fn page_asked(alloc: Global, words: &[String]) -> Result<Option<Vec<u8>>, AllocError> {
    let [_, help, name] = words else {
        return Ok(None);
    };
    if help.as_str() != "help" {
        return Ok(None);
    }
    page(alloc, name.as_str())
}
