//! What is to be done next, as the words of a command.
use show_texts::{Growing, Next};
use std::alloc::{AllocError, Global};

/// The words of a command of `release` so far.
#[derive(Drop)]
pub struct NextWords {
    alloc: Global,
    words: Growing<String>,
}

impl NextWords {
    /// The program's own name and its subcommand.
    pub fn new(alloc: Global, subcommand: &str) -> NextWords {
        let mut words = Growing::new(alloc);
        words.put(String::from_str(alloc, "release"));
        words.put(String::from_str(alloc, subcommand));
        NextWords { alloc, words }
    }

    /// Says one more word.
    pub fn word(&mut self, word: &str) {
        self.words.put(String::from_str(self.alloc, word));
    }

    /// Says an option and its value.
    pub fn option(&mut self, option: &str, value: &str) {
        self.word(option);
        self.word(value);
    }

    /// The whole command.
    pub fn done(self) -> Result<Next, AllocError> {
        let NextWords { words, .. } = self;
        Ok(Next {
            words: words.done()?,
        })
    }
}
