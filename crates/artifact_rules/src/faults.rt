//! Why a list of rules does not hold.
use thiserror::Error;

/// Why a list of artifact rules does not hold: the first rule that fails, by its place from 0 on, and a path.
#[derive(Debug, Drop, Error)]
pub enum RuleFault<'a> {
    /// DISALLOW matches a path that is left; of these the least by its bytes is named.
    #[error("rule {0} disallows {1}")]
    Disallowed(usize, &'a str),
    /// REQUIRE names a path that is not left.
    #[error("rule {0} requires {1}")]
    Required(usize, &'a str),
    /// Memory was refused. It says nothing of the rules.
    #[error("out of memory")]
    OutOfMemory,
}
