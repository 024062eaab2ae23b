//! Target paths, patterns of paths, the names of roles and the digests of files, with their grammars, which paths a pattern
//! or a prefix covers, and the names of files in a consistent snapshot (TUF 1.0, sections 4.5 and 6.2).
#![tactic(auto)]

ghost use Rattle.std.specs.Prelude.{◌≡◌, ◌↔◌, IfOk, IfSome, IfNone, OnErr};
ghost use Rattle.path_patterns.specs.Grammar.{IsTargetPath, IsName, IsPattern};

use std::alloc::{AllocError, Global};
use std::marker::Model;

mod compared;
mod digests;
mod grammar;
mod matching;
mod names;
mod wildcards;

pub use digests::{are_hex_digits, one_digest};
pub use grammar::{is_hash_prefix, is_pattern, is_role_name, is_target_path};
pub use matching::{
    matches_flat, matches_flat_text, matches_segmented, prefix_covers, some_prefix_covers,
    tests_tell,
};
pub use names::{consistent_name, metadata_name, names_undo, read_asked};

/// The error of a call that has no other: no memory.
pub type NoMemory = AllocError;

/// The path of a target: segments with a slash between each two, each of bytes `A-Z a-z 0-9 . _ -`, none empty, `.` or
/// `..`, and 1 to 200 bytes in all (TUF 1.0, section 4.5, TARGETPATH). Paths are compared and ordered by their bytes. A
/// clause sees the bytes.
#[derive(Debug, Drop)]
pub struct TargetPath {
    text: String,
}

impl Model for TargetPath {
    ghost use Rattle.std.specs.Prelude.{ℕ, List, string_bytes};
    ghost use Rattle.path_patterns.specs.Grammar.{IsTargetPath};

    ghost Value = { List ℕ };

    ghost view = { λ p. string_bytes p.text };

    ghost invariant = { λ p. IsTargetPath (string_bytes p.text) };
}

/// The name of a role or of a step: 1 to 32 bytes `a-z 0-9 _ -`, the first of them `a-z 0-9` (TUF 1.0, section 4.5,
/// ROLENAME). Names are compared and ordered by their bytes. A clause sees the bytes.
#[derive(Debug, Drop)]
pub struct RoleName {
    text: String,
}

impl Model for RoleName {
    ghost use Rattle.std.specs.Prelude.{ℕ, List, string_bytes};
    ghost use Rattle.path_patterns.specs.Grammar.{IsName};

    ghost Value = { List ℕ };

    ghost view = { λ n. string_bytes n.text };

    ghost invariant = { λ n. IsName (string_bytes n.text) };
}

/// A pattern of target paths: 1 to 200 bytes of `A-Z a-z 0-9 . _ - /`, of `*`, which stands for any run of bytes, and of `?`,
/// which stands for one (TUF 1.0, section 4.5, PATHPATTERN). A pattern need not look like a path: `a//b` is one, and covers
/// none. A clause sees the bytes.
#[derive(Debug, Drop)]
pub struct Pattern {
    text: String,
}

impl Model for Pattern {
    ghost use Rattle.std.specs.Prelude.{ℕ, List, string_bytes};
    ghost use Rattle.path_patterns.specs.Grammar.{IsPattern};

    ghost Value = { List ℕ };

    ghost view = { λ p. string_bytes p.text };

    ghost invariant = { λ p. IsPattern (string_bytes p.text) };
}

/// A SHA-256 digest: 32 bytes (FIPS 180-4, section 6.2). Digests are ordered by their bytes.
#[derive(Debug, Clone, Copy, PartialEq, Eq, PartialOrd, Ord)]
pub struct Digest(pub [u8; 32]);

impl TargetPath {
    /// The text as a target path, and `None` where it is none. Only for a path it takes memory.
    pub fn read(alloc: Global, text: &str) -> Result<Option<TargetPath>, NoMemory>
        ensures some { IfOk result (λ o. IfSome o (λ p. (p ≡ text.now) × IsTargetPath text.now)) }
        ensures none { IfOk result (λ o. IfNone o (IsTargetPath text.now → ⊥)) }
        ensures memory { OnErr result (IsTargetPath text.now) }
    {
        if !is_target_path(text) {
            return Ok(None);
        }
        let text = String::from_str(alloc, text)?;
        Ok(Some(TargetPath { text }))
    }

    /// The path's text. It takes no memory.
    pub fn as_str(&self) -> &str
        ensures value { result.now ≡ self.now }
        ensures path { IsTargetPath self.now }
    {
        self.text.as_str()
    }
}

impl RoleName {
    /// The text as a role's name, and `None` where it is none. Only for a name it takes memory.
    pub fn read(alloc: Global, text: &str) -> Result<Option<RoleName>, NoMemory>
        ensures some { IfOk result (λ o. IfSome o (λ n. (n ≡ text.now) × IsName text.now)) }
        ensures none { IfOk result (λ o. IfNone o (IsName text.now → ⊥)) }
        ensures memory { OnErr result (IsName text.now) }
    {
        if !is_role_name(text) {
            return Ok(None);
        }
        let text = String::from_str(alloc, text)?;
        Ok(Some(RoleName { text }))
    }

    /// The name's text. It takes no memory.
    pub fn as_str(&self) -> &str
        ensures value { result.now ≡ self.now }
        ensures name { IsName self.now }
    {
        self.text.as_str()
    }
}

impl Pattern {
    /// The text as a pattern, and `None` where it is none. Only for a pattern it takes memory.
    pub fn read(alloc: Global, text: &str) -> Result<Option<Pattern>, NoMemory>
        ensures some { IfOk result (λ o. IfSome o (λ p. (p ≡ text.now) × IsPattern text.now)) }
        ensures none { IfOk result (λ o. IfNone o (IsPattern text.now → ⊥)) }
        ensures memory { OnErr result (IsPattern text.now) }
    {
        if !is_pattern(text) {
            return Ok(None);
        }
        let text = String::from_str(alloc, text)?;
        Ok(Some(Pattern { text }))
    }

    /// The pattern's text. It takes no memory.
    pub fn as_str(&self) -> &str
        ensures value { result.now ≡ self.now }
        ensures pattern { IsPattern self.now }
    {
        self.text.as_str()
    }
}
