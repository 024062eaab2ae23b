ghost use Rattle.std.specs.Prelude.{IfOk};
ghost use Rattle.path_patterns.specs.Grammar.{IsTargetPath};
ghost use Rattle.verdicts.specs.Verdict.{IsMatching};

use crate::case::Covering;
use crate::verdict::Verdict;
use path_patterns::{
    Pattern, TargetPath, is_hash_prefix, matches_flat, matches_segmented, prefix_covers,
};
use std::alloc::{AllocError, Global};

/// Whether the pattern, or the prefix, covers the path, or that one of the texts is not of its grammar.
pub fn matching(
    alloc: Global,
    covering: Covering,
    pattern: &str,
    path: &str,
) -> Result<Verdict, AllocError>
    ensures { IfOk result (IsMatching covering pattern.now path.now) }
{
    let Some(path) = TargetPath::read(alloc, path)? else {
        return Ok(Verdict::IllFormed);
    };
    match covering {
        Covering::Segmented => segmented(alloc, pattern, &path),
        Covering::Flat => flat(alloc, pattern, &path),
        Covering::Prefix => Ok(by_prefix(pattern, &path)),
    }
}

// Whether the text is a pattern that covers the path, by wildcards that stand for no slash.
fn segmented(alloc: Global, text: &str, path: &TargetPath) -> Result<Verdict, AllocError>
    requires { IsTargetPath path.now }
    ensures { IfOk result (IsMatching Covering.Segmented text.now path.now) }
{
    let Some(pattern) = Pattern::read(alloc, text)? else {
        return Ok(Verdict::IllFormed);
    };
    if matches_segmented(&pattern, path) {
        Ok(Verdict::Covered)
    } else {
        Ok(Verdict::NotCovered)
    }
}

// The same by wildcards that stand for any byte.
fn flat(alloc: Global, text: &str, path: &TargetPath) -> Result<Verdict, AllocError>
    requires { IsTargetPath path.now }
    ensures { IfOk result (IsMatching Covering.Flat text.now path.now) }
{
    let Some(pattern) = Pattern::read(alloc, text)? else {
        return Ok(Verdict::IllFormed);
    };
    if matches_flat(&pattern, path) {
        Ok(Verdict::Covered)
    } else {
        Ok(Verdict::NotCovered)
    }
}

// Whether the text is a prefix that covers the path.
fn by_prefix(text: &str, path: &TargetPath) -> Verdict
    requires { IsTargetPath path.now }
    ensures { IsMatching Covering.Prefix text.now path.now result }
{
    if !is_hash_prefix(text) {
        return Verdict::IllFormed;
    }
    if prefix_covers(text, path) {
        Verdict::Covered
    } else {
        Verdict::NotCovered
    }
}
