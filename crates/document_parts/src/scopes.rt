// What a delegation covers (TUF 1.0, section 4.5, PATHPATTERN and path_hash_prefixes).
ghost use Rattle.std.specs.Prelude.{◌↔◌, ◌<◌, ◌≤◌, ℕ, List, codes, length, map, IsTrue, IfOk, IfErr, string_bytes};
ghost use Rattle.canonical_json.specs.Spelling.{IsProper};
ghost use Rattle.canonical_json.specs.View.{view, items_view};
ghost use Rattle.path_patterns.specs.Grammar.{IsPattern, IsHashPrefix};
ghost use Rattle.document_parts.specs.Bodies.{NoMember, IsTextOf, AreTextsOf, HasScope, max_texts};
ghost use Rattle.document_parts.specs.Documents as plain;
ghost use Rattle.document_parts.specs.Members.{ItemsAre};
ghost use Rattle.document_parts.specs.steps.Faults.{IsIll};
ghost use Rattle.document_parts.specs.Views.{scope_view};

use crate::documents::{Scope, ShapeFault};
use crate::members::{items_of, lacks, member_of, text_of};
use crate::trail::Trail;
use canonical_json::Value;
use path_patterns::{Pattern, is_hash_prefix};
use std::alloc::Global;

// The most patterns, or prefixes, of a delegation, the most patterns of a root, and the most links of a target.
const MOST_TEXTS: usize = 64;

/// What the delegation that the value is covers.
pub fn read_scope(alloc: Global, value: &Value, trail: &mut Trail) -> Result<Scope, ShapeFault>
    requires { IsProper (view value.now) }
    ensures ok { IfOk result (λ s. HasScope (view value.now) (scope_view s)) }
    ensures err { IfErr result (IsIll ((s : plain.Scope) × HasScope (view value.now) s)) }
{
    trail.enter("path_hash_prefixes");
    let Some(list) = member_of(value, "paths") else {
        return prefixes_of(alloc, value, trail);
    };
    if !lacks(value, "path_hash_prefixes") {
        return Err(ShapeFault::WrongShape);
    }
    trail.turn("paths");
    let patterns = read_patterns(alloc, list, trail)?;
    trail.leave();
    Ok(Scope::Patterns(patterns))
}

// The same where it covers by no patterns.
fn prefixes_of(alloc: Global, value: &Value, trail: &mut Trail) -> Result<Scope, ShapeFault>
    requires proper { IsProper (view value.now) }
    requires none { NoMember (view value.now) (codes "paths") }
    ensures ok { IfOk result (λ s. HasScope (view value.now) (scope_view s)) }
    ensures err { IfErr result (IsIll ((s : plain.Scope) × HasScope (view value.now) s)) }
{
    let Some(list) = member_of(value, "path_hash_prefixes") else {
        return Err(ShapeFault::WrongShape);
    };
    let prefixes = read_prefixes(alloc, list, trail)?;
    trail.leave();
    Ok(Scope::Prefixes(prefixes))
}

/// Whether there are as many as a delegation may have of patterns or prefixes, a root of patterns, and a target of links.
pub fn are_few(items: &[Value]) -> bool
    ensures { IsTrue result ↔ ((0 < length items.now) × (length items.now ≤ max_texts)) }
{
    !items.is_empty() && items.len() <= MOST_TEXTS
}

/// The patterns that the value is.
pub fn read_patterns(
    alloc: Global,
    value: &Value,
    trail: &mut Trail,
) -> Result<Vec<Pattern>, ShapeFault>
    ensures ok { IfOk result (λ ps. AreTextsOf IsPattern (view value.now) ps.items) }
    ensures err { IfErr result (IsIll ((ps : List (List ℕ)) × AreTextsOf IsPattern (view value.now) ps)) }
{
    let Some(items) = items_of(value) else {
        return Err(ShapeFault::WrongShape);
    };
    if !are_few(items) {
        return Err(ShapeFault::WrongShape);
    }
    trail.enter_items();
    let patterns = patterns_of(alloc, items, trail)?;
    trail.leave();
    Ok(patterns)
}

fn patterns_of(
    alloc: Global,
    items: &[Value],
    trail: &mut Trail,
) -> Result<Vec<Pattern>, ShapeFault>
    ensures ok { IfOk result (λ ps. ItemsAre (IsTextOf IsPattern) (items_view items.now) ps.items) }
    ensures err { IfErr result (IsIll ((ps : List (List ℕ)) × ItemsAre (IsTextOf IsPattern) (items_view items.now) ps)) }
{
    let mut patterns = Vec::new(alloc);
    let mut rest = items;
    'items: while let Some((item, later)) = rest.split_first() {
        let pattern = read_pattern(alloc, item)?;
        patterns.push(pattern)?;
        trail.next();
        rest = later;
    }
    Ok(patterns)
}

// The pattern that the value is.
fn read_pattern(alloc: Global, value: &Value) -> Result<Pattern, ShapeFault>
    ensures ok { IfOk result (λ p. IsTextOf IsPattern (view value.now) p) }
    ensures err { IfErr result (IsIll ((p : List ℕ) × IsTextOf IsPattern (view value.now) p)) }
{
    let Some(text) = text_of(value) else {
        return Err(ShapeFault::WrongShape);
    };
    let Some(pattern) = Pattern::read(alloc, text)? else {
        return Err(ShapeFault::WrongShape);
    };
    Ok(pattern)
}

// The prefixes that the value is.
fn read_prefixes(alloc: Global, value: &Value, trail: &mut Trail) -> Result<Vec<String>, ShapeFault>
    ensures ok { IfOk result (λ ps. AreTextsOf IsHashPrefix (view value.now) (map string_bytes ps.items)) }
    ensures err { IfErr result (IsIll ((ps : List (List ℕ)) × AreTextsOf IsHashPrefix (view value.now) ps)) }
{
    let Some(items) = items_of(value) else {
        return Err(ShapeFault::WrongShape);
    };
    if !are_few(items) {
        return Err(ShapeFault::WrongShape);
    }
    trail.enter_items();
    let prefixes = prefix_texts_of(alloc, items, trail)?;
    trail.leave();
    Ok(prefixes)
}

fn prefix_texts_of(
    alloc: Global,
    items: &[Value],
    trail: &mut Trail,
) -> Result<Vec<String>, ShapeFault>
    ensures ok { IfOk result (λ ps. ItemsAre (IsTextOf IsHashPrefix) (items_view items.now) (map string_bytes ps.items)) }
    ensures err { IfErr result (IsIll ((ps : List (List ℕ)) × ItemsAre (IsTextOf IsHashPrefix) (items_view items.now) ps)) }
{
    let mut prefixes = Vec::new(alloc);
    let mut rest = items;
    'items: while let Some((item, later)) = rest.split_first() {
        let prefix = read_prefix(alloc, item)?;
        prefixes.push(prefix)?;
        trail.next();
        rest = later;
    }
    Ok(prefixes)
}

// The prefix that the value is.
fn read_prefix(alloc: Global, value: &Value) -> Result<String, ShapeFault>
    ensures ok { IfOk result (λ p. IsTextOf IsHashPrefix (view value.now) (string_bytes p)) }
    ensures err { IfErr result (IsIll ((p : List ℕ) × IsTextOf IsHashPrefix (view value.now) p)) }
{
    let Some(text) = text_of(value) else {
        return Err(ShapeFault::WrongShape);
    };
    if !is_hash_prefix(text) {
        return Err(ShapeFault::WrongShape);
    }
    let prefix = String::from_str(alloc, text)?;
    Ok(prefix)
}
