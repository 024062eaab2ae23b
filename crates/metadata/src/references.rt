// What refers a target to a layout, as a file spells it (in-toto 1.0, section 4.3; TUF 1.0, section 4.5, custom).
ghost use Rattle.std.specs.Prelude.{◌≡◌, ◌↔◌, ◌∷◌, ◌++◌, ℕ, List, Option, codes, option_map, IsTrue, IfOk, IfErr, MatchOption};
ghost use Rattle.canonical_json.specs.Json.{names};
ghost use Rattle.canonical_json.specs.Spelling.{IsProper};
ghost use Rattle.canonical_json.specs.View.{view, items_view, members_view};
ghost use Rattle.keys_roles.specs.Rules.{AreDistinct};
ghost use Rattle.path_patterns.specs.Grammar.{IsTargetPath};
ghost use Rattle.document_parts.specs.Bodies.{IsTextOf, AreTextsOf, IsLayoutReference, IsCustom, HasLayoutReference, reference_members};
ghost use Rattle.document_parts.specs.Documents as plain;
ghost use Rattle.document_parts.specs.Members.{Has, HasJust, ItemsAre};
ghost use Rattle.document_parts.specs.Parts.{IsRuleOver, NamesAreIds};
ghost use Rattle.document_parts.specs.Views.{reference_view};
ghost use Rattle.metadata.specs.steps.Entries.{first_members, last_members};
ghost use Rattle.document_parts.specs.steps.Faults.{IsIll, IsMisnamed};
ghost use Rattle.document_parts.specs.steps.Tables.{spelled_rule, spelled_table};
ghost use Rattle.metadata.specs.steps.Spelled.{spelled_reference};

use canonical_json::Value;
use document_parts::distinct::{are_distinct, is_among};
use document_parts::documents::{LayoutReference, ShapeFault};
use document_parts::keys::{
    SpelledRule, SpelledTable, keys_of, name_rule, name_table, read_role_rule,
};
use document_parts::members::{items_of, member_of, members_of, next_member, text_of};
use document_parts::names::name_at;
use document_parts::scopes::are_few;
use document_parts::trail::Trail;
use path_patterns::{RoleName, TargetPath};
use std::alloc::Global;

/// What refers a target to a layout: neither the names in its table nor its rule's ids need be ids of keys.
#[derive(Drop)]
pub(crate) struct SpelledReference {
    pub owners: SpelledRule,
    pub keys: SpelledTable,
    pub links: Vec<TargetPath>,
    pub path: TargetPath,
    pub product: TargetPath,
    pub step: RoleName,
}

/// The layout that the object of a target refers to, if it refers to one, whatever the names in its key table.
pub(crate) fn reference_of(
    alloc: Global,
    value: &Value,
    trail: &mut Trail,
) -> Result<Option<SpelledReference>, ShapeFault>
    requires { IsProper (view value.now) }
    ensures ok { IfOk result (λ o. HasLayoutReference (view value.now) (option_map spelled_reference o)) }
    ensures err { IfErr result (IsIll ((o : Option plain.LayoutReference) × HasLayoutReference (view value.now) o)) }
{
    let Some(custom) = member_of(value, "custom") else {
        return Ok(None);
    };
    trail.enter("custom");
    let reference = reference_in(alloc, custom, trail)?;
    trail.leave();
    Ok(reference)
}

// The layout that `custom` refers to, if it refers to one.
fn reference_in(
    alloc: Global,
    custom: &Value,
    trail: &mut Trail,
) -> Result<Option<SpelledReference>, ShapeFault>
    requires { IsProper (view custom.now) }
    ensures ok { IfOk result (λ o. IsCustom (view custom.now) (option_map spelled_reference o)) }
    ensures err { IfErr result (IsIll ((o : Option plain.LayoutReference) × IsCustom (view custom.now) o)) }
{
    let Some(_) = members_of(custom) else {
        return Err(ShapeFault::WrongShape);
    };
    let Some(found) = member_of(custom, "layout") else {
        return Ok(None);
    };
    trail.enter("layout");
    let reference = read_reference(alloc, found, trail)?;
    trail.leave();
    Ok(Some(reference))
}

// The reference to a layout that the value is.
fn read_reference(
    alloc: Global,
    value: &Value,
    trail: &mut Trail,
) -> Result<SpelledReference, ShapeFault>
    requires { IsProper (view value.now) }
    ensures ok { IfOk result (λ l. IsLayoutReference (view value.now) (spelled_reference l)) }
    ensures err { IfErr result (IsIll ((l : plain.LayoutReference) × IsLayoutReference (view value.now) l)) }
{
    if !has_just_those(value) {
        return Err(ShapeFault::WrongShape);
    }
    let keys = keys_of(alloc, value, trail)?;
    let owners = read_role_rule(alloc, value, "keyids", &keys, trail)?;
    let links = links_of(alloc, value, trail)?;
    let path = path_at(alloc, value, "path", trail)?;
    trail.enter("links");
    if !are_apart(&path, &links) {
        return Err(ShapeFault::WrongShape);
    }
    trail.leave();
    let product = path_at(alloc, value, "product", trail)?;
    let step = name_at(alloc, value, "step", trail)?;
    Ok(SpelledReference {
        owners,
        keys,
        links,
        path,
        product,
        step,
    })
}

// Whether the value is an object with the members of a reference, and no other.
fn has_just_those(value: &Value) -> bool
    ensures { IsTrue result ↔ (HasJust (view value.now) reference_members) }
{
    match members_of(value) {
        Some(members) => are_those(members),
        None => false,
    }
}

// Whether these are the members of a reference, in canonical order.
fn are_those(members: &[(String, Value)]) -> bool
    ensures { IsTrue result ↔ (names (members_view members.now) ≡ reference_members) }
{
    let Some(rest) = behind_four(members) else {
        return false;
    };
    let Some(rest) = behind_three(rest) else {
        return false;
    };
    rest.is_empty()
}

// What stands after the first four of them.
fn behind_four(members: &[(String, Value)]) -> Option<&[(String, Value)]>
    ensures { MatchOption result ((ns : List (List ℕ)) → names (members_view members.now) ≡ first_members ++ ns → ⊥)
        (λ rest. names (members_view members.now) ≡ first_members ++ names (members_view rest.now)) }
{
    let rest = behind(members, "keyids")?;
    let rest = behind(rest, "keys")?;
    let rest = behind(rest, "links")?;
    let rest = behind(rest, "path")?;
    Some(rest)
}

// What stands after the last three of them.
fn behind_three(members: &[(String, Value)]) -> Option<&[(String, Value)]>
    ensures { MatchOption result ((ns : List (List ℕ)) → names (members_view members.now) ≡ last_members ++ ns → ⊥)
        (λ rest. names (members_view members.now) ≡ last_members ++ names (members_view rest.now)) }
{
    let rest = behind(members, "product")?;
    let rest = behind(rest, "step")?;
    let Some(rest) = behind(rest, "threshold") else {
        return None;
    };
    Some(rest)
}

// What stands after the first of the members, which has this name.
fn behind<'a>(members: &'a [(String, Value)], name: &str) -> Option<&'a [(String, Value)]>
    ensures { MatchOption result ((ns : List (List ℕ)) → names (members_view members.now) ≡ name.now ∷ ns → ⊥)
        (λ rest. names (members_view members.now) ≡ name.now ∷ names (members_view rest.now)) }
{
    let Some((_, rest)) = next_member(members, name) else {
        return None;
    };
    Some(rest)
}

// The paths that the object has under `links`.
fn links_of(alloc: Global, value: &Value, trail: &mut Trail) -> Result<Vec<TargetPath>, ShapeFault>
    requires { IsProper (view value.now) }
    ensures ok { IfOk result (λ ps. Has (view value.now) (codes "links") (λ x. AreTextsOf IsTargetPath x ps.items)) }
    ensures err { IfErr result (IsIll ((ps : List (List ℕ)) × Has (view value.now) (codes "links") (λ x. AreTextsOf IsTargetPath x ps))) }
{
    trail.enter("links");
    let Some(found) = member_of(value, "links") else {
        return Err(ShapeFault::WrongShape);
    };
    let links = read_paths(alloc, found, trail)?;
    trail.leave();
    Ok(links)
}

// The paths that the value is.
fn read_paths(
    alloc: Global,
    value: &Value,
    trail: &mut Trail,
) -> Result<Vec<TargetPath>, ShapeFault>
    ensures ok { IfOk result (λ ps. AreTextsOf IsTargetPath (view value.now) ps.items) }
    ensures err { IfErr result (IsIll ((ps : List (List ℕ)) × AreTextsOf IsTargetPath (view value.now) ps)) }
{
    let Some(items) = items_of(value) else {
        return Err(ShapeFault::WrongShape);
    };
    if !are_few(items) {
        return Err(ShapeFault::WrongShape);
    }
    trail.enter_items();
    let paths = paths_of(alloc, items, trail)?;
    trail.leave();
    Ok(paths)
}

fn paths_of(
    alloc: Global,
    items: &[Value],
    trail: &mut Trail,
) -> Result<Vec<TargetPath>, ShapeFault>
    ensures ok { IfOk result (λ ps. ItemsAre (IsTextOf IsTargetPath) (items_view items.now) ps.items) }
    ensures err { IfErr result (IsIll ((ps : List (List ℕ)) × ItemsAre (IsTextOf IsTargetPath) (items_view items.now) ps)) }
{
    let mut paths = Vec::new(alloc);
    let mut rest = items;
    'items: while let Some((item, later)) = rest.split_first() {
        let path = read_path(alloc, item)?;
        paths.push(path)?;
        trail.next();
        rest = later;
    }
    Ok(paths)
}

// The path that the object has under the name.
fn path_at(
    alloc: Global,
    value: &Value,
    name: &'static str,
    trail: &mut Trail,
) -> Result<TargetPath, ShapeFault>
    requires { IsProper (view value.now) }
    ensures ok { IfOk result (λ p. Has (view value.now) name.now (λ x. IsTextOf IsTargetPath x p)) }
    ensures err { IfErr result (IsIll ((p : List ℕ) × Has (view value.now) name.now (λ x. IsTextOf IsTargetPath x p))) }
{
    trail.enter(name);
    let Some(found) = member_of(value, name) else {
        return Err(ShapeFault::WrongShape);
    };
    let path = read_path(alloc, found)?;
    trail.leave();
    Ok(path)
}

// The path that the value is.
fn read_path(alloc: Global, value: &Value) -> Result<TargetPath, ShapeFault>
    ensures ok { IfOk result (λ p. IsTextOf IsTargetPath (view value.now) p) }
    ensures err { IfErr result (IsIll ((p : List ℕ) × IsTextOf IsTargetPath (view value.now) p)) }
{
    let Some(text) = text_of(value) else {
        return Err(ShapeFault::WrongShape);
    };
    let Some(path) = TargetPath::read(alloc, text)? else {
        return Err(ShapeFault::WrongShape);
    };
    Ok(path)
}

// Whether no link stands twice, and none is the layout.
fn are_apart(path: &TargetPath, links: &[TargetPath]) -> bool
    ensures { IsTrue result ↔ (AreDistinct (path.now ∷ links.now)) }
{
    !is_among(links, path) && are_distinct(links)
}

/// The reference, each key named by its id.
pub(crate) fn name_reference(
    alloc: Global,
    spelled: SpelledReference,
    trail: &mut Trail,
) -> Result<LayoutReference, ShapeFault>
    requires { IsRuleOver (spelled_table spelled.keys) (spelled_rule spelled.owners) }
    ensures ok { IfOk result (λ l. (reference_view l ≡ spelled_reference spelled) × NamesAreIds (spelled_table spelled.keys)) }
    ensures err { IfErr result (IsMisnamed (NamesAreIds (spelled_table spelled.keys))) }
{
    let SpelledReference {
        owners,
        keys,
        links,
        path,
        product,
        step,
    } = spelled;
    let table = name_table(alloc, &keys, trail)?;
    let owners = name_rule(alloc, &owners)?;
    Ok(LayoutReference {
        owners,
        keys: table,
        links,
        path,
        product,
        step,
    })
}
