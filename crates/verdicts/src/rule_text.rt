// Reads a case of artifact rules from canonical JSON.
ghost use Rattle.std.specs.Prelude.{◌≡◌, ◌⊎◌, ◌<◌, ℕ, List, Some, IfOk, IfErr, IfSome, MatchOption, length, map, slice_get};
ghost use Rattle.canonical_json.specs.Json.{EachMember};
ghost use Rattle.canonical_json.specs.Spelling.{IsProper, IsSound};
ghost use Rattle.canonical_json.specs.View.{view, items_view, members_view};
ghost use Rattle.hex.specs.Hex.{IsBytes};
ghost use Rattle.document_parts.specs.Links as held;
ghost use Rattle.document_parts.specs.Members.{IsArray, IsObject, IsText, ItemsAre, MembersAre};
ghost use Rattle.document_parts.specs.Rules as rules;
ghost use Rattle.document_parts.specs.RuleViews.{link_view, side_view};
ghost use Rattle.verdicts.specs.RuleCase as plain;
ghost use Rattle.verdicts.specs.RuleCase.{IsLinkOf, IsRuleCase, IsRuleText, lists_view, rule_case_view, side_name};
ghost use Rattle.verdicts.specs.Words.{hex_word};

use crate::case::CaseFault;
use crate::rule_case::RuleCase;
use crate::words::bytes_of;
use canonical_json::{ReadFault, Value, one_spelling, read};
use metadata::{
    Link, RoleName, Side, Trail, four_members, items_of, members_of, read_artifacts, read_texts,
    text_of, two_members,
};
use std::alloc::Global;

/// The case whose canonical text a word writes down in hex.
pub fn rule_case_of(alloc: Global, word: &[u8]) -> Result<RuleCase, CaseFault>
    ensures case { IfOk result (λ c. (bytes : List ℕ) × (word.now ≡ hex_word bytes) × IsBytes bytes × IsRuleText bytes (rule_case_view c)) }
    ensures fault { IfErr result (λ e. (e ≡ CaseFault.OutOfMemory)
        ⊎ ((bytes : List ℕ) (c : plain.RuleCase) → IsBytes bytes → IsRuleText bytes c → word.now ≡ hex_word bytes → ⊥)) }
{
    let bytes = bytes_of(alloc, word)?;
    read_rule_case(alloc, &bytes)
}

// The case that the bytes are the canonical text of.
fn read_rule_case(alloc: Global, bytes: &[u8]) -> Result<RuleCase, CaseFault>
    ensures case { IfOk result (λ c. IsRuleText bytes.now (rule_case_view c)) }
    ensures fault { IfErr result (λ e. (e ≡ CaseFault.OutOfMemory) ⊎ ((c : plain.RuleCase) → IsRuleText bytes.now c → ⊥)) }
{
    match read(alloc, bytes) {
        Ok(value) => {
            one_spelling();
            case_of(alloc, &value)
        }
        Err(ReadFault::OutOfMemory) => Err(CaseFault::OutOfMemory),
        Err(_) => Err(CaseFault::NotUnderstood),
    }
}

// The case that the value is.
fn case_of(alloc: Global, value: &Value) -> Result<RuleCase, CaseFault>
    requires { IsProper (view value.now) }
    ensures case { IfOk result (λ c. IsRuleCase (view value.now) (rule_case_view c)) }
    ensures fault { IfErr result (λ e. (e ≡ CaseFault.OutOfMemory) ⊎ ((c : plain.RuleCase) → IsRuleCase (view value.now) c → ⊥)) }
{
    let Some((links, rules, side, step)) = four_members(value, "links", "rules", "side", "step")
    else {
        return Err(CaseFault::NotUnderstood);
    };
    let Some(side) = side_of(side) else {
        return Err(CaseFault::NotUnderstood);
    };
    let Some(step) = text_of(step) else {
        return Err(CaseFault::NotUnderstood);
    };
    let links = read_links(alloc, links)?;
    let Some(own) = place_of(&links, step) else {
        return Err(CaseFault::NotUnderstood);
    };
    let rules = read_lists(alloc, rules)?;
    Ok(RuleCase {
        links,
        own,
        rules,
        side,
    })
}

// The side whose name the value is.
fn side_of(value: &Value) -> Option<Side>
    ensures { MatchOption result ((s : rules.Side) → IsText (view value.now) (side_name s) → ⊥) (λ s. IsText (view value.now) (side_name (side_view s))) }
{
    let name = text_of(value)?;
    if name == "materials" {
        Some(Side::Materials)
    } else if name == "products" {
        Some(Side::Products)
    } else {
        None
    }
}

// The place of the first link of the step.
fn place_of(links: &[Link], step: &str) -> Option<usize>
    ensures place { MatchOption result ((i : ℕ) (l : held.Link) → slice_get (map link_view links.now) i ≡ Some l → step.now ≡ l.name → ⊥)
        (λ i. (l : held.Link) × (slice_get (map link_view links.now) i ≡ Some l) × (step.now ≡ l.name)) }
    ensures inside { IfSome result (λ i. i < length links.now) }
{
    let mut at = 0;
    'links: while at < links.len() {
        if links[at].name.as_str() == step {
            return Some(at);
        }
        at += 1;
    }
    None
}

// The links that the value is, an object with a link for each step.
fn read_links(alloc: Global, value: &Value) -> Result<Vec<Link>, CaseFault>
    requires { IsProper (view value.now) }
    ensures ok { IfOk result (λ ls. IsObject IsLinkOf (view value.now) (map link_view ls.items)) }
    ensures fault { IfErr result (λ e. (e ≡ CaseFault.OutOfMemory) ⊎ ((ls : List held.Link) → IsObject IsLinkOf (view value.now) ls → ⊥)) }
{
    let Some(members) = members_of(value) else {
        return Err(CaseFault::NotUnderstood);
    };
    links_of(alloc, members)
}

fn links_of(alloc: Global, members: &[(String, Value)]) -> Result<Vec<Link>, CaseFault>
    requires { EachMember IsSound (members_view members.now) }
    ensures ok { IfOk result (λ ls. MembersAre IsLinkOf (members_view members.now) (map link_view ls.items)) }
    ensures fault { IfErr result (λ e. (e ≡ CaseFault.OutOfMemory) ⊎ ((ls : List held.Link) → MembersAre IsLinkOf (members_view members.now) ls → ⊥)) }
{
    let mut links = Vec::new(alloc);
    let mut rest = members;
    'members: while let Some((member, later)) = rest.split_first() {
        let link = link_of(alloc, member.0.as_str(), &member.1)?;
        links.push(link)?;
        rest = later;
    }
    Ok(links)
}

// The link of the step of this name that the value is.
fn link_of(alloc: Global, step: &str, value: &Value) -> Result<Link, CaseFault>
    requires { IsProper (view value.now) }
    ensures ok { IfOk result (λ l. IsLinkOf step.now (view value.now) (link_view l)) }
    ensures fault { IfErr result (λ e. (e ≡ CaseFault.OutOfMemory) ⊎ ((l : held.Link) → IsLinkOf step.now (view value.now) l → ⊥)) }
{
    let Some((before, after)) = two_members(value, "materials", "products") else {
        return Err(CaseFault::NotUnderstood);
    };
    let Some(name) = RoleName::read(alloc, step)? else {
        return Err(CaseFault::NotUnderstood);
    };
    let materials = read_artifacts(alloc, before, &mut Trail::new())?;
    let products = read_artifacts(alloc, after, &mut Trail::new())?;
    Ok(Link {
        name,
        materials,
        products,
    })
}

// The lists of texts that the value is a list of.
fn read_lists(alloc: Global, value: &Value) -> Result<Vec<Vec<String>>, CaseFault>
    ensures ok { IfOk result (λ ls. IsArray (IsArray IsText) (view value.now) (lists_view ls.items)) }
    ensures fault { IfErr result (λ e. (e ≡ CaseFault.OutOfMemory) ⊎ ((ls : List (List (List ℕ))) → IsArray (IsArray IsText) (view value.now) ls → ⊥)) }
{
    let Some(items) = items_of(value) else {
        return Err(CaseFault::NotUnderstood);
    };
    lists_of(alloc, items)
}

fn lists_of(alloc: Global, items: &[Value]) -> Result<Vec<Vec<String>>, CaseFault>
    ensures ok { IfOk result (λ ls. ItemsAre (IsArray IsText) (items_view items.now) (lists_view ls.items)) }
    ensures fault { IfErr result (λ e. (e ≡ CaseFault.OutOfMemory) ⊎ ((ls : List (List (List ℕ))) → ItemsAre (IsArray IsText) (items_view items.now) ls → ⊥)) }
{
    let mut lists = Vec::new(alloc);
    let mut rest = items;
    'items: while let Some((item, later)) = rest.split_first() {
        let texts = read_texts(alloc, item, &mut Trail::new())?;
        lists.push(texts)?;
        rest = later;
    }
    Ok(lists)
}
