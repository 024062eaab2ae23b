// Delegations of targets metadata as a file spells them (TUF 1.0, section 4.5, DELEGATIONS).
ghost use Rattle.std.specs.Prelude.{◌≡◌, ◌≢◌, ◌↔◌, ℕ, List, codes, map, IsTrue, IfOk, IfErr};
ghost use Rattle.std.specs.List.{AllByRecursion};
ghost use Rattle.canonical_json.specs.Json.{EachItem};
ghost use Rattle.canonical_json.specs.Spelling.{IsProper, IsSound};
ghost use Rattle.canonical_json.specs.View.{view, items_view};
ghost use Rattle.path_patterns.specs.Grammar.{IsHex};
ghost use Rattle.document_parts.specs.Bodies.{IsListable, IsTextOf, IsDelegable, IsDelegation, AreDelegations, HasDelegations};
ghost use Rattle.document_parts.specs.Documents as plain;
ghost use Rattle.document_parts.specs.Members.{ItemsAre};
ghost use Rattle.document_parts.specs.Parts.{NamesAreIds};
ghost use Rattle.document_parts.specs.steps.Faults.{IsIll, IsMisnamed};
ghost use Rattle.document_parts.specs.steps.Tables.{spelled_table, spelled_rule};
ghost use Rattle.metadata.specs.steps.Spelled.{spelled_delegation, spelled_list, spelled_delegations, AreAllOver};
ghost use Rattle.document_parts.specs.Views.{delegation_view, delegations_view};

use crate::snapshot::is_listable;
use canonical_json::Value;
use document_parts::distinct::{Named, are_distinct};
use document_parts::documents::{Delegation, Delegations, Scope, ShapeFault};
use document_parts::keys::{
    SpelledRule, SpelledTable, name_rule, name_table, read_role_rule, read_table,
};
use document_parts::members::{bool_at, items_of, member_of, text_of};
use document_parts::scopes::read_scope;
use document_parts::trail::Trail;
use path_patterns::RoleName;
use std::alloc::Global;

// The most delegations of one list.
const MOST_DELEGATIONS: usize = 64;

/// A delegation whose rule's ids need not be ids of keys.
#[derive(Drop)]
pub(crate) struct SpelledDelegation {
    pub name: RoleName,
    pub rule: SpelledRule,
    pub terminating: bool,
    pub scope: Scope,
}

impl Named for SpelledDelegation {
    ghost name = { λ delegation. delegation.name };

    fn is_namesake(&self, other: &SpelledDelegation) -> bool {
        self.name.as_str() == other.name.as_str()
    }
}

/// Delegations in their order, with their keys, whose names need not be ids.
#[derive(Drop)]
pub(crate) struct SpelledDelegations {
    pub keys: SpelledTable,
    pub roles: Vec<SpelledDelegation>,
}

/// The delegations that the value is, whatever the names in their key table.
pub(crate) fn read_delegations(
    alloc: Global,
    value: &Value,
    trail: &mut Trail,
) -> Result<SpelledDelegations, ShapeFault>
    requires { IsProper (view value.now) }
    ensures ok { IfOk result (λ d. HasDelegations (view value.now) (spelled_delegations d)) }
    ensures err { IfErr result (IsIll ((d : plain.Delegations) × HasDelegations (view value.now) d)) }
{
    trail.enter("keys");
    let Some(table) = member_of(value, "keys") else {
        return Err(ShapeFault::WrongShape);
    };
    let keys = read_table(alloc, table, trail)?;
    trail.turn("roles");
    let Some(list) = member_of(value, "roles") else {
        return Err(ShapeFault::WrongShape);
    };
    let roles = read_roles(alloc, list, &keys, trail)?;
    trail.leave();
    Ok(SpelledDelegations { keys, roles })
}

// The delegations over the table that the value is.
fn read_roles(
    alloc: Global,
    value: &Value,
    keys: &SpelledTable,
    trail: &mut Trail,
) -> Result<Vec<SpelledDelegation>, ShapeFault>
    requires { IsProper (view value.now) }
    ensures ok { IfOk result (λ ds. AreDelegations (spelled_table keys.now) (view value.now) (spelled_list ds.items)) }
    ensures err { IfErr result (IsIll ((ds : List plain.Delegation) × AreDelegations (spelled_table keys.now) (view value.now) ds)) }
{
    let Some(items) = items_of(value) else {
        return Err(ShapeFault::WrongShape);
    };
    if items.len() > MOST_DELEGATIONS {
        return Err(ShapeFault::WrongShape);
    }
    trail.enter_items();
    let roles = roles_of(alloc, items, keys, trail)?;
    trail.leave();
    if are_distinct(&roles) {
        Ok(roles)
    } else {
        Err(ShapeFault::WrongShape)
    }
}

fn roles_of(
    alloc: Global,
    items: &[Value],
    keys: &SpelledTable,
    trail: &mut Trail,
) -> Result<Vec<SpelledDelegation>, ShapeFault>
    requires { EachItem IsSound (items_view items.now) }
    ensures ok { IfOk result (λ ds. ItemsAre (IsDelegation (spelled_table keys.now)) (items_view items.now) (spelled_list ds.items)) }
    ensures err { IfErr result (IsIll ((ds : List plain.Delegation) × ItemsAre (IsDelegation (spelled_table keys.now)) (items_view items.now) ds)) }
{
    let mut roles = Vec::new(alloc);
    let mut rest = items;
    'items: while let Some((item, later)) = rest.split_first() {
        let role = read_role(alloc, item, keys, trail)?;
        roles.push(role)?;
        trail.next();
        rest = later;
    }
    Ok(roles)
}

// The delegation over the table that the value is.
fn read_role(
    alloc: Global,
    value: &Value,
    keys: &SpelledTable,
    trail: &mut Trail,
) -> Result<SpelledDelegation, ShapeFault>
    requires { IsProper (view value.now) }
    ensures ok { IfOk result (λ d. IsDelegation (spelled_table keys.now) (view value.now) (spelled_delegation d)) }
    ensures err { IfErr result (IsIll ((d : plain.Delegation) × IsDelegation (spelled_table keys.now) (view value.now) d)) }
{
    trail.enter("name");
    let Some(text) = member_of(value, "name") else {
        return Err(ShapeFault::WrongShape);
    };
    let name = read_name(alloc, text)?;
    trail.leave();
    let rule = read_role_rule(alloc, value, "keyids", keys, trail)?;
    trail.enter("terminating");
    let Some(terminating) = bool_at(value, "terminating") else {
        return Err(ShapeFault::WrongShape);
    };
    trail.leave();
    let scope = read_scope(alloc, value, trail)?;
    Ok(SpelledDelegation {
        name,
        rule,
        terminating,
        scope,
    })
}

// The name of a role that delegations can give.
fn read_name(alloc: Global, value: &Value) -> Result<RoleName, ShapeFault>
    ensures ok { IfOk result (λ n. IsTextOf IsDelegable (view value.now) n) }
    ensures err { IfErr result (IsIll ((n : List ℕ) × IsTextOf IsDelegable (view value.now) n)) }
{
    let Some(text) = text_of(value) else {
        return Err(ShapeFault::WrongShape);
    };
    if !is_given(text) {
        return Err(ShapeFault::WrongShape);
    }
    let Some(name) = RoleName::read(alloc, text)? else {
        return Err(ShapeFault::WrongShape);
    };
    Ok(name)
}

// Whether the text is none of the names that delegations cannot give.
fn is_given(name: &str) -> bool
    ensures { IsTrue result ↔ (IsListable name.now × (name.now ≢ codes "targets")) }
{
    is_listable(name) && name != "targets"
}

/// The delegations, each key named by its id.
pub(crate) fn name_delegations(
    alloc: Global,
    spelled: SpelledDelegations,
    trail: &mut Trail,
) -> Result<Delegations, ShapeFault>
    requires { AreAllOver spelled }
    ensures ok { IfOk result (λ d. (delegations_view d ≡ spelled_delegations spelled) × NamesAreIds (spelled_table spelled.keys)) }
    ensures err { IfErr result (IsMisnamed (NamesAreIds (spelled_table spelled.keys))) }
{
    let SpelledDelegations { keys, roles } = spelled;
    let table = name_table(alloc, &keys, trail)?;
    let roles = name_roles(alloc, roles)?;
    Ok(Delegations { keys: table, roles })
}

fn name_roles(alloc: Global, spelled: Vec<SpelledDelegation>) -> Result<Vec<Delegation>, ShapeFault>
    requires { AllByRecursion (λ d. AllByRecursion (IsHex 64) d.rule.keyids) (spelled_list spelled.items) }
    ensures ok { IfOk result (λ ds. map delegation_view ds.items ≡ spelled_list spelled.items) }
    ensures err { IfErr result (λ e. e ≡ ShapeFault.OutOfMemory) }
{
    let mut roles = Vec::new(alloc);
    for role in spelled {
        let named = name_role(alloc, role)?;
        roles.push(named)?;
    }
    Ok(roles)
}

fn name_role(alloc: Global, spelled: SpelledDelegation) -> Result<Delegation, ShapeFault>
    requires { AllByRecursion (IsHex 64) (spelled_rule spelled.rule).keyids }
    ensures ok { IfOk result (λ d. delegation_view d ≡ spelled_delegation spelled) }
    ensures err { IfErr result (λ e. e ≡ ShapeFault.OutOfMemory) }
{
    let SpelledDelegation {
        name,
        rule,
        terminating,
        scope,
    } = spelled;
    let rule = name_rule(alloc, &rule)?;
    Ok(Delegation {
        name,
        rule,
        terminating,
        scope,
    })
}
