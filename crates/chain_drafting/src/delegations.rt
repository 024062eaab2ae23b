//! Lists of delegations, each with the role that it is to, which are read, changed and written.
ghost use Rattle.std.specs.Prelude.{◌≡◌, ◌≤◌, ◌∷◌, [], codes, length, map, option_map, take, IfOk, OnOk};
ghost use Rattle.std.specs.List.{AllByRecursion};
ghost use Rattle.canonical_json.specs.Json.{object};
ghost use Rattle.canonical_json.specs.View.{view, members_view};
ghost use Rattle.chain_drafting.specs.Delegations.{AreIn, IsTo, PutsDelegation, PutsEach, ahead_of, delegation_object, front_of, scope_name};
ghost use Rattle.drafting.specs.Members.{AlikeBut, without};
ghost use Rattle.chain_drafting.specs.steps.Delegated.{all_view, delegated_view};
ghost use Rattle.drafting.specs.steps.Rows.{rows_view};

use crate::delegating::Delegated;
use crate::lists::texts_value;
use canonical_json::Value;
use drafting::{ids_value, number_value, take_list, take_out, text_at, text_value};
use std::alloc::{AllocError, Global};

/// Takes the delegations of the member `roles` out, each with the role that it is to.
pub(crate) fn take_rows(
    alloc: Global,
    inner: &mut Vec<(String, Value)>,
) -> Result<Vec<(String, Value)>, AllocError>
    ensures rows { IfOk result (λ rows. AreIn (object (members_view inner.old.items)) (rows_view rows.items)) }
    ensures others { AlikeBut (codes "roles" ∷ []) (object (members_view inner.old.items)) (object (members_view inner.new.items)) }
{
    let found = take_list(alloc, inner, "roles");
    named_rows(alloc, found)
}

// The delegations, each with the role that it is to.
fn named_rows(alloc: Global, found: Vec<Value>) -> Result<Vec<(String, Value)>, AllocError>
    ensures same { IfOk result (λ rows. map (λ r. r.1) (rows_view rows.items) ≡ map view found.items) }
    ensures named { IfOk result (λ rows. AllByRecursion IsTo (rows_view rows.items)) }
{
    let mut named = Vec::new(alloc);
    for delegation in found {
        let name = String::from_str(alloc, role_in(&delegation))?;
        named.push((name, delegation))?;
    }
    Ok(named)
}

// The role that the delegation is to.
fn role_in(delegation: &Value) -> &str
    ensures { IsTo (result.now, view delegation.now) }
{
    let Value::Object(members) = delegation else {
        return "";
    };
    match text_at(members.as_slice(), "name") {
        Some(name) => name,
        None => "",
    }
}

/// The delegations without the roles.
pub(crate) fn values_of(alloc: Global, list: Vec<(String, Value)>) -> Result<Vec<Value>, AllocError>
    ensures { IfOk result (λ values. map view values.items ≡ map (λ r. r.1) (rows_view list.items)) }
{
    let mut values = Vec::new(alloc);
    for row in list {
        values.push(row.1)?;
    }
    Ok(values)
}

/// Puts each of these delegations in its place.
pub(crate) fn put_each(
    alloc: Global,
    list: &mut Vec<(String, Value)>,
    delegated: &[Delegated<'_>],
) -> Result<(), AllocError>
    ensures { OnOk result (PutsEach (all_view delegated.now) (rows_view list.old.items) (rows_view list.new.items)) }
{
    for said in delegated {
        put_in(alloc, list, said)?;
    }
    Ok(())
}

// Puts the delegation in its place.
fn put_in(
    alloc: Global,
    list: &mut Vec<(String, Value)>,
    said: &Delegated<'_>,
) -> Result<(), AllocError>
    ensures { OnOk result (PutsDelegation (delegated_view said.now) (rows_view list.old.items) (rows_view list.new.items)) }
{
    let own = take_own(list, said.name);
    let place = place_for(list, said.before, own);
    let name = String::from_str(alloc, said.name)?;
    let value = delegation_value(alloc, said)?;
    list.insert(place, (name, value))?;
    Ok(())
}

// Takes the delegation to the role out, and tells how many stood before it: all, where there is none.
fn take_own(list: &mut Vec<(String, Value)>, role: &str) -> usize
    ensures within { result ≤ length list.new.items }
    ensures rest { rows_view list.new.items ≡ without (role.now ∷ []) (rows_view list.old.items) }
    ensures ahead { take result (rows_view list.new.items) ≡ ahead_of role.now (rows_view list.old.items) }
{
    let own = place_of(list, role);
    take_out(list, role);
    own
}

// Before how many delegations a new one stands: before the one to the role that is said, or else before `own`.
fn place_for(list: &[(String, Value)], before: Option<&str>, own: usize) -> usize
    requires { own ≤ length list.now }
    ensures within { result ≤ length list.now }
    ensures place { take result (rows_view list.now) ≡ front_of (option_map (λ t. t.now) before.entry) (take own (rows_view list.now)) (rows_view list.now) }
{
    match before {
        Some(role) => place_of(list, role),
        None => own,
    }
}

// How many delegations stand before the one to the role: all, where there is none.
fn place_of(list: &[(String, Value)], role: &str) -> usize
    ensures within { result ≤ length list.now }
    ensures ahead { take result (rows_view list.now) ≡ ahead_of role.now (rows_view list.now) }
{
    for (i, row) in list.iter().enumerate() {
        if row.0.as_str() == role {
            return i;
        }
    }
    list.len()
}

// The member that says what a delegation covers.
fn scope_name(has_prefixes: bool) -> &'static str
    ensures { result.now ≡ scope_name has_prefixes }
{
    if has_prefixes {
        "path_hash_prefixes"
    } else {
        "paths"
    }
}

// {"keyids":[..],"name":..,"paths":[..],"terminating":..,"threshold":..}, or with `path_hash_prefixes` in the place of `paths`.
fn delegation_value(alloc: Global, said: &Delegated<'_>) -> Result<Value, AllocError>
    ensures { IfOk result (λ v. view v ≡ delegation_object (delegated_view said.now)) }
{
    let mut members = Vec::new(alloc);
    let name = String::from_str(alloc, "keyids")?;
    let value = ids_value(alloc, said.rule.keys)?;
    members.push((name, value))?;
    let name = String::from_str(alloc, "name")?;
    let value = text_value(alloc, said.name)?;
    members.push((name, value))?;
    let name = String::from_str(alloc, scope_name(said.has_prefixes))?;
    let value = texts_value(alloc, said.covers)?;
    members.push((name, value))?;
    let name = String::from_str(alloc, "terminating")?;
    members.push((name, Value::Bool(said.terminating)))?;
    let name = String::from_str(alloc, "threshold")?;
    members.push((name, number_value(u32::from(said.rule.threshold))))?;
    Ok(Value::Object(members))
}
