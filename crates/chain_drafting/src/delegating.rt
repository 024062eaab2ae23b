//! Drafts of the delegations of targets metadata (TUF 1.0, section 4.5, DELEGATIONS).
ghost use Rattle.std.specs.Prelude.{◌≡◌, ◌⊎◌, ℕ, codes, option_map, IfOk, IfErr, OnOk};
ghost use Rattle.canonical_json.specs.Json.{Json, object};
ghost use Rattle.canonical_json.specs.View.{members_view};
ghost use Rattle.document_parts.specs.declared.documents.Kind.TheVariants as kinds;
ghost use Rattle.chain_drafting.specs.Delegations.{AreIn, DraftsDelegations, IsNotDelegated, by_role, key_rows, name_rows};
ghost use Rattle.drafting.specs.Drafts.{IsDraft, IsUndrafted};
ghost use Rattle.drafting.specs.Members.{IsObjectAt, PutsAll, Rows};
ghost use Rattle.drafting.specs.Targets.{IsUnlisted};
ghost use Rattle.chain_drafting.specs.steps.Delegated.{PutsDelegations, PutsOrDrops, all_view, delegation_changes_view};
ghost use Rattle.drafting.specs.steps.Rows.{rows_view, texts_view};
ghost use Rattle.drafting.specs.steps.Rules.{PutsOne};

use crate::delegations::{put_each, take_rows, values_of};
use canonical_json::Value;
use drafting::{
    DraftFault, Rule, Terms, add_rule_keys, add_rule_names, base_members, finish, keep_named,
    next_version, object_value, put, put_head, remove_all, take_object, take_out,
};
use metadata::Kind;
use std::alloc::{AllocError, Global};

/// A delegation: the role, its rule, the patterns of what it covers, or the prefixes of the SHA-256 of the paths, whether nothing after it is
/// searched for that, and before the delegation of which role it stands; where none is given, in the place of the role's own, or last.
#[derive(Clone, Copy)]
pub struct Delegated<'a> {
    pub name: &'a str,
    pub rule: Rule<'a>,
    pub covers: &'a [String],
    pub has_prefixes: bool,
    pub terminating: bool,
    pub before: Option<&'a str>,
}

/// What changes of delegations: the roles to which nothing is delegated any more, and then the delegations that are put.
#[derive(Clone, Copy)]
pub struct DelegationChanges<'a> {
    pub delegate: &'a [Delegated<'a>],
    pub undelegate: &'a [String],
}

/// The next targets metadata: with these changes of its delegations, and else with what was there. Each delegation is put in its place,
/// one after the other, and the others stay in their order. The keys are those that the delegations then have, with their names in
/// `names`: a further member, which is signed over and decides nothing. Where nothing is delegated any more, neither member is there.
/// `Unlisted(i)`: nothing is delegated to the role at the place i of those to which nothing is to be, or it stands among them before.
///
/// `held` and `begun` are the files that the draft follows and goes on from, as `draft_timestamp` says it.
pub fn draft_delegations(
    alloc: Global,
    held: Option<&[u8]>,
    begun: Option<&[u8]>,
    terms: Terms,
    changes: &DelegationChanges<'_>,
) -> Result<Vec<u8>, DraftFault>
    ensures draft { IfOk result (λ out. (part : Json) × DraftsDelegations (option_map (λ f. f.now) held.entry) (option_map (λ f. f.now) begun.entry) terms (delegation_changes_view changes.now) part
        × IsDraft kinds.Targets part out.items) }
    ensures fault { IfErr result (IsUndrafted kinds.Targets (option_map (λ f. f.now) held.entry) (option_map (λ f. f.now) begun.entry) terms
        (DraftsDelegations (option_map (λ f. f.now) held.entry) (option_map (λ f. f.now) begun.entry) terms (delegation_changes_view changes.now))
        (IsNotDelegated (option_map (λ f. f.now) held.entry) (option_map (λ f. f.now) begun.entry) (delegation_changes_view changes.now))) }
{
    let version = next_version(alloc, Kind::Targets, held)?;
    let mut members = base_members(alloc, Kind::Targets, held, begun)?;
    put_delegations(alloc, &mut members, changes)?;
    put_head(alloc, &mut members, version, terms)?;
    finish(alloc, Kind::Targets, members)
}

// Makes the changes in `delegations` and `names`.
fn put_delegations(
    alloc: Global,
    members: &mut Vec<(String, Value)>,
    changes: &DelegationChanges<'_>,
) -> Result<(), DraftFault>
    ensures ok { OnOk result (PutsDelegations (delegation_changes_view changes.now) (object (members_view members.old.items)) (object (members_view members.new.items))) }
    ensures err { IfErr result (λ e. (e ≡ DraftFault.OutOfMemory) ⊎ ((old : Json) × (rows : Rows) × (i : ℕ) × IsObjectAt (object (members_view members.old.items)) (codes "delegations") old
        × AreIn old rows × IsUnlisted (texts_view changes.now.undelegate.now) (by_role rows) i × (e ≡ DraftFault.Unlisted i))) }
{
    let mut inner = take_object(alloc, members, "delegations");
    let mut list = take_rows(alloc, &mut inner)?;
    match remove_all(&mut list, changes.undelegate) {
        Ok(()) => {}
        Err(fault) => return Err(fault),
    }
    put_each(alloc, &mut list, changes.delegate)?;
    put_or_drop(alloc, members, inner, list, changes.delegate)?;
    Ok(())
}

// Puts the delegations, the keys that they have and the names of these, with what else `delegations` has; where there are none, nothing.
fn put_or_drop(
    alloc: Global,
    members: &mut Vec<(String, Value)>,
    inner: Vec<(String, Value)>,
    list: Vec<(String, Value)>,
    delegated: &[Delegated<'_>],
) -> Result<(), AllocError>
    ensures { OnOk result (PutsOrDrops (all_view delegated.now) (rows_view list.items) (object (members_view inner.items)) (object (members_view members.old.items)) (object (members_view members.new.items))) }
{
    if list.is_empty() {
        take_out(members, "delegations");
        take_out(members, "names");
        return Ok(());
    }
    let mut inner = inner;
    put_keys(alloc, &mut inner, delegated, list.as_slice())?;
    put_names(alloc, members, delegated, list.as_slice())?;
    let values = values_of(alloc, list)?;
    put(alloc, &mut inner, "roles", Value::List(values))?;
    put(alloc, members, "delegations", object_value(inner))
}

// Puts the keys that are said into `keys`, and takes out those that no delegation has.
fn put_keys(
    alloc: Global,
    inner: &mut Vec<(String, Value)>,
    delegated: &[Delegated<'_>],
    list: &[(String, Value)],
) -> Result<(), AllocError>
    ensures { OnOk result (PutsOne (codes "keys") (key_rows (all_view delegated.now)) (object (members_view list.now)) (object (members_view inner.old.items)) (object (members_view inner.new.items))) }
{
    let mut keys = take_object(alloc, inner, "keys");
    add_keys(alloc, &mut keys, delegated)?;
    keep_named(&mut keys, list);
    put(alloc, inner, "keys", object_value(keys))
}

// Puts the names of these keys into `names`, and takes out those of keys that no delegation has.
fn put_names(
    alloc: Global,
    members: &mut Vec<(String, Value)>,
    delegated: &[Delegated<'_>],
    list: &[(String, Value)],
) -> Result<(), AllocError>
    ensures { OnOk result (PutsOne (codes "names") (name_rows (all_view delegated.now)) (object (members_view list.now)) (object (members_view members.old.items)) (object (members_view members.new.items))) }
{
    let mut names = take_object(alloc, members, "names");
    add_names(alloc, &mut names, delegated)?;
    keep_named(&mut names, list);
    put(alloc, members, "names", object_value(names))
}

// Puts the keys of all that is said.
fn add_keys(
    alloc: Global,
    table: &mut Vec<(String, Value)>,
    delegated: &[Delegated<'_>],
) -> Result<(), AllocError>
    ensures { OnOk result (PutsAll (key_rows (all_view delegated.now)) (object (members_view table.old.items)) (object (members_view table.new.items))) }
{
    for said in delegated {
        add_rule_keys(alloc, table, said.rule.keys)?;
    }
    Ok(())
}

// Puts the names of the keys of all that is said.
fn add_names(
    alloc: Global,
    table: &mut Vec<(String, Value)>,
    delegated: &[Delegated<'_>],
) -> Result<(), AllocError>
    ensures { OnOk result (PutsAll (name_rows (all_view delegated.now)) (object (members_view table.old.items)) (object (members_view table.new.items))) }
{
    for said in delegated {
        add_rule_names(alloc, table, said.rule.keys)?;
    }
    Ok(())
}
