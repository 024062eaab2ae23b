//! Drafts of root metadata (TUF 1.0, section 4.3).
ghost use Rattle.std.specs.Prelude.{◌≡◌, ◌⊎◌, codes, option_map, IfOk, IfErr, OnOk};
ghost use Rattle.canonical_json.specs.Json.{Json, object};
ghost use Rattle.canonical_json.specs.View.{members_view};
ghost use Rattle.document_parts.specs.declared.documents.Kind.TheVariants as kinds;
ghost use Rattle.drafting.specs.declared.faults.TopRole.{TopRole};
ghost use Rattle.drafting.specs.Drafts.{IsDraft, IsUndrafted};
ghost use Rattle.drafting.specs.Members.{HasNone, IsObjectAt, PutsAll};
ghost use Rattle.drafting.specs.Roots.{DraftsRoot, IsRuleless, role_name, rule_rows};
ghost use Rattle.drafting.specs.Targets.{IsThere};
ghost use Rattle.drafting.specs.steps.Rules.{PutsRules, rules_view};

use crate::base::{base_members, next_version};
use crate::faults::{DraftFault, TopRole};
use crate::finishing::finish;
use crate::head::put_head;
use crate::members::{is_there, object_value, put, take_object, true_value};
use crate::rules::{Rule, rule_value};
use crate::tables::{put_keys, put_names};
use crate::terms::Terms;
use canonical_json::Value;
use metadata::Kind;
use std::alloc::{AllocError, Global};

impl TopRole {
    /// The name of the role (TUF 1.0, section 4.3, ROLE).
    pub fn name(self) -> &'static str
        ensures { result.now ≡ role_name self }
    {
        match self {
            TopRole::Root => "root",
            TopRole::Targets => "targets",
            TopRole::Snapshot => "snapshot",
            TopRole::Timestamp => "timestamp",
        }
    }
}

/// The next root: with these rules of roles, of which the last of a role decides, and with those of the other roles as they are. Its
/// keys are those that its rules have, with their names in `names`: a further member, which is signed over and decides nothing.
/// `Missing(role)`: no rule was there for the role, and none is given.
///
/// `held` and `begun` are the files that the draft follows and goes on from, as `draft_timestamp` says it.
pub fn draft_root(
    alloc: Global,
    held: Option<&[u8]>,
    begun: Option<&[u8]>,
    terms: Terms,
    rules: &[(TopRole, Rule<'_>)],
) -> Result<Vec<u8>, DraftFault>
    ensures draft { IfOk result (λ out. (part : Json) × DraftsRoot (option_map (λ f. f.now) held.entry) (option_map (λ f. f.now) begun.entry) terms (rules_view rules.now) part
        × IsDraft kinds.Root part out.items) }
    ensures fault { IfErr result (IsUndrafted kinds.Root (option_map (λ f. f.now) held.entry) (option_map (λ f. f.now) begun.entry) terms
        (DraftsRoot (option_map (λ f. f.now) held.entry) (option_map (λ f. f.now) begun.entry) terms (rules_view rules.now))
        (IsRuleless (option_map (λ f. f.now) held.entry) (option_map (λ f. f.now) begun.entry) (rules_view rules.now))) }
{
    let version = next_version(alloc, Kind::Root, held)?;
    let mut members = base_members(alloc, Kind::Root, held, begun)?;
    put_rules(alloc, &mut members, rules)?;
    put_head(alloc, &mut members, version, terms)?;
    finish(alloc, Kind::Root, members)
}

// Whether each of the four roles has a rule.
fn see_all(roles: &[(String, Value)]) -> Result<(), DraftFault>
    ensures ok { OnOk result ((role : TopRole) → IsThere (object (members_view roles.now)) (role_name role)) }
    ensures err { IfErr result (λ e. (role : TopRole) × (e ≡ DraftFault.Missing role) × HasNone (object (members_view roles.now)) (role_name role)) }
{
    see(roles, TopRole::Root)?;
    see(roles, TopRole::Targets)?;
    see(roles, TopRole::Snapshot)?;
    see(roles, TopRole::Timestamp)?;
    Ok(())
}

// Whether the role has a rule.
fn see(roles: &[(String, Value)], role: TopRole) -> Result<(), DraftFault>
    ensures ok { OnOk result (IsThere (object (members_view roles.now)) (role_name role)) }
    ensures err { IfErr result (λ e. (e ≡ DraftFault.Missing role) × HasNone (object (members_view roles.now)) (role_name role)) }
{
    let there = is_there(roles, role.name());
    if there {
        Ok(())
    } else {
        Err(DraftFault::Missing(role))
    }
}

// Puts the rules, and the keys and names that all rules then have.
fn put_rules(
    alloc: Global,
    members: &mut Vec<(String, Value)>,
    rules: &[(TopRole, Rule<'_>)],
) -> Result<(), DraftFault>
    ensures ok { OnOk result (PutsRules (rules_view rules.now) (object (members_view members.old.items)) (object (members_view members.new.items))) }
    ensures err { IfErr result (λ e. (e ≡ DraftFault.OutOfMemory) ⊎ ((old roles : Json) × (role : TopRole) × IsObjectAt (object (members_view members.old.items)) (codes "roles") old
        × PutsAll (rule_rows (rules_view rules.now)) old roles × HasNone roles (role_name role) × (e ≡ DraftFault.Missing role))) }
{
    let mut roles = take_object(alloc, members, "roles");
    put_roles(alloc, &mut roles, rules)?;
    match see_all(roles.as_slice()) {
        Ok(()) => {}
        Err(fault) => return Err(fault),
    }
    put_keys(alloc, members, rules, roles.as_slice())?;
    put_names(alloc, members, rules, roles.as_slice())?;
    put(alloc, members, "roles", object_value(roles))?;
    put(alloc, members, "consistent_snapshot", true_value())?;
    Ok(())
}

// Puts the rule of each role.
fn put_roles(
    alloc: Global,
    roles: &mut Vec<(String, Value)>,
    rules: &[(TopRole, Rule<'_>)],
) -> Result<(), AllocError>
    ensures { OnOk result (PutsAll (rule_rows (rules_view rules.now)) (object (members_view roles.old.items)) (object (members_view roles.new.items))) }
{
    for rule in rules {
        let value = rule_value(alloc, &rule.1)?;
        put(alloc, roles, rule.0.name(), value)?;
    }
    Ok(())
}
