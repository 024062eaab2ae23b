// Root metadata (TUF 1.0, section 4.3).
ghost use Rattle.std.specs.Prelude.{◌≡◌, ℕ, codes, MatchOption, IfOk, IfErr};
ghost use Rattle.canonical_json.specs.Spelling.{IsProper};
ghost use Rattle.canonical_json.specs.View.{view};
ghost use Rattle.keys_roles.specs.Views.{table_view};
ghost use Rattle.document_parts.specs.Bodies.{Roles, AreRoles, HasRootHead, IsRoot};
ghost use Rattle.document_parts.specs.Documents as documents;
ghost use Rattle.document_parts.specs.steps.Faults.{IsIll, IsMisnamed, IsFaulty};
ghost use Rattle.document_parts.specs.Members.{Has};
ghost use Rattle.document_parts.specs.Parts.{IsSpecVersionOf, NamesAreIds};
ghost use Rattle.document_parts.specs.steps.Tables.{spelled_table, HasKeyed};
ghost use Rattle.metadata.specs.steps.Spelled.{spelled_roles, keyed_view, AreOver};
ghost use Rattle.document_parts.specs.Views.{profile_view, root_view};

use canonical_json::Value;
use document_parts::documents::{Profile, Root, ShapeFault};
use document_parts::head::expires_of;
use document_parts::keys::{
    SpelledRule, SpelledTable, keys_of, name_rule, name_table, read_role_rule,
};
use document_parts::members::{four_members, is_true_at, member_of};
use document_parts::moment::Moment;
use document_parts::parts::{profile_of, version_of};
use document_parts::required::required_of;
use document_parts::trail::Trail;
use keys_roles::{KeyTable, RoleRule};
use std::alloc::Global;

/// The rules of the four roles, as a file spells them.
#[derive(Drop)]
pub(crate) struct SpelledRoles {
    pub root: SpelledRule,
    pub snapshot: SpelledRule,
    pub targets: SpelledRule,
    pub timestamp: SpelledRule,
}

/// The keys and the rules of the four roles.
#[derive(Drop)]
pub(crate) struct Keyed {
    pub keys: KeyTable,
    pub root: RoleRule,
    pub snapshot: RoleRule,
    pub targets: RoleRule,
    pub timestamp: RoleRule,
}

/// The root that the signed part is, its keys named by their ids.
pub(crate) fn read_root(
    alloc: Global,
    signed: &Value,
    trail: &mut Trail,
) -> Result<Root, ShapeFault>
    requires { IsProper (view signed.now) }
    ensures ok { IfOk result (λ r. IsRoot (view signed.now) (root_view r) × NamesAreIds (table_view r.keys)) }
    ensures err { IfErr result (IsFaulty (IsRoot (view signed.now)) (λ r. NamesAreIds r.keys)) }
{
    let Some((profile, version, expires)) = read_root_head(signed, trail) else {
        return Err(ShapeFault::WrongShape);
    };
    trail.enter("consistent_snapshot");
    if !is_true_at(signed, "consistent_snapshot") {
        return Err(ShapeFault::WrongShape);
    }
    trail.leave();
    let required = required_of(alloc, signed, profile, trail)?;
    let keyed = keyed_of(alloc, signed, trail)?;
    Ok(Root {
        version,
        expires,
        keys: keyed.keys,
        root: keyed.root,
        targets: keyed.targets,
        snapshot: keyed.snapshot,
        timestamp: keyed.timestamp,
        profile,
        required,
    })
}

// The profile, the version and the expiry that the signed part has.
fn read_root_head(signed: &Value, trail: &mut Trail) -> Option<(Profile, u32, Moment)>
    requires { IsProper (view signed.now) }
    ensures { MatchOption result ((profile : documents.Profile) (version expires : ℕ) → HasRootHead (view signed.now) profile version expires → ⊥)
        (λ head. HasRootHead (view signed.now) (profile_view head.0) head.1 head.2) }
{
    trail.enter("spec_version");
    let profile = profile_at(signed)?;
    trail.turn("version");
    let version = version_of(signed)?;
    trail.turn("expires");
    let expires = expires_of(signed)?;
    trail.leave();
    Some((profile, version, expires))
}

// The profile that the `spec_version` of the object tells.
fn profile_at(signed: &Value) -> Option<Profile>
    requires { IsProper (view signed.now) }
    ensures { MatchOption result ((p : documents.Profile) → Has (view signed.now) (codes "spec_version") (IsSpecVersionOf p) → ⊥)
        (λ p. Has (view signed.now) (codes "spec_version") (IsSpecVersionOf (profile_view p))) }
{
    let found = member_of(signed, "spec_version")?;
    let profile = profile_of(found)?;
    Some(profile)
}

// The keys and the rules of the four roles that the object has, each key named by its id.
fn keyed_of(alloc: Global, signed: &Value, trail: &mut Trail) -> Result<Keyed, ShapeFault>
    requires { IsProper (view signed.now) }
    ensures ok { IfOk result (λ k. HasKeyed (view signed.now) (keyed_view k) × NamesAreIds (table_view k.keys)) }
    ensures err { IfErr result (IsFaulty (HasKeyed (view signed.now)) (λ k. NamesAreIds k.0)) }
{
    let keys = keys_of(alloc, signed, trail)?;
    let roles = roles_of(alloc, signed, &keys, trail)?;
    let keyed = named(alloc, &keys, &roles, trail)?;
    Ok(keyed)
}

// The rules of the four roles that the object has under `roles`.
fn roles_of(
    alloc: Global,
    signed: &Value,
    keys: &SpelledTable,
    trail: &mut Trail,
) -> Result<SpelledRoles, ShapeFault>
    requires { IsProper (view signed.now) }
    ensures ok { IfOk result (λ r. Has (view signed.now) (codes "roles") (λ x. AreRoles x (spelled_table keys.now) (spelled_roles r))) }
    ensures err { IfErr result (IsIll ((r : Roles) × Has (view signed.now) (codes "roles") (λ x. AreRoles x (spelled_table keys.now) r))) }
{
    trail.enter("roles");
    let Some(roles) = member_of(signed, "roles") else {
        return Err(ShapeFault::WrongShape);
    };
    let roles = read_roles(alloc, roles, keys, trail)?;
    trail.leave();
    Ok(roles)
}

// The rules of the four roles that the value is.
fn read_roles(
    alloc: Global,
    roles: &Value,
    keys: &SpelledTable,
    trail: &mut Trail,
) -> Result<SpelledRoles, ShapeFault>
    requires { IsProper (view roles.now) }
    ensures ok { IfOk result (λ r. AreRoles (view roles.now) (spelled_table keys.now) (spelled_roles r)) }
    ensures err { IfErr result (IsIll ((r : Roles) × AreRoles (view roles.now) (spelled_table keys.now) r)) }
{
    let Some((root, snapshot, targets, timestamp)) = four_members(
        roles,
        "root",
        "snapshot",
        "targets",
        "timestamp",
    ) else {
        return Err(ShapeFault::WrongShape);
    };
    trail.enter("root");
    let root = read_role_rule(alloc, root, "keyids", keys, trail)?;
    trail.turn("snapshot");
    let snapshot = read_role_rule(alloc, snapshot, "keyids", keys, trail)?;
    trail.turn("targets");
    let targets = read_role_rule(alloc, targets, "keyids", keys, trail)?;
    trail.turn("timestamp");
    let timestamp = read_role_rule(alloc, timestamp, "keyids", keys, trail)?;
    trail.leave();
    Ok(SpelledRoles {
        root,
        snapshot,
        targets,
        timestamp,
    })
}

// The keys and the rules, each key named by its id.
fn named(
    alloc: Global,
    keys: &SpelledTable,
    roles: &SpelledRoles,
    trail: &mut Trail,
) -> Result<Keyed, ShapeFault>
    requires { AreOver keys.now roles.now }
    ensures ok { IfOk result (λ k. (keyed_view k ≡ (spelled_table keys.now, spelled_roles roles.now)) × NamesAreIds (spelled_table keys.now)) }
    ensures err { IfErr result (IsMisnamed (NamesAreIds (spelled_table keys.now))) }
{
    let table = name_table(alloc, keys, trail)?;
    let root = name_rule(alloc, &roles.root)?;
    let targets = name_rule(alloc, &roles.targets)?;
    let snapshot = name_rule(alloc, &roles.snapshot)?;
    let timestamp = name_rule(alloc, &roles.timestamp)?;
    Ok(Keyed {
        keys: table,
        root,
        targets,
        snapshot,
        timestamp,
    })
}
