//! Drafts of snapshot metadata (TUF 1.0, section 4.4).
ghost use Rattle.std.specs.Prelude.{◌≡◌, option_map, IfOk, IfErr, OnOk};
ghost use Rattle.canonical_json.specs.Json.{Json, object};
ghost use Rattle.canonical_json.specs.View.{view, members_view};
ghost use Rattle.document_parts.specs.declared.documents.Kind.TheVariants as kinds;
ghost use Rattle.drafting.specs.Drafts.{IsDraft, IsUndrafted, nothing_else};
ghost use Rattle.drafting.specs.Members.{Puts, PutsAll};
ghost use Rattle.drafting.specs.Snapshots.{DraftsSnapshot, entries, file_name};
ghost use Rattle.drafting.specs.Timestamps.{entry};
ghost use Rattle.drafting.specs.steps.Rows.{PutsMeta, roles_view};

use crate::base::{base_members, next_version};
use crate::faults::DraftFault;
use crate::finishing::finish;
use crate::head::put_head;
use crate::members::{object_value, put, take_object};
use crate::terms::Terms;
use crate::timestamps::entry_value;
use canonical_json::Value;
use metadata::Kind;
use std::alloc::{AllocError, Global};

/// The next snapshot: one that lists these versions of these roles, and else what was listed. Where a role is named twice, the last
/// decides. An entry that changes has no length and no digest.
///
/// `held` and `begun` are the files that the draft follows and goes on from, as `draft_timestamp` says it.
pub fn draft_snapshot(
    alloc: Global,
    held: Option<&[u8]>,
    begun: Option<&[u8]>,
    terms: Terms,
    roles: &[(String, u32)],
) -> Result<Vec<u8>, DraftFault>
    ensures draft { IfOk result (λ out. (part : Json) × DraftsSnapshot (option_map (λ f. f.now) held.entry) (option_map (λ f. f.now) begun.entry) terms (roles_view roles.now) part
        × IsDraft kinds.Snapshot part out.items) }
    ensures fault { IfErr result (IsUndrafted kinds.Snapshot (option_map (λ f. f.now) held.entry) (option_map (λ f. f.now) begun.entry) terms
        (DraftsSnapshot (option_map (λ f. f.now) held.entry) (option_map (λ f. f.now) begun.entry) terms (roles_view roles.now)) nothing_else) }
{
    let version = next_version(alloc, Kind::Snapshot, held)?;
    let mut members = base_members(alloc, Kind::Snapshot, held, begun)?;
    put_meta(alloc, &mut members, roles)?;
    put_head(alloc, &mut members, version, terms)?;
    finish(alloc, Kind::Snapshot, members)
}

// Puts the entries of these roles into `meta`.
fn put_meta(
    alloc: Global,
    members: &mut Vec<(String, Value)>,
    roles: &[(String, u32)],
) -> Result<(), AllocError>
    ensures { OnOk result (PutsMeta (roles_view roles.now) (object (members_view members.old.items)) (object (members_view members.new.items))) }
{
    let mut meta = take_object(alloc, members, "meta");
    put_roles(alloc, &mut meta, roles)?;
    put(alloc, members, "meta", object_value(meta))
}

// Puts the entry of each role.
fn put_roles(
    alloc: Global,
    meta: &mut Vec<(String, Value)>,
    roles: &[(String, u32)],
) -> Result<(), AllocError>
    ensures { OnOk result (PutsAll (entries (roles_view roles.now)) (object (members_view meta.old.items)) (object (members_view meta.new.items))) }
{
    let mut rest = roles;
    'roles: while let Some((row, later)) = rest.split_first() {
        put_role(alloc, meta, row.0.as_str(), row.1)?;
        rest = later;
    }
    Ok(())
}

// Puts the entry of a role.
fn put_role(
    alloc: Global,
    meta: &mut Vec<(String, Value)>,
    role: &str,
    version: u32,
) -> Result<(), AllocError>
    ensures { OnOk result (Puts (file_name role.now) (entry version) (object (members_view meta.old.items)) (object (members_view meta.new.items))) }
{
    let name = format!(in alloc; "{role}.json")?;
    let value = entry_value(alloc, version)?;
    put(alloc, meta, name.as_str(), value)
}
