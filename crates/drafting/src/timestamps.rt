//! Drafts of timestamp metadata (TUF 1.0, section 4.6).
ghost use Rattle.std.specs.Prelude.{◌≡◌, option_map, IfOk, IfErr};
ghost use Rattle.canonical_json.specs.Json.{Json};
ghost use Rattle.canonical_json.specs.View.{view};
ghost use Rattle.document_parts.specs.declared.documents.Kind.TheVariants as kinds;
ghost use Rattle.drafting.specs.Drafts.{IsDraft, IsUndrafted, nothing_else};
ghost use Rattle.drafting.specs.Timestamps.{DraftsTimestamp, entry, snapshot_entry};

use crate::base::{base_members, next_version};
use crate::faults::DraftFault;
use crate::finishing::finish;
use crate::head::put_head;
use crate::members::{number_value, put};
use crate::terms::Terms;
use canonical_json::Value;
use metadata::Kind;
use std::alloc::{AllocError, Global};

/// The next timestamp: one that names this version of the snapshot, without its length and its digest.
///
/// `held` is the file of the document that the draft follows; a draft that follows none has version 1. `begun` is the file of a draft
/// that is gone on from: what is said is what it says, else what is held says, else nothing. `expires` and `term` are those of the
/// terms.
pub fn draft_timestamp(
    alloc: Global,
    held: Option<&[u8]>,
    begun: Option<&[u8]>,
    terms: Terms,
    snapshot: u32,
) -> Result<Vec<u8>, DraftFault>
    ensures draft { IfOk result (λ out. (part : Json) × DraftsTimestamp (option_map (λ f. f.now) held.entry) (option_map (λ f. f.now) begun.entry) terms snapshot part
        × IsDraft kinds.Timestamp part out.items) }
    ensures fault { IfErr result (IsUndrafted kinds.Timestamp (option_map (λ f. f.now) held.entry) (option_map (λ f. f.now) begun.entry) terms
        (DraftsTimestamp (option_map (λ f. f.now) held.entry) (option_map (λ f. f.now) begun.entry) terms snapshot) nothing_else) }
{
    let version = next_version(alloc, Kind::Timestamp, held)?;
    let mut members = base_members(alloc, Kind::Timestamp, held, begun)?;
    let meta = snapshot_value(alloc, snapshot)?;
    put(alloc, &mut members, "meta", meta)?;
    put_head(alloc, &mut members, version, terms)?;
    finish(alloc, Kind::Timestamp, members)
}

// {"snapshot.json":{"version":..}}
fn snapshot_value(alloc: Global, version: u32) -> Result<Value, AllocError>
    ensures { IfOk result (λ v. view v ≡ snapshot_entry version) }
{
    let mut members = Vec::new(alloc);
    let name = String::from_str(alloc, "snapshot.json")?;
    let value = entry_value(alloc, version)?;
    members.push((name, value))?;
    Ok(Value::Object(members))
}

/// {"version":..}
pub(crate) fn entry_value(alloc: Global, version: u32) -> Result<Value, AllocError>
    ensures { IfOk result (λ v. view v ≡ entry version) }
{
    let mut members = Vec::new(alloc);
    let name = String::from_str(alloc, "version")?;
    members.push((name, number_value(version)))?;
    Ok(Value::Object(members))
}
