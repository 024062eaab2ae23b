//! Drafts of targets metadata (TUF 1.0, section 4.5).
ghost use Rattle.std.specs.Prelude.{◌≡◌, ◌⊎◌, ◌∷◌, [], ℕ, true, false, codes, option_map, IfOk, IfErr, OnOk};
ghost use Rattle.canonical_json.specs.Json.{Json, object};
ghost use Rattle.canonical_json.specs.View.{view, members_view};
ghost use Rattle.document_parts.specs.declared.documents.Kind.TheVariants as kinds;
ghost use Rattle.drafting.specs.Drafts.{IsDraft, IsUndrafted};
ghost use Rattle.drafting.specs.Members.{Drops, HasNone, IsObjectAt, without};
ghost use Rattle.drafting.specs.Targets.{AddsAll, DraftsTargets, IsListing, IsNoTarget, IsThere, IsUnlisted, RemovesAll, hashes};
ghost use Rattle.drafting.specs.steps.Rows.{PutsListing, PutsTargets, addition_view, additions_view, changes_view, rows_view, texts_view};

use crate::base::{base_members, next_version};
use crate::faults::DraftFault;
use crate::finishing::finish;
use crate::head::put_head;
use crate::members::{is_there, number_value, object_value, put, take_object, take_out};
use crate::terms::Terms;
use canonical_json::Value;
use metadata::{Digest, Kind};
use std::alloc::{AllocError, Global};

/// A target that is added: its path, its length in bytes and its digest.
#[derive(Drop)]
pub struct Addition {
    pub path: String,
    pub length: u32,
    pub digest: Digest,
}

/// What changes of targets metadata: the paths that are taken away, and then the targets that are added. One that is listed already
/// keeps the other members of its listing, `custom` among them.
#[derive(Clone, Copy)]
pub struct TargetsChanges<'a> {
    pub add: &'a [Addition],
    pub remove: &'a [String],
}

/// The next targets metadata: with these changes, and else with what was listed. Where a path is added twice, the last decides.
/// `Unlisted(i)`: the path at the place i of those to be taken away is not listed, or stands among them before.
///
/// `held` and `begun` are the files that the draft follows and goes on from, as `draft_timestamp` says it.
pub fn draft_targets(
    alloc: Global,
    held: Option<&[u8]>,
    begun: Option<&[u8]>,
    terms: Terms,
    changes: &TargetsChanges<'_>,
) -> Result<Vec<u8>, DraftFault>
    ensures draft { IfOk result (λ out. (part : Json) × DraftsTargets (option_map (λ f. f.now) held.entry) (option_map (λ f. f.now) begun.entry) terms (changes_view changes.now) part
        × IsDraft kinds.Targets part out.items) }
    ensures fault { IfErr result (IsUndrafted kinds.Targets (option_map (λ f. f.now) held.entry) (option_map (λ f. f.now) begun.entry) terms
        (DraftsTargets (option_map (λ f. f.now) held.entry) (option_map (λ f. f.now) begun.entry) terms (changes_view changes.now))
        (IsNoTarget (option_map (λ f. f.now) held.entry) (option_map (λ f. f.now) begun.entry) (changes_view changes.now))) }
{
    let version = next_version(alloc, Kind::Targets, held)?;
    let mut members = base_members(alloc, Kind::Targets, held, begun)?;
    put_targets(alloc, &mut members, changes)?;
    put_head(alloc, &mut members, version, terms)?;
    finish(alloc, Kind::Targets, members)
}

// Makes the changes in `targets`.
fn put_targets(
    alloc: Global,
    members: &mut Vec<(String, Value)>,
    changes: &TargetsChanges<'_>,
) -> Result<(), DraftFault>
    ensures ok { OnOk result (PutsTargets (changes_view changes.now) (object (members_view members.old.items)) (object (members_view members.new.items))) }
    ensures err { IfErr result (λ e. (e ≡ DraftFault.OutOfMemory) ⊎ ((old : Json) × (i : ℕ) × IsObjectAt (object (members_view members.old.items)) (codes "targets") old
        × IsUnlisted (texts_view changes.now.remove.now) old i × (e ≡ DraftFault.Unlisted i))) }
{
    let mut targets = take_object(alloc, members, "targets");
    remove_all(&mut targets, changes.remove)?;
    add_all(alloc, &mut targets, changes.add)?;
    put(alloc, members, "targets", object_value(targets))?;
    Ok(())
}

/// Takes the members of these names out.
pub fn remove_all(targets: &mut Vec<(String, Value)>, paths: &[String]) -> Result<(), DraftFault>
    ensures rest { OnOk result (rows_view targets.new.items ≡ without (texts_view paths.now) (rows_view targets.old.items)) }
    ensures ok { OnOk result (RemovesAll (texts_view paths.now) (object (members_view targets.old.items)) (object (members_view targets.new.items))) }
    ensures err { IfErr result (λ e. (i : ℕ) × IsUnlisted (texts_view paths.now) (object (members_view targets.old.items)) i × (e ≡ DraftFault.Unlisted i)) }
{
    let mut at = 0;
    let mut rest = paths;
    'paths: while let Some((path, later)) = rest.split_first() {
        let there = take_listing(targets, path.as_str());
        if there {
            at += 1;
            rest = later;
        } else {
            return Err(DraftFault::Unlisted(at));
        }
    }
    Ok(())
}

// Takes the listing of the path out, and tells whether there was one.
fn take_listing(targets: &mut Vec<(String, Value)>, path: &str) -> bool
    ensures rest { rows_view targets.new.items ≡ without (path.now ∷ []) (rows_view targets.old.items) }
    ensures dropped { Drops path.now (object (members_view targets.old.items)) (object (members_view targets.new.items)) }
    ensures there { result ≡ true → IsThere (object (members_view targets.old.items)) path.now }
    ensures none { result ≡ false → HasNone (object (members_view targets.old.items)) path.now }
{
    let there = is_there(targets, path);
    take_out(targets, path);
    there
}

// Puts the listings of these targets.
fn add_all(
    alloc: Global,
    targets: &mut Vec<(String, Value)>,
    additions: &[Addition],
) -> Result<(), AllocError>
    ensures { OnOk result (AddsAll (additions_view additions.now) (object (members_view targets.old.items)) (object (members_view targets.new.items))) }
{
    let mut rest = additions;
    'additions: while let Some((addition, later)) = rest.split_first() {
        put_listing(alloc, targets, addition)?;
        rest = later;
    }
    Ok(())
}

// Puts the listing of a target.
fn put_listing(
    alloc: Global,
    targets: &mut Vec<(String, Value)>,
    said: &Addition,
) -> Result<(), AllocError>
    ensures { OnOk result (PutsListing (addition_view said.now).0 (addition_view said.now).1 (object (members_view targets.old.items)) (object (members_view targets.new.items))) }
{
    let mut listing = take_object(alloc, targets, said.path.as_str());
    put_said(alloc, &mut listing, said)?;
    put(alloc, targets, said.path.as_str(), object_value(listing))
}

// Puts the length and the digest of a target into its listing.
fn put_said(
    alloc: Global,
    listing: &mut Vec<(String, Value)>,
    said: &Addition,
) -> Result<(), AllocError>
    ensures { OnOk result (IsListing (addition_view said.now).1 (object (members_view listing.old.items)) (object (members_view listing.new.items))) }
{
    let value = hashes_value(alloc, &said.digest)?;
    put(alloc, listing, "hashes", value)?;
    put(alloc, listing, "length", number_value(said.length))
}

/// The member `hashes` of a digest: `{"sha256":..}`.
pub fn hashes_value(alloc: Global, digest: &Digest) -> Result<Value, AllocError>
    ensures { IfOk result (λ v. view v ≡ hashes digest.now.0) }
{
    let mut members = Vec::new(alloc);
    let name = String::from_str(alloc, "sha256")?;
    let digits = digest.text(alloc)?;
    members.push((name, Value::Text(digits)))?;
    Ok(Value::Object(members))
}
