//! What refers a target to its layout (this project's profile of TUF 1.0, section 4.5, custom).
ghost use Rattle.std.specs.Prelude.{◌≡◌, ◌⊎◌, ◌++◌, ◌∷◌, [], ℕ, codes, IfOk, IfErr, OnOk};
ghost use Rattle.canonical_json.specs.Json.{Json, object, no_members};
ghost use Rattle.canonical_json.specs.View.{view, members_view};
ghost use Rattle.denials.specs.declared.denial.Denial.{Denial};
ghost use Rattle.document_parts.specs.declared.documents.Kind.TheVariants as kinds;
ghost use Rattle.drafting.specs.Drafts.{IsDenied, IsDraft, IsUnfit};
ghost use Rattle.drafting.specs.Members.{HasNone, IsObjectAt, PutsAll};
ghost use Rattle.drafting.specs.Roots.{keys_of};
ghost use Rattle.chain_drafting.specs.References.{DraftsReference, IsNoTarget, IsReference, PutsReference, RefersTarget};
ghost use Rattle.chain_drafting.specs.Within.{Inside};
ghost use Rattle.chain_drafting.specs.steps.Recorded.{IsUnreferred, owner_rows, place_rows};
ghost use Rattle.drafting.specs.steps.Rows.{rows_view};
ghost use Rattle.chain_drafting.specs.steps.Said.{reference_view};

use crate::bases::document_members;
use crate::keys::table_value;
use crate::lists::{push_member, texts_value};
use canonical_json::Value;
use drafting::{
    DraftFault, Rule, finish, ids_value, is_there, number_value, object_value, put, take_object,
    text_value,
};
use metadata::Kind;
use std::alloc::{AllocError, Global};

/// What refers a target to a layout: the rule of the layout's owners, the path of the layout and those of 1 to 64 links as targets,
/// and the step among whose products the target stands, with its path there.
#[derive(Clone, Copy)]
pub struct Reference<'a> {
    pub owners: Rule<'a>,
    pub path: &'a str,
    pub links: &'a [String],
    pub product: &'a str,
    pub step: &'a str,
}

/// The value of `custom.layout` in a target's listing. It is not judged here whether what it says keeps to the grammars.
pub fn reference_value(alloc: Global, said: &Reference<'_>) -> Result<Value, AllocError>
    ensures { IfOk result (λ v. IsReference (reference_view said.now) (view v)) }
{
    let mut members = Vec::new(alloc);
    push_owners(alloc, &mut members, said)?;
    push_places(alloc, &mut members, said)?;
    let threshold = number_value(u32::from(said.owners.threshold));
    push_member(alloc, &mut members, "threshold", threshold)?;
    Ok(object_value(members))
}

// Puts the ids and the table of the owners' keys.
fn push_owners(
    alloc: Global,
    members: &mut Vec<(String, Value)>,
    said: &Reference<'_>,
) -> Result<(), AllocError>
    ensures { OnOk result ((keys : Json) × PutsAll (keys_of (reference_view said.now).owners.keys) (object no_members) keys
        × (rows_view members.new.items ≡ rows_view members.old.items ++ owner_rows keys (reference_view said.now))) }
{
    let ids = ids_value(alloc, said.owners.keys)?;
    push_member(alloc, members, "keyids", ids)?;
    let keys = table_value(alloc, said.owners.keys)?;
    push_member(alloc, members, "keys", keys)
}

// Puts the links, the layout, the product and the step.
fn push_places(
    alloc: Global,
    members: &mut Vec<(String, Value)>,
    said: &Reference<'_>,
) -> Result<(), AllocError>
    ensures { OnOk result (rows_view members.new.items ≡ rows_view members.old.items ++ place_rows (reference_view said.now)) }
{
    let links = texts_value(alloc, said.links)?;
    push_member(alloc, members, "links", links)?;
    let path = text_value(alloc, said.path)?;
    push_member(alloc, members, "path", path)?;
    let product = text_value(alloc, said.product)?;
    push_member(alloc, members, "product", product)?;
    let step = text_value(alloc, said.step)?;
    push_member(alloc, members, "step", step)
}

/// The targets metadata of the file, without signatures, in which the target's listing has this reference in `custom.layout`, and else
/// what it had; the version, the terms and every other listing are as they were.
///
/// Errors: `Begun` where the file is no targets metadata, `Unlisted(0)` where it does not list the target, `Unfit` where the document
/// would be denied, as where the reference has no link, and `OutOfMemory`.
pub fn with_reference(
    alloc: Global,
    file: &[u8],
    target: &str,
    said: &Reference<'_>,
) -> Result<Vec<u8>, DraftFault>
    ensures draft { IfOk result (λ out. (part : Json) × DraftsReference file.now target.now (reference_view said.now) part × IsDraft kinds.Targets part out.items) }
    ensures fault { IfErr result (λ e. (e ≡ DraftFault.OutOfMemory)
        ⊎ (((d : Denial) × (e ≡ DraftFault.Begun d) × IsDenied kinds.Targets file.now d)
        ⊎ (((e ≡ DraftFault.Unlisted 0) × IsNoTarget file.now target.now)
        ⊎ ((d : Denial) × (part : Json) × (e ≡ DraftFault.Unfit d) × DraftsReference file.now target.now (reference_view said.now) part × IsUnfit kinds.Targets part d)))) }
{
    let mut members = document_members(alloc, Kind::Targets, file)?;
    put_reference(alloc, &mut members, target, said)?;
    finish(alloc, Kind::Targets, members)
}

// Puts the reference into the listing of the target.
fn put_reference(
    alloc: Global,
    members: &mut Vec<(String, Value)>,
    target: &str,
    said: &Reference<'_>,
) -> Result<(), DraftFault>
    ensures ok { OnOk result (RefersTarget target.now (reference_view said.now) (object (members_view members.old.items)) (object (members_view members.new.items))) }
    ensures err { IfErr result (λ e. (e ≡ DraftFault.OutOfMemory) ⊎ ((e ≡ DraftFault.Unlisted 0) × IsUnreferred (object (members_view members.old.items)) target.now)) }
{
    let mut targets = take_object(alloc, members, "targets");
    put_in_listing(alloc, &mut targets, target, said)?;
    put(alloc, members, "targets", object_value(targets))?;
    Ok(())
}

fn put_in_listing(
    alloc: Global,
    targets: &mut Vec<(String, Value)>,
    target: &str,
    said: &Reference<'_>,
) -> Result<(), DraftFault>
    ensures ok { OnOk result (Inside target.now (Inside (codes "custom") (PutsReference (reference_view said.now))) (object (members_view targets.old.items)) (object (members_view targets.new.items))) }
    ensures err { IfErr result (λ e. (e ≡ DraftFault.OutOfMemory) ⊎ ((e ≡ DraftFault.Unlisted 0) × HasNone (object (members_view targets.old.items)) target.now)) }
{
    if !is_there(targets, target) {
        return Err(DraftFault::Unlisted(0));
    }
    let mut listing = take_object(alloc, targets, target);
    put_in_custom(alloc, &mut listing, said)?;
    put(alloc, targets, target, object_value(listing))?;
    Ok(())
}

fn put_in_custom(
    alloc: Global,
    listing: &mut Vec<(String, Value)>,
    said: &Reference<'_>,
) -> Result<(), AllocError>
    ensures { OnOk result (Inside (codes "custom") (PutsReference (reference_view said.now)) (object (members_view listing.old.items)) (object (members_view listing.new.items))) }
{
    let mut custom = take_object(alloc, listing, "custom");
    put_layout(alloc, &mut custom, said)?;
    put(alloc, listing, "custom", object_value(custom))
}

fn put_layout(
    alloc: Global,
    custom: &mut Vec<(String, Value)>,
    said: &Reference<'_>,
) -> Result<(), AllocError>
    ensures { OnOk result (PutsReference (reference_view said.now) (object (members_view custom.old.items)) (object (members_view custom.new.items))) }
{
    let value = reference_value(alloc, said)?;
    put(alloc, custom, "layout", value)
}
