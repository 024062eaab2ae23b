//! Drafts of links (in-toto 1.0, section 4.4).
ghost use Rattle.std.specs.Prelude.{◌≡◌, ◌⊎◌, codes, option_map, IfOk, IfErr, OnOk};
ghost use Rattle.canonical_json.specs.Json.{Json, object, text};
ghost use Rattle.canonical_json.specs.View.{members_view};
ghost use Rattle.denials.specs.declared.denial.Denial.{Denial};
ghost use Rattle.document_parts.specs.declared.documents.Kind.TheVariants as kinds;
ghost use Rattle.drafting.specs.Drafts.{IsDenied, IsHeldAnd};
ghost use Rattle.drafting.specs.Members.{Puts, PutsAll};
ghost use Rattle.chain_drafting.specs.Links.{DraftsLink, IsUnfitLink, IsUnsignedLink, Joins, Records, artifact_rows};
ghost use Rattle.chain_drafting.specs.steps.Said.{artifacts_view};

use crate::bases::link_members;
use crate::judging::finish_link;
use canonical_json::Value;
use drafting::{DraftFault, hashes_value, object_value, put, take_object, text_value};
use metadata::Digest;
use std::alloc::{AllocError, Global};

/// An artifact of a step: its path and its digest.
#[derive(Drop)]
pub struct Artifact {
    pub path: String,
    pub digest: Digest,
}

/// The link of the step of this name, without signatures: these are its materials and its products, and those that `begun` has
/// already, as `in-toto-record` starts and stops a step (in-toto 1.0, section 4.4). A path that is given again has the digest that is
/// given last.
///
/// A link has exactly one signature, so the draft is a document as soon as one signs it. `begun` is a file with signatures or
/// without, whose signed part has at most the members `_type`, `materials`, `name` and `products`. Errors: `Begun` where that is
/// denied by its bytes or its envelope, `Unfit` where the signed part would be no link's, and `OutOfMemory`.
pub fn draft_link(
    alloc: Global,
    begun: Option<&[u8]>,
    name: &str,
    materials: &[Artifact],
    products: &[Artifact],
) -> Result<Vec<u8>, DraftFault>
    ensures draft { IfOk result (λ out. (part : Json) × DraftsLink (option_map (λ f. f.now) begun.entry) name.now (artifacts_view materials.now) (artifacts_view products.now) part
        × IsUnsignedLink part out.items) }
    ensures fault { IfErr result (λ e. (e ≡ DraftFault.OutOfMemory)
        ⊎ (((d : Denial) × (e ≡ DraftFault.Begun d) × IsHeldAnd (option_map (λ f. f.now) begun.entry) (λ f. IsDenied kinds.Link f d))
        ⊎ ((d : Denial) × (e ≡ DraftFault.Unfit d)
        × ((part : Json) × DraftsLink (option_map (λ f. f.now) begun.entry) name.now (artifacts_view materials.now) (artifacts_view products.now) part
        × IsUnfitLink part d)))) }
{
    let mut members = link_members(alloc, begun)?;
    put_link(alloc, &mut members, name, materials, products)?;
    finish_link(alloc, members)
}

// Puts the name of the step, and joins its artifacts.
fn put_link(
    alloc: Global,
    members: &mut Vec<(String, Value)>,
    name: &str,
    materials: &[Artifact],
    products: &[Artifact],
) -> Result<(), AllocError>
    ensures { OnOk result (Records name.now (artifacts_view materials.now) (artifacts_view products.now) (object (members_view members.old.items)) (object (members_view members.new.items))) }
{
    put_artifacts(alloc, members, "materials", materials)?;
    put_name(alloc, members, name)?;
    put_artifacts(alloc, members, "products", products)
}

fn put_name(alloc: Global, members: &mut Vec<(String, Value)>, name: &str) -> Result<(), AllocError>
    ensures { OnOk result (Puts (codes "name") (text name.now) (object (members_view members.old.items)) (object (members_view members.new.items))) }
{
    let value = text_value(alloc, name)?;
    put(alloc, members, "name", value)
}

// Joins the artifacts to those under the name.
fn put_artifacts(
    alloc: Global,
    members: &mut Vec<(String, Value)>,
    name: &str,
    artifacts: &[Artifact],
) -> Result<(), AllocError>
    ensures { OnOk result (Joins name.now (artifacts_view artifacts.now) (object (members_view members.old.items)) (object (members_view members.new.items))) }
{
    let mut rows = take_object(alloc, members, name);
    add_artifacts(alloc, &mut rows, artifacts)?;
    put(alloc, members, name, object_value(rows))
}

// Puts these artifacts.
fn add_artifacts(
    alloc: Global,
    rows: &mut Vec<(String, Value)>,
    artifacts: &[Artifact],
) -> Result<(), AllocError>
    ensures { OnOk result (PutsAll (artifact_rows (artifacts_view artifacts.now)) (object (members_view rows.old.items)) (object (members_view rows.new.items))) }
{
    let mut rest = artifacts;
    'artifacts: while let Some((artifact, later)) = rest.split_first() {
        let value = hashes_value(alloc, &artifact.digest)?;
        put(alloc, rows, artifact.path.as_str(), value)?;
        rest = later;
    }
    Ok(())
}
