//! What the drafts go on from.
ghost use Rattle.std.specs.Prelude.{◌≡◌, ◌⊎◌, List, ℕ, option_map, IfOk, IfErr};
ghost use Rattle.canonical_json.specs.Json.{object};
ghost use Rattle.canonical_json.specs.Spelling.{IsCanonical};
ghost use Rattle.canonical_json.specs.View.{members_view};
ghost use Rattle.denials.specs.declared.denial.Denial.{Denial};
ghost use Rattle.keys_roles.specs.Plain.{Signature};
ghost use Rattle.metadata.specs.Shape.{IsSignedBy};
ghost use Rattle.document_parts.specs.declared.documents.Kind.TheVariants as kinds;
ghost use Rattle.drafting.specs.Drafts.{HasPart, IsDenied, IsHeldAnd};
ghost use Rattle.chain_drafting.specs.Layouts.{IsLayoutBase};
ghost use Rattle.chain_drafting.specs.Links.{IsLinkBase};
ghost use Rattle.chain_drafting.specs.Within.{typed_part};

use canonical_json::Value;
use drafting::{DraftFault, base_members, begun_fault, part_members, text_value};
use metadata::{Kind, read_signed};
use std::alloc::{AllocError, Global};

/// The members of the layout that a draft goes on from.
pub(crate) fn layout_members(
    alloc: Global,
    begun: Option<&[u8]>,
) -> Result<Vec<(String, Value)>, DraftFault>
    ensures ok { IfOk result (λ ms. IsLayoutBase (option_map (λ f. f.now) begun.entry) (object (members_view ms.items))) }
    ensures err { IfErr result (λ e. (e ≡ DraftFault.OutOfMemory)
        ⊎ ((d : Denial) × (e ≡ DraftFault.Begun d) × IsHeldAnd (option_map (λ f. f.now) begun.entry) (λ f. IsDenied kinds.Layout f d))) }
{
    match begun {
        Some(file) => document_members(alloc, Kind::Layout, file),
        None => match typed_members(alloc, "layout") {
            Ok(members) => Ok(members),
            Err(_) => Err(DraftFault::OutOfMemory),
        },
    }
}

/// The members of the signed part of the document of the kind that the file is.
pub(crate) fn document_members(
    alloc: Global,
    kind: Kind,
    file: &[u8],
) -> Result<Vec<(String, Value)>, DraftFault>
    ensures ok { IfOk result (λ ms. HasPart kind file.now (object (members_view ms.items))) }
    ensures err { IfErr result (λ e. (e ≡ DraftFault.OutOfMemory) ⊎ ((d : Denial) × (e ≡ DraftFault.Begun d) × IsDenied kind file.now d)) }
{
    base_members(alloc, kind, None, Some(file))
}

/// The members of the link that a draft goes on from.
pub(crate) fn link_members(
    alloc: Global,
    begun: Option<&[u8]>,
) -> Result<Vec<(String, Value)>, DraftFault>
    ensures ok { IfOk result (λ ms. IsLinkBase (option_map (λ f. f.now) begun.entry) (object (members_view ms.items))) }
    ensures err { IfErr result (λ e. (e ≡ DraftFault.OutOfMemory)
        ⊎ ((d : Denial) × (e ≡ DraftFault.Begun d) × IsHeldAnd (option_map (λ f. f.now) begun.entry) (λ f. IsDenied kinds.Link f d))) }
{
    match begun {
        Some(file) => signed_members(alloc, file),
        None => match typed_members(alloc, "link") {
            Ok(members) => Ok(members),
            Err(_) => Err(DraftFault::OutOfMemory),
        },
    }
}

// The members of what is signed of the file, or would be.
fn signed_members(alloc: Global, file: &[u8]) -> Result<Vec<(String, Value)>, DraftFault>
    ensures ok { IfOk result (λ ms. (entries : List Signature) × (signed : List ℕ) × IsSignedBy file.now entries signed × IsCanonical (object (members_view ms.items)) signed) }
    ensures err { IfErr result (λ e. (e ≡ DraftFault.OutOfMemory) ⊎ ((d : Denial) × (e ≡ DraftFault.Begun d) × IsDenied kinds.Link file.now d)) }
{
    match read_signed(alloc, file) {
        Ok(found) => match part_members(alloc, found.signed) {
            Ok(members) => Ok(members),
            Err(_) => Err(DraftFault::OutOfMemory),
        },
        Err(fault) => Err(begun_fault(fault)),
    }
}

// A type, and no other member.
fn typed_members(alloc: Global, type_name: &str) -> Result<Vec<(String, Value)>, AllocError>
    ensures { IfOk result (λ ms. object (members_view ms.items) ≡ typed_part type_name.now) }
{
    let mut members = Vec::new(alloc);
    let name = String::from_str(alloc, "_type")?;
    let value = text_value(alloc, type_name)?;
    members.push((name, value))?;
    Ok(members)
}
