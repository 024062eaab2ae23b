//! Drafts of links as files.
ghost use Rattle.std.specs.Prelude.{◌≡◌, ◌⊎◌, List, ℕ, codes, false, IsTrue, IfOk, IfErr, OnOk};
ghost use Rattle.canonical_json.specs.Json.{Json, object};
ghost use Rattle.canonical_json.specs.Spelling.{IsProper};
ghost use Rattle.canonical_json.specs.View.{view, members_view};
ghost use Rattle.denials.specs.declared.denial.Denial.{Denial};
ghost use Rattle.denials.specs.declared.denial.Denial.TheVariants as denials;
ghost use Rattle.document_parts.specs.Bodies.{AreArtifacts, IsTextOf};
ghost use Rattle.document_parts.specs.Links.{Artifacts};
ghost use Rattle.document_parts.specs.Members.{IsText};
ghost use Rattle.path_patterns.specs.Grammar.{IsName};
ghost use Rattle.drafting.specs.Drafts.{unsigned_file};
ghost use Rattle.chain_drafting.specs.Links.{HasLinkMembers, IsLinkPart, IsUnfitLink, IsUnsignedLink};
ghost use Rattle.chain_drafting.specs.steps.Recorded.{IsLinkFile};

use canonical_json::Value;
use drafting::{Denial, DraftFault, file_of, written};
use limits::FILE_LIMIT;
use metadata::{ShapeFault, Trail, four_members, read_artifacts, text_of, two_members};
use path_patterns::is_role_name;
use std::alloc::Global;

/// The file without signatures of a signed part with these members, which are a link's.
pub(crate) fn finish_link(
    alloc: Global,
    members: Vec<(String, Value)>,
) -> Result<Vec<u8>, DraftFault>
    ensures ok { IfOk result (λ out. IsUnsignedLink (object (members_view members.items)) out.items) }
    ensures err { IfErr result (λ e. (e ≡ DraftFault.OutOfMemory) ⊎ ((d : Denial) × (e ≡ DraftFault.Unfit d) × IsUnfitLink (object (members_view members.items)) d)) }
{
    let file = file_of(alloc, members)?;
    link_bytes(alloc, &file)
}

// The bytes of the file.
fn link_bytes(alloc: Global, file: &Value) -> Result<Vec<u8>, DraftFault>
    ensures ok { IfOk result (λ out. (part : Json) → view file.now ≡ unsigned_file part → IsUnsignedLink part out.items) }
    ensures err { IfErr result (λ e. (e ≡ DraftFault.OutOfMemory)
        ⊎ ((d : Denial) × (e ≡ DraftFault.Unfit d) × ((part : Json) → view file.now ≡ unsigned_file part → IsUnfitLink part d))) }
{
    let bytes = written(alloc, file)?;
    if bytes.len() > FILE_LIMIT {
        return Err(DraftFault::Unfit(Denial::TooLong));
    }
    match judge_file(alloc, file) {
        Ok(()) => Ok(bytes),
        Err(fault) => Err(fault),
    }
}

// Whether the signed part of the file is a link's, beside any one signature.
fn judge_file(alloc: Global, file: &Value) -> Result<(), DraftFault>
    requires { IsProper (view file.now) }
    ensures ok { OnOk result (IsLinkFile (view file.now)) }
    ensures err { IfErr result (λ e. (e ≡ DraftFault.OutOfMemory)
        ⊎ ((e ≡ DraftFault.Unfit denials.WrongShape) × ((part : Json) → view file.now ≡ unsigned_file part → HasLinkMembers part → ⊥))) }
{
    match two_members(file, "signatures", "signed") {
        Some((_, part)) => judge_part(alloc, part),
        None => Err(DraftFault::Unfit(Denial::WrongShape)),
    }
}

fn judge_part(alloc: Global, part: &Value) -> Result<(), DraftFault>
    requires { IsProper (view part.now) }
    ensures ok { OnOk result (IsLinkPart (view part.now)) }
    ensures err { IfErr result (λ e. (e ≡ DraftFault.OutOfMemory) ⊎ ((e ≡ DraftFault.Unfit denials.WrongShape) × (HasLinkMembers (view part.now) → ⊥))) }
{
    match four_members(part, "_type", "materials", "name", "products") {
        Some((kind, materials, name, products)) if is_link(kind) && is_step(name) => {
            judge_artifacts(alloc, materials)?;
            judge_artifacts(alloc, products)
        }
        _ => Err(DraftFault::Unfit(Denial::WrongShape)),
    }
}

fn is_link(value: &Value) -> bool
    ensures yes { IsTrue result → IsText (view value.now) (codes "link") }
    ensures no { result ≡ false → IsText (view value.now) (codes "link") → ⊥ }
{
    match text_of(value) {
        Some(text) => *text == *"link",
        None => false,
    }
}

fn is_step(value: &Value) -> bool
    ensures yes { IsTrue result → (n : List ℕ) × IsTextOf IsName (view value.now) n }
    ensures no { result ≡ false → (n : List ℕ) → IsTextOf IsName (view value.now) n → ⊥ }
{
    match text_of(value) {
        Some(text) => is_role_name(text),
        None => false,
    }
}

// Whether the value is what a link says of artifacts.
fn judge_artifacts(alloc: Global, value: &Value) -> Result<(), DraftFault>
    requires { IsProper (view value.now) }
    ensures ok { OnOk result ((a : Artifacts) × AreArtifacts (view value.now) a) }
    ensures err { IfErr result (λ e. (e ≡ DraftFault.OutOfMemory)
        ⊎ ((e ≡ DraftFault.Unfit denials.WrongShape) × ((a : Artifacts) → AreArtifacts (view value.now) a → ⊥))) }
{
    match read_artifacts(alloc, value, &mut Trail::new()) {
        Ok(_) => Ok(()),
        Err(ShapeFault::OutOfMemory) => Err(DraftFault::OutOfMemory),
        Err(_) => Err(DraftFault::Unfit(Denial::WrongShape)),
    }
}
