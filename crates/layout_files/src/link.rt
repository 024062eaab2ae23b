// Links (in-toto 1.0, section 4.4).
ghost use Rattle.std.specs.Prelude.{◌≡◌, ℕ, List, codes, map, IfOk, IfErr};
ghost use Rattle.canonical_json.specs.Json.{EachMember};
ghost use Rattle.canonical_json.specs.Spelling.{IsProper, IsSound};
ghost use Rattle.canonical_json.specs.View.{view, members_view};
ghost use Rattle.keys_roles.specs.Views.{entries_view};
ghost use Rattle.document_parts.specs.Bodies.{AreArtifacts, IsArtifact, IsLink};
ghost use Rattle.document_parts.specs.Links as plain;
ghost use Rattle.document_parts.specs.Members.{Has, MembersAre};
ghost use Rattle.document_parts.specs.RuleViews.{artifacts_view, link_view};
ghost use Rattle.layout_files.specs.steps.Spelled.{artifact_view, artifact_views};
ghost use Rattle.document_parts.specs.steps.Faults.{IsIll};

use canonical_json::Value;
use document_parts::documents::ShapeFault;
use document_parts::links::{Artifacts, Link};
use document_parts::members::{member_of, members_of};
use document_parts::names::name_at;
use document_parts::parts::read_hashes;
use document_parts::trail::Trail;
use keys_roles::Signature;
use path_patterns::{Digest, TargetPath};
use std::alloc::Global;

/// The link that the signed part is, beside one signature.
pub fn read_link(
    alloc: Global,
    signatures: &[Signature],
    signed: &Value,
    trail: &mut Trail,
) -> Result<Link, ShapeFault>
    requires { IsProper (view signed.now) }
    ensures ok { IfOk result (λ l. IsLink (entries_view signatures.now) (view signed.now) (link_view l)) }
    ensures err { IfErr result (IsIll ((l : plain.Link) × IsLink (entries_view signatures.now) (view signed.now) l)) }
{
    if signatures.len() != 1 {
        trail.turn("signatures");
        return Err(ShapeFault::WrongShape);
    }
    let name = name_at(alloc, signed, "name", trail)?;
    let materials = artifacts_at(alloc, signed, "materials", trail)?;
    let products = artifacts_at(alloc, signed, "products", trail)?;
    Ok(Link {
        name,
        materials,
        products,
    })
}

// The artifacts that the object has under the name.
fn artifacts_at(
    alloc: Global,
    value: &Value,
    name: &'static str,
    trail: &mut Trail,
) -> Result<Artifacts, ShapeFault>
    requires { IsProper (view value.now) }
    ensures ok { IfOk result (λ a. Has (view value.now) name.now (λ x. AreArtifacts x (artifacts_view a))) }
    ensures err { IfErr result (IsIll ((a : plain.Artifacts) × Has (view value.now) name.now (λ x. AreArtifacts x a))) }
{
    trail.enter(name);
    let Some(found) = member_of(value, name) else {
        return Err(ShapeFault::WrongShape);
    };
    let artifacts = read_artifacts(alloc, found, trail)?;
    trail.leave();
    Ok(artifacts)
}

/// The artifacts that the value is, in the order of their paths, which is that of the members.
///
/// Errors: `WrongShape` where it is no object from target paths to digests, and `OutOfMemory`.
pub fn read_artifacts(
    alloc: Global,
    value: &Value,
    trail: &mut Trail,
) -> Result<Artifacts, ShapeFault>
    requires { IsProper (view value.now) }
    ensures ok { IfOk result (λ a. AreArtifacts (view value.now) (artifacts_view a)) }
    ensures err { IfErr result (IsIll ((a : plain.Artifacts) × AreArtifacts (view value.now) a)) }
{
    let Some(members) = members_of(value) else {
        return Err(ShapeFault::WrongShape);
    };
    trail.enter_entries();
    let rows = read_rows(alloc, members, trail)?;
    trail.leave();
    Ok(Artifacts { rows })
}

fn read_rows(
    alloc: Global,
    members: &[(String, Value)],
    trail: &mut Trail,
) -> Result<Vec<(TargetPath, Digest)>, ShapeFault>
    ensures ok { IfOk result (λ rows. MembersAre IsArtifact (members_view members.now) (artifact_views rows.items)) }
    ensures err { IfErr result (IsIll ((a : plain.Artifacts) × MembersAre IsArtifact (members_view members.now) a)) }
{
    let mut rows = Vec::new(alloc);
    let mut rest = members;
    'members: while let Some((member, later)) = rest.split_first() {
        let row = read_row(alloc, member.0.as_str(), &member.1, trail)?;
        rows.push(row)?;
        trail.next();
        rest = later;
    }
    Ok(rows)
}

// The artifact of this path, with the digest that the value is.
fn read_row(
    alloc: Global,
    path: &str,
    value: &Value,
    trail: &mut Trail,
) -> Result<(TargetPath, Digest), ShapeFault>
    ensures ok { IfOk result (λ r. IsArtifact path.now (view value.now) (artifact_view r)) }
    ensures err { IfErr result (IsIll ((a : List ℕ × List ℕ) × IsArtifact path.now (view value.now) a)) }
{
    let Some(digest) = read_hashes(value, trail) else {
        return Err(ShapeFault::WrongShape);
    };
    let Some(path) = TargetPath::read(alloc, path)? else {
        return Err(ShapeFault::WrongShape);
    };
    Ok((path, digest))
}
