//! What a client fetches: names, limits, and what is made of the answers.
ghost use Rattle.std.specs.Prelude.{◌≡◌, ◌++◌, IfOk, codes, string_bytes};
ghost use Rattle.limits.specs.Limits.{file_limit};
ghost use Rattle.trust_rules.specs.Runs as steps;
ghost use Rattle.store.specs.StateViews.{offer_view};
ghost use Rattle.path_patterns.specs.Names.{IsNameOf, dotted};
ghost use Rattle.client.specs.Wanted as plain;
ghost use Rattle.client.specs.WantedViews.{wanted_view};

use limits::{BLOB_LIMIT, FILE_LIMIT};
use path_patterns::{Digest, NoMemory, RoleName, TargetPath, consistent_name, metadata_name};
use std::alloc::Global;
use store::Offer;

// What is made of a file.
#[derive(Drop)]
pub(crate) enum Use {
    Document(Offer),
    Blob(Digest),
}

// A file that is wanted: its name at the source, its most bytes, and what is made of it.
#[derive(Drop)]
pub(crate) struct Wanted {
    pub(crate) name: String,
    pub(crate) limit: usize,
    pub(crate) purpose: Use,
}

impl Wanted {
    // The root of this version.
    pub(crate) fn root(alloc: Global, version: u32) -> Result<Wanted, NoMemory>
        ensures { IfOk result (λ w. wanted_view w ≡ plain.wanted_root version) }
    {
        let name = numbered(alloc, version, "root")?;
        Ok(document(name, Offer::Root))
    }

    // The timestamp.
    pub(crate) fn timestamp(alloc: Global) -> Result<Wanted, NoMemory>
        ensures { IfOk result (λ w. wanted_view w ≡ plain.wanted_timestamp) }
    {
        let name = String::from_str(alloc, "metadata/timestamp.json")?;
        Ok(document(name, Offer::Timestamp))
    }

    // The snapshot of this version.
    pub(crate) fn snapshot(alloc: Global, version: u32) -> Result<Wanted, NoMemory>
        ensures { IfOk result (λ w. wanted_view w ≡ plain.wanted_snapshot version) }
    {
        let name = numbered(alloc, version, "snapshot")?;
        Ok(document(name, Offer::Snapshot))
    }

    // The targets document of a role at this version.
    pub(crate) fn row(alloc: Global, role: RoleName, version: u32) -> Result<Wanted, NoMemory>
        ensures { IfOk result (λ w. wanted_view w ≡ plain.wanted_row role version) }
    {
        let name = numbered(alloc, version, role.as_str())?;
        Ok(document(name, Offer::Targets(role)))
    }

    // The file of a target with this digest and length.
    pub(crate) fn blob(
        alloc: Global,
        path: &TargetPath,
        digest: Digest,
        length: u32,
    ) -> Result<Wanted, NoMemory>
        ensures { IfOk result (λ w. (text : _) × IsNameOf text path.now (Some digest.0) × (wanted_view w ≡ plain.wanted_blob text digest.0 length)) }
    {
        let text = consistent_name(alloc, path, &digest)?;
        let mut name = String::from_str(alloc, "targets/")?;
        name.push_str(text.as_str())?;
        Ok(Wanted {
            name,
            limit: (length as usize).min(BLOB_LIMIT),
            purpose: Use::Blob(digest),
        })
    }
}

// A metadata file that is offered.
fn document(name: String, offer: Offer) -> Wanted
    ensures { wanted_view result ≡ record { name = string_bytes name; limit = file_limit; command = λ b. steps.OfferOne (offer_view offer) b } }
{
    Wanted {
        name,
        limit: FILE_LIMIT,
        purpose: Use::Document(offer),
    }
}

// The name of a metadata file with its version.
fn numbered(alloc: Global, version: u32, role: &str) -> Result<String, NoMemory>
    ensures { IfOk result (λ s. string_bytes s ≡ codes "metadata/" ++ dotted version role.now) }
{
    let file = metadata_name(alloc, version, role)?;
    let mut name = String::from_str(alloc, "metadata/")?;
    name.push_str(file.as_str())?;
    Ok(name)
}
