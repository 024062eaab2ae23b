// One file in its place.
ghost use Rattle.std.specs.Prelude.{◌≡◌, ◌++◌, IfOk, OnOk, codes, string_bytes};
ghost use Rattle.exported_files.specs.Exports.{Did, IsOfMetadata, IsOfTarget, IsPlaceOf, metadata_place};

use crate::mirror::Mirror;
use metadata::Listing;
use path_patterns::consistent_name;
use std::alloc::{AllocError, Global};

// A metadata file, unless it stands there already with these bytes.
pub fn put_metadata<M: Mirror>(
    alloc: Global,
    folder: &str,
    mirror: &mut M,
    name: &str,
    bytes: &[u8],
) -> Result<(), M::Fault>
    ensures { OnOk result (Did M.Holds mirror.old mirror.new (λ more. IsOfMetadata folder.now name.now bytes.now more)) }
{
    let place = place_of_metadata(alloc, folder, name)?;
    if mirror.has_bytes(place.as_str(), bytes) {
        return Ok(());
    }
    mirror.put(place.as_str(), bytes)
}

// The file of a target, where the repository grants it, unless it stands there already.
pub fn put_target<M: Mirror>(
    alloc: Global,
    folder: &str,
    mirror: &mut M,
    listing: &Listing,
) -> Result<(), M::Fault>
    ensures { OnOk result (Did M.Holds mirror.old mirror.new (λ more. IsOfTarget folder.now listing.now.path listing.now.digest.0 more)) }
{
    let place = place_of_target(alloc, folder, listing)?;
    if mirror.has_target(place.as_str(), listing) {
        return Ok(());
    }
    match mirror.target(listing)? {
        Some(bytes) => mirror.put_target(place.as_str(), listing, &bytes),
        None => Ok(()),
    }
}

fn place_of_metadata(alloc: Global, folder: &str, name: &str) -> Result<String, AllocError>
    ensures { IfOk result (λ place. string_bytes place ≡ metadata_place folder.now name.now) }
{
    format!(in alloc; "{folder}/metadata/{name}")
}

fn place_of_target(alloc: Global, folder: &str, listing: &Listing) -> Result<String, AllocError>
    ensures { IfOk result (λ place. IsPlaceOf folder.now listing.now.path listing.now.digest.0 (string_bytes place)) }
{
    let name = consistent_name(alloc, &listing.path, &listing.digest)?;
    Ok(in_targets(alloc, folder, name.as_str())?)
}

fn in_targets(alloc: Global, folder: &str, name: &str) -> Result<String, AllocError>
    ensures { IfOk result (λ place. string_bytes place ≡ folder.now ++ (codes "/targets/" ++ name.now)) }
{
    format!(in alloc; "{folder}/targets/{name}")
}
