// The listings of targets metadata as a file spells them (TUF 1.0, section 4.5, TARGETS).
ghost use Rattle.std.specs.Prelude.{◌≡◌, List, option_map, map, IfOk, IfErr};
ghost use Rattle.std.specs.List.{AllByRecursion};
ghost use Rattle.canonical_json.specs.Json.{EachMember};
ghost use Rattle.canonical_json.specs.Spelling.{IsProper, IsSound};
ghost use Rattle.canonical_json.specs.View.{view, members_view};
ghost use Rattle.document_parts.specs.Bodies.{IsListing};
ghost use Rattle.document_parts.specs.Documents as plain;
ghost use Rattle.document_parts.specs.Members.{IsObject, MembersAre};
ghost use Rattle.document_parts.specs.Views.{listing_view, reference_view};
ghost use Rattle.metadata.specs.steps.Entries.{HasIds, IsOwned};
ghost use Rattle.document_parts.specs.steps.Faults.{IsIll, IsMisnamed};
ghost use Rattle.metadata.specs.steps.Spelled.{spelled_reference, spelled_listing, spelled_listings};

use crate::references::{SpelledReference, name_reference, reference_of};
use canonical_json::Value;
use document_parts::documents::{LayoutReference, Listing, ShapeFault};
use document_parts::members::members_of;
use document_parts::parts::{hashes_of, length_of};
use document_parts::trail::Trail;
use path_patterns::{Digest, TargetPath};
use std::alloc::Global;

/// A target with what is said of it, where the names of keys need not be ids.
#[derive(Drop)]
pub(crate) struct SpelledListing {
    pub path: TargetPath,
    pub length: u32,
    pub digest: Digest,
    pub layout: Option<SpelledReference>,
}

/// The listings that the value is, whatever the names in their key tables.
pub(crate) fn read_table(
    alloc: Global,
    value: &Value,
    trail: &mut Trail,
) -> Result<Vec<SpelledListing>, ShapeFault>
    requires { IsProper (view value.now) }
    ensures ok { IfOk result (λ listings. IsObject IsListing (view value.now) (spelled_listings listings.items)) }
    ensures err { IfErr result (IsIll ((listings : List plain.Listing) × IsObject IsListing (view value.now) listings)) }
{
    let Some(members) = members_of(value) else {
        return Err(ShapeFault::WrongShape);
    };
    trail.enter_entries();
    let listings = read_listings(alloc, members, trail)?;
    trail.leave();
    Ok(listings)
}

fn read_listings(
    alloc: Global,
    members: &[(String, Value)],
    trail: &mut Trail,
) -> Result<Vec<SpelledListing>, ShapeFault>
    requires { EachMember IsSound (members_view members.now) }
    ensures ok { IfOk result (λ listings. MembersAre IsListing (members_view members.now) (spelled_listings listings.items)) }
    ensures err { IfErr result (IsIll ((listings : List plain.Listing) × MembersAre IsListing (members_view members.now) listings)) }
{
    let mut listings = Vec::new(alloc);
    let mut rest = members;
    'members: while let Some((member, later)) = rest.split_first() {
        let listing = read_listing(alloc, member.0.as_str(), &member.1, trail)?;
        listings.push(listing)?;
        trail.next();
        rest = later;
    }
    Ok(listings)
}

// The target of this path, with what the value says of it.
fn read_listing(
    alloc: Global,
    path: &str,
    value: &Value,
    trail: &mut Trail,
) -> Result<SpelledListing, ShapeFault>
    requires { IsProper (view value.now) }
    ensures ok { IfOk result (λ l. IsListing path.now (view value.now) (spelled_listing l)) }
    ensures err { IfErr result (IsIll ((l : plain.Listing) × IsListing path.now (view value.now) l)) }
{
    trail.enter("length");
    let Some(length) = length_of(value) else {
        return Err(ShapeFault::WrongShape);
    };
    trail.leave();
    let Some(digest) = hashes_of(value, trail) else {
        return Err(ShapeFault::WrongShape);
    };
    let layout = reference_of(alloc, value, trail)?;
    let Some(path) = TargetPath::read(alloc, path)? else {
        return Err(ShapeFault::WrongShape);
    };
    Ok(SpelledListing {
        path,
        length,
        digest,
        layout,
    })
}

/// The listings, each key named by its id.
pub(crate) fn name_listings(
    alloc: Global,
    spelled: Vec<SpelledListing>,
    trail: &mut Trail,
) -> Result<Vec<Listing>, ShapeFault>
    requires { AllByRecursion (λ l. IsOwned l.layout) (spelled_listings spelled.items) }
    ensures ok { IfOk result (λ ls. (map listing_view ls.items ≡ spelled_listings spelled.items)
        × AllByRecursion (λ l. HasIds l.layout) (spelled_listings spelled.items)) }
    ensures err { IfErr result (IsMisnamed (AllByRecursion (λ l. HasIds l.layout) (spelled_listings spelled.items))) }
{
    let mut listings = Vec::new(alloc);
    for listing in spelled {
        let named = name_listing(alloc, listing, trail)?;
        listings.push(named)?;
        trail.next();
    }
    Ok(listings)
}

fn name_listing(
    alloc: Global,
    spelled: SpelledListing,
    trail: &mut Trail,
) -> Result<Listing, ShapeFault>
    requires { IsOwned (spelled_listing spelled).layout }
    ensures ok { IfOk result (λ l. (listing_view l ≡ spelled_listing spelled) × HasIds (spelled_listing spelled).layout) }
    ensures err { IfErr result (IsMisnamed (HasIds (spelled_listing spelled).layout)) }
{
    let SpelledListing {
        path,
        length,
        digest,
        layout,
    } = spelled;
    let layout = name_layout(alloc, layout, trail)?;
    Ok(Listing {
        path,
        length,
        digest,
        layout,
    })
}

// What refers the target to a layout, if anything does, each key named by its id.
fn name_layout(
    alloc: Global,
    spelled: Option<SpelledReference>,
    trail: &mut Trail,
) -> Result<Option<LayoutReference>, ShapeFault>
    requires { IsOwned (option_map spelled_reference spelled) }
    ensures ok { IfOk result (λ o. (option_map reference_view o ≡ option_map spelled_reference spelled) × HasIds (option_map spelled_reference spelled)) }
    ensures err { IfErr result (IsMisnamed (HasIds (option_map spelled_reference spelled))) }
{
    let Some(spelled) = spelled else {
        return Ok(None);
    };
    trail.enter("custom");
    trail.enter("layout");
    let reference = name_reference(alloc, spelled, trail)?;
    trail.leave();
    trail.leave();
    Ok(Some(reference))
}
