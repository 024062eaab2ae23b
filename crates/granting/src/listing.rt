//! Where what is trusted lists a path (TUF 1.0, section 5.6.7), and whether the file is held.
ghost use Rattle.std.specs.Prelude.{◌≡◌, ◌↔◌, ◌+◌, ◌-◌, ◌≤◌, ◌<◌, ◌^◌, IfOk, IfSome, IsSome, IsTrue, option_map};
ghost use Rattle.delegations.specs.Delegation.{before};
ghost use Rattle.delegations.specs.Rows.{Rises, place_before};
ghost use Rattle.delegations.specs.Search.{search};
ghost use Rattle.delegations.specs.Verdicts.{AreFew, AreTrue, Costs, IsComplete};
ghost use Rattle.delegations.specs.Views as searches;
ghost use Rattle.denials.specs.Orders as orders;
ghost use Rattle.document_parts.specs.Views.{listing_view, root_view};
ghost use Rattle.path_patterns.specs.Grammar.{IsTargetPath};
ghost use Rattle.repository_rows.specs.Contents.{lengths_of};
ghost use Rattle.trusted_state.specs.Answers.{Gives};
ghost use Rattle.trust_rules.specs.Grants as granted;
ghost use Rattle.trust_rules.specs.Held.{OfEachState, length_at, bytes_at};
ghost use Rattle.trusted_state.specs.Knowing.{ChecksFew, WantsFew};
ghost use Rattle.trust_rules.specs.State as trust;
ghost use Rattle.granting.specs.steps.Permitting.{listed_view};
ghost use Rattle.trusted_state.specs.PartViews.{length_views, trusted_view};

use delegations::{Found, Rows, SearchDenial, Shelf, Steps, Verdicts, search_with_counted};
use denials::Denial;
use metadata::{Listing, Moment, Root};
use path_patterns::{Digest, TargetPath};
use std::alloc::Global;
use trusted_state::held::Held;
use trusted_state::liveness::live_snapshot;
use trusted_state::pieces::checks::are_same;
use trusted_state::pieces::finding::length_of;
use trusted_state::pieces::parts::{BlobLength, Trusted};
use trusted_state::refusal::Refusal;

/// A listing, the shelf on which it was found, and the root that the shelf stands under.
#[derive(Clone, Copy)]
pub(crate) struct Listed<'a> {
    pub root: &'a Root,
    pub shelf: Shelf<'a>,
    pub listing: &'a Listing,
}

/// The listing of a path, where root, timestamp and snapshot are live. It has a layout where the root requires one.
pub(crate) fn find_listing<'a>(
    alloc: Global,
    held: &'a Held,
    path: &TargetPath,
    now: Moment,
    checks: &mut Steps,
) -> Result<Listed<'a>, Refusal>
    requires { checks.old < 2 ^ 63 }
    ensures answer { Gives (granted.listed held.now.held.trusted path.now now) listed_view result }
    ensures known { IfOk result (λ at. AreTrue (searches.shelf_view at.shelf).rows held.now.verdicts) }
    ensures wanted { IfOk result (λ at. WantsFew held.now.held.trusted → AreFew (searches.shelf_view at.shelf) × IsComplete (searches.shelf_view at.shelf) held.now.verdicts) }
    ensures grows { checks.old ≤ checks.new }
    ensures most { checks.new ≤ checks.old + 512 }
    ensures few { ChecksFew held.now.held.trusted.root held.now.held.trusted.snapshot held.now.held.trusted.shelf held.now.verdicts path.now now (checks.new - checks.old) }
    ensures free { WantsFew held.now.held.trusted → checks.new ≡ checks.old }
{
    is_path(path);
    let trusted = held.trusted();
    let Some(root) = trusted.root.as_ref() else {
        return Err(Refusal::Denied(Denial::NoRoot));
    };
    let snapshot = live_snapshot(
        trusted.timestamp.as_ref(),
        trusted.snapshot.as_ref(),
        root,
        now,
    )?;
    let shelf = Shelf::new(&root.body, &snapshot.body, held_rows(trusted));
    let found = find_needed(
        alloc,
        &root.body,
        &shelf,
        held.verdicts(),
        path,
        now,
        checks,
    )?;
    Ok(Listed {
        root: &root.body,
        shelf,
        listing: found.listing,
    })
}

// A law, which does nothing: a target's path is one.
fn is_path(path: &TargetPath)
    ensures { IsTargetPath path.now }
{
    path.as_str();
}

/// What the search finds on the shelf, which has a layout where the root requires one.
pub(crate) fn find_needed<'a>(
    alloc: Global,
    root: &Root,
    shelf: &Shelf<'a>,
    known: &Verdicts,
    path: &TargetPath,
    now: Moment,
    checks: &mut Steps,
) -> Result<Found<'a>, Refusal>
    requires sound { AreTrue (searches.shelf_view shelf.now).rows known.now }
    requires room { checks.old < 2 ^ 63 }
    ensures answer { Gives (granted.searched (root_view root.now) (searches.shelf_view shelf.now) path.now now) searches.found_view result }
    ensures grows { checks.old ≤ checks.new }
    ensures most { checks.new ≤ checks.old + 512 }
    ensures costs { Costs (searches.shelf_view shelf.now) known.now path.now now (checks.new - checks.old) }
    ensures free { AreFew (searches.shelf_view shelf.now) → IsComplete (searches.shelf_view shelf.now) known.now → checks.new ≡ checks.old }
{
    let found = find(alloc, shelf, known, path, now, checks)?;
    if !has_needed(root, path, found.listing) {
        return Err(Refusal::Denied(Denial::LayoutRequired));
    }
    Ok(found)
}

// Whether the listing of a path has a layout where the root requires one.
fn has_needed(root: &Root, path: &TargetPath, listing: &Listing) -> bool
    ensures { IsTrue result ↔ (granted.HasNeeded (root_view root.now) path.now (listing_view listing.now)) }
{
    if root.requires_layout(path) {
        listing.layout.is_some()
    } else {
        true
    }
}

// What the search finds on the shelf.
fn find<'a>(
    alloc: Global,
    shelf: &Shelf<'a>,
    known: &Verdicts,
    path: &TargetPath,
    now: Moment,
    checks: &mut Steps,
) -> Result<Found<'a>, Refusal>
    requires sound { AreTrue (searches.shelf_view shelf.now).rows known.now }
    requires room { checks.old < 2 ^ 63 }
    ensures answer { Gives (search (searches.shelf_view shelf.now) path.now now) searches.found_view result }
    ensures grows { checks.old ≤ checks.new }
    ensures most { checks.new ≤ checks.old + 512 }
    ensures costs { Costs (searches.shelf_view shelf.now) known.now path.now now (checks.new - checks.old) }
    ensures free { AreFew (searches.shelf_view shelf.now) → IsComplete (searches.shelf_view shelf.now) known.now → checks.new ≡ checks.old }
{
    match search_with_counted(shelf, known, path, now, checks) {
        Ok(found) => Ok(found),
        Err(denial) => Err(search_refusal(alloc, denial)),
    }
}

/// The rows on the shelf.
pub(crate) fn held_rows(trusted: &Trusted) -> Rows<'_>
    requires { Rises place_before (trusted_view trusted.now).shelf }
    ensures { searches.rows_view result ≡ (trusted_view trusted.now).shelf }
{
    Rows {
        held: &trusted.shelf,
        added: &[],
    }
}

// The search's denial as a refusal.
fn search_refusal(alloc: Global, denial: SearchDenial<'_>) -> Refusal
    ensures { Gives {A = Unit {0}} (orders.stop (orders.Denied (searches.denial_view denial.entry))) (λ u. u) (Err result) }
{
    match denial {
        SearchDenial::RoleUnlisted => Refusal::Denied(Denial::RoleUnlisted),
        SearchDenial::RoleMissing { role, version } => missing_role(alloc, role, version),
        SearchDenial::RoleLength => Refusal::Denied(Denial::RoleLength),
        SearchDenial::RoleHash => Refusal::Denied(Denial::RoleHash),
        SearchDenial::RoleThreshold => Refusal::Denied(Denial::RoleThreshold),
        SearchDenial::RoleExpired => Refusal::Denied(Denial::RoleExpired),
        SearchDenial::TooManyRoles => Refusal::Denied(Denial::TooManyRoles),
        SearchDenial::NotFound => Refusal::Denied(Denial::NotFound),
    }
}

// The refusal where a role's document is missing.
fn missing_role(alloc: Global, role: &str, version: u32) -> Refusal
    ensures { Gives {A = Unit {0}} (orders.stop (orders.Denied (orders.RoleMissing role.now version))) (λ u. u) (Err result) }
{
    match String::from_str(alloc, role) {
        Ok(role) => Refusal::Denied(Denial::RoleMissing { role, version }),
        Err(_) => Refusal::OutOfMemory,
    }
}

/// Whether the listing has the digest that is asked for, if one is.
pub(crate) fn is_asked(listing: &Listing, asked: Option<Digest>) -> bool
    ensures { IsTrue result ↔ IfSome (option_map (λ d. d.0) asked) (λ digest. listing.now.digest.0 ≡ digest) }
{
    match asked {
        Some(digest) => are_same(&listing.digest.0, &digest.0),
        None => true,
    }
}

/// The digest of a listing, where the file is held with its length.
pub(crate) fn listed_digest(
    lengths: &[BlobLength],
    path: &TargetPath,
    listing: &Listing,
) -> Result<Digest, Refusal>
    requires { Rises before (length_views lengths.now) }
    ensures answer { (S : trust.State) → lengths_of S.blobs ≡ length_views lengths.now
        → Gives (granted.blob_of S path.now (listing_view listing.now)) (λ d. bytes_at S d.0) result }
    ensures held { IfOk result (λ d. IsSome (length_at (length_views lengths.now) d.0)) }
    ensures listed { IfOk result (λ d. d.0 ≡ (listing_view listing.now).digest) }
{
    let Some(length) = length_of(lengths, &listing.digest) else {
        return Err(missing_blob(path, listing));
    };
    if !has_listed_length(length, listing) {
        return Err(Refusal::Denied(Denial::BlobLength));
    }
    Ok(listing.digest)
}

// Whether the length is the one that the listing says.
fn has_listed_length(length: usize, listing: &Listing) -> bool
    ensures { IsTrue result ↔ length ≡ listing.now.length }
{
    length == listing.length as usize
}

// The refusal where the file of a listing is missing.
fn missing_blob(path: &TargetPath, listing: &Listing) -> Refusal
    ensures { Gives {A = Unit {0}} (orders.stop (orders.Denied (orders.BlobMissing path.now listing.now.digest.0 listing.now.length))) (λ u. u) (Err result) }
{
    match path.clone() {
        Ok(path) => Refusal::Denied(Denial::BlobMissing {
            path,
            digest: listing.digest,
            length: listing.length,
        }),
        Err(_) => Refusal::OutOfMemory,
    }
}
