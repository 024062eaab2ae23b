//! The files that a target's layout needs, and whether the layout allows the target (in-toto 1.0, section 5.2).
ghost use Rattle.std.specs.Prelude.{◌≡◌, ◌↔◌, ◌+◌, ◌<◌, ◌≤◌, ◌^◌, ◌∷◌, false, map, IfOk, IsNone, IsSome, IsTrue};
ghost use Rattle.std.specs.List.{AllByRecursion, list_all};
ghost use Rattle.repository_rows.specs.Contents.{lengths_of};
ghost use Rattle.delegations.specs.Delegation.{before};
ghost use Rattle.delegations.specs.Rows.{Rises};
ghost use Rattle.delegations.specs.Verdicts.{AreFew, AreTrue, IsComplete};
ghost use Rattle.delegations.specs.Views.{found_view, shelf_view};
ghost use Rattle.denials.specs.Orders.{each};
ghost use Rattle.denials.specs.Views.{denial_view};
ghost use Rattle.metadata.specs.File.{layout_form, link_form};
ghost use Rattle.metadata.specs.FileViews.{layout_file, link_file};
ghost use Rattle.document_parts.specs.Views.{listing_view, reference_view, root_view};
ghost use Rattle.trusted_state.specs.Answers.{Gives};
ghost use Rattle.trust_rules.specs.Held as holding;
ghost use Rattle.trust_rules.specs.Held.{OfEachState, StandsFor, length_at, bytes_at};
ghost use Rattle.granting.specs.Serving.{IsShapeDenial};
ghost use Rattle.trust_rules.specs.State as trust;
ghost use Rattle.trust_rules.specs.Grants as granted;
ghost use Rattle.trusted_state.specs.PartViews.{length_views};
ghost use Rattle.granting.specs.steps.Permitting.{Finds, IsShapeAnswer, IsSupportOf, Reads, FindsLoaded, Told, all_bytes_at, is_short_in, names_missing};

use crate::listing::{Listed, find_needed, listed_digest};
use crate::serving::{Blobs, GetFault, load};
use delegations::{Found, Shelf, Steps};
use denials::Denial;
use layouts::check_layout;
use limits::FILE_LIMIT;
use metadata::{
    File, Layout, LayoutReference, Link, Listing, Moment, Root, ShapeFault, read_layout_file,
    read_link_file,
};
use path_patterns::{Digest, TargetPath};
use std::alloc::Global;
use trusted_state::held::Held;
use trusted_state::pieces::finding::length_of;
use trusted_state::pieces::parts::BlobLength;
use trusted_state::refusal::Refusal;

/// Whether the layout of a listing, if it has one, allows the file. Its bytes and those of its links are loaded once all of them are
/// found, none has a layout and none is too long for a document, and are dropped when it is judged.
pub(crate) fn judge_layout<B: Blobs>(
    alloc: Global,
    held: &Held,
    blobs: &mut B,
    at: &Listed<'_>,
    now: Moment,
    checks: &mut Steps,
) -> Result<(), GetFault>
    requires { AreTrue (shelf_view at.now.shelf).rows held.now.verdicts }
    ensures stands { FindsLoaded held.now.held (B.IsHonest blobs.new) (B.Holds blobs.old) (blobs.new ≡ blobs.old) (B.HasLoaded blobs.new × IsSome at.now.listing.now.layout)
        (λ S. granted.reference_allows S (root_view at.now.root.now) (shelf_view at.now.shelf) now (listing_view at.now.listing.now) (listing_view at.now.listing.now).layout) (λ S u. u) result }
    ensures reads { Reads B.IsHonest B.Holds B.MayBecome blobs.old blobs.new }
    ensures long { OfEachState held.now.held (λ S. granted.HasLongSupport S (root_view at.now.root.now) (shelf_view at.now.shelf) now (listing_view at.now.listing.now).layout → (blobs.new ≡ blobs.old) × IsShapeDenial result) }
    ensures plain { IsNone at.now.listing.now.layout → blobs.new ≡ blobs.old }
    ensures unticked { IsNone at.now.listing.now.layout → checks.new ≡ checks.old }
    ensures grows { checks.old ≤ checks.new }
    ensures free { AreFew (shelf_view at.now.shelf) → IsComplete (shelf_view at.now.shelf) held.now.verdicts → checks.new ≡ checks.old }
{
    let Some(reference) = &at.listing.layout else {
        return Ok(());
    };
    let layout = support(
        alloc,
        held,
        at.root,
        &at.shelf,
        &reference.path,
        now,
        checks,
    )?;
    let links = supports(
        alloc,
        held,
        at.root,
        &at.shelf,
        &reference.links,
        now,
        checks,
    )?;
    judge_files(
        alloc,
        held,
        blobs,
        at.listing,
        reference,
        (layout, &links),
        now,
    )
}

// The digest of a file that a layout needs, which has no layout of its own.
fn support(
    alloc: Global,
    held: &Held,
    root: &Root,
    shelf: &Shelf<'_>,
    path: &TargetPath,
    now: Moment,
    checks: &mut Steps,
) -> Result<Digest, Refusal>
    requires { AreTrue (shelf_view shelf.now).rows held.now.verdicts }
    ensures answer { OfEachState held.now.held (λ S. Gives (granted.support S (root_view root.now) (shelf_view shelf.now) now path.now) (λ d. bytes_at S d.0) result) }
    ensures held { IfOk result (λ d. IsSome (length_at held.now.held.blobs d.0)) }
    ensures grows { checks.old ≤ checks.new }
    ensures free { AreFew (shelf_view shelf.now) → IsComplete (shelf_view shelf.now) held.now.verdicts → checks.new ≡ checks.old }
{
    let found = find_support(alloc, held, root, shelf, path, now, checks)?;
    let digest = support_digest(held.lengths(), path, found.listing)?;
    if !is_plain(found.listing) {
        return Err(Refusal::Denied(Denial::LayoutNested));
    }
    Ok(digest)
}

// What the search for a file that a layout needs finds, which has a layout where the root requires one.
fn find_support<'a>(
    alloc: Global,
    held: &Held,
    root: &Root,
    shelf: &Shelf<'a>,
    path: &TargetPath,
    now: Moment,
    checks: &mut Steps,
) -> Result<Found<'a>, Refusal>
    requires { AreTrue (shelf_view shelf.now).rows held.now.verdicts }
    ensures answer { Gives (granted.supporting (granted.searched (root_view root.now) (shelf_view shelf.now) path.now now)) found_view result }
    ensures grows { checks.old ≤ checks.new }
    ensures free { AreFew (shelf_view shelf.now) → IsComplete (shelf_view shelf.now) held.now.verdicts → checks.new ≡ checks.old }
{
    let mut made = Steps::new();
    let result = find_needed(alloc, root, shelf, held.verdicts(), path, now, &mut made);
    add_ticks(checks, made.count());
    match result {
        Ok(found) => Ok(found),
        Err(refusal) => Err(supporting(refusal)),
    }
}

// The digest of a listing of a file that a layout needs, where the file is held with its length.
fn support_digest(
    lengths: &[BlobLength],
    path: &TargetPath,
    listing: &Listing,
) -> Result<Digest, Refusal>
    requires { Rises before (length_views lengths.now) }
    ensures answer { (S : trust.State) → lengths_of S.blobs ≡ length_views lengths.now
        → Gives (granted.supporting (granted.blob_of S path.now (listing_view listing.now))) (λ d. bytes_at S d.0) result }
    ensures held { IfOk result (λ d. IsSome (length_at (length_views lengths.now) d.0)) }
{
    match listed_digest(lengths, path, listing) {
        Ok(digest) => Ok(digest),
        Err(refusal) => Err(supporting(refusal)),
    }
}

// Whether the listing has no layout.
fn is_plain(listing: &Listing) -> bool
    ensures { IsTrue result ↔ IsNone (listing_view listing.now).layout }
{
    listing.layout.is_none()
}

// The digests of the links that a layout needs, each of a file that has no layout of its own.
fn supports(
    alloc: Global,
    held: &Held,
    root: &Root,
    shelf: &Shelf<'_>,
    paths: &[TargetPath],
    now: Moment,
    checks: &mut Steps,
) -> Result<Vec<Digest>, Refusal>
    requires { AreTrue (shelf_view shelf.now).rows held.now.verdicts }
    ensures answer { OfEachState held.now.held (λ S. Gives (each (granted.support S (root_view root.now) (shelf_view shelf.now) now) paths.now) (λ ds. all_bytes_at S ds.items) result) }
    ensures held { IfOk result (λ ds. AllByRecursion (λ d. IsSome (length_at held.now.held.blobs d.0)) ds.items) }
    ensures grows { checks.old ≤ checks.new }
    ensures free { AreFew (shelf_view shelf.now) → IsComplete (shelf_view shelf.now) held.now.verdicts → checks.new ≡ checks.old }
{
    let mut found = Vec::new(alloc);
    let mut rest = paths;
    'paths: while let Some((path, later)) = rest.split_first() {
        let digest = support(alloc, held, root, shelf, path, now, checks)?;
        found.push(digest)?;
        rest = later;
    }
    Ok(found)
}

// So many ticks more, as far as a counter counts.
fn add_ticks(checks: &mut Steps, count: u64)
    ensures counted { checks.old + count < 2 ^ 64 → checks.new ≡ checks.old + count }
    ensures grows { checks.old ≤ checks.new }
    ensures none { count ≡ 0 → checks.new ≡ checks.old }
{
    'ticks: for _made in 0..count {
        if checks.count() < u64::MAX {
            checks.tick();
        }
    }
}

// The refusal of a file that a layout needs: what is missing is answered as itself.
fn supporting(refusal: Refusal) -> Refusal
    ensures { IsSupportOf refusal result }
{
    match refusal {
        Refusal::Denied(denial) if names_missing(&denial) => Refusal::Denied(denial),
        Refusal::Denied(_) => Refusal::Denied(Denial::SupportDenied),
        Refusal::OutOfMemory => Refusal::OutOfMemory,
    }
}

// Whether the denial names what is missing.
fn names_missing(denial: &Denial) -> bool
    ensures { result ≡ names_missing (denial_view denial.now) }
{
    match denial {
        Denial::RoleMissing { .. } => true,
        Denial::BlobMissing { .. } => true,
        _ => false,
    }
}

// Whether a layout and its links, which have these digests, allow the file of a listing.
fn judge_files<B: Blobs>(
    alloc: Global,
    held: &Held,
    blobs: &mut B,
    listing: &Listing,
    reference: &LayoutReference,
    files: (Digest, &[Digest]),
    now: Moment,
) -> Result<(), GetFault>
    requires layout { IsSome (length_at held.now.held.blobs files.0.0) }
    requires links { AllByRecursion (λ d. IsSome (length_at held.now.held.blobs d.0)) files.1.now }
    ensures stands { FindsLoaded held.now.held (B.IsHonest blobs.new) (B.Holds blobs.old) (blobs.new ≡ blobs.old) (B.HasLoaded blobs.new)
        (λ S. granted.files_hold (listing_view listing.now) (reference_view reference.now) now (bytes_at S files.entry.0.0) (all_bytes_at S files.entry.1.now)) (λ S u. u) result }
    ensures reads { Reads B.IsHonest B.Holds B.MayBecome blobs.old blobs.new }
    ensures long { list_all (is_short_in held.now.held.blobs) (files.entry.0 ∷ files.entry.1.now) ≡ false → (blobs.new ≡ blobs.old) × IsShapeDenial result }
{
    let (layout, links) = files;
    if !are_short(held, layout, links) {
        return Err(GetFault::Denied(Denial::LayoutShape));
    }
    let layout = read_layout(alloc, blobs, layout)?;
    let links = read_links(alloc, blobs, links)?;
    check_layout(
        alloc,
        &layout,
        (&reference.owners, &reference.keys),
        &links,
        &reference.step,
        &reference.product,
        &listing.digest,
        now,
    )?;
    Ok(())
}

// Whether a layout and its links, which have these digests, are each short enough for a document.
fn are_short(held: &Held, layout: Digest, links: &[Digest]) -> bool
    ensures { result ≡ list_all (is_short_in held.now.held.blobs) (layout ∷ links.now) }
{
    if !is_short(held, layout) {
        return false;
    }
    let mut rest = links;
    'links: while let Some((link, later)) = rest.split_first() {
        if !is_short(held, *link) {
            return false;
        }
        rest = later;
    }
    true
}

// Whether the file with this digest is short enough for a document.
fn is_short(held: &Held, digest: Digest) -> bool
    ensures { result ≡ is_short_in held.now.held.blobs digest }
{
    match length_of(held.lengths(), &digest) {
        Some(length) => length <= FILE_LIMIT,
        None => true,
    }
}

// The layout with this digest.
fn read_layout<B: Blobs>(
    alloc: Global,
    blobs: &mut B,
    digest: Digest,
) -> Result<File<Layout>, GetFault>
    ensures finds { B.IsHonest blobs.new → (H : holding.Held) (S : trust.State) → StandsFor H (B.Holds blobs.old) S → IsSome (length_at H.blobs digest.0)
        → Finds (granted.read_as layout_form (bytes_at S digest.0)) layout_file result }
    ensures reads { Reads B.IsHonest B.Holds B.MayBecome blobs.old blobs.new }
    ensures told { Told (B.HasLoaded blobs.new) result }
{
    let file = load(alloc, blobs, digest)?;
    match read_layout_file(alloc, &file.bytes) {
        Ok(layout) => Ok(layout),
        Err(fault) => Err(shape_answer(fault)),
    }
}

// The links with these digests.
fn read_links<B: Blobs>(
    alloc: Global,
    blobs: &mut B,
    digests: &[Digest],
) -> Result<Vec<File<Link>>, GetFault>
    ensures finds { B.IsHonest blobs.new → (H : holding.Held) (S : trust.State) → StandsFor H (B.Holds blobs.old) S → AllByRecursion (λ d. IsSome (length_at H.blobs d.0)) digests.now
        → Finds (each (granted.read_as link_form) (all_bytes_at S digests.now)) (λ ls. map link_file ls.items) result }
    ensures reads { Reads B.IsHonest B.Holds B.MayBecome blobs.old blobs.new }
    ensures told { B.HasLoaded blobs.old → Told (B.HasLoaded blobs.new) result }
{
    let mut links = Vec::new(alloc);
    let mut rest = digests;
    'digests: while let Some((digest, later)) = rest.split_first() {
        let link = read_link(alloc, blobs, *digest)?;
        links.push(link)?;
        rest = later;
    }
    Ok(links)
}

// The link with this digest.
fn read_link<B: Blobs>(alloc: Global, blobs: &mut B, digest: Digest) -> Result<File<Link>, GetFault>
    ensures finds { B.IsHonest blobs.new → (H : holding.Held) (S : trust.State) → StandsFor H (B.Holds blobs.old) S → IsSome (length_at H.blobs digest.0)
        → Finds (granted.read_as link_form (bytes_at S digest.0)) link_file result }
    ensures reads { Reads B.IsHonest B.Holds B.MayBecome blobs.old blobs.new }
    ensures told { Told (B.HasLoaded blobs.new) result }
{
    let file = load(alloc, blobs, digest)?;
    match read_link_file(alloc, &file.bytes) {
        Ok(link) => Ok(link),
        Err(fault) => Err(shape_answer(fault)),
    }
}

// The answer for a layout or a link of another shape.
fn shape_answer(fault: ShapeFault) -> GetFault
    ensures { IsShapeAnswer fault result }
{
    match fault {
        ShapeFault::OutOfMemory => GetFault::OutOfMemory,
        _ => GetFault::Denied(Denial::LayoutShape),
    }
}
