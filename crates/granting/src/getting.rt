//! What a target is (TUF 1.0, section 5.7; in-toto 1.0, section 5.2).
ghost use Rattle.std.specs.Prelude.{◌≡◌, ◌⊎◌, ◌<◌, ◌^◌, None, Some, Err, IfOk, IsSome, OnOk, option_map};
ghost use Rattle.sha2.specs.Sha256.{sha256};
ghost use Rattle.trusted_state.specs.Answers.{Gives};
ghost use Rattle.trust_rules.specs.Grants as granted;
ghost use Rattle.trust_rules.specs.Held.{StandsFor, held_of, length_at, bytes_at};
ghost use Rattle.granting.specs.Serving.{CountsFew, HasLayout, ListsDigest, Refuses, RefusesLong, Serves};
ghost use Rattle.trust_rules.specs.State as trust;
ghost use Rattle.trust_rules.specs.State.{blob_at};
ghost use Rattle.granting.specs.steps.Permitting.{IsLentSo, Reads, FindsLoaded};

use crate::listing::{find_listing, is_asked, listed_digest};
use crate::serving::{Blobs, GetFault, Served, load};
use crate::supporting::judge_layout;
use delegations::Steps;
use denials::Denial;
use metadata::Moment;
use path_patterns::{Digest, TargetPath};
use std::alloc::Global;
use trusted_state::held::Held;
use trusted_state::pieces::finding::blob_of;
use trusted_state::refusal::Refusal;
use trusted_state::state::State;

/// The file of a target at a moment (TUF 1.0, section 5.7): the file that the first role in the order of the search lists, where
/// its layout, if it has one, allows it. Root, timestamp and snapshot must be live, and the timestamp must name the snapshot.
/// Denials in their order: no root is trusted; the root is not live; the timestamp, then the snapshot; what the search denies;
/// the file is not held, or has another length than the listing says; those of the layout.
///
/// A layout and each of its links are found as the target is, and none may have a layout. What is missing of them is answered as
/// itself, any other denial as `SupportDenied`; then they are read, and the layout is judged (in-toto 1.0, section 5.2).
pub fn get<'a>(
    alloc: Global,
    state: &'a State,
    path: &TargetPath,
    now: Moment,
) -> Result<&'a [u8], Refusal>
    ensures { Gives (granted.grants state.now.state path.now None now) (λ b. b.now) result }
{
    get_counted(alloc, state, path, now, &mut Steps::new())
}

/// The same, with one tick for each signature that is checked in a search. For a target without a layout these are at most 512, of 32
/// documents with 16 signatures each, and at most as many as its search meets of which nothing is known. None is checked where the pairs
/// that searches may meet are at most 2,048, whether the target has a layout or not.
pub fn get_counted<'a>(
    alloc: Global,
    state: &'a State,
    path: &TargetPath,
    now: Moment,
    checks: &mut Steps,
) -> Result<&'a [u8], Refusal>
    requires { checks.old < 2 ^ 63 }
    ensures answer { Gives (granted.grants state.now.state path.now None now) (λ b. b.now) result }
    ensures counted { CountsFew state.now.state.trusted state.now.verdicts path.now now checks.old checks.new }
{
    state.is_valid();
    let mut own = state;
    match permitted(alloc, state.held(), &mut own, path, None, now, checks) {
        Ok(digest) => Ok(lent(state, digest)),
        Err(fault) => Err(lent_refusal(fault)),
    }
}

/// The file of a target that a text names, at a moment, as `get` finds it; and where a digest is asked for, only the file of a
/// listing with this digest (TUF 1.0, section 6.2, consistent snapshots). Denials in their order: the text is no path of a
/// target; those of `get`; the listing has another digest than the one that is asked for.
pub fn target<'a>(
    alloc: Global,
    state: &'a State,
    path: &str,
    asked: Option<Digest>,
    now: Moment,
) -> Result<&'a [u8], Refusal>
    ensures { Gives (granted.grants state.now.state path.now (option_map (λ d. d.0) asked) now) (λ b. b.now) result }
{
    let Some(path) = TargetPath::read(alloc, path)? else {
        return Err(Refusal::Denied(Denial::BadPath));
    };
    state.is_valid();
    let mut own = state;
    match permitted(
        alloc,
        state.held(),
        &mut own,
        &path,
        asked,
        now,
        &mut Steps::new(),
    ) {
        Ok(digest) => Ok(lent(state, digest)),
        Err(fault) => Err(lent_refusal(fault)),
    }
}

/// What `get` finds, where the blobs are elsewhere: the file, with its digest. Its rules are judged by digest and length before any
/// bytes are loaded. A layout and its links are loaded only where each of them is there, has no layout and is no longer than 262,144
/// bytes; any other denial loads nothing. What was loaded of them is dropped before the file is loaded. What is served has the digest,
/// whatever the bytes were loaded from.
pub fn get_from<B: Blobs>(
    alloc: Global,
    held: &Held,
    blobs: &mut B,
    path: &TargetPath,
    now: Moment,
) -> Result<Served, GetFault>
    ensures answer { B.IsHonest blobs.new → (S : trust.State) → StandsFor held.now.held (B.Holds blobs.old) S → Serves S (granted.grants S path.now None now) result }
    ensures denial { Refuses held.now.held (λ S. granted.grants S path.now None now) path.now now (blobs.new ≡ blobs.old) (B.HasLoaded blobs.new) result }
    ensures long { RefusesLong held.now.held path.now now (blobs.new ≡ blobs.old) result }
    ensures digest { IfOk result (λ s. sha256 s.bytes.items ≡ s.digest.0) }
    ensures lists { IfOk result (λ s. ListsDigest held.now.held.trusted path.now None now s.digest.0) }
    ensures becomes { (blobs.new ≡ blobs.old) ⊎ B.MayBecome blobs.old blobs.new }
    ensures loaded { OnOk result (B.HasLoaded blobs.new) }
{
    get_from_counted(alloc, held, blobs, path, now, &mut Steps::new())
}

/// The same, with the ticks of `get_counted`.
pub fn get_from_counted<B: Blobs>(
    alloc: Global,
    held: &Held,
    blobs: &mut B,
    path: &TargetPath,
    now: Moment,
    checks: &mut Steps,
) -> Result<Served, GetFault>
    requires { checks.old < 2 ^ 63 }
    ensures answer { B.IsHonest blobs.new → (S : trust.State) → StandsFor held.now.held (B.Holds blobs.old) S → Serves S (granted.grants S path.now None now) result }
    ensures denial { Refuses held.now.held (λ S. granted.grants S path.now None now) path.now now (blobs.new ≡ blobs.old) (B.HasLoaded blobs.new) result }
    ensures long { RefusesLong held.now.held path.now now (blobs.new ≡ blobs.old) result }
    ensures digest { IfOk result (λ s. sha256 s.bytes.items ≡ s.digest.0) }
    ensures lists { IfOk result (λ s. ListsDigest held.now.held.trusted path.now None now s.digest.0) }
    ensures becomes { (blobs.new ≡ blobs.old) ⊎ B.MayBecome blobs.old blobs.new }
    ensures loaded { OnOk result (B.HasLoaded blobs.new) }
    ensures counted { CountsFew held.now.held.trusted held.now.verdicts path.now now checks.old checks.new }
{
    match permitted(alloc, held, blobs, path, None, now, checks) {
        Ok(digest) => load(alloc, blobs, digest),
        Err(fault) => Err(fault),
    }
}

/// What `target` finds, where the blobs are elsewhere, as `get_from` loads it.
pub fn target_from<B: Blobs>(
    alloc: Global,
    held: &Held,
    blobs: &mut B,
    path: &str,
    asked: Option<Digest>,
    now: Moment,
) -> Result<Served, GetFault>
    ensures answer { B.IsHonest blobs.new → (S : trust.State) → StandsFor held.now.held (B.Holds blobs.old) S
        → Serves S (granted.grants S path.now (option_map (λ d. d.0) asked) now) result }
    ensures denial { Refuses held.now.held (λ S. granted.grants S path.now (option_map (λ d. d.0) asked) now) path.now now (blobs.new ≡ blobs.old) (B.HasLoaded blobs.new) result }
    ensures long { RefusesLong held.now.held path.now now (blobs.new ≡ blobs.old) result }
    ensures digest { IfOk result (λ s. sha256 s.bytes.items ≡ s.digest.0) }
    ensures lists { IfOk result (λ s. ListsDigest held.now.held.trusted path.now (option_map (λ d. d.0) asked) now s.digest.0) }
    ensures becomes { (blobs.new ≡ blobs.old) ⊎ B.MayBecome blobs.old blobs.new }
    ensures loaded { OnOk result (B.HasLoaded blobs.new) }
{
    target_from_counted(alloc, held, blobs, path, asked, now, &mut Steps::new())
}

/// The same, with the ticks of `get_counted`. A text that is no path of a target checks nothing.
pub fn target_from_counted<B: Blobs>(
    alloc: Global,
    held: &Held,
    blobs: &mut B,
    path: &str,
    asked: Option<Digest>,
    now: Moment,
    checks: &mut Steps,
) -> Result<Served, GetFault>
    requires { checks.old < 2 ^ 63 }
    ensures answer { B.IsHonest blobs.new → (S : trust.State) → StandsFor held.now.held (B.Holds blobs.old) S
        → Serves S (granted.grants S path.now (option_map (λ d. d.0) asked) now) result }
    ensures denial { Refuses held.now.held (λ S. granted.grants S path.now (option_map (λ d. d.0) asked) now) path.now now (blobs.new ≡ blobs.old) (B.HasLoaded blobs.new) result }
    ensures long { RefusesLong held.now.held path.now now (blobs.new ≡ blobs.old) result }
    ensures digest { IfOk result (λ s. sha256 s.bytes.items ≡ s.digest.0) }
    ensures lists { IfOk result (λ s. ListsDigest held.now.held.trusted path.now (option_map (λ d. d.0) asked) now s.digest.0) }
    ensures becomes { (blobs.new ≡ blobs.old) ⊎ B.MayBecome blobs.old blobs.new }
    ensures loaded { OnOk result (B.HasLoaded blobs.new) }
    ensures counted { CountsFew held.now.held.trusted held.now.verdicts path.now now checks.old checks.new }
{
    let Some(path) = TargetPath::read(alloc, path)? else {
        return Err(GetFault::Denied(Denial::BadPath));
    };
    match permitted(alloc, held, blobs, &path, asked, now, checks) {
        Ok(digest) => load(alloc, blobs, digest),
        Err(fault) => Err(fault),
    }
}

// The digest of the file of a target, which is held with the length that the listing says, which its layout allows, if it has one, and
// which is that which is asked for, if one is.
fn permitted<B: Blobs>(
    alloc: Global,
    held: &Held,
    blobs: &mut B,
    path: &TargetPath,
    asked: Option<Digest>,
    now: Moment,
    checks: &mut Steps,
) -> Result<Digest, GetFault>
    requires { checks.old < 2 ^ 63 }
    ensures stands { FindsLoaded held.now.held (B.IsHonest blobs.new) (B.Holds blobs.old) (blobs.new ≡ blobs.old) (B.HasLoaded blobs.new × HasLayout held.now.held.trusted path.now now)
        (λ S. granted.grants S path.now (option_map (λ d. d.0) asked) now) (λ S d. bytes_at S d.0) result }
    ensures reads { Reads B.IsHonest B.Holds B.MayBecome blobs.old blobs.new }
    ensures long { RefusesLong held.now.held path.now now (blobs.new ≡ blobs.old) result }
    ensures held { IfOk result (λ d. IsSome (length_at held.now.held.blobs d.0)) }
    ensures lists { IfOk result (λ d. ListsDigest held.now.held.trusted path.now (option_map (λ d. d.0) asked) now d.0) }
    ensures counted { CountsFew held.now.held.trusted held.now.verdicts path.now now checks.old checks.new }
{
    let at = find_listing(alloc, held, path, now, checks)?;
    let digest = listed_digest(held.lengths(), path, at.listing)?;
    judge_layout(alloc, held, blobs, &at, now, checks)?;
    if !is_asked(at.listing, asked) {
        return Err(GetFault::Denied(Denial::DigestMismatch));
    }
    Ok(digest)
}

// The same refusal, of a state's own bytes. They are there, so they are lent unless memory is refused.
fn lent_refusal(fault: GetFault) -> Refusal
    ensures { IsLentSo fault result }
{
    match fault {
        GetFault::Denied(denial) => Refusal::Denied(denial),
        GetFault::Load(_) => Refusal::OutOfMemory,
        GetFault::OutOfMemory => Refusal::OutOfMemory,
    }
}

// The bytes of a state with a digest.
fn lent(state: &State, digest: Digest) -> &[u8]
    requires { IsSome (length_at (held_of state.now.state).blobs digest.0) }
    ensures { blob_at state.now.state.blobs digest.0 ≡ Some result.now }
{
    match blob_of(state.blobs(), &digest) {
        Some(blob) => &blob.bytes,
        None => unreachable!(),
    }
}
