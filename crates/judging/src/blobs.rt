//! The files of targets, which are held under their digests.
ghost use Rattle.std.specs.Prelude.{◌≡◌, ◌↔◌, ◌<◌, ◌≤◌, ◌∷◌, [], IfOk, IsSome, IsTrue, bytes_eq, length, option_map, true, false};
ghost use Rattle.delegations.specs.Delegation.{before};
ghost use Rattle.delegations.specs.Rows.{Rises, with_row};
ghost use Rattle.trusted_state.specs.Answers.{Answers};
ghost use Rattle.trust_rules.specs.Held.{OfEachState, length_at};
ghost use Rattle.trusted_state.specs.Knowing.{CarriesKnown, CarriesVerdicts};
ghost use Rattle.trusted_state.specs.steps.Carrying.{LeavesTrusted};
ghost use Rattle.trusted_state.specs.steps.Judging.{Judges};
ghost use Rattle.trust_rules.specs.Offers as commands;
ghost use Rattle.trust_rules.specs.Effects.{no_effects};
ghost use Rattle.limits.specs.Limits.{most_held};
ghost use Rattle.trusted_state.specs.PartViews.{effects_view, length_views};

use denials::Denial;
use limits::MOST_HELD;
use path_patterns::Digest;
use std::alloc::{AllocError, Global};
use trust_rules::stays_valid;
use trusted_state::held::Held;
use trusted_state::knowing::with_verdicts;
use trusted_state::outcome::Outcome;
use trusted_state::pieces::effects::{Blob, Effects};
use trusted_state::pieces::finding::{is_digest_of, is_short, length_of};
use trusted_state::pieces::parts::BlobLength;
use trusted_state::refusal::Refusal;
use trusted_state::state::State;

/// Stores the file of a target under its digest: at most 1,048,576 bytes, and at most 4,096 blobs. Denials in their order: no
/// root is trusted; the length; another digest than that of the bytes; where the blob is not held already, the number of blobs.
pub fn put_blob(
    alloc: Global,
    state: &State,
    digest: &Digest,
    bytes: &[u8],
) -> Result<Outcome, Refusal>
    ensures answers { Answers state.now.state (commands.put_blob state.now.state digest.now.0 bytes.now) result }
    ensures known { CarriesKnown state.now.state result }
{
    state.is_valid();
    put_blob_on(alloc, state.held(), digest, bytes)
}

/// The same, where the blobs are elsewhere.
pub fn put_blob_on(
    alloc: Global,
    held: &Held,
    digest: &Digest,
    bytes: &[u8],
) -> Result<Outcome, Refusal>
    ensures answers { OfEachState held.now.held (λ S. Answers S (commands.put_blob S digest.now.0 bytes.now) result) }
    ensures known { CarriesVerdicts held.now.held.trusted result }
{
    let outcome = judge_put(alloc, held, digest, bytes)?;
    with_verdicts(alloc, held, outcome)
}

// Stores the file of a target beside what is held.
fn judge_put(alloc: Global, held: &Held, digest: &Digest, bytes: &[u8]) -> Result<Outcome, Refusal>
    ensures answers { OfEachState held.now.held (λ S. Answers S (commands.put_blob S digest.now.0 bytes.now) result) }
    ensures trusted { LeavesTrusted held.now.held.trusted result }
{
    stays_valid();
    held.is_valid();
    if !judge_blob(held, digest, bytes)? {
        return Ok(Outcome::Same);
    }
    let effects = one_blob(alloc, digest, bytes)?;
    Ok(Outcome::Changed(effects))
}

// Whether a blob is stored, or held already.
fn judge_blob(held: &Held, digest: &Digest, bytes: &[u8]) -> Result<bool, Refusal>
    ensures { OfEachState held.now.held (λ S. Judges (commands.put_blob S digest.now.0 bytes.now)
        (record S { blobs = with_row before S.blobs digest.now.0 bytes.now }) result) }
{
    if held.trusted().root.is_none() {
        return Err(Refusal::Denied(Denial::NoRoot));
    }
    if !is_short(bytes) {
        return Err(Refusal::Denied(Denial::BlobLength));
    }
    if !is_digest_of(digest, bytes) {
        return Err(Refusal::Denied(Denial::DigestMismatch));
    }
    if has_blob(held.lengths(), digest) {
        return Ok(false);
    }
    if !has_room(held.lengths()) {
        return Err(Refusal::Denied(Denial::Full));
    }
    Ok(true)
}

// One blob as the only change.
fn one_blob(alloc: Global, digest: &Digest, bytes: &[u8]) -> Result<Effects, AllocError>
    ensures { IfOk result (λ e. effects_view e ≡ record no_effects { blobs = (digest.now.0, bytes.now) ∷ [] }) }
{
    let bytes = Vec::from_slice(alloc, bytes)?;
    let mut effects = Effects::new(alloc);
    effects.blobs.push(Blob {
        digest: *digest,
        bytes,
    })?;
    Ok(effects)
}

// Whether a blob with this digest is held.
fn has_blob(lengths: &[BlobLength], digest: &Digest) -> bool
    requires { Rises before (length_views lengths.now) }
    ensures { IsTrue result ↔ IsSome (length_at (length_views lengths.now) digest.now.0) }
{
    length_of(lengths, digest).is_some()
}

// Whether one more blob may be held.
fn has_room(lengths: &[BlobLength]) -> bool
    ensures { IsTrue result ↔ length (length_views lengths.now) < most_held }
{
    lengths.len() < MOST_HELD
}
