//! Bytes of blobs that are elsewhere, and what a request for a target answers from them.
ghost use Rattle.std.specs.Prelude.{◌≡◌, ◌↔◌, IfOk, OnOk};
ghost use Rattle.sha2.specs.Sha256.{sha256};
ghost use Rattle.metadata.specs.File.{Bytes};
ghost use Rattle.granting.specs.Serving.{Leaves};
ghost use Rattle.granting.specs.steps.Permitting.{IsLoaded, Reads};

use denials::Denial;
use layouts::LayoutFault;
use path_patterns::Digest;
use std::alloc::{AllocError, AllocFailed, Global};
use thiserror::Error;
use trusted_state::pieces::finding::blob_of;
use trusted_state::refusal::Refusal;
use trusted_state::state::State;

/// Why bytes were not loaded.
#[derive(Clone, Copy, Debug, PartialEq, Eq, Error)]
pub enum LoadFault {
    /// No bytes with this digest are there.
    #[error("no such bytes")]
    Missing,
    /// The database answered a fault.
    #[error("database fault")]
    Database,
    /// Memory was refused.
    #[error("out of memory")]
    OutOfMemory,
}

/// The bytes of blobs by their digests, wherever they are.
pub trait Blobs {
    /// Under this digest stand these bytes.
    ghost Holds: { Self → Bytes → Bytes → Type 0 };

    /// No answer so far was a wrong one.
    ghost IsHonest: { Self → Type 0 };

    /// What one call, or several, may make of it.
    ghost MayBecome: { Self → Self → Type 0 };

    /// What is so of it once bytes were loaded.
    ghost HasLoaded: { Self → Type 0 };

    /// Puts bytes that have this digest after what is there. On a fault, what is there is as before.
    fn load(&mut self, digest: &Digest, out: &mut Vec<u8>) -> Result<(), LoadFault>
        ensures leaves { Leaves (IsHonest self.new) (Holds self.old) digest.now.0 out.old.items result out.new.items }
        ensures stays { IsHonest self.new → (digest bytes : Bytes) → Holds self.old digest bytes ↔ Holds self.new digest bytes }
        ensures was { IsHonest self.new → IsHonest self.old }
        ensures becomes { MayBecome self.old self.new }
        ensures loaded { OnOk result (HasLoaded self.new) };

    ghost becomes_on: { (a b c : Self) → MayBecome a b → MayBecome b c → MayBecome a c };
}

/// The blobs of a state, which are in memory.
impl Blobs for &State {
    ghost use Rattle.std.specs.Prelude.{◌≡◌, Some};
    ghost use Rattle.std.proofs.Common.{◌∙◌};
    ghost use Rattle.trust_rules.specs.State.{blob_at};

    ghost Holds = { λ s digest bytes. blob_at s.now.state.blobs digest ≡ Some bytes };

    ghost IsHonest = { λ _. Unit {0} };

    ghost MayBecome = { λ old new. new ≡ old };

    ghost HasLoaded = { λ _. Unit {0} };

    ghost becomes_on = { λ a b c p q. q ∙ p };

    fn load(&mut self, digest: &Digest, out: &mut Vec<u8>) -> Result<(), LoadFault> {
        let state: &State = self;
        let Some(blob) = blob_of(state.blobs(), digest) else {
            return Err(LoadFault::Missing);
        };
        match out.extend_from_slice(&blob.bytes) {
            Ok(()) => Ok(()),
            Err(_) => Err(LoadFault::OutOfMemory),
        }
    }
}

/// The file of a target: its SHA-256 digest, as it is listed, and its bytes.
#[derive(Debug, Drop)]
pub struct Served {
    pub digest: Digest,
    pub bytes: Vec<u8>,
}

/// Why a request for a target serves nothing.
#[derive(Debug, Drop, Error)]
pub enum GetFault {
    /// A rule fails.
    #[error("denied")]
    Denied(Denial),
    /// The bytes were not loaded.
    #[error("not loaded")]
    Load(LoadFault),
    /// Memory was refused. It says nothing of the rules.
    #[error("out of memory")]
    OutOfMemory,
}

/// The same refusal, of a request that serves nothing.
impl From<Refusal> for GetFault {
    ghost use Rattle.granting.specs.steps.Permitting.{IsRefusedSo};

    ghost from_gives = { IsRefusedSo };

    fn from(refusal: Refusal) -> Self {
        match refusal {
            Refusal::Denied(denial) => GetFault::Denied(denial),
            Refusal::OutOfMemory => GetFault::OutOfMemory,
        }
    }
}

/// Refused memory is `OutOfMemory`.
impl From<AllocError> for GetFault {
    ghost use Rattle.std.specs.Prelude.{◌≡◌};
    ghost use Rattle.granting.specs.declared.serving.GetFault.TheVariants.{OutOfMemory};

    ghost from_gives = { λ _ e. e ≡ OutOfMemory };

    fn from(_: AllocError) -> Self {
        GetFault::OutOfMemory
    }
}

impl<T: Drop> From<AllocFailed<T>> for GetFault {
    ghost use Rattle.std.specs.Prelude.{◌≡◌};
    ghost use Rattle.granting.specs.declared.serving.GetFault.TheVariants.{OutOfMemory};

    ghost from_gives = { λ _ e. e ≡ OutOfMemory };

    fn from(_: AllocFailed<T>) -> Self {
        GetFault::OutOfMemory
    }
}

/// A layout that does not hold denies its target by the first check that fails.
impl From<LayoutFault> for GetFault {
    ghost use Rattle.granting.specs.steps.Permitting.{IsLayoutAnswer};

    ghost from_gives = { IsLayoutAnswer };

    fn from(fault: LayoutFault) -> Self {
        match fault {
            LayoutFault::LayoutThreshold => GetFault::Denied(Denial::LayoutThreshold),
            LayoutFault::LayoutExpired => GetFault::Denied(Denial::LayoutExpired),
            LayoutFault::StepThreshold => GetFault::Denied(Denial::StepThreshold),
            LayoutFault::LinksDisagree => GetFault::Denied(Denial::LinksDisagree),
            LayoutFault::Disallowed => GetFault::Denied(Denial::Disallowed),
            LayoutFault::Required => GetFault::Denied(Denial::Required),
            LayoutFault::ProductMismatch => GetFault::Denied(Denial::ProductMismatch),
            LayoutFault::OutOfMemory => GetFault::OutOfMemory,
        }
    }
}

/// The file of a digest.
pub(crate) fn load<B: Blobs>(
    alloc: Global,
    blobs: &mut B,
    digest: Digest,
) -> Result<Served, GetFault>
    ensures loads { IsLoaded (B.IsHonest blobs.new) (B.Holds blobs.old) digest.0 result }
    ensures digest { IfOk result (λ s. sha256 s.bytes.items ≡ s.digest.0) }
    ensures reads { Reads B.IsHonest B.Holds B.MayBecome blobs.old blobs.new }
    ensures loaded { OnOk result (B.HasLoaded blobs.new) }
{
    let mut bytes = Vec::new(alloc);
    match blobs.load(&digest, &mut bytes) {
        Ok(()) => Ok(Served { digest, bytes }),
        Err(fault) => Err(GetFault::Load(fault)),
    }
}
