//! The bytes of a file, with what it costs to find in them.
ghost use Rattle.std.specs.Prelude.{◌≡◌, ◌≤◌, IfOk, length};
ghost use Rattle.limits.specs.Limits.{most_signatures};
ghost use Rattle.sha2.specs.Sha256.{sha256};
ghost use Rattle.keys_roles.specs.Views.{entries_view};
ghost use Rattle.metadata.specs.Signed.{Signed};

use keys_roles::Signature;
use path_patterns::Digest;
use sha2::{Digest as _, Sha256};
use std::alloc::{AllocError, Global};
use std::marker::Model;

/// The bytes of a file, with its digest, its signatures, at most 16, and the bytes that these are over (TUF 1.0, section
/// 4.2). A clause sees bytes, signed bytes and signatures.
#[derive(Drop)]
pub struct Source {
    bytes: Vec<u8>,
    signed: Vec<u8>,
    signatures: Vec<Signature>,
    digest: Digest,
}

impl Model for Source {
    ghost use Rattle.std.specs.Prelude.{◌≡◌, ◌≤◌, length};
    ghost use Rattle.sha2.specs.Sha256.{sha256};
    ghost use Rattle.keys_roles.specs.Views.{entries_view};
    ghost use Rattle.limits.specs.Limits.{most_signatures};
    ghost use Rattle.metadata.specs.Signed.{Signed};

    ghost Value = { Signed };

    ghost view = { λ s. record { bytes = s.bytes.items; signed = s.signed.items; entries = entries_view s.signatures.items } };

    ghost invariant = { λ s. (s.digest.0 ≡ sha256 s.bytes.items) × (length s.signatures.items ≤ most_signatures) };
}

impl Source {
    pub(crate) fn new(
        alloc: Global,
        bytes: &[u8],
        signed: &[u8],
        signatures: Vec<Signature>,
    ) -> Result<Source, AllocError>
        requires { length signatures.items ≤ most_signatures }
        ensures { IfOk result (λ s. s ≡ record { bytes = bytes.now; signed = signed.now; entries = entries_view signatures.items }) }
    {
        let digest = digest_of(bytes);
        let bytes = Vec::from_slice(alloc, bytes)?;
        let signed = Vec::from_slice(alloc, signed)?;
        Ok(Source {
            bytes,
            signed,
            signatures,
            digest,
        })
    }

    /// The bytes of the file.
    pub fn bytes(&self) -> &[u8]
        ensures { result.now ≡ self.now.bytes }
    {
        &self.bytes
    }

    /// The bytes that the signatures are over.
    pub fn signed(&self) -> &[u8]
        ensures { result.now ≡ self.now.signed }
    {
        &self.signed
    }

    /// The signatures, at most 16.
    pub fn signatures(&self) -> &[Signature]
        ensures value { entries_view result.now ≡ self.now.entries }
        ensures few { length result.now ≤ most_signatures }
    {
        &self.signatures
    }

    /// The SHA-256 of the bytes. It is not computed anew.
    pub fn digest(&self) -> Digest
        ensures { result.0 ≡ sha256 self.now.bytes }
    {
        self.digest
    }

    /// The bytes of the file, and nothing else of it.
    pub fn into_bytes(self) -> Vec<u8>
        ensures { result.items ≡ self.bytes }
    {
        self.bytes
    }
}

/// The SHA-256 of the bytes (FIPS 180-4, section 6.2). It takes no memory.
pub fn digest_of(bytes: &[u8]) -> Digest
    ensures { result.0 ≡ sha256 bytes.now }
{
    let mut hasher = Sha256::new();
    hasher.update(bytes);
    Digest::new(hasher.finalize())
}
