// When a signature is valid (RFC 8554, section 5.4.2, algorithm 6).

ghost use Rattle.std.specs.Prelude.{◌≡◌, ◌↔◌, ◌+◌, ◌<◌, ◌≤◌, ◌^◌, IsTrue, ℕ, List, ◌≢◌, length};
ghost use Rattle.lms.specs.declared.OtsType.{OtsType};
ghost use Rattle.lms.specs.declared.LmsType.{LmsType};
ghost use Rattle.lms.specs.Parameters.{hash_bound, height, chain_count, signature_len};
ghost use Rattle.lms.specs.Verifies.{root_by, hash_count};
ghost use Rattle.lms.specs.Parts.{IsKeyOf, IsSignatureOf};
ghost use Rattle.lms.specs.Text.{HasTypes};
ghost use Rattle.lms.specs.Verifies.{Verifies};

use crate::Steps;
use crate::chains::{candidate, message_hash};
use crate::parts::{PublicKey, Signature, read_public, read_signature};
use crate::tree::{leaf_hash, root_over};

// The root that a signature of a message leads to.
fn root_of(
    key: &PublicKey<'_>,
    signature: &Signature<'_>,
    message: &[u8],
    steps: &mut Steps,
) -> [u8; 32]
    requires leaf { signature.now.q < 2 ^ height key.now.lms }
    requires count { length signature.now.elements.now ≡ chain_count key.now.ots }
    requires path { length signature.now.path.now ≡ height key.now.lms }
    requires room { steps.old < 2 ^ 63 }
    ensures value { result ≡ root_by key.now.lms key.now.ots key.now.identifier.now message.now signature.now.q signature.now.randomizer.now signature.now.elements.now signature.now.path.now }
    ensures count { steps.new ≡ steps.old + hash_count key.now.lms key.now.ots key.now.identifier.now message.now signature.now.q signature.now.randomizer.now }
{
    let identifier = key.identifier;
    let q = signature.q;
    let hash = message_hash(identifier, q, signature.randomizer, message, steps);
    let leaf_key = candidate(key.ots, identifier, q, &hash, signature.elements, steps);
    let node = key.lms.leaves() + q;
    let leaf = leaf_hash(identifier, node, &leaf_key, steps);
    root_over(identifier, node, leaf, signature.path, steps)
}

/// Whether the signature is one of the message under the public key, with one tick of `steps` for each
/// hash: those of section 5.4.2 where the bytes are a key and a signature of its types, and none where they are not.
pub fn verify_counted(
    public: &[u8; 56],
    message: &[u8],
    signature: &[u8],
    steps: &mut Steps,
) -> bool
    requires { steps.old < 2 ^ 63 }
    ensures valid { IsTrue result ↔ (Verifies public.now message.now signature.now) }
    ensures counted { (lms : LmsType) (ots : OtsType) (identifier root : List ℕ) (q : ℕ) (randomizer : List ℕ) (elements path : List (List ℕ))
        → IsKeyOf public.now lms ots identifier root → IsSignatureOf lms ots signature.now q randomizer elements path
        → steps.new ≡ steps.old + hash_count lms ots identifier message.now q randomizer }
    ensures unread { (lms : LmsType) (ots : OtsType) → HasTypes public.now lms ots → length signature.now ≢ signature_len ots lms → steps.new ≡ steps.old }
    ensures refused { ((lms : LmsType) (ots : OtsType) (identifier root : List ℕ) (q : ℕ) (randomizer : List ℕ) (elements path : List (List ℕ))
        → IsKeyOf public.now lms ots identifier root → IsSignatureOf lms ots signature.now q randomizer elements path → ⊥)
        → steps.new ≡ steps.old }
    ensures grows { steps.old ≤ steps.new }
    ensures bound { (lms : LmsType) (ots : OtsType) → HasTypes public.now lms ots → steps.new ≤ steps.old + hash_bound ots lms }
    ensures most { steps.new ≤ steps.old + 8698 }
{
    let Some(key) = read_public(public) else {
        return false;
    };
    let Some(parts) = read_signature(key.lms, key.ots, signature) else {
        return false;
    };
    root_of(&key, &parts, message, steps) == *key.root
}

/// Whether the signature is one of the message under the public key: 56 bytes, any bytes, and
/// 12 + 32 (p + 1) + 32 h bytes for the key's types. It works in arrays of fixed size and always answers, after at
/// most p (2^w - 1) + 3 + h hashes, and after none where the signature has another length.
pub fn verify(public: &[u8; 56], message: &[u8], signature: &[u8]) -> bool
    ensures { IsTrue result ↔ (Verifies public.now message.now signature.now) }
{
    verify_counted(public, message, signature, &mut Steps::new())
}
