// A public key and a signature taken apart (RFC 8554, sections 5.3 and 5.4).

ghost use Rattle.std.specs.Prelude.{◌≡◌, ℕ, List, ◌++◌, ◌*◌, ◌+◌, ◌<◌, ◌≤◌, ◌^◌, length, MatchOption};
ghost use Rattle.std.specs.List.{concat, AllByRecursion};
ghost use Rattle.lms.specs.declared.OtsType.{OtsType};
ghost use Rattle.lms.specs.declared.LmsType.{LmsType};
ghost use Rattle.lms.specs.Parameters.{signature_len as signature_len_of};
ghost use Rattle.lms.specs.Text.{u32, IsHash, HasTypes};
ghost use Rattle.lms.specs.Parts.{IsKeyOf, IsSignatureOf};

use crate::{LmsType, OtsType};

/// A public key, with what is lent from its bytes.
#[derive(Drop)]
pub struct PublicKey<'a> {
    pub lms: LmsType,
    pub ots: OtsType,
    pub identifier: &'a [u8; 16],
    pub root: &'a [u8; 32],
}

/// A signature, with what is lent from its bytes.
#[derive(Drop)]
pub struct Signature<'a> {
    pub q: u32,
    pub randomizer: &'a [u8; 32],
    pub elements: &'a [[u8; 32]],
    pub path: &'a [[u8; 32]],
}

/// The first `N` bytes, and the rest.
pub fn front<const N: usize>(bytes: &[u8]) -> (&[u8; N], &[u8])
    requires { N ≤ length bytes.now }
    ensures whole { bytes.now ≡ result.0.now ++ result.1.now }
    ensures front_len { length result.0.now ≡ N }
    ensures len { length result.1.now + N ≡ length bytes.now }
{
    bytes.split_first_chunk::<N>().unwrap()
}

/// The number that the bytes begin with, and the rest.
pub fn word(bytes: &[u8]) -> (u32, &[u8])
    requires { 4 ≤ length bytes.now }
    ensures whole { bytes.now ≡ u32 result.0 ++ result.1.now }
    ensures range { result.0 < 2 ^ 32 }
    ensures len { length result.1.now + 4 ≡ length bytes.now }
{
    let (first, rest) = front::<4>(bytes);
    (u32::from_be_bytes(*first), rest)
}

// So many hashes that the bytes begin with, and the rest.
fn hashes(bytes: &[u8], count: usize) -> (&[[u8; 32]], &[u8])
    requires few { count < 512 }
    requires within { 32 * count ≤ length bytes.now }
    ensures whole { bytes.now ≡ concat result.0.now ++ result.1.now }
    ensures len { length result.1.now + 32 * count ≡ length bytes.now }
    ensures count { length result.0.now ≡ count }
    ensures each { AllByRecursion IsHash result.0.now }
{
    let (front, rest) = bytes.split_at(32 * count);
    (front.as_chunks::<32>().0, rest)
}

/// The parts of a public key, or None where a type is unknown.
pub fn read_public(public: &[u8; 56]) -> Option<PublicKey<'_>>
    ensures { MatchOption result ((lms : LmsType) (ots : OtsType) → HasTypes public.now lms ots → ⊥)
        (λ key. IsKeyOf public.now key.lms key.ots key.identifier.now key.root.now) }
{
    let (lms, rest) = word(public);
    let (ots, rest) = word(rest);
    let (identifier, rest) = front::<16>(rest);
    let (root, _) = front::<32>(rest);
    Some(PublicKey {
        lms: LmsType::from_code(lms)?,
        ots: OtsType::from_code(ots)?,
        identifier,
        root,
    })
}

/// How many bytes a signature of these types has (RFC 8554, section 5.4). It takes no memory.
pub fn signature_len(lms: LmsType, ots: OtsType) -> usize
    ensures { result ≡ signature_len_of ots lms }
{
    12 + 32 * (usize::from(ots.chain_count()) + 1) + 32 * lms.height() as usize
}

/// The parts of a signature under a key of these types, or None where the bytes are no signature of them.
pub fn read_signature(lms: LmsType, ots: OtsType, signature: &[u8]) -> Option<Signature<'_>>
    ensures { MatchOption result
        ((q : ℕ) (randomizer : List ℕ) (elements path : List (List ℕ)) → IsSignatureOf lms ots signature.now q randomizer elements path → ⊥)
        (λ s. IsSignatureOf lms ots signature.now s.q s.randomizer.now s.elements.now s.path.now) }
{
    if signature.len() != signature_len(lms, ots) {
        return None;
    }
    let (q, rest) = word(signature);
    let (ots_code, rest) = word(rest);
    let (randomizer, rest) = front::<32>(rest);
    let (elements, rest) = hashes(rest, usize::from(ots.chain_count()));
    let (lms_code, rest) = word(rest);
    let (path, _) = hashes(rest, lms.height() as usize);
    if ots_code != ots.code() || lms_code != lms.code() || q >= lms.leaves() {
        return None;
    }
    Some(Signature {
        q,
        randomizer,
        elements,
        path,
    })
}
