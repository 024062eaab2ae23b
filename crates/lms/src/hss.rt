// When a signature of the hierarchical scheme is valid (RFC 8554, section 6.3).

ghost use Rattle.std.specs.Prelude.{◌≡◌, ◌↔◌, ◌+◌, ◌*◌, ◌++◌, ◌<◌, ◌≤◌, ◌^◌, IsTrue, ℕ, List, length, MatchOption};
ghost use Rattle.lms.specs.Verifies.{Verifies};
ghost use Rattle.lms.specs.Hss.{AreLevels, IsLevel, TakesDown, TakesHss, VerifiesDown, VerifiesHss, hashes_down};
ghost use Rattle.lms.specs.steps.Levels.{IsOnlyCut};

use crate::Steps;
use crate::parts::{front, read_public, signature_len, word};
use crate::verifying::verify_counted;

// The most keys that may be signed, one less than the levels.
const MOST_SIGNED_KEYS: u32 = 7;

// How many keys are signed, the top key, and what stands after the signature's first word, or None where the first words are
// not L, from 1 to 8, and L - 1.
fn read_levels<'a>(
    public: &'a [u8; 60],
    signature: &'a [u8],
) -> Option<(u32, &'a [u8; 56], &'a [u8])>
    ensures { MatchOption result
        ((signed_keys : ℕ) (top rest : List ℕ) → AreLevels public.now signature.now signed_keys top rest → ⊥)
        (λ l. AreLevels public.now signature.now l.0 l.1.now l.2.now) }
{
    if signature.len() < 4 {
        return None;
    }
    let (levels, top) = word(public);
    let (top, _) = front::<56>(top);
    let (signed_keys, rest) = word(signature);
    if signed_keys > MOST_SIGNED_KEYS || levels != signed_keys + 1 {
        return None;
    }
    Some((signed_keys, top, rest))
}

// The signature and the key that the bytes begin with, and what follows them, or None where the signer's types are unknown or
// the bytes are too few.
fn split<'a>(signer: &[u8; 56], rest: &'a [u8]) -> Option<(&'a [u8], &'a [u8; 56], &'a [u8])>
    ensures only { MatchOption result
        ((signature next later : List ℕ) → rest.now ≡ signature ++ (next ++ later) → length next ≡ 56 → Verifies signer.now next signature → ⊥)
        (λ p. (rest.now ≡ p.0.now ++ (p.1.now ++ p.2.now)) × IsOnlyCut signer.now rest.now p.0.now p.1.now p.2.now) }
    ensures cut { MatchOption result
        ((signature next later : List ℕ) → IsLevel signer.now rest.now signature next later → ⊥)
        (λ p. IsLevel signer.now rest.now p.0.now p.1.now p.2.now) }
{
    let types = read_public(signer)?;
    let (signature, behind) = rest.split_at_checked(signature_len(types.lms, types.ots))?;
    let (key, later) = behind.split_first_chunk::<56>()?;
    Some((signature, key, later))
}

// Whether each key signs the next one, and the last the message, with one tick for each hash.
fn verify_down(
    signed_keys: u32,
    top: &[u8; 56],
    message: &[u8],
    rest: &[u8],
    steps: &mut Steps,
) -> bool
    requires few { signed_keys < 8 }
    requires fresh { steps.old ≡ 0 }
    ensures valid { IsTrue result ↔ (VerifiesDown signed_keys top.now message.now rest.now) }
    ensures counted { (v : VerifiesDown signed_keys top.now message.now rest.now) → steps.new ≡ hashes_down signed_keys top.now message.now rest.now v }
    ensures taken { TakesDown signed_keys top.now message.now rest.now steps.new }
    ensures most { steps.new ≤ 8698 * (signed_keys + 1) }
{
    let mut signer = top;
    let mut rest = rest;
    'levels: for _n in 0..signed_keys {
        let Some((signature, key, later)) = split(signer, rest) else {
            return false;
        };
        if !verify_counted(signer, key, signature, steps) {
            return false;
        }
        signer = key;
        rest = later;
    }
    verify_counted(signer, message, rest, steps)
}

/// The same as `verify_hss`, with one tick of `steps` for each hash of each level, as `verify_counted` counts them, up to the
/// first level that does not verify, be the signature valid or not: at most 8,698 a level.
pub fn verify_hss_counted(
    public: &[u8; 60],
    message: &[u8],
    signature: &[u8],
    steps: &mut Steps,
) -> bool
    requires { steps.old < 2 ^ 63 }
    ensures valid { IsTrue result ↔ (VerifiesHss public.now message.now signature.now) }
    ensures counted { (v : VerifiesHss public.now message.now signature.now) → steps.new ≡ steps.old + hashes_down v.signed_keys v.top message.now v.rest v.down }
    ensures taken { (count : ℕ) × (steps.new ≡ steps.old + count) × TakesHss public.now message.now signature.now count }
    ensures grows { steps.old ≤ steps.new }
    ensures most { steps.new ≤ steps.old + 69584 }
{
    let Some((signed_keys, top, rest)) = read_levels(public, signature) else {
        return false;
    };
    let mut taken = Steps::new();
    let valid = verify_down(signed_keys, top, message, rest, &mut taken);
    steps.add(&taken);
    valid
}

/// Whether the signature is one of the message under the key of the hierarchical scheme (RFC 8554, section 6.3).
///
/// The key is 60 bytes, u32 L and an LMS public key, with L from 1 to 8. The signature is u32 (L - 1), then L - 1 times an LMS
/// signature with the LMS public key that it signs, each under the key before it, and then an LMS signature of the message
/// under the last key: at most 74,988 bytes, and none left over. What has another form verifies nothing. It works in arrays of
/// fixed size and always answers, after at most 69,584 hashes.
pub fn verify_hss(public: &[u8; 60], message: &[u8], signature: &[u8]) -> bool
    ensures { IsTrue result ↔ (VerifiesHss public.now message.now signature.now) }
{
    verify_hss_counted(public, message, signature, &mut Steps::new())
}
