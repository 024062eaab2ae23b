// Signatures in hex digits, and whether they verify.
ghost use Rattle.std.specs.Prelude.{◌≡◌, ◌↔◌, ◌+◌, ◌-◌, ◌*◌, ◌<◌, ◌≤◌, ◌^◌, List, ℕ, length, IsTrue};
ghost use Rattle.keys_roles.specs.Keys.{VerifiesUnder};
ghost use Rattle.keys_roles.specs.Rules.{AreDigitsOf, SpellsSignature};
ghost use Rattle.keys_roles.specs.Verdicts.{TakesCheck};
ghost use Rattle.keys_roles.specs.Views.{key_view};

use crate::Key;
use lms::{Steps, verify, verify_hss};
use path_patterns::are_hex_digits;

// The bytes of the longest signature, one of eight levels.
const LONGEST: usize = 74_988;

/// Whether the digits are those of a signature of the message under the key, with one tick if that takes a check of a
/// signature.
pub(crate) fn digits_verify(key: &Key, signed: &[u8], digits: &[u8], steps: &mut Steps) -> bool
    requires { steps.old + 1 < 2 ^ 64 }
    ensures valid { IsTrue result ↔ (SpellsSignature (key_view key.now) signed.now digits.now) }
    ensures counted { TakesCheck digits.now (steps.new - steps.old) }
    ensures grows { steps.old ≤ steps.new }
    ensures most { steps.new ≤ steps.old + 1 }
{
    let count = digits.len() / 2;
    if digits.len() % 2 != 0 || count > LONGEST {
        return false;
    }
    let mut buffer = [0; LONGEST];
    let bytes = &mut buffer[..count];
    if !read_digits(digits, bytes) {
        return false;
    }
    verifies(key, signed, bytes, steps)
}

// Whether the signature is one of the message under the key, with one tick.
fn verifies(key: &Key, signed: &[u8], signature: &[u8], steps: &mut Steps) -> bool
    requires { steps.old + 1 < 2 ^ 64 }
    ensures valid { IsTrue result ↔ (VerifiesUnder (key_view key.now) signed.now signature.now) }
    ensures counted { steps.new ≡ steps.old + 1 }
{
    steps.tick();
    match key {
        Key::Lms(public) => verify(public, signed, signature),
        Key::Hss(public) => verify_hss(public, signed, signature),
    }
}

/// Reads lower-case hex digits as bytes, two for each. Whether they are such digits. It takes no memory.
pub fn read_digits(digits: &[u8], bytes: &mut [u8]) -> bool
    requires { length digits.now ≡ 2 * length bytes.old }
    ensures read { IsTrue result → AreDigitsOf digits.now bytes.new }
    ensures all { (s : List ℕ) → AreDigitsOf digits.now s → IsTrue result × (bytes.new ≡ s) }
{
    are_hex_digits(digits) && hex::decode_to_slice(digits, bytes).is_ok()
}
