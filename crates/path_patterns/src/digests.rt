// Digests as hex digits.
ghost use Rattle.std.specs.Prelude.{◌≡◌, ◌<◌, List, ℕ, IfOk, IfSome, IfNone, string_bytes};
ghost use Rattle.std.specs.List.{AllByRecursion, list_all};
ghost use Rattle.hex.specs.Hex.{encode_lower};
ghost use Rattle.path_patterns.specs.Bytes.{is_hex};
ghost use Rattle.path_patterns.specs.Grammar.{IsHex};
ghost use Rattle.path_patterns.specs.Names.{IsDigest};

use crate::{Digest, NoMemory};
use std::alloc::Global;

impl Digest {
    /// The digest of these bytes. It takes no memory.
    pub fn new(bytes: [u8; 32]) -> Digest
        ensures { result.0 ≡ bytes }
    {
        Digest(bytes)
    }

    /// The digest's bytes. It takes no memory.
    pub fn bytes(&self) -> [u8; 32]
        ensures value { result ≡ self.now.0 }
        ensures digest { IsDigest self.now.0 }
    {
        are_bytes(&self.0);
        self.0
    }

    /// The digest that the text spells in exactly 64 hex digits of lower case, and `None` where the text is no such
    /// digits. It takes no memory.
    pub fn read(text: &str) -> Option<Digest>
        ensures some { IfSome result (λ d. IsDigest d.0 × IsHex 64 text.now × (text.now ≡ encode_lower d.0)) }
        ensures none { IfNone result (IsHex 64 text.now → ⊥) }
    {
        let digits = text.as_bytes();
        if digits.len() != 64 || !are_hex_digits(digits) {
            return None;
        }
        let mut bytes = [0; 32];
        match hex::decode_to_slice(digits, &mut bytes) {
            Ok(()) => Some(Digest(bytes)),
            Err(_) => None,
        }
    }

    /// The digest as 64 hex digits of lower case, in ASCII. It takes no memory.
    pub fn digits(&self) -> [u8; 64]
        ensures value { result ≡ encode_lower self.now.0 }
        ensures digest { IsDigest self.now.0 }
    {
        let mut digits = [0; 64];
        let _ = hex::encode_to_slice(&self.bytes(), &mut digits);
        digits
    }

    /// The digest as a text of 64 hex digits of lower case.
    pub fn text(&self, alloc: Global) -> Result<String, NoMemory>
        ensures value { IfOk result (λ s. string_bytes s ≡ encode_lower self.now.0) }
        ensures digest { IsDigest self.now.0 }
    {
        let bytes = self.bytes();
        hex::encode(alloc, &bytes)
    }
}

/// A law, which does nothing: 64 hex digits of lower case spell one digest, and every digest is spelled in such digits.
pub fn one_digest()
    ensures spelled { (d : List ℕ) → IsDigest d → IsHex 64 (encode_lower d) }
    ensures read { (text : List ℕ) → IsHex 64 text → (d : List ℕ) × IsDigest d × (text ≡ encode_lower d) }
    ensures one { (d e : List ℕ) → IsDigest d → IsDigest e → encode_lower d ≡ encode_lower e → d ≡ e }
{}

// A law, which does nothing: every byte is below 256.
fn are_bytes(bytes: &[u8])
    ensures { AllByRecursion (λ b. b < 256) bytes.now }
{
    let _count = bytes.len();
}

/// Whether each byte is a hex digit of lower case. It takes no memory.
pub fn are_hex_digits(text: &[u8]) -> bool
    ensures { result ≡ list_all is_hex text.now }
{
    text.iter()
        .all(|b| b.is_ascii_digit() || matches!(*b, b'a'..=b'f'))
}
