//! Further members of a signed part, which decide nothing: the names of keys, and terms.
ghost use Rattle.std.specs.Prelude.{◌≡◌, ◌↔◌, ℕ, pos, List, IsTrue, IfSome, IfNone, IsUtf8};
ghost use Rattle.canonical_json.specs.Json.{Json, HasMember, integer};
ghost use Rattle.canonical_json.specs.Spelling.{IsCanonical, text_spelling};
ghost use Rattle.keys_roles.specs.Views.{id_text};
ghost use Rattle.drafting.specs.Names.{Calls, IsPlain};

use canonical_json::{member, one_spelling};
use keys_roles::KeyId;
use metadata::Digest;
use path_patterns::one_digest;

/// The name that a document has for a key, if it has one: the text under the digits of its id in the member `names`, where
/// nothing in it stands after a backslash.
pub fn name_of_key<'a>(signed: &'a [u8], id: &KeyId) -> Option<&'a str>
    ensures some { (part : Json) → IsCanonical part signed.now → IfSome result (λ name. Calls part (id_text id.now) name.now) }
    ensures none { (part : Json) → IsCanonical part signed.now → IfNone result ((name : List ℕ) → Calls part (id_text id.now) name → ⊥) }
{
    one_spelling();
    one_digest();
    let Some(names) = member(signed, "names") else {
        return None;
    };
    let digits = Digest::new(id.0).digits();
    let Ok(id) = str::from_utf8(&digits) else {
        return None;
    };
    let Some(spelled) = member(names, id) else {
        return None;
    };
    plain_text(spelled)
}

/// The number that a member has, if it has one.
pub fn number_in(signed: &[u8], name: &str) -> Option<u64>
    ensures some { (part : Json) → IsCanonical part signed.now → IfSome result (λ n. HasMember part name.now (integer (pos n))) }
    ensures none { (part : Json) → IsCanonical part signed.now → IfNone result ((n : ℕ) → HasMember part name.now (integer (pos n)) → ⊥) }
{
    let Some(spelled) = member(signed, name) else {
        return None;
    };
    let Ok(digits) = str::from_utf8(spelled) else {
        return None;
    };
    let Ok(number) = digits.parse::<u64>() else {
        return None;
    };
    Some(number)
}

// What stands between two quotation marks, where neither stands in it a quotation mark nor a backslash.
fn plain_text(spelled: &[u8]) -> Option<&str>
    ensures some { IfSome result (λ t. (spelled.now ≡ text_spelling t.now) × IsPlain t.now × IsUtf8 t.now) }
    ensures none { IfNone result ((t : List ℕ) → IsUtf8 t → IsPlain t → spelled.now ≡ text_spelling t → ⊥) }
{
    let Some((first, rest)) = spelled.split_first() else {
        return None;
    };
    let Some((last, inside)) = rest.split_last() else {
        return None;
    };
    if *first != b'"' {
        return None;
    }
    if *last != b'"' {
        return None;
    }
    if !is_plain(inside) {
        return None;
    }
    match str::from_utf8(inside) {
        Ok(text) => Some(text),
        Err(_) => None,
    }
}

// Whether neither a quotation mark nor a backslash is among the bytes.
fn is_plain(bytes: &[u8]) -> bool
    ensures { IsTrue result ↔ IsPlain bytes.now }
{
    let mut rest = bytes;
    'bytes: while let Some((byte, later)) = rest.split_first() {
        if *byte == b'"' || *byte == b'\\' {
            return false;
        }
        rest = later;
    }
    true
}
