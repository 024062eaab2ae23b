//! The parameters of the trees below a top tree, by the public keys that its leaves are kept for.
ghost use Rattle.std.specs.Prelude.{◌≡◌, ◌<◌, ℕ, MatchOption};
ghost use Rattle.keys_roles.specs.Views.{id_text};
ghost use Rattle.lms.specs.declared.OtsType.{OtsType as Ots};
ghost use Rattle.lms.specs.declared.Params.{Params as PlainParams};
ghost use Rattle.lms.specs.declared.SigningHeight.{SigningHeight as Height};
ghost use Rattle.lms.specs.Parameters.{lms_code as lms_code_of, ots_code, signing_type};
ghost use Rattle.lms.specs.Text.{u32};
ghost use Rattle.signer.specs.Below.{IsOfParams, NamesParams};

use crate::trees::{lms_code, message_of, used_within};
use keys_roles::KeyId;
use leaf_book::Book;
use leaf_plans::{code_of, is_same};
use lms::{OtsType, Params, SigningHeight};
use sqlite::Alter;

/// The parameters that a key of two levels has below its top tree: those of the LMS public key that the first leaf is kept for which is kept
/// for one of a type that is signed with. `None` where the top tree's key keeps no leaf for such a key. It takes no memory.
pub fn lower_params<S: Alter>(book: &Book<S>, top: &KeyId) -> Option<Params>
    ensures { MatchOption result ((q : ℕ) (params : PlainParams) → NamesParams book.now.book (id_text top.now) params q → ⊥)
        (λ params. (q : ℕ) × NamesParams book.now.book (id_text top.now) params q
        × ((n : ℕ) (other : PlainParams) → n < q → NamesParams book.now.book (id_text top.now) other n → ⊥)) }
{
    let count = used_within(book, top);
    'leaves: for q in 0..count {
        if let Some(params) = params_at(book, top, q) {
            return Some(params);
        }
    }
    None
}

// The same of leaf q alone.
fn params_at<S: Alter>(book: &Book<S>, top: &KeyId, q: u32) -> Option<Params>
    ensures { MatchOption result ((params : PlainParams) → NamesParams book.now.book (id_text top.now) params q → ⊥) (λ params. NamesParams book.now.book (id_text top.now) params q) }
{
    book.rests();
    match message_of(book.kept(), top, q) {
        Some(message) => params_in(message),
        None => None,
    }
}

/// The parameters that an LMS public key names by its two types, where a tree of them is signed by (RFC 8554, section 5.3). `None` where
/// the bytes are of another length too. It takes no memory.
pub fn params_in(bytes: &[u8]) -> Option<Params>
    ensures { MatchOption result ((params : PlainParams) → IsOfParams bytes.now params → ⊥) (λ params. IsOfParams bytes.now params) }
{
    if bytes.len() != 56 {
        return None;
    }
    let Some(height) = height_by(&bytes[..4]) else {
        return None;
    };
    let Some(ots) = ots_by(&bytes[4..8]) else {
        return None;
    };
    Some(Params { ots, height })
}

// The height of an LMS type.
fn height_by(word: &[u8]) -> Option<SigningHeight>
    ensures { MatchOption result ((h : Height) → word.now ≡ u32 (lms_code_of (signing_type h)) → ⊥) (λ h. word.now ≡ u32 (lms_code_of (signing_type h))) }
{
    if is_same(word, &lms_code(SigningHeight::H5).to_be_bytes()) {
        return Some(SigningHeight::H5);
    }
    if is_same(word, &lms_code(SigningHeight::H10).to_be_bytes()) {
        return Some(SigningHeight::H10);
    }
    None
}

// The LM-OTS type of a number.
fn ots_by(word: &[u8]) -> Option<OtsType>
    ensures { MatchOption result ((ots : Ots) → word.now ≡ u32 (ots_code ots) → ⊥) (λ ots. word.now ≡ u32 (ots_code ots)) }
{
    if is_same(word, &code_of(OtsType::W1).to_be_bytes()) {
        return Some(OtsType::W1);
    }
    if is_same(word, &code_of(OtsType::W2).to_be_bytes()) {
        return Some(OtsType::W2);
    }
    if is_same(word, &code_of(OtsType::W4).to_be_bytes()) {
        return Some(OtsType::W4);
    }
    if is_same(word, &code_of(OtsType::W8).to_be_bytes()) {
        return Some(OtsType::W8);
    }
    None
}
