// The documents of a batch, as the body of the request has them.

ghost use Rattle.std.specs.Prelude.{◌≡◌, ◌≢◌, ℕ, ◌<◌, List, ◌∷◌, ◌++◌, length, map, slice_index, IfOk, IfSome, IfNone, OnErr};
ghost use Rattle.std.specs.Fmt.{decimal};
ghost use Rattle.path_patterns.specs.Grammar.{IsName};
ghost use Rattle.http_messages.specs.Framing.{Document, IsBatch, Opens, BeginsWithDocument};
ghost use Rattle.http_messages.specs.steps.Cutting.{Lacks, Cuts};

use crate::fields::{are_digits, value_of};
use limits::MOST_DOCUMENTS;
use path_patterns::RoleName;
use std::alloc::{AllocError, Global};

// The most digits of a document's length.
const MOST_DIGITS: usize = 7;

/// The documents of a batch with their names, lent from its body: 1 to 160 documents, each `NAME LENGTH`, a line feed and so
/// many bytes. A name is one of a role, and a length is in decimal, of 1 to 7 digits, with no zero in front of others.
/// `None` where the body is anything else. The error is want of memory, for the names and for the list: only a body that
/// begins with a document wants any.
pub fn read_batch(alloc: Global, body: &[u8]) -> Result<Option<Vec<(RoleName, &[u8])>>, AllocError>
    ensures some { IfOk result (λ o. IfSome o (λ v. IsBatch body.now (map {B = Document} (λ d. (d.0, d.1.now)) v.items))) }
    ensures none { IfOk result (λ o. IfNone o ((documents : List Document) → IsBatch body.now documents → ⊥)) }
    ensures memory { OnErr result (BeginsWithDocument body.now) }
{
    let mut documents = Vec::new(alloc);
    let mut rest = body;
    while !rest.is_empty() {
        if documents.len() == MOST_DOCUMENTS {
            return Ok(None);
        }
        let Some((name, bytes, later)) = read_document(alloc, rest)? else {
            return Ok(None);
        };
        documents.push((name, bytes))?;
        rest = later;
    }
    if documents.is_empty() {
        return Ok(None);
    }
    Ok(Some(documents))
}

// The document at the front of a text: its name, its bytes, and what follows it. The error is want of memory, for the name.
fn read_document<'a>(
    alloc: Global,
    text: &'a [u8],
) -> Result<Option<(RoleName, &'a [u8], &'a [u8])>, AllocError>
    ensures some { IfOk result (λ o. IfSome o (λ d. Opens text.now (d.0, d.1.now) d.2.now)) }
    ensures none { IfOk result (λ o. IfNone o ((d : Document) (rest : List ℕ) → Opens text.now d rest → ⊥)) }
    ensures memory { OnErr result (BeginsWithDocument text.now) }
{
    let Some((name, bytes, rest)) = cut_document(text) else {
        return Ok(None);
    };
    match read_name(alloc, name)? {
        Some(name) => Ok(Some((name, bytes, rest))),
        None => Ok(None),
    }
}

// The document at the front of a text, whatever stands for its name.
fn cut_document(text: &[u8]) -> Option<(&[u8], &[u8], &[u8])>
    ensures some { IfSome result (λ d. Cuts text.now (d.0.now, d.1.now) d.2.now) }
    ensures none { IfNone result ((d : Document) (rest : List ℕ) → Opens text.now d rest → ⊥) }
{
    let (name, behind_name) = cut(text, b' ')?;
    let (digits, behind_digits) = cut(behind_name, b'\n')?;
    let len = read_length(digits)?;
    let (bytes, rest) = behind_digits.split_at_checked(len)?;
    Some((name, bytes, rest))
}

/// What stands before the first of these bytes, and what stands after it.
pub fn cut(text: &[u8], byte: u8) -> Option<(&[u8], &[u8])>
    ensures some { IfSome result (λ r. (text.now ≡ r.0.now ++ byte ∷ r.1.now) × Lacks byte r.0.now) }
    ensures none { IfNone result (Lacks byte text.now) }
{
    match find_byte(text, byte) {
        Some(at) => Some((&text[..at], &text[at + 1..])),
        None => None,
    }
}

// The index of the first of these bytes.
fn find_byte(text: &[u8], byte: u8) -> Option<usize>
    ensures some { IfSome result (λ i. (i < length text.now) × (slice_index text.now i ≡ byte) × ((k : ℕ) → k < i → slice_index text.now k ≢ byte)) }
    ensures none { IfNone result (Lacks byte text.now) }
{
    for (i, b) in text.iter().enumerate() {
        if *b == byte {
            return Some(i);
        }
    }
    None
}

// A role's name. The error is want of memory, for the name.
fn read_name(alloc: Global, text: &[u8]) -> Result<Option<RoleName>, AllocError>
    ensures some { IfOk result (λ o. IfSome o (λ name. (name ≡ text.now) × IsName text.now)) }
    ensures none { IfOk result (λ o. IfNone o (IsName text.now → ⊥)) }
    ensures memory { OnErr result (IsName text.now) }
{
    match str::from_utf8(text) {
        Ok(name) => RoleName::read(alloc, name),
        Err(_) => Ok(None),
    }
}

// A length of 1 to 7 digits, with no zero in front of others.
fn read_length(digits: &[u8]) -> Option<usize>
    ensures some { IfSome result (λ n. (digits.now ≡ decimal n) × (n < 10000000)) }
    ensures none { IfNone result ((n : ℕ) → n < 10000000 → digits.now ≢ decimal n) }
{
    if digits.is_empty() {
        return None;
    }
    if digits.len() > MOST_DIGITS {
        return None;
    }
    if !are_digits(digits) {
        return None;
    }
    if digits.len() > 1 {
        if digits[0] == b'0' {
            return None;
        }
    }
    Some(value_of(digits) as usize)
}

/// A law, which does nothing: a body is the documents of one batch at most.
pub fn one_batch()
    ensures { (body : List ℕ) (a b : List Document) → IsBatch body a → IsBatch body b → a ≡ b }
{}
