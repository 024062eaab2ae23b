//! What the body of a reply to a command says.
ghost use Rattle.std.specs.Prelude.{◌≡◌, ◌≢◌, ◌<◌, ◌^◌, ◌++◌, ℕ, List, Option, IfNone, IfOk, IfSome, IsTrue, codes};
ghost use Rattle.std.specs.Char.{is_ascii_alphabetic};
ghost use Rattle.std.specs.List.{list_all};
ghost use Rattle.http_messages.specs.Bodies.{accepted_text, denial_text, pruned_text};
ghost use Rattle.http_fetch.specs.steps.Told.{index_before, two_numbers};

use crate::cutting::{after, before, is_same, number_before};
use http_messages::{accepted_body, denial_body, pruned_body};
use std::alloc::{AllocError, Global};

/// A denial as a reply tells it: the number of the first rule that fails, of a batch the index of its document, and the rule's name, of
/// letters alone.
#[derive(Clone, Copy, Debug)]
pub struct Denied<'a> {
    pub number: u8,
    pub index: Option<usize>,
    pub name: &'a str,
}

/// How many documents of a batch changed something and how many were held already, as the body of its reply tells: `None` exactly
/// where the body is that of no two numbers. It takes no memory.
pub fn read_accepted(body: &[u8]) -> Option<(usize, usize)>
    ensures some { IfSome result (λ r. body.now ≡ accepted_text r.0 r.1) }
    ensures none { IfNone result ((accepted same : ℕ) → accepted < 2 ^ 64 → same < 2 ^ 64 → body.now ≢ accepted_text accepted same) }
{
    let (accepted, same) = numbers_in(body, b"{\"accepted\":", b"\"same\":")?;
    if is_same(body, accepted_body(accepted, same).as_slice()) {
        Some((accepted, same))
    } else {
        None
    }
}

/// How many blobs and how many rows of the shelf a prune removed, as the body of its reply tells: `None` exactly where the body is that
/// of no two numbers. It takes no memory.
pub fn read_pruned(body: &[u8]) -> Option<(usize, usize)>
    ensures some { IfSome result (λ r. body.now ≡ pruned_text r.0 r.1) }
    ensures none { IfNone result ((blobs rows : ℕ) → blobs < 2 ^ 64 → rows < 2 ^ 64 → body.now ≢ pruned_text blobs rows) }
{
    let (blobs, rows) = numbers_in(body, b"{\"blobs\":", b"\"rows\":")?;
    if is_same(body, pruned_body(blobs, rows).as_slice()) {
        Some((blobs, rows))
    } else {
        None
    }
}

/// The denial that the body of a reply tells: `Ok(None)` exactly where the body is that of no number, index and name of letters. The
/// error is want of memory.
pub fn read_denial(alloc: Global, body: &[u8]) -> Result<Option<Denied<'_>>, AllocError>
    ensures some { IfOk result (λ o. IfSome o (λ d. body.now ≡ denial_text d.number d.index d.name.now)) }
    ensures none { IfOk result (λ o. IfNone o ((number : ℕ) (index : Option ℕ) (name : List ℕ) → number < 256 → IfSome index (λ i. i < 2 ^ 64)
        → IsTrue (list_all is_ascii_alphabetic name) → body.now ≢ denial_text number index name)) }
{
    let Some(denied) = denial_in(body) else {
        return Ok(None);
    };
    let text = denial_body(alloc, denied.number, denied.index, denied.name)?;
    if is_same(body, text.as_bytes()) {
        Ok(Some(denied))
    } else {
        Ok(None)
    }
}

// What stands where a denial has its number, its index and its name of letters.
fn denial_in(body: &[u8]) -> Option<Denied<'_>>
    ensures letters { IfSome result (λ d. IsTrue (list_all is_ascii_alphabetic d.name.now)) }
    ensures some { IfSome result (λ d. (number : ℕ) (index : Option ℕ) (name : List ℕ) → number < 256 → IfSome index (λ i. i < 2 ^ 64)
        → IsTrue (list_all is_ascii_alphabetic name) → body.now ≡ denial_text number index name → body.now ≡ denial_text d.number d.index d.name.now) }
    ensures none { IfNone result ((number : ℕ) (index : Option ℕ) (name : List ℕ) → number < 256 → IfSome index (λ i. i < 2 ^ 64)
        → IsTrue (list_all is_ascii_alphabetic name) → body.now ≢ denial_text number index name) }
{
    let rest = after(body, b"{\"denial\":")?;
    let (number, rest) = number_before(rest, b',')?;
    let Ok(number) = u8::try_from(number) else {
        return None;
    };
    let (index, rest) = index_in(rest)?;
    let rest = after(rest, b"\"rule\":\"")?;
    let name = name_in(rest)?;
    Some(Denied {
        number,
        index,
        name,
    })
}

// The name of letters before the end of a denial.
fn name_in(text: &[u8]) -> Option<&str>
    ensures letters { IfSome result (λ name. IsTrue (list_all is_ascii_alphabetic name.now)) }
    ensures some { IfSome result (λ name. text.now ≡ name.now ++ codes "\"}") }
    ensures none { IfNone result ((name : List ℕ) → IsTrue (list_all is_ascii_alphabetic name) → text.now ≢ name ++ codes "\"}") }
{
    let name = before(text, b"\"}")?;
    if !is_of_letters(name) {
        return None;
    }
    let Ok(name) = str::from_utf8(name) else {
        return None;
    };
    Some(name)
}

// The index that a denial has before its rule, if it has one, and what stands after it.
fn index_in(text: &[u8]) -> Option<(Option<usize>, &[u8])>
    ensures some { IfSome result (λ r. (index : Option ℕ) (rest : List ℕ) → IfSome index (λ i. i < 2 ^ 64) → text.now ≡ index_before index (codes "\"rule\":\"" ++ rest)
        → (index ≡ r.0) × (codes "\"rule\":\"" ++ rest ≡ r.1.now)) }
    ensures none { IfNone result ((index : Option ℕ) (rest : List ℕ) → IfSome index (λ i. i < 2 ^ 64) → text.now ≢ index_before index (codes "\"rule\":\"" ++ rest)) }
{
    let Some(rest) = after(text, b"\"index\":") else {
        return Some((None, text));
    };
    let (index, rest) = number_before(rest, b',')?;
    Some((Some(index), rest))
}

// The two numbers of an object with two members, of which this is the front and that stands before the second number.
fn numbers_in(text: &[u8], front: &[u8], between: &[u8]) -> Option<(usize, usize)>
    ensures some { IfSome result (λ r. (a b : ℕ) → a < 2 ^ 64 → b < 2 ^ 64 → text.now ≡ two_numbers front.now between.now a b → text.now ≡ two_numbers front.now between.now r.0 r.1) }
    ensures none { IfNone result ((a b : ℕ) → a < 2 ^ 64 → b < 2 ^ 64 → text.now ≢ two_numbers front.now between.now a b) }
{
    let rest = after(text, front)?;
    let (first, rest) = number_before(rest, b',')?;
    let rest = after(rest, between)?;
    let (second, _) = number_before(rest, b'}')?;
    Some((first, second))
}

// Whether a text has ASCII letters alone.
fn is_of_letters(text: &[u8]) -> bool
    ensures { result ≡ list_all is_ascii_alphabetic text.now }
{
    text.iter().all(|b| b.is_ascii_alphabetic())
}
