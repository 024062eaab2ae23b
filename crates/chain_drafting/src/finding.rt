//! Keys by what a document calls them.
ghost use Rattle.std.specs.Prelude.{◌≡◌, ◌⊎◌, ◌↔◌, ◌++◌, ◌<◌, ℕ, suc, List, [], drop, length, slice_index_or, string_bytes, IsTrue, IfOk, IfErr, MatchOption};
ghost use Rattle.std.specs.List.{AllByRecursion};
ghost use Rattle.canonical_json.specs.Json.{object};
ghost use Rattle.canonical_json.specs.View.{members_view};
ghost use Rattle.denials.specs.declared.denial.Denial.{Denial};
ghost use Rattle.keys_roles.specs.Views.{id_text as digits_of, rows_view, table_view};
ghost use Rattle.metadata.specs.Shape.{IsShapeFault};
ghost use Rattle.document_parts.specs.Views.{body_view, document_view};
ghost use Rattle.drafting.specs.Drafts.{IsDenied};
ghost use Rattle.chain_drafting.specs.Finding.{Finds, FindsIn, IsCalled, IsFront, IsNameOf, IsNotCalled, key_table};
ghost use Rattle.chain_drafting.specs.steps.Found.{FindsBy, IsFirstCalled, found_view};

use canonical_json::Value;
use drafting::{DraftFault, NamedKey, held_fault, part_members, some_text, take_object, text_at};
use keys_roles::{Key, KeyId, KeyTable};
use metadata::{Body, Digest, Document, Kind, ShapeFault, read_document};
use std::alloc::{AllocError, Global};

// So many digits of an id find a key.
const FEWEST_DIGITS: usize = 8;

/// What a word finds: one key with what it is called, none, or more than one.
#[derive(Drop)]
pub enum Found {
    One(NamedKey),
    None,
    Several,
}

/// The key of a root's table, or of that of the delegations of targets metadata, that the file's `names` call so, or whose id begins
/// with these digits, 8 or more. Other documents have none.
pub fn find_key(alloc: Global, file: &[u8], kind: Kind, word: &str) -> Result<Found, DraftFault>
    ensures found { IfOk result (λ f. Finds kind file.now word.now (found_view f)) }
    ensures fault { IfErr result (λ e. (e ≡ DraftFault.OutOfMemory) ⊎ ((d : Denial) × (e ≡ DraftFault.Held d) × IsDenied kind file.now d)) }
{
    match find_in_file(alloc, file, kind, word) {
        Ok(found) => Ok(found),
        Err(fault) => Err(held_fault(fault)),
    }
}

// The same, with the fault of shape.
fn find_in_file(alloc: Global, file: &[u8], kind: Kind, word: &str) -> Result<Found, ShapeFault>
    ensures found { IfOk result (λ f. Finds kind file.now word.now (found_view f)) }
    ensures fault { IfErr result (λ e. (e ≡ ShapeFault.OutOfMemory) ⊎ IsShapeFault kind file.now e) }
{
    match read_document(alloc, kind, file) {
        Ok(document) => find_in_document(alloc, &document, word),
        Err(fault) => Err(fault),
    }
}

// What the word finds in the document.
fn find_in_document(alloc: Global, document: &Document<'_>, word: &str) -> Result<Found, ShapeFault>
    ensures found { IfOk result (λ f. FindsBy (document_view document.now) word.now (found_view f)) }
    ensures fault { IfErr result (λ e. e ≡ ShapeFault.OutOfMemory) }
{
    let mut part = part_members(alloc, document.signed)?;
    let names = take_object(alloc, &mut part, "names");
    match find_in_body(alloc, &document.body, names.as_slice(), word) {
        Ok(found) => Ok(found),
        Err(_) => Err(ShapeFault::OutOfMemory),
    }
}

// What the word finds in the key table that the document has.
fn find_in_body(
    alloc: Global,
    body: &Body,
    names: &[(String, Value)],
    word: &str,
) -> Result<Found, AllocError>
    ensures { IfOk result (λ f. FindsIn (key_table (body_view body.now)) (object (members_view names.now)) word.now (found_view f)) }
{
    match table_of(body) {
        Some(table) => find_row(alloc, table.entries.as_slice(), names, word),
        None => Ok(Found::None),
    }
}

// The key table of the document.
fn table_of(body: &Body) -> Option<&KeyTable>
    ensures { MatchOption result (key_table (body_view body.now) ≡ []) (λ t. key_table (body_view body.now) ≡ table_view t.now) }
{
    match body {
        Body::Root(root) => Some(&root.keys),
        Body::Targets(targets) => match &targets.delegations {
            Some(delegations) => Some(&delegations.keys),
            None => None,
        },
        _ => None,
    }
}

// What the word finds in the rows of a table.
fn find_row(
    alloc: Global,
    rows: &[(KeyId, Key)],
    names: &[(String, Value)],
    word: &str,
) -> Result<Found, AllocError>
    ensures { IfOk result (λ f. FindsIn (rows_view rows.now) (object (members_view names.now)) word.now (found_view f)) }
{
    match first_called(alloc, rows, names, word) {
        Ok(Some(at)) => find_behind(alloc, rows, names, word, at),
        Ok(None) => Ok(Found::None),
        Err(refused) => Err(refused),
    }
}

// The same where the row at this place is the first that is called so.
fn find_behind(
    alloc: Global,
    rows: &[(KeyId, Key)],
    names: &[(String, Value)],
    word: &str,
    at: usize,
) -> Result<Found, AllocError>
    requires { IsFirstCalled rows.now (object (members_view names.now)) word.now at }
    ensures { IfOk result (λ f. FindsIn (rows_view rows.now) (object (members_view names.now)) word.now (found_view f)) }
{
    let behind = rows_behind(rows, at);
    match first_called(alloc, behind, names, word) {
        Ok(Some(_)) => Ok(Found::Several),
        Ok(None) => {
            let named = named_key(alloc, row_at(rows, at), names, word)?;
            Ok(Found::One(named))
        }
        Err(refused) => Err(refused),
    }
}

// The rows after a place.
fn rows_behind(rows: &[(KeyId, Key)], at: usize) -> &[(KeyId, Key)]
    requires { at < length rows.now }
    ensures { result.now ≡ drop (suc at) rows.now }
{
    &rows[at + 1..]
}

// The row at a place.
fn row_at(rows: &[(KeyId, Key)], at: usize) -> &(KeyId, Key)
    requires { at < length rows.now }
    ensures { result.now ≡ slice_index_or rows.now at result.now }
{
    &rows[at]
}

// The place of the first row that is called so.
fn first_called(
    alloc: Global,
    rows: &[(KeyId, Key)],
    names: &[(String, Value)],
    word: &str,
) -> Result<Option<usize>, AllocError>
    ensures { IfOk result (λ o. MatchOption o (AllByRecursion (IsNotCalled (object (members_view names.now)) word.now) (rows_view rows.now))
        (λ i. IsFirstCalled rows.now (object (members_view names.now)) word.now i)) }
{
    for i in 0..rows.len() {
        let called = is_called(alloc, &row_at(rows, i).0, names, word)?;
        if called {
            return Ok(Some(i));
        }
    }
    Ok(None)
}

// Whether the key of this id is called so.
fn is_called(
    alloc: Global,
    id: &KeyId,
    names: &[(String, Value)],
    word: &str,
) -> Result<bool, AllocError>
    ensures { IfOk result (λ b. IsTrue b ↔ (IsCalled (object (members_view names.now)) word.now (digits_of id.now))) }
{
    let digits = Digest::new(id.0).text(alloc)?;
    if some_text(names, digits.as_str(), word) {
        return Ok(true);
    }
    Ok(is_front(word.as_bytes(), digits.as_bytes()))
}

// Whether the word is the first digits of the id, 8 or more.
fn is_front(word: &[u8], digits: &[u8]) -> bool
    ensures { IsTrue result ↔ (IsFront word.now digits.now) }
{
    word.len() >= FEWEST_DIGITS && begin_with(digits, word)
}

// Whether the digits begin with the word.
fn begin_with(digits: &[u8], word: &[u8]) -> bool
    ensures { IsTrue result ↔ ((more : List ℕ) × (digits.now ≡ word.now ++ more)) }
{
    digits.starts_with(word)
}

// The key of the row, with what it is called: by the names, or else by the word.
fn named_key(
    alloc: Global,
    row: &(KeyId, Key),
    names: &[(String, Value)],
    word: &str,
) -> Result<NamedKey, AllocError>
    ensures key { IfOk result (λ k. k.key ≡ row.now.1) }
    ensures name { IfOk result (λ k. IsNameOf (object (members_view names.now)) word.now (digits_of row.now.0) (string_bytes k.name)) }
{
    let digits = Digest::new(row.0.0).text(alloc)?;
    let name = String::from_str(alloc, name_for(names, digits.as_str(), word))?;
    Ok(NamedKey { key: row.1, name })
}

// What the names call the key of the id with these digits, or else the word.
fn name_for<'a>(names: &'a [(String, Value)], digits: &str, word: &'a str) -> &'a str
    ensures { IsNameOf (object (members_view names.now)) word.now digits.now result.now }
{
    match text_at(names, digits) {
        Some(said) => said,
        None => word,
    }
}
