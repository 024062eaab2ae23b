// The rows of `root`, `root2`, `shelf` and `blob` as items.
ghost use Rattle.std.specs.Prelude.{◌≢◌, ◌≡◌, ◌<◌, List, ℕ, IfSome, IsTrue, MatchOption, false, string_bytes};
ghost use Rattle.std.specs.Ordering.{nat_cmp};
ghost use Rattle.std.specs.Cmp.Lexicographic.{slice_cmp};
ghost use Rattle.std.proofs.lemmas.Cmp.{nat_cmp_total, nat_list_cmp_total, on_total, then_total};
ghost use Rattle.std.proofs.lemmas.Map.Lookups.{exact_bytes, exact_pairs, exact_unsigned};
ghost use Rattle.table_rows.specs.Tables.{row_cmp};
ghost use Rattle.table_rows.specs.steps.Loading.{FitsFirst, FitsLength, FitsRoot, FitsShelf, IsFirstRow, IsLengthRow, IsRootRow, IsShelfRow, length_shows, root_shows};

use crate::cells::{has_digest, text_order};
use sql_tables::{Item, blob_at, digest_of, is_same, number_at, text_at};
use sqlite::Row;
use std::alloc::{AllocError, Global};
use std::cmp::Ordering;

// Whether two roots have one profile and the same bytes.
fn is_same_root(one: &(u32, u32, Vec<u8>), other: &(u32, u32, Vec<u8>)) -> bool
    ensures same { IsTrue result → (root_shows one.now).1 ≡ (root_shows other.now).1 }
    ensures other { result ≡ false → (root_shows one.now).1 ≢ (root_shows other.now).1 }
{
    let same = is_same(one.2.as_slice(), other.2.as_slice());
    one.1 == other.1 && same
}

// Roots of `root2`, by their version, which is the rowid.
pub(crate) struct Roots;

impl Item for Roots {
    type Of = (u32, u32, Vec<u8>);

    ghost Key = { ℕ };

    ghost Kept = { ℕ × List ℕ };

    ghost shows = { root_shows };

    ghost key_cmp = { nat_cmp };

    ghost Reads = { IsRootRow };

    ghost Fits = { FitsRoot };

    ghost ROWID = { 0 };

    const ROWID: usize = 0;

    fn read(alloc: Global, row: &Row) -> Result<Option<(u32, u32, Vec<u8>)>, AllocError> {
        let Some(version) = number_at(row, 0) else {
            return Ok(None);
        };
        let Some(profile) = number_at(row, 1) else {
            return Ok(None);
        };
        let Some(bytes) = blob_at(row, 2) else {
            return Ok(None);
        };
        Ok(Some((version, profile, Vec::from_slice(alloc, bytes)?)))
    }

    fn order(one: &(u32, u32, Vec<u8>), other: &(u32, u32, Vec<u8>)) -> Ordering {
        one.0.cmp(&other.0)
    }

    fn is_equal(one: &(u32, u32, Vec<u8>), other: &(u32, u32, Vec<u8>)) -> bool {
        is_same_root(one, other)
    }

    ghost total = { nat_cmp_total };

    ghost exact = { exact_unsigned };
}

// Roots of `root`, which have profile 1, by their version, which is the rowid.
pub(crate) struct FirstRoots;

impl Item for FirstRoots {
    type Of = (u32, u32, Vec<u8>);

    ghost Key = { ℕ };

    ghost Kept = { ℕ × List ℕ };

    ghost shows = { root_shows };

    ghost key_cmp = { nat_cmp };

    ghost Reads = { IsFirstRow };

    ghost Fits = { FitsFirst };

    ghost ROWID = { 0 };

    const ROWID: usize = 0;

    fn read(alloc: Global, row: &Row) -> Result<Option<(u32, u32, Vec<u8>)>, AllocError> {
        let Some(version) = number_at(row, 0) else {
            return Ok(None);
        };
        let Some(bytes) = blob_at(row, 1) else {
            return Ok(None);
        };
        Ok(Some((version, 1, Vec::from_slice(alloc, bytes)?)))
    }

    fn order(one: &(u32, u32, Vec<u8>), other: &(u32, u32, Vec<u8>)) -> Ordering {
        one.0.cmp(&other.0)
    }

    fn is_equal(one: &(u32, u32, Vec<u8>), other: &(u32, u32, Vec<u8>)) -> bool {
        is_same_root(one, other)
    }

    ghost total = { nat_cmp_total };

    ghost exact = { exact_unsigned };
}

// Targets documents, by their role and version.
pub(crate) struct Documents;

impl Item for Documents {
    type Of = (String, u32, Vec<u8>);

    ghost Key = { List ℕ × ℕ };

    ghost Kept = { List ℕ };

    ghost shows = { λ r. ((string_bytes r.0, r.1), r.2.items) };

    ghost key_cmp = { row_cmp };

    ghost Reads = { IsShelfRow };

    ghost Fits = { FitsShelf };

    ghost ROWID = { 3 };

    const ROWID: usize = 3;

    fn read(alloc: Global, row: &Row) -> Result<Option<(String, u32, Vec<u8>)>, AllocError> {
        let Some(role) = text_at(row, 0) else {
            return Ok(None);
        };
        let Some(version) = number_at(row, 1) else {
            return Ok(None);
        };
        let Some(bytes) = blob_at(row, 2) else {
            return Ok(None);
        };
        let Ok(role) = std::str::from_utf8(role) else {
            return Ok(None);
        };
        let role = String::from_str(alloc, role)?;
        Ok(Some((role, version, Vec::from_slice(alloc, bytes)?)))
    }

    fn order(one: &(String, u32, Vec<u8>), other: &(String, u32, Vec<u8>)) -> Ordering {
        row_order(one.0.as_bytes(), one.1, other.0.as_bytes(), other.1)
    }

    fn is_equal(one: &(String, u32, Vec<u8>), other: &(String, u32, Vec<u8>)) -> bool {
        is_same(one.2.as_slice(), other.2.as_slice())
    }

    ghost total = { then_total (on_total (λ (k : List ℕ × ℕ). k.0) nat_list_cmp_total) (on_total (λ (k : List ℕ × ℕ). k.1) nat_cmp_total) };

    ghost exact = { exact_pairs (slice_cmp nat_cmp) nat_cmp exact_bytes exact_unsigned };
}

// By role, and then by version.
fn row_order(role: &[u8], version: u32, other_role: &[u8], other: u32) -> Ordering
    ensures { result ≡ row_cmp (role.now, version) (other_role.now, other) }
{
    text_order(role, other_role).then(version.cmp(&other))
}

// Target files, by their digest: the length is kept, and the bytes are let go.
pub(crate) struct Files;

impl Item for Files {
    type Of = ([u8; 32], usize);

    ghost Key = { List ℕ };

    ghost Kept = { ℕ };

    ghost shows = { length_shows };

    ghost key_cmp = { slice_cmp nat_cmp };

    ghost Reads = { IsLengthRow };

    ghost Fits = { FitsLength };

    ghost ROWID = { 2 };

    const ROWID: usize = 2;

    fn read(_alloc: Global, row: &Row) -> Result<Option<([u8; 32], usize)>, AllocError> {
        let Some(digits) = text_at(row, 0) else {
            return Ok(None);
        };
        let Some(bytes) = blob_at(row, 1) else {
            return Ok(None);
        };
        let Some(digest) = digest_of(digits) else {
            return Ok(None);
        };
        if !has_digest(bytes, &digest) {
            return Ok(None);
        }
        Ok(Some((digest, bytes.len())))
    }

    fn order(one: &([u8; 32], usize), other: &([u8; 32], usize)) -> Ordering {
        text_order(&one.0, &other.0)
    }

    fn is_equal(one: &([u8; 32], usize), other: &([u8; 32], usize)) -> bool {
        one.1 == other.1
    }

    ghost total = { nat_list_cmp_total };

    ghost exact = { exact_bytes };
}
