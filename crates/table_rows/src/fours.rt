// The rows of `blob`, four at a time: the bytes of four target files are hashed side by side.
ghost use Rattle.std.specs.Prelude.{◌≡◌, ◌++◌, [], ◌∷◌, ℕ, List, IfOk, IfSome, OnOk, length};
ghost use Rattle.std.specs.Ordering.{nat_cmp};
ghost use Rattle.std.specs.Cmp.Lexicographic.{slice_cmp};
ghost use Rattle.sha2.specs.Sha256.{sha256};
ghost use Rattle.sqlite.specs.Order.{Row};
ghost use Rattle.sql_tables.specs.Loading.{IsItem};
ghost use Rattle.table_rows.specs.Tables.{IsDigest};
ghost use Rattle.table_rows.specs.steps.Loading.{AreHeld, FitsLength, HasFiles, HaveCome, IsBlobRow, IsGathered, IsHeld, IsLengthRow, length_shows};

use crate::reading::Files;
use sha2::{Digest, Sha256};
use sha256_lanes::digests_of;
use sql_tables::{Gathered, TakeRows, blob_at, digest_of, is_same, text_at};
use sqlite::Row;
use std::alloc::{AllocError, Global};

// The most bytes of a target file that is held until others come.
const LONGEST: usize = 16_777_216;

// The digest and the bytes of a row, where it has such, they are not too many to be held, and the rows before it are not spoiled.
fn blob_of(row: &Row, is_spoiled: bool) -> Option<([u8; 32], &[u8])>
    ensures { IfSome result (λ p. IsBlobRow row.now (p.0, p.1.now) × IsDigest p.0) }
{
    if is_spoiled {
        return None;
    }
    let Some(digits) = text_at(row, 0) else {
        return None;
    };
    let Some(bytes) = blob_at(row, 1) else {
        return None;
    };
    if bytes.len() > LONGEST {
        return None;
    }
    let Some(digest) = digest_of(digits) else {
        return None;
    };
    Some((digest, bytes))
}

// The item of a row of so many bytes, which have the SHA-256 `own`: that of none where the row names another.
fn item_of(named: [u8; 32], own: &[u8; 32], len: usize) -> Option<([u8; 32], usize)>
    ensures { (row : Row) (bytes : List ℕ) → IsBlobRow row (named, bytes) → IsDigest named → length bytes ≡ len → own.now ≡ sha256 bytes
        → IsItem IsLengthRow FitsLength length_shows row result }
{
    if is_same(own, &named) {
        Some((named, len))
    } else {
        None
    }
}

// Takes one more row, of these bytes, which have the SHA-256 `own`.
fn take_one(
    tested: &mut Gathered<Files>,
    named: [u8; 32],
    bytes: &[u8],
    own: &[u8; 32],
) -> Result<(), AllocError>
    ensures { OnOk result ((rows : List Row) (row : Row) → IsBlobRow row (named, bytes.now) → IsDigest named → own.now ≡ sha256 bytes.now
        → HasFiles rows tested.old.items.items tested.old.is_spoiled → HasFiles (rows ++ row ∷ []) tested.new.items.items tested.new.is_spoiled) }
{
    tested.take_item(item_of(named, own, bytes.len()))
}

// Takes four more rows: three that were held, and one of these bytes.
fn take_four(
    tested: &mut Gathered<Files>,
    first: &([u8; 32], Vec<u8>),
    second: &([u8; 32], Vec<u8>),
    third: &([u8; 32], Vec<u8>),
    named: [u8; 32],
    bytes: &[u8],
) -> Result<(), AllocError>
    ensures { OnOk result ((rows : List Row) (a b c d : Row) → IsHeld a first.now → IsHeld b second.now → IsHeld c third.now → IsBlobRow d (named, bytes.now) → IsDigest named
        → HasFiles rows tested.old.items.items tested.old.is_spoiled → HasFiles (rows ++ a ∷ b ∷ c ∷ d ∷ []) tested.new.items.items tested.new.is_spoiled) }
{
    let one = first.1.as_slice();
    let two = second.1.as_slice();
    let three = third.1.as_slice();
    let [own1, own2, own3, own4] = digests_of(one, two, three, bytes);
    take_one(tested, first.0, one, &own1)?;
    take_one(tested, second.0, two, &own2)?;
    take_one(tested, third.0, three, &own3)?;
    take_one(tested, named, bytes, &own4)
}

// Takes the rows that are held, one by one.
fn take_held(tested: &mut Gathered<Files>, held: &[([u8; 32], Vec<u8>)]) -> Result<(), AllocError>
    ensures { OnOk result ((rows late : List Row) → AreHeld late held.now
        → HasFiles rows tested.old.items.items tested.old.is_spoiled → HasFiles (rows ++ late) tested.new.items.items tested.new.is_spoiled) }
{
    let mut rest = held;
    'held: while let Some((first, later)) = rest.split_first() {
        let named = first.0;
        let bytes = first.1.as_slice();
        let own = Sha256::digest(bytes);
        take_one(tested, named, bytes, &own)?;
        rest = later;
    }
    Ok(())
}

// Target files, by their digest, of which up to three are held until a fourth comes: what they take is below 48 MiB, and below three
// times what the longest takes. Longer ones go alone. Each is tested once, and they are taken in the order in which they come.
#[derive(Drop)]
pub(crate) struct Fours {
    alloc: Global,
    tested: Gathered<Files>,
    held: Vec<([u8; 32], Vec<u8>)>,
}

impl Fours {
    // Of no rows yet.
    pub(crate) fn new(alloc: Global) -> Fours
        ensures { HaveCome [] result.tested.items.items result.tested.is_spoiled result.held.items }
    {
        Fours {
            alloc,
            tested: Gathered::<Files>::new(alloc),
            held: Vec::new(alloc),
        }
    }

    // Takes the rows that are held.
    fn settle(&mut self) -> Result<(), AllocError>
        ensures held { OnOk result (self.new.held.items ≡ []) }
        ensures rows { OnOk result ((rows : List Row) → HaveCome rows self.old.tested.items.items self.old.tested.is_spoiled self.old.held.items
            → HasFiles rows self.new.tested.items.items self.new.tested.is_spoiled) }
    {
        take_held(&mut self.tested, self.held.as_slice())?;
        self.held.clear();
        Ok(())
    }

    // Holds a row of these bytes.
    fn keep(&mut self, named: [u8; 32], bytes: &[u8]) -> Result<(), AllocError>
        ensures { OnOk result ((rows : List Row) (row : Row) → IsBlobRow row (named, bytes.now) → IsDigest named
            → HaveCome rows self.old.tested.items.items self.old.tested.is_spoiled self.old.held.items
            → HaveCome (rows ++ row ∷ []) self.new.tested.items.items self.new.tested.is_spoiled self.new.held.items) }
    {
        let kept = Vec::from_slice(self.alloc, bytes)?;
        self.held.push((named, kept))?;
        Ok(())
    }

    // Holds a row of these bytes, or takes it with three that were held.
    fn hold(&mut self, named: [u8; 32], bytes: &[u8]) -> Result<(), AllocError>
        ensures { OnOk result ((rows : List Row) (row : Row) → IsBlobRow row (named, bytes.now) → IsDigest named
            → HaveCome rows self.old.tested.items.items self.old.tested.is_spoiled self.old.held.items
            → HaveCome (rows ++ row ∷ []) self.new.tested.items.items self.new.tested.is_spoiled self.new.held.items) }
    {
        if self.held.len() != 3 {
            return self.keep(named, bytes);
        }
        let held = self.held.as_slice();
        take_four(&mut self.tested, &held[0], &held[1], &held[2], named, bytes)?;
        self.held.clear();
        Ok(())
    }

    // Digest and length of each, and `None` where a row was that of no item, or two rows had one key and two values.
    pub(crate) fn into_items(mut self) -> Result<Option<Vec<([u8; 32], usize)>>, AllocError>
        ensures { (rows : List Row) → HaveCome rows self.tested.items.items self.tested.is_spoiled self.held.items
            → IfOk result (λ found. IsGathered (slice_cmp nat_cmp) IsLengthRow FitsLength length_shows rows found) }
    {
        self.settle()?;
        Ok(self.tested.into_items())
    }
}

impl TakeRows for Fours {
    ghost Took = { λ rows f. HaveCome rows f.tested.items.items f.tested.is_spoiled f.held.items };

    ghost ROWID = { 2 };

    const ROWID: usize = 2;

    fn take_row(&mut self, row: &Row) -> Result<(), AllocError> {
        let Some(found) = blob_of(row, self.tested.is_spoiled) else {
            self.settle()?;
            return self.tested.take_row(row);
        };
        let named = found.0;
        self.hold(named, found.1)
    }
}
