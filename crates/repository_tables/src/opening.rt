// Opening: the tables are made, or what they hold is read.
ghost use Rattle.std.specs.Prelude.{◌≡◌, ◌≢◌, ◌<◌, ◌⊎◌, ℕ, true, false, Err, IfOk, OnOk, IsTrue};
ghost use Rattle.sqlite.specs.State.{HasCleanDisk, IsLive, Survives};
ghost use Rattle.sqlite.specs.Held.{state};
ghost use Rattle.repository_rows.specs.Contents as plain;
ghost use Rattle.repository_rows.specs.Contents.{no_rows};
ghost use Rattle.table_rows.specs.Schema.{beginning, held, HasSome, IsBeginning};
ghost use Rattle.table_rows.specs.Tables.{AreBare, HoldsWhole, IsStore, StandsFor};
ghost use Rattle.table_rows.specs.Reading.{IsReadAs};
ghost use Rattle.repository_tables.specs.Migration.{IsEarlier};
ghost use Rattle.repository_tables.specs.Opening.{BeginsAt, FoundOpen, IsEmpty, IsSettled, KeptDamaged, StandsEmpty, StoodFor, StoodForNone, WasOpen, six_of};

use crate::completing::complete;
use crate::making::begin;
use sqlite::{Alter, Connection};
use std::alloc::Global;
use table_rows::{MetadataRows, Rows, StoreFault, beginning_of, read_tables};

// Whether nothing was read.
fn are_none(rows: &Rows) -> bool
    ensures yes { IsTrue result → (t : plain.Contents) → IsReadAs rows.now.0 rows.now.1.items t → t ≡ no_rows }
    ensures no { result ≡ false → (t : plain.Contents) → IsReadAs rows.now.0 rows.now.1.items t → t ≢ no_rows }
{
    rows.0.is_empty() && rows.1.is_empty()
}

// Puts the row of `schema` where nothing was read, and makes `root2` where it is absent.
fn begin_bare<S: Alter>(
    conn: &mut Connection<S>,
    count: usize,
    is_bare: bool,
) -> Result<(), StoreFault>
    requires { conn.old.in_transaction ≡ false }
    ensures autocommit { conn.new.in_transaction ≡ false }
    ensures bare { OnOk result (is_bare ≡ true) }
    ensures begun { HasCleanDisk (state S.Store conn.new) → HasSome count (state S.Store conn.old).now.schema → IsEmpty (state S.Store conn.old)
        → OnOk result (IsStore (state S.Store conn.new) no_rows) }
    ensures damaged { result ≡ Err StoreFault.Damaged → is_bare ≡ false }
    ensures told { is_bare ≡ false → (result ≡ Err StoreFault.Damaged) × (conn.new ≡ conn.old) }
    ensures crash { Survives (state S.Store conn.old) (state S.Store conn.new) (λ trees. (is_bare ≡ true) × IsTrue (state S.Store conn.old).is_open
        × (HasSome count (state S.Store conn.old).now.schema → IsEmpty (state S.Store conn.old) → HoldsWhole trees no_rows)) }
{
    if !is_bare {
        return Err(StoreFault::Damaged);
    }
    begin(conn, count)?;
    Ok(())
}

// Whether the store is an earlier one: `schema` has version 1, or `root2` is absent.
fn is_early(is_first: bool, count: usize) -> bool
    ensures early { IsTrue result → (is_first ≡ true) ⊎ (count ≡ 5) }
    ensures late { result ≡ false → (is_first ≡ false) × (count ≢ 5) }
{
    is_first || count == 5
}

// What the six tables hold, where so many of them are there, and whether the store is an earlier one. Where all are empty, the row of
// `schema` is put.
fn load<S: Alter>(
    alloc: Global,
    conn: &mut Connection<S>,
    count: usize,
) -> Result<(MetadataRows, Vec<([u8; 32], usize)>, bool), StoreFault>
    requires { conn.old.in_transaction ≡ false }
    ensures autocommit { conn.new.in_transaction ≡ false }
    ensures loaded { IfOk result (λ r. (t : plain.Contents) × IsReadAs r.0 r.1.items t × (HasSome count (state S.Store conn.old).now.schema → IsLive (state S.Store conn.old) → HasCleanDisk (state S.Store conn.new)
        → IsSettled (state S.Store conn.old) → StandsFor (six_of (state S.Store conn.old)) t × (r.2 ≡ false → IsStore (state S.Store conn.new) t) × (r.2 ≡ true → IsEarlier (state S.Store conn.new) t))) }
    ensures was_open { HasSome count (state S.Store conn.old).now.schema → WasOpen (state S.Store conn.old) (state S.Store conn.new) result }
    ensures found_open { HasSome count (state S.Store conn.old).now.schema → FoundOpen (state S.Store conn.old) (state S.Store conn.new) result }
    ensures damaged { HasSome count (state S.Store conn.old).now.schema → IsLive (state S.Store conn.old) → StoodForNone (state S.Store conn.old) (state S.Store conn.new) result }
    ensures kept { HasSome count (state S.Store conn.old).now.schema → KeptDamaged (state S.Store conn.old) (state S.Store conn.new) result }
    ensures crash { IsLive (state S.Store conn.old) → Survives (state S.Store conn.old) (state S.Store conn.new) (λ trees. HasSome count (state S.Store conn.old).now.schema → BeginsAt (state S.Store conn.old) trees) }
{
    let (rows, is_begun, is_first) = read_tables(alloc, conn, count)?;
    if is_begun {
        return Ok((rows.0, rows.1, is_early(is_first, count)));
    }
    begin_bare(conn, count, are_none(&rows))?;
    Ok((rows.0, rows.1, false))
}

// The first of the tables, or none, hold no row: the others are made, and the row of `schema` is put.
fn complete_bare<S: Alter>(
    alloc: Global,
    conn: &mut Connection<S>,
    count: usize,
) -> Result<(MetadataRows, Vec<([u8; 32], usize)>, bool), StoreFault>
    requires autocommit { conn.old.in_transaction ≡ false }
    requires few { count < 5 }
    ensures autocommit { conn.new.in_transaction ≡ false }
    ensures made { HasCleanDisk (state S.Store conn.new) → (state S.Store conn.old).now.schema ≡ beginning count
        → OnOk result (AreBare (held (beginning count) (state S.Store conn.old).now.trees) × IsStore (state S.Store conn.new) no_rows) }
    ensures empty { IfOk result (λ r. IsReadAs r.0 r.1.items no_rows × (r.2 ≡ false)) }
    ensures was_open { WasOpen (state S.Store conn.old) (state S.Store conn.new) result }
    ensures found_open { FoundOpen (state S.Store conn.old) (state S.Store conn.new) result }
    ensures damaged { (state S.Store conn.old).now.schema ≡ beginning count → StoodForNone (state S.Store conn.old) (state S.Store conn.new) result }
    ensures kept { (state S.Store conn.old).now.schema ≡ beginning count → KeptDamaged (state S.Store conn.old) (state S.Store conn.new) result }
    ensures crash { Survives (state S.Store conn.old) (state S.Store conn.new) (λ trees. IsTrue (state S.Store conn.old).is_open × ((state S.Store conn.old).now.schema ≡ beginning count
        → AreBare (held (beginning count) (state S.Store conn.old).now.trees) × HoldsWhole trees no_rows)) }
{
    if complete(conn, count)? {
        Ok((MetadataRows::empty(alloc), Vec::new(alloc), false))
    } else {
        Err(StoreFault::Damaged)
    }
}

/// Reads what the six tables hold: the rows of the metadata, and digest and length of each target file, by digest; and whether the store
/// is an earlier one, which `migrate` brings to schema 2: `schema` has version 1, or `root2` is absent. The bytes of a target file are
/// read once, and let go once their SHA-256 was compared with their digest.
///
/// The first of the tables in the order in which they are made may stand alone, and there may be none: a table that is absent
/// counts as empty. Where all are empty, those that are absent are made and version 2 is put into `schema`, in one transaction; then the
/// store is no earlier one. Call `renew` before: it gives what `loaded` asks for.
///
/// - `Damaged`: the tables hold no rows that fit their columns and whose target files have their digests, or `schema` has another
///   row than 1 or 2, both, or none beside rows, also where it is absent. Under 2 a row in `root` is damage, and under 1 one in `root2`. A
///   value of another type than its column's, a version or profile outside 32 bits, a role that is not UTF-8, a digest that is not 64 hex
///   digits of lower case or not that of its bytes, and a third slot in `current` do not fit. Nothing is made.
/// - `Database`: a call of the database answered a fault, or the database has other tables than the first of these six in
///   their order and nothing else, or the first five, or all six (no other is tried; after the first five, before `root2` and after
///   it, may stand further tables, indexes and views, if none has the name `root2` and no foreign key is onto one of the six), or the
///   rowids that it answered are not integers that come once, which by its own laws they are.
/// - `OutOfMemory`: memory was refused.
pub fn prepare<S: Alter>(
    alloc: Global,
    conn: &mut Connection<S>,
) -> Result<(MetadataRows, Vec<([u8; 32], usize)>, bool), StoreFault>
    requires { conn.old.in_transaction ≡ false }
    ensures autocommit { conn.new.in_transaction ≡ false }
    ensures live { IsLive (state S.Store conn.old) }
    ensures schema { IfOk result (λ _. IsBeginning conn.old.schema) }
    ensures ours { result ≡ Err StoreFault.Damaged → IsBeginning conn.old.schema }
    ensures foreign { (IsBeginning conn.old.schema → ⊥) → (result ≡ Err StoreFault.Database) × (conn.new ≡ conn.old) }
    ensures made { HasCleanDisk (state S.Store conn.new) → (count : ℕ) → count < 5 → conn.old.schema ≡ beginning count
        → IfOk result (λ r. IsReadAs r.0 r.1.items no_rows × StandsEmpty (state S.Store conn.old) × IsStore (state S.Store conn.new) no_rows × (r.2 ≡ false)) }
    ensures loaded { IfOk result (λ r. (t : plain.Contents) × IsReadAs r.0 r.1.items t × StoodFor (state S.Store conn.old) (state S.Store conn.new) r.2 t) }
    ensures was_open { WasOpen (state S.Store conn.old) (state S.Store conn.new) result }
    ensures found_open { FoundOpen (state S.Store conn.old) (state S.Store conn.new) result }
    ensures damaged { StoodForNone (state S.Store conn.old) (state S.Store conn.new) result }
    ensures kept { KeptDamaged (state S.Store conn.old) (state S.Store conn.new) result }
    ensures crash { Survives (state S.Store conn.old) (state S.Store conn.new) (λ trees. IsTrue (state S.Store conn.old).is_open × StandsEmpty (state S.Store conn.old) × HoldsWhole trees no_rows) }
{
    let Some(count) = beginning_of(conn.schema()) else {
        return Err(StoreFault::Database);
    };
    if count >= 5 {
        return load(alloc, conn, count);
    }
    complete_bare(alloc, conn, count)
}
