// One target file by its digest.
ghost use Rattle.std.specs.Prelude.{◌≡◌, ◌≢◌, ◌++◌, ℕ, List, [], ◌∷◌, false, true, Err, IfOk, IsTrue, MatchOption, OnErr, OnOk};
ghost use Rattle.sha2.specs.Sha256.{sha256};
ghost use Rattle.hex.specs.Hex.{encode_lower};
ghost use Rattle.sqlite.specs.declared.types.Value.TheVariants.{Text};
ghost use Rattle.sqlite.specs.State.{HasCleanDisk, Shown, Survives};
ghost use Rattle.sqlite.specs.Held.{state};
ghost use Rattle.sqlite_rules.specs.Lists.{Has};
ghost use Rattle.repository_rows.specs.Contents as plain;
ghost use Rattle.table_rows.specs.Tables.{IsStore};
ghost use Rattle.table_rows.specs.steps.Loading.{HasBytes, one_text};

use crate::cells::has_digest;
use crate::faults::StoreFault;
use sql_tables::blob_at;
use sqlite::{Alter, Connection, Error, Row};
use sqlite_value::value::ValueRef;
use std::alloc::AllocError;

// The rows whose digest has these digits.
fn ask<S: Alter>(conn: &mut Connection<S>, digits: &[u8; 64]) -> Result<Vec<Row>, Error>
    ensures rows { HasCleanDisk (state S.Store conn.new) → IfOk result (λ rows. Shown one_text (Text digits.now ∷ []) (state S.Store conn.old) (state S.Store conn.new) rows.items) }
    ensures open { HasCleanDisk (state S.Store conn.new) → OnOk result (IsTrue (state S.Store conn.old).is_open × IsTrue (state S.Store conn.new).is_open) }
    ensures was_open { HasCleanDisk (state S.Store conn.new) → IsTrue (state S.Store conn.new).is_open → IsTrue (state S.Store conn.old).is_open }
    ensures kept { HasCleanDisk (state S.Store conn.new) → IsTrue (state S.Store conn.new).is_open → (t : plain.Contents) → IsStore (state S.Store conn.old) t → IsStore (state S.Store conn.new) t }
    ensures mode { conn.old.in_transaction ≡ false → conn.new.in_transaction ≡ false }
    ensures survives { Survives (state S.Store conn.old) (state S.Store conn.new) (λ _. ⊥) }
{
    let rows = conn.query_all(
        "SELECT bytes FROM blob WHERE digest = ?1",
        &[ValueRef::Text(digits)],
    )?;
    Ok(rows)
}

// The bytes of the first row that have the digest.
fn bytes_of<'a>(rows: &'a [Row], digest: &[u8; 32]) -> Option<&'a [u8]>
    ensures { MatchOption result ((b : List ℕ) → HasBytes rows.now b → sha256 b ≢ digest.now) (λ b. HasBytes rows.now b.now × (sha256 b.now ≡ digest.now)) }
{
    let Some((row, later)) = rows.split_first() else {
        return None;
    };
    match blob_at(row, 0) {
        Some(bytes) if has_digest(bytes, digest) => Some(bytes),
        _ => bytes_of(later, digest),
    }
}

// Appends the bytes of the row that has the digest, if there is one.
fn append(rows: &[Row], digest: &[u8; 32], out: &mut Vec<u8>) -> Result<bool, AllocError>
    ensures found { IfOk result (λ b. b ≡ true → (bytes : List ℕ) × (out.new.items ≡ out.old.items ++ bytes) × HasBytes rows.now bytes × (sha256 bytes ≡ digest.now)) }
    ensures missing { IfOk result (λ b. b ≡ false → (out.new.items ≡ out.old.items) × ((bytes : List ℕ) → HasBytes rows.now bytes → sha256 bytes ≢ digest.now)) }
    ensures failed { OnErr result (out.new.items ≡ out.old.items) }
{
    let Some(bytes) = bytes_of(rows, digest) else {
        return Ok(false);
    };
    out.extend_from_slice(bytes)?;
    Ok(true)
}

/// Appends the bytes of the target file with this digest to what is there, by one query by the key. `false` where no row of the
/// digest has bytes with that SHA-256; what is there is then as before, and so it is on a fault. `Damaged` is never answered.
pub fn load_blob<S: Alter>(
    conn: &mut Connection<S>,
    digest: &[u8; 32],
    out: &mut Vec<u8>,
) -> Result<bool, StoreFault>
    ensures found { IfOk result (λ b. b ≡ true → (bytes : List ℕ) × (out.new.items ≡ out.old.items ++ bytes) × (sha256 bytes ≡ digest.now)
        × (HasCleanDisk (state S.Store conn.new) → (t : plain.Contents) → IsStore (state S.Store conn.old) t → (x : List ℕ × List ℕ) × Has t.blobs x × (encode_lower x.0 ≡ encode_lower digest.now) × (x.1 ≡ bytes))) }
    ensures missing { IfOk result (λ b. b ≡ false → HasCleanDisk (state S.Store conn.new) → (t : plain.Contents) → IsStore (state S.Store conn.old) t
        → (x : List ℕ × List ℕ) → Has t.blobs x → encode_lower x.0 ≡ encode_lower digest.now → sha256 x.1 ≡ digest.now → ⊥) }
    ensures unfound { IfOk result (λ b. b ≡ false → out.new.items ≡ out.old.items) }
    ensures failed { OnErr result (out.new.items ≡ out.old.items) }
    ensures open { HasCleanDisk (state S.Store conn.new) → OnOk result (IsTrue (state S.Store conn.old).is_open × IsTrue (state S.Store conn.new).is_open) }
    ensures was_open { HasCleanDisk (state S.Store conn.new) → IsTrue (state S.Store conn.new).is_open → IsTrue (state S.Store conn.old).is_open }
    ensures kept { HasCleanDisk (state S.Store conn.new) → IsTrue (state S.Store conn.new).is_open → (t : plain.Contents) → IsStore (state S.Store conn.old) t → IsStore (state S.Store conn.new) t }
    ensures mode { conn.old.in_transaction ≡ false → conn.new.in_transaction ≡ false }
    ensures survives { Survives (state S.Store conn.old) (state S.Store conn.new) (λ _. ⊥) }
    ensures fault { result ≢ Err StoreFault.Damaged }
{
    let mut digits = [0; 64];
    let _ = hex::encode_to_slice(digest, &mut digits);
    let rows = ask(conn, &digits)?;
    Ok(append(&rows, digest, out)?)
}
