//! The two statements that write, and one that looks. Each stands outside a transaction.
ghost use Rattle.std.specs.Prelude.{◌≡◌, ◌⊎◌, List, IsTrue, IfErr, OnErr, OnOk};
ghost use Rattle.sqlite.specs.State.{HasCleanDisk, Survives};
ghost use Rattle.sqlite.specs.Held.{state};
ghost use Rattle.lms.specs.declared.OtsType.{OtsType};
ghost use Rattle.lms.specs.declared.SigningHeight.{SigningHeight};
ghost use Rattle.lms.specs.Parameters.{height, ots_code, signing_type};
ghost use Rattle.keys_roles.specs.Views.{id_text};
ghost use Rattle.hex.specs.Hex.{encode_lower};
ghost use Rattle.leaf_plans.specs.Book.{Book, with_leaf, with_signer};
ghost use Rattle.leaf_book.specs.Faults.{IsOutside};
ghost use Rattle.leaf_book.specs.Rows.{HoldsWhole, IsRecorded};

use crate::faults::BookFault;
use keys_roles::KeyId;
use leaf_plans::{code_of, number_of};
use lms::Params;
use sqlite::types::ToSql;
use sqlite::{Alter, Connection, Error};
use sqlite_value::value::ValueRef;

// A row of `leaf` more.
fn insert_leaf<'x, S: Alter>(
    conn: &mut Connection<S>,
    digits: &'x [u8],
    leaf: u32,
    message: &'x [u8],
) -> Result<(), Error>
    ensures kept { HasCleanDisk (state S.Store conn.new) → (b : Book) → IsRecorded (state S.Store conn.old) b → OnOk result (IsRecorded (state S.Store conn.new) (with_leaf digits.now leaf message.now b)) }
    ensures unchanged { HasCleanDisk (state S.Store conn.new) → IsTrue (state S.Store conn.new).is_open → (b : Book) → IsRecorded (state S.Store conn.old) b → OnErr result (IsRecorded (state S.Store conn.new) b) }
    ensures crash { Survives (state S.Store conn.old) (state S.Store conn.new) (λ trees. (b : Book) → IsRecorded (state S.Store conn.old) b → HoldsWhole trees (with_leaf digits.now leaf message.now b)) }
{
    conn.execute(
        "INSERT INTO leaf (key, leaf, message) VALUES (?1, ?2, ?3)",
        &[
            ValueRef::Text(digits),
            ToSql::to_sql(leaf),
            ValueRef::Blob(message),
        ],
    )?;
    Ok(())
}

/// Keeps a leaf of a key for a message.
pub(crate) fn put_leaf<S: Alter>(
    conn: &mut Connection<S>,
    key: &KeyId,
    leaf: u32,
    message: &[u8],
) -> Result<(), BookFault>
    ensures kept { HasCleanDisk (state S.Store conn.new) → (b : Book) → IsRecorded (state S.Store conn.old) b → OnOk result (IsRecorded (state S.Store conn.new) (with_leaf (id_text key.now) leaf message.now b)) }
    ensures unchanged { HasCleanDisk (state S.Store conn.new) → IsTrue (state S.Store conn.new).is_open → (b : Book) → IsRecorded (state S.Store conn.old) b → OnErr result (IsRecorded (state S.Store conn.new) b) }
    ensures crash { Survives (state S.Store conn.old) (state S.Store conn.new) (λ trees. (b : Book) → IsRecorded (state S.Store conn.old) b → HoldsWhole trees (with_leaf (id_text key.now) leaf message.now b)) }
    ensures fault { IfErr result IsOutside }
{
    let mut digits = [0; 64];
    let _ = hex::encode_to_slice(&key.0, &mut digits);
    insert_leaf(conn, &digits, leaf, message)?;
    Ok(())
}

// A row of `signer` more.
fn insert_signer<S: Alter>(
    conn: &mut Connection<S>,
    digits: &[u8],
    params: Params,
) -> Result<(), Error>
    ensures kept { HasCleanDisk (state S.Store conn.new) → (b : Book) → IsRecorded (state S.Store conn.old) b → OnOk result (IsRecorded (state S.Store conn.new) (with_signer digits.now params b)) }
    ensures unchanged { HasCleanDisk (state S.Store conn.new) → IsTrue (state S.Store conn.new).is_open → (b : Book) → IsRecorded (state S.Store conn.old) b → OnErr result (IsRecorded (state S.Store conn.new) b) }
    ensures crash { Survives (state S.Store conn.old) (state S.Store conn.new) (λ trees. (b : Book) → IsRecorded (state S.Store conn.old) b → HoldsWhole trees (with_signer digits.now params b)) }
{
    let ots = code_of(params.ots);
    let height = number_of(params.height);
    conn.execute(
        "INSERT INTO signer (key, ots, height) VALUES (?1, ?2, ?3)",
        &[
            ValueRef::Text(digits),
            ToSql::to_sql(ots),
            ToSql::to_sql(height),
        ],
    )?;
    Ok(())
}

/// Registers a key.
pub(crate) fn put_signer<S: Alter>(
    conn: &mut Connection<S>,
    key: &KeyId,
    params: Params,
) -> Result<(), BookFault>
    ensures kept { HasCleanDisk (state S.Store conn.new) → (b : Book) → IsRecorded (state S.Store conn.old) b → OnOk result (IsRecorded (state S.Store conn.new) (with_signer (id_text key.now) params b)) }
    ensures unchanged { HasCleanDisk (state S.Store conn.new) → IsTrue (state S.Store conn.new).is_open → (b : Book) → IsRecorded (state S.Store conn.old) b → OnErr result (IsRecorded (state S.Store conn.new) b) }
    ensures crash { Survives (state S.Store conn.old) (state S.Store conn.new) (λ trees. (b : Book) → IsRecorded (state S.Store conn.old) b → HoldsWhole trees (with_signer (id_text key.now) params b)) }
    ensures fault { IfErr result IsOutside }
{
    let mut digits = [0; 64];
    let _ = hex::encode_to_slice(&key.0, &mut digits);
    insert_signer(conn, &digits, params)?;
    Ok(())
}

/// Whether the connection still answers, by one small query. After a fault has shut it, no answer may be given from memory
/// alone: a crash may still leave what stood before or after the faulty call.
pub(crate) fn check_open<S: Alter>(conn: &mut Connection<S>) -> Result<(), BookFault>
    ensures open { HasCleanDisk (state S.Store conn.new) → OnOk result (IsTrue (state S.Store conn.old).is_open × IsTrue (state S.Store conn.new).is_open) }
    ensures kept { HasCleanDisk (state S.Store conn.new) → IsTrue (state S.Store conn.new).is_open → (b : Book) → IsRecorded (state S.Store conn.old) b → IsRecorded (state S.Store conn.new) b }
    ensures was_open { HasCleanDisk (state S.Store conn.new) → IsTrue (state S.Store conn.new).is_open → IsTrue (state S.Store conn.old).is_open }
    ensures survives { Survives (state S.Store conn.old) (state S.Store conn.new) (λ _. ⊥) }
    ensures fault { IfErr result IsOutside }
{
    sql_tables::check_open(conn, "SELECT key FROM signer")?;
    Ok(())
}
