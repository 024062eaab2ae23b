//! Asking for the rows of the two tables.
ghost use Rattle.std.specs.Prelude.{◌≡◌, ◌⊎◌, [], Err, IfErr, IfOk, OnOk, IsTrue, false, map};
ghost use Rattle.sqlite.specs.State.{HasCleanDisk, IsUnchanged, Survives};
ghost use Rattle.sqlite.specs.Held.{state};
ghost use Rattle.sql_tables.specs.Loading.{AreLoaded};
ghost use Rattle.leaf_plans.specs.Book.{Book, IsBook};
ghost use Rattle.leaf_book.specs.Faults.{IsOutside};
ghost use Rattle.leaf_book.specs.Rows.{HoldsBook};
ghost use Rattle.leaf_book.specs.Schema.{HasBoth};
ghost use Rattle.leaf_plans.specs.Views.{book_view};
ghost use Rattle.leaf_book.specs.steps.Loading.{AreQueried, three_cells};

use crate::faults::BookFault;
use crate::reading::{leaves_of, signers_of};
use leaf_plans::{LeafRow, Signer};
use sqlite::{Alter, Connection, Row};
use std::alloc::Global;

// The rows of `signer`.
fn signer_rows<S: Alter>(conn: &mut Connection<S>) -> Result<Vec<Row>, BookFault>
    ensures rows { HasCleanDisk (state S.Store conn.new) → HasBoth (state S.Store conn.old).now.schema → IfOk result (λ rows. AreLoaded three_cells [] ((state S.Store conn.old).now.trees 0) rows.items) }
    ensures unchanged { HasCleanDisk (state S.Store conn.new) → HasBoth (state S.Store conn.old).now.schema → OnOk result (IsUnchanged (state S.Store conn.old) (state S.Store conn.new)) }
    ensures fault { IfErr result IsOutside }
    ensures mode { conn.old.in_transaction ≡ false → conn.new.in_transaction ≡ false }
    ensures survives { Survives (state S.Store conn.old) (state S.Store conn.new) (λ _. ⊥) }
{
    Ok(conn.query_all("SELECT key, ots, height FROM signer", &[])?)
}

// The rows of `leaf`.
fn leaf_rows<S: Alter>(conn: &mut Connection<S>) -> Result<Vec<Row>, BookFault>
    ensures rows { HasCleanDisk (state S.Store conn.new) → HasBoth (state S.Store conn.old).now.schema → IfOk result (λ rows. AreLoaded three_cells [] ((state S.Store conn.old).now.trees 2) rows.items) }
    ensures unchanged { HasCleanDisk (state S.Store conn.new) → HasBoth (state S.Store conn.old).now.schema → OnOk result (IsUnchanged (state S.Store conn.old) (state S.Store conn.new)) }
    ensures fault { IfErr result IsOutside }
    ensures mode { conn.old.in_transaction ≡ false → conn.new.in_transaction ≡ false }
    ensures survives { Survives (state S.Store conn.old) (state S.Store conn.new) (λ _. ⊥) }
{
    Ok(conn.query_all("SELECT key, leaf, message FROM leaf", &[])?)
}

// The rows of both tables.
#[derive(Drop)]
pub(crate) struct QueriedRows {
    pub signers: Vec<Row>,
    pub leaves: Vec<Row>,
}

// Asks for the rows of both tables.
pub(crate) fn ask<S: Alter>(conn: &mut Connection<S>) -> Result<QueriedRows, BookFault>
    ensures rows { HasCleanDisk (state S.Store conn.new) → HasBoth (state S.Store conn.old).now.schema → IfOk result (AreQueried (state S.Store conn.old).now.trees) }
    ensures unchanged { HasCleanDisk (state S.Store conn.new) → HasBoth (state S.Store conn.old).now.schema → OnOk result (IsUnchanged (state S.Store conn.old) (state S.Store conn.new)) }
    ensures fault { IfErr result IsOutside }
    ensures mode { conn.old.in_transaction ≡ false → conn.new.in_transaction ≡ false }
    ensures survives { Survives (state S.Store conn.old) (state S.Store conn.new) (λ _. ⊥) }
{
    let signers = signer_rows(conn)?;
    let leaves = leaf_rows(conn)?;
    Ok(QueriedRows { signers, leaves })
}

// What the rows hold.
pub(crate) fn read(
    alloc: Global,
    answers: &QueriedRows,
) -> Result<(Vec<Signer>, Vec<LeafRow>), BookFault>
    ensures right { IfOk result (λ p. IsBook (book_view p.0.items p.1.items)) }
    ensures held { IfOk result (λ p. (trees : _) → AreQueried trees answers.now → HoldsBook trees (book_view p.0.items p.1.items)) }
    ensures damaged { result ≡ Err BookFault.Damaged → (trees : _) → AreQueried trees answers.now → (b : Book) → IsBook b → HoldsBook trees b → ⊥ }
    ensures fault { IfErr result (λ f. (f ≡ BookFault.Damaged) ⊎ (f ≡ BookFault.OutOfMemory)) }
{
    let signers = match signers_of(alloc, answers.signers.as_slice()) {
        Ok(signers) => signers,
        Err(fault) => return Err(fault),
    };
    match leaves_of(alloc, signers.as_slice(), answers.leaves.as_slice()) {
        Ok(leaves) => Ok((signers, leaves)),
        Err(fault) => Err(fault),
    }
}
