//! The rows of the two tables as what a book holds.
ghost use Rattle.std.specs.Prelude.{◌≡◌, ◌≢◌, ◌⊎◌, ◌<◌, ◌^◌, List, [], ◌∷◌, ℕ, map, Err, IfErr, IfOk, IfSome, OnOk, MatchBool, MatchOption};
ghost use Rattle.lms.specs.declared.Params.{Params};
ghost use Rattle.lms.specs.Keys.{leaf_count};
ghost use Rattle.sqlite_rules.specs.Lists.{Has};
ghost use Rattle.sqlite.specs.Order.{column};
ghost use Rattle.sqlite.specs.declared.types.Value.TheVariants.{Text};
ghost use Rattle.leaf_plans.specs.Book as plain;
ghost use Rattle.leaf_plans.specs.Book.{Book, IsBook, IsKeyId};
ghost use Rattle.leaf_book.specs.Rows.{AreRowsOf, IsLeafFrom, IsSignerFrom};
ghost use Rattle.leaf_plans.specs.Views.{kept_view, signer_view};
ghost use Rattle.leaf_book.specs.steps.Loading.{AreLeaves, AreSigners, IsAddedLeaf, IsAddedSigner, IsPlace};

use crate::cells::{copied, id_of};
use crate::faults::BookFault;
use keys_roles::same_id;
use leaf_plans::{
    LeafRow, Signer, height_of, is_same, leaves_of as leaves_of_tree, ots_of, params_of,
    same_params,
};
use lms::Params;
use sql_tables::{blob_at, number_at, text_at};
use sqlite::Row;
use std::alloc::Global;

/// Where an entry stands to those that were read before it.
#[derive(Debug, Clone, Copy)]
pub(crate) enum Place {
    /// No other has its leaf or its message.
    New,
    /// It is one of them.
    Same,
    /// One of them has its leaf and another message, or its message and another leaf.
    Clash,
}

// The parameters of a row.
fn params_at(row: &Row) -> Option<Params>
    ensures { MatchOption result ((s : plain.Signer) → IsSignerFrom 0 row.now s → ⊥)
        (λ params. (key : List ℕ) → column row.now 0 ≡ Text key → IsSignerFrom 0 row.now (record { key = key; params = params })) }
{
    let ots = ots_of(number_at(row, 1)?)?;
    let height = height_of(number_at(row, 2)?)?;
    Some(Params { ots, height })
}

// The signer of a row.
fn signer_of(row: &Row) -> Option<Signer>
    ensures value { MatchOption result ((s : plain.Signer) → IsKeyId s.key → IsSignerFrom 0 row.now s → ⊥) (λ s. IsSignerFrom 0 row.now (signer_view s)) }
    ensures fits { IfSome result (λ s. IsKeyId (signer_view s).key) }
{
    let key = id_of(text_at(row, 0)?)?;
    let params = params_at(row)?;
    Some(Signer { key, params })
}

// Puts a signer after the others, unless it is one of them.
fn add_signer(signers: &mut Vec<Signer>, signer: Signer) -> Result<(), BookFault>
    ensures added { OnOk result (IsAddedSigner (map signer_view signers.old.items) (signer_view signer) (map signer_view signers.new.items)) }
    ensures damaged { result ≡ Err BookFault.Damaged → (t : plain.Signer) × Has (map signer_view signers.old.items) t × (t.key ≡ (signer_view signer).key) × (t ≢ signer_view signer) }
    ensures fault { IfErr result (λ f. (f ≡ BookFault.Damaged) ⊎ (f ≡ BookFault.OutOfMemory)) }
{
    match params_of(signers.as_slice(), &signer.key) {
        None => {}
        Some(params) if same_params(params, signer.params) => return Ok(()),
        Some(_) => return Err(BookFault::Damaged),
    }
    signers.reserve(1)?;
    signers.push_reserved(signer);
    Ok(())
}

// The signers of the rows.
pub(crate) fn signers_of(alloc: Global, rows: &[Row]) -> Result<Vec<Signer>, BookFault>
    ensures read { IfOk result (λ v. AreRowsOf (IsSignerFrom 0) rows.now (map signer_view v.items)) }
    ensures right { IfOk result (λ v. AreSigners (map signer_view v.items)) }
    ensures damaged { result ≡ Err BookFault.Damaged → (ss : List plain.Signer) → AreSigners ss → AreRowsOf (IsSignerFrom 0) rows.now ss → ⊥ }
    ensures fault { IfErr result (λ f. (f ≡ BookFault.Damaged) ⊎ (f ≡ BookFault.OutOfMemory)) }
{
    let mut signers = Vec::new(alloc);
    'rows: for row in rows {
        let Some(signer) = signer_of(row) else {
            return Err(BookFault::Damaged);
        };
        match add_signer(&mut signers, signer) {
            Ok(()) => {}
            Err(fault) => return Err(fault),
        }
    }
    Ok(signers)
}

// The leaf of a row.
fn leaf_of(alloc: Global, row: &Row) -> Result<LeafRow, BookFault>
    ensures read { IfOk result (λ e. IsLeafFrom 0 row.now (kept_view e)) }
    ensures damaged { result ≡ Err BookFault.Damaged → (e : plain.LeafRow) → IsKeyId e.key → e.leaf < 2 ^ 32 → IsLeafFrom 0 row.now e → ⊥ }
    ensures fault { IfErr result (λ f. (f ≡ BookFault.Damaged) ⊎ (f ≡ BookFault.OutOfMemory)) }
{
    let Some(text) = text_at(row, 0) else {
        return Err(BookFault::Damaged);
    };
    let Some(key) = id_of(text) else {
        return Err(BookFault::Damaged);
    };
    let Some(leaf) = number_at(row, 1) else {
        return Err(BookFault::Damaged);
    };
    let Some(message) = blob_at(row, 2) else {
        return Err(BookFault::Damaged);
    };
    match copied(alloc, message) {
        Ok(message) => Ok(LeafRow { key, leaf, message }),
        Err(_) => Err(BookFault::OutOfMemory),
    }
}

// Whether the entry is a leaf of one of the keys.
fn is_known(signers: &[Signer], kept: &LeafRow) -> bool
    ensures { MatchBool result ((params : Params) × Has (map signer_view signers.now) (record { key = (kept_view kept.now).key; params = params }) × (kept.now.leaf < leaf_count params))
        (AreSigners (map signer_view signers.now) → (params : Params) → Has (map signer_view signers.now) (record { key = (kept_view kept.now).key; params = params }) → kept.now.leaf < leaf_count params → ⊥) }
{
    match params_of(signers, &kept.key) {
        Some(params) => kept.leaf < leaves_of_tree(params),
        None => false,
    }
}

// Where an entry stands to one other.
fn beside(other: &LeafRow, kept: &LeafRow) -> Place
    ensures { IsPlace (kept_view other.now ∷ []) (kept_view kept.now) result }
{
    if !same_id(&other.key, &kept.key) {
        return Place::New;
    }
    let same_message = is_same(other.message.as_slice(), kept.message.as_slice());
    if other.leaf == kept.leaf {
        if same_message {
            Place::Same
        } else {
            Place::Clash
        }
    } else if same_message {
        Place::Clash
    } else {
        Place::New
    }
}

// Where an entry stands to others.
fn place_of(leaves: &[LeafRow], kept: &LeafRow) -> Place
    ensures { IsPlace (map kept_view leaves.now) (kept_view kept.now) result }
{
    let mut rest = leaves;
    'leaves: while let Some((other, later)) = rest.split_first() {
        match beside(other, kept) {
            Place::New => {}
            Place::Same => return Place::Same,
            Place::Clash => return Place::Clash,
        }
        rest = later;
    }
    Place::New
}

// Puts an entry after the others, unless it is one of them.
fn add_leaf(leaves: &mut Vec<LeafRow>, kept: LeafRow) -> Result<(), BookFault>
    ensures added { OnOk result (IsAddedLeaf (map kept_view leaves.old.items) (kept_view kept) (map kept_view leaves.new.items)) }
    ensures damaged { result ≡ Err BookFault.Damaged → IsPlace (map kept_view leaves.old.items) (kept_view kept) Place.Clash }
    ensures fault { IfErr result (λ f. (f ≡ BookFault.Damaged) ⊎ (f ≡ BookFault.OutOfMemory)) }
{
    match place_of(leaves.as_slice(), &kept) {
        Place::New => {}
        Place::Same => return Ok(()),
        Place::Clash => return Err(BookFault::Damaged),
    }
    leaves.reserve(1)?;
    leaves.push_reserved(kept);
    Ok(())
}

// The leaves of the rows, each of one of the keys.
pub(crate) fn leaves_of(
    alloc: Global,
    signers: &[Signer],
    rows: &[Row],
) -> Result<Vec<LeafRow>, BookFault>
    requires { AreSigners (map signer_view signers.now) }
    ensures read { IfOk result (λ v. AreRowsOf (IsLeafFrom 0) rows.now (map kept_view v.items)) }
    ensures right { IfOk result (λ v. AreLeaves (map signer_view signers.now) (map kept_view v.items)) }
    ensures damaged { result ≡ Err BookFault.Damaged → (b : Book) → IsBook b → ((s : plain.Signer) → Has b.signers s → Has (map signer_view signers.now) s) → AreRowsOf (IsLeafFrom 0) rows.now b.leaves → ⊥ }
    ensures fault { IfErr result (λ f. (f ≡ BookFault.Damaged) ⊎ (f ≡ BookFault.OutOfMemory)) }
{
    let mut leaves = Vec::new(alloc);
    'rows: for row in rows {
        let kept = match leaf_of(alloc, row) {
            Ok(kept) => kept,
            Err(fault) => return Err(fault),
        };
        if !is_known(signers, &kept) {
            return Err(BookFault::Damaged);
        }
        match add_leaf(&mut leaves, kept) {
            Ok(()) => {}
            Err(fault) => return Err(fault),
        }
    }
    Ok(leaves)
}
