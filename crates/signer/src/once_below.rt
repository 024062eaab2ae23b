//! Files that get a signature of two levels where no tree of the key has signed another document of their kind and version.
ghost use Rattle.std.specs.Prelude.{◌≡◌, ◌⊎◌, List, ℕ, Ok, Err, IfErr, IfOk, IsTrue, OnOk, Result};
ghost use Rattle.sqlite.specs.Held.{state};
ghost use Rattle.sqlite.specs.State.{HasCleanDisk};
ghost use Rattle.sqlite_trees.specs.Tree.{Trees};
ghost use Rattle.canonical_json.specs.Json.{Json};
ghost use Rattle.canonical_json.specs.Spelling.{IsCanonical};
ghost use Rattle.keys_roles.specs.Views.{entries_view};
ghost use Rattle.lms.specs.HssKeys.{HssPair};
ghost use Rattle.metadata.specs.Shape.{IsSignedBy};
ghost use Rattle.leaf_plans.specs.Book.{Book as PlainBook, IsBook};
ghost use Rattle.leaf_book.specs.Rows.{HoldsWhole, IsRecorded};
ghost use Rattle.signer.specs.BelowOnce.{SignsBelowOnce};
ghost use Rattle.signer.specs.BelowRuns.{Event, HasNamedTrees, HasNoRivalsBelow, Runs};
ghost use Rattle.signer.specs.Messages.{CrashLeavesOf};

use crate::faults::{SignFileFault, SignOnceFault};
use crate::files::id_of;
use crate::files_below::sign_parts_below;
use crate::hss_signer::HssSigner;
use crate::rivals_below::rival_below;
use canonical_json::one_spelling;
use leaf_book::Book;
use metadata::{SignedFile, read_signed};
use sqlite::Alter;
use std::alloc::Global;

/// The same as `sign_file_below`, but the key signs one document of a kind and version only, as in `sign_file_once`, whichever of its trees
/// has signed the other: where the book keeps a leaf of any of them for another signed part with the same `_type` and the same `version`,
/// nothing is signed.
///
/// - `Other`: the leaf, within its tree, that is kept for another document of this kind and version, in a tree below, or in the top tree,
///   whose seed may have signed documents as a key of one level. The file's envelope is in order. Nothing is registered and no leaf reserved.
/// - `Unsigned`: as `sign_file_below` says it. What is wrong with the file's envelope comes before `Other`, all else after it.
///
/// A crash inside the call, or after it, leaves the whole database of the book before it or of one that it makes: the event
/// `crash_in_sign_below_once` of `one_document_in_all_trees`.
pub fn sign_file_below_once<S: Alter>(
    alloc: Global,
    book: &mut Book<S>,
    signer: &mut HssSigner,
    file: &[u8],
) -> Result<Vec<u8>, SignOnceFault>
    ensures signed { IfOk result (λ out. SignsBelowOnce book.old.book signer.old file.now (Ok out.items) book.new.book) }
    ensures unsigned { IfErr result (λ fault. SignsBelowOnce book.old.book signer.old file.now (Err fault) book.new.book) }
    ensures same { signer.new ≡ signer.old }
    ensures right { IsBook book.new.book }
    ensures rows { HasCleanDisk (state S.Store book.new.conn) → IsTrue (state S.Store book.new.conn).is_open → IsRecorded (state S.Store book.new.conn) book.new.book }
    ensures kept { HasCleanDisk (state S.Store book.new.conn) → OnOk result (IsTrue (state S.Store book.new.conn).is_open
        × ((trees : Trees) → (state S.Store book.new.conn).may_leave trees → HoldsWhole trees book.new.book)) }
    ensures crash { CrashLeavesOf (state S.Store book.old.conn) (state S.Store book.new.conn)
        (λ c. (c ≡ book.old.book) ⊎ ((r : Result (List ℕ) SignOnceFault) × SignsBelowOnce book.old.book signer.old file.now r c)) }
{
    one_spelling();
    book.rests();
    match read_signed(alloc, file) {
        Ok(signed) => sign_parts_below_once(alloc, book, signer, &signed),
        Err(fault) => Err(SignOnceFault::Unsigned(SignFileFault::from(fault))),
    }
}

// The same of a file that was read.
fn sign_parts_below_once<S: Alter>(
    alloc: Global,
    book: &mut Book<S>,
    signer: &mut HssSigner,
    file: &SignedFile<'_>,
) -> Result<Vec<u8>, SignOnceFault>
    requires { (v : Json) × IsCanonical v file.now.signed.now }
    ensures signed { IfOk result (λ out. (bytes : List ℕ) → IsSignedBy bytes (entries_view file.now.signatures.items) file.now.signed.now
        → SignsBelowOnce book.old.book signer.old bytes (Ok out.items) book.new.book) }
    ensures unsigned { IfErr result (λ fault. (bytes : List ℕ) → IsSignedBy bytes (entries_view file.now.signatures.items) file.now.signed.now
        → SignsBelowOnce book.old.book signer.old bytes (Err fault) book.new.book) }
    ensures same { signer.new ≡ signer.old }
    ensures right { IsBook book.new.book }
    ensures rows { HasCleanDisk (state S.Store book.new.conn) → IsTrue (state S.Store book.new.conn).is_open → IsRecorded (state S.Store book.new.conn) book.new.book }
    ensures kept { HasCleanDisk (state S.Store book.new.conn) → OnOk result (IsTrue (state S.Store book.new.conn).is_open
        × ((trees : Trees) → (state S.Store book.new.conn).may_leave trees → HoldsWhole trees book.new.book)) }
    ensures crash { CrashLeavesOf (state S.Store book.old.conn) (state S.Store book.new.conn) (λ c. (c ≡ book.old.book) ⊎ ((bytes : List ℕ) → IsSignedBy bytes (entries_view file.now.signatures.items) file.now.signed.now
        → SignsBelowOnce book.old.book signer.old bytes (Err (SignOnceFault.Unsigned SignFileFault.OutOfMemory)) c)) }
{
    one_spelling();
    book.rests();
    let top = id_of(alloc, signer.pair().top());
    match rival_below(alloc, book, &top, file.signed) {
        Ok(None) => {}
        Ok(Some(leaf)) => return Err(SignOnceFault::Other(leaf)),
        Err(_) => return Err(SignOnceFault::Unsigned(SignFileFault::OutOfMemory)),
    }
    match sign_parts_below(alloc, book, signer, file) {
        Ok(out) => Ok(out),
        Err(fault) => Err(SignOnceFault::Unsigned(fault)),
    }
}

/// A law, which does nothing: over every list of events of a book (register, `sign_file_below_once` by this key of two levels with whatever
/// outcome, a crash before or after any commit of the call in hand, a crash elsewhere, reopening) the top tree and the trees below it have
/// leaves for one document of a kind and version only, all together, where they had at first. At first a tree below may have leaves in use only
/// where a leaf of the top tree is kept for its key, which stays so: a book in which none of them has signed is one.
pub fn one_document_in_all_trees()
    ensures { (p : HssPair) (b c : PlainBook) (events : List Event) → HasNamedTrees p b → HasNoRivalsBelow p b → Runs p b events c
        → HasNamedTrees p c × HasNoRivalsBelow p c }
{}
