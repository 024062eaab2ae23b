//! Files that get a signature where the key has signed no other document of their kind and version.
ghost use Rattle.std.specs.Prelude.{◌≡◌, ◌⊎◌, List, ℕ, Ok, Err, IfErr, IfOk, OnOk, Result};
ghost use Rattle.sqlite.specs.Held.{state};
ghost use Rattle.sqlite.specs.State.{HasCleanDisk};
ghost use Rattle.sqlite_trees.specs.Tree.{Trees};
ghost use Rattle.canonical_json.specs.Json.{Json};
ghost use Rattle.canonical_json.specs.Spelling.{IsCanonical};
ghost use Rattle.keys_roles.specs.Views.{entries_view};
ghost use Rattle.metadata.specs.Shape.{IsSignedBy};
ghost use Rattle.leaf_plans.specs.Book.{Book as PlainBook};
ghost use Rattle.leaf_book.specs.Rows.{HoldsWhole, IsRecorded};
ghost use Rattle.signer.specs.Messages.{CrashLeavesOf};
ghost use Rattle.signer.specs.Once.{Event, Runs, SignsOnce};
ghost use Rattle.signer.specs.Versions.{HasNoRivals};

use crate::faults::{SignFileFault, SignOnceFault};
use crate::files::{id_of, sign_parts};
use crate::versions::rival_of;
use canonical_json::one_spelling;
use leaf_book::Book;
use lms::KeyPair;
use metadata::{SignedFile, read_signed};
use sqlite::Alter;
use std::alloc::Global;

/// The same as `sign_file_with`, but a key signs one document of a kind and version only: where the book keeps a leaf of this key for
/// another signed part with the same `_type` and the same `version`, nothing is signed. A signed part without a `version` has no such
/// other, and the same signed part again is none either.
///
/// - `Other`: the leaf that is kept for another document of this kind and version. The file's envelope is in order. Nothing is registered
///   and no leaf reserved.
/// - `Unsigned`: as `sign_file_with` says it. What is wrong with the file's envelope comes before `Other`, all else after it.
///
/// A crash inside the call, or after it, leaves the whole database of the book before it or of one that it makes: the event
/// `crash_in_sign_once` of `one_document_a_version`.
pub fn sign_file_once<S: Alter>(
    alloc: Global,
    book: &mut Book<S>,
    pair: &KeyPair,
    file: &[u8],
) -> Result<Vec<u8>, SignOnceFault>
    ensures signed { IfOk result (λ out. SignsOnce book.old.book pair.now.seed pair.now.params file.now (Ok out.items) book.new.book) }
    ensures unsigned { IfErr result (λ fault. SignsOnce book.old.book pair.now.seed pair.now.params file.now (Err fault) book.new.book) }
    ensures kept { HasCleanDisk (state S.Store book.new.conn) → OnOk result (IsRecorded (state S.Store book.new.conn) book.new.book
        × ((trees : Trees) → (state S.Store book.new.conn).may_leave trees → HoldsWhole trees book.new.book)) }
    ensures crash { CrashLeavesOf (state S.Store book.old.conn) (state S.Store book.new.conn)
        (λ c. (c ≡ book.old.book) ⊎ ((r : Result (List ℕ) SignOnceFault) × SignsOnce book.old.book pair.now.seed pair.now.params file.now r c)) }
{
    one_spelling();
    book.rests();
    match read_signed(alloc, file) {
        Ok(signed) => sign_parts_once(alloc, book, pair, &signed),
        Err(fault) => Err(SignOnceFault::Unsigned(SignFileFault::from(fault))),
    }
}

// The same of a file that was read.
fn sign_parts_once<S: Alter>(
    alloc: Global,
    book: &mut Book<S>,
    pair: &KeyPair,
    file: &SignedFile<'_>,
) -> Result<Vec<u8>, SignOnceFault>
    requires { (v : Json) × IsCanonical v file.now.signed.now }
    ensures signed { IfOk result (λ out. (bytes : List ℕ) → IsSignedBy bytes (entries_view file.now.signatures.items) file.now.signed.now
        → SignsOnce book.old.book pair.now.seed pair.now.params bytes (Ok out.items) book.new.book) }
    ensures unsigned { IfErr result (λ fault. (bytes : List ℕ) → IsSignedBy bytes (entries_view file.now.signatures.items) file.now.signed.now
        → SignsOnce book.old.book pair.now.seed pair.now.params bytes (Err fault) book.new.book) }
    ensures kept { HasCleanDisk (state S.Store book.new.conn) → OnOk result (IsRecorded (state S.Store book.new.conn) book.new.book
        × ((trees : Trees) → (state S.Store book.new.conn).may_leave trees → HoldsWhole trees book.new.book)) }
    ensures crash { CrashLeavesOf (state S.Store book.old.conn) (state S.Store book.new.conn) (λ c. (c ≡ book.old.book) ⊎ ((bytes : List ℕ) → IsSignedBy bytes (entries_view file.now.signatures.items) file.now.signed.now
        → SignsOnce book.old.book pair.now.seed pair.now.params bytes (Err (SignOnceFault.Unsigned SignFileFault.OutOfMemory)) c)) }
{
    one_spelling();
    book.rests();
    let id = id_of(alloc, pair);
    match rival_of(alloc, book, &id, file.signed) {
        Ok(None) => {}
        Ok(Some(leaf)) => return Err(SignOnceFault::Other(leaf)),
        Err(_) => return Err(SignOnceFault::Unsigned(SignFileFault::OutOfMemory)),
    }
    match sign_parts(alloc, book, pair, file) {
        Ok(out) => Ok(out),
        Err(fault) => Err(SignOnceFault::Unsigned(fault)),
    }
}

/// A law, which does nothing: over every list of events of a book (register, `sign_file_once` with whatever outcome, a crash before or after
/// any commit of the call in hand, a crash elsewhere, reopening) no key has leaves for two documents of one kind and version, where none had at
/// first.
pub fn one_document_a_version()
    ensures { (b c : PlainBook) (events : List Event) → HasNoRivals b → Runs b events c → HasNoRivals c }
{}
