//! Messages that get a signature.
ghost use Rattle.std.specs.Prelude.{◌≡◌, IfErr, IfOk, IsTrue, OnOk};
ghost use Rattle.sqlite.specs.Held.{state};
ghost use Rattle.sqlite.specs.State.{HasCleanDisk};
ghost use Rattle.sqlite_trees.specs.Tree.{Trees};
ghost use Rattle.lms.specs.Keys.{public_of};
ghost use Rattle.lms.specs.Verifies.{Verifies};
ghost use Rattle.keys_roles.specs.Views.{id_text};
ghost use Rattle.leaf_plans.specs.Book.{IsBook, key_of};
ghost use Rattle.leaf_book.specs.Rows.{HoldsWhole, IsRecorded};
ghost use Rattle.leaf_book.specs.Standing.{StaysClean};
ghost use Rattle.signer.specs.Messages.{CrashLeavesOf, IsBegun, IsUnsigned, Signs};

use keys_roles::KeyId;
use leaf_book::{Book, BookFault, sign_with};
use lms::KeyPair;
use sqlite::Alter;
use std::alloc::Global;

/// The id of the pair's key, which is registered where it is not, and a signature of the message by the leaf that the book keeps for
/// it. The rows have the leaf before anything is signed, so the same message gets the same bytes, and no crash loses a leaf whose
/// signature was handed on.
///
/// Errors: as `Book::register_pair` and `Book::reserve` say it, and `OutOfMemory` where the signature had no memory. A leaf may then
/// be kept for the message: the same message gets this leaf again.
///
/// A crash inside the call, or after it, leaves the whole database of a book as far as the signing may have come.
pub fn sign_message<S: Alter>(
    alloc: Global,
    book: &mut Book<S>,
    pair: &KeyPair,
    message: &[u8],
) -> Result<(KeyId, Vec<u8>), BookFault>
    ensures key { IfOk result (λ p. id_text p.0 ≡ key_of pair.now.seed pair.now.params) }
    ensures signs { IfOk result (λ p. Signs book.old.book pair.now.seed pair.now.params message.now p.1.items book.new.book) }
    ensures verifies { IfOk result (λ p. Verifies (public_of pair.now.seed pair.now.params) message.now p.1.items) }
    ensures unsigned { IfErr result (λ fault. IsUnsigned book.old.book pair.now.seed pair.now.params message.now fault book.new.book) }
    ensures right { IsBook book.new.book }
    ensures rows { HasCleanDisk (state S.Store book.new.conn) → IsTrue (state S.Store book.new.conn).is_open → IsRecorded (state S.Store book.new.conn) book.new.book }
    ensures kept { HasCleanDisk (state S.Store book.new.conn) → OnOk result (IsTrue (state S.Store book.new.conn).is_open
        × ((trees : Trees) → (state S.Store book.new.conn).may_leave trees → HoldsWhole trees book.new.book)) }
    ensures clean { StaysClean (state S.Store book.old.conn) (state S.Store book.new.conn) }
    ensures crash { CrashLeavesOf (state S.Store book.old.conn) (state S.Store book.new.conn) (IsBegun book.old.book pair.now.seed pair.now.params message.now) }
{
    let id = match book.register_pair(pair) {
        Ok(id) => id,
        Err(fault) => return Err(fault),
    };
    let leaf = match book.reserve(&id, message) {
        Ok(leaf) => leaf,
        Err(fault) => return Err(fault),
    };
    match sign_with(alloc, leaf, pair) {
        Ok(signature) => Ok((id, signature)),
        Err(_) => Err(BookFault::OutOfMemory),
    }
}
