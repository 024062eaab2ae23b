//! Messages that get a signature of two levels (RFC 8554, section 6.2).
ghost use Rattle.std.specs.Prelude.{◌≡◌, ◌≢◌, ◌+◌, ◌++◌, ℕ, List, IfErr, IfOk, IsTrue, MatchBool, OnOk, length, take};
ghost use Rattle.sqlite.specs.Held.{state};
ghost use Rattle.sqlite.specs.State.{HasCleanDisk};
ghost use Rattle.sqlite_trees.specs.Tree.{Trees};
ghost use Rattle.lms.specs.Hss.{VerifiesHss};
ghost use Rattle.lms.specs.Keys.{Pair};
ghost use Rattle.lms.specs.Text.{u32};
ghost use Rattle.leaf_plans.specs.Book.{Book as PlainBook, IsBook};
ghost use Rattle.leaf_book.specs.Rows.{HoldsWhole, IsRecorded};
ghost use Rattle.leaf_book.specs.Standing.{StaysClean};
ghost use Rattle.signer.specs.Levels.{IsBegunBelow, IsLeafFor, IsUnsignedBelow, SignsBelow, key_by, public_by, tree_signature_len};
ghost use Rattle.signer.specs.Messages.{CrashLeavesOf, Signs};

use crate::messages::sign_message;
use leaf_book::{Book, BookFault};
use leaf_plans::is_same;
use lms::{KeyPair, join_levels};
use sqlite::Alter;
use std::alloc::Global;

/// The signature of the message by a tree whose public key leaf `q` of the top tree signs. Both keys are registered where they are not, and
/// the book keeps a leaf of each before it signs: that of the top tree for the public key of the tree below, the other for the message. So
/// the same message gets the same bytes, and no leaf of any tree signs two messages. Leaf `q` has to be the one that the book keeps for
/// this public key, or the least of the top tree that it does not use: `leaf_of_tree`.
///
/// Errors: as `sign_message` says it of either tree. `Damaged` besides where the leaf is not `q`; it is spent then, for this public key.
///
/// A crash inside the call, or after it, leaves the whole database of a book as far as the signing may have come.
pub fn sign_below<S: Alter>(
    alloc: Global,
    book: &mut Book<S>,
    top: &KeyPair,
    q: u32,
    below: &KeyPair,
    message: &[u8],
) -> Result<Vec<u8>, BookFault>
    ensures signs { IfOk result (λ bytes. SignsBelow book.old.book top.now q below.now message.now bytes.items book.new.book) }
    ensures verifies { IfOk result (λ bytes. VerifiesHss (u32 2 ++ public_by top.now) message.now bytes.items) }
    ensures length { IfOk result (λ bytes. length bytes.items ≡ 4 + (tree_signature_len top.now.params + (56 + tree_signature_len below.now.params))) }
    ensures unsigned { IfErr result (λ fault. IsUnsignedBelow book.old.book top.now q below.now message.now fault book.new.book) }
    ensures right { IsBook book.new.book }
    ensures rows { HasCleanDisk (state S.Store book.new.conn) → IsTrue (state S.Store book.new.conn).is_open → IsRecorded (state S.Store book.new.conn) book.new.book }
    ensures kept { HasCleanDisk (state S.Store book.new.conn) → OnOk result (IsTrue (state S.Store book.new.conn).is_open
        × ((trees : Trees) → (state S.Store book.new.conn).may_leave trees → HoldsWhole trees book.new.book)) }
    ensures clean { StaysClean (state S.Store book.old.conn) (state S.Store book.new.conn) }
    ensures crash { CrashLeavesOf (state S.Store book.old.conn) (state S.Store book.new.conn) (IsBegunBelow book.old.book top.now below.now message.now) }
{
    let public = below.public();
    let first = match sign_message(alloc, book, top, &public) {
        Ok((_, signature)) => signature,
        Err(fault) => return Err(fault),
    };
    if !is_by(first.as_slice(), q) {
        return Err(BookFault::Damaged);
    }
    let last = match sign_message(alloc, book, below, message) {
        Ok((_, signature)) => signature,
        Err(fault) => return Err(fault),
    };
    match join_levels(alloc, first.as_slice(), &public, last.as_slice()) {
        Ok(bytes) => Ok(bytes),
        Err(_) => Err(BookFault::OutOfMemory),
    }
}

// Whether a signature begins with this leaf.
fn is_by(signature: &[u8], q: u32) -> bool
    ensures { MatchBool result (take 4 signature.now ≡ u32 q) (take 4 signature.now ≢ u32 q) }
{
    if signature.len() < 4 {
        return false;
    }
    is_same(&signature[..4], &q.to_be_bytes())
}

/// A law, which does nothing: where leaf `q` of the top tree is the one that the book keeps for the public key of the tree below, or the least
/// that it does not use, it is the leaf that signs this key. So `sign_below` then spends no other, and is `Damaged` only where one of the two
/// keys is registered with other parameters.
pub fn leaf_of_tree()
    ensures { (b c : PlainBook) (top : Pair) (q : ℕ) (message signature : List ℕ) → IsBook b → IsLeafFor b (key_by top) message q
        → (s : Signs b top.seed top.params message signature c) → s.leaf.leaf ≡ q }
{}
