//! Files that get a signature of two levels.
ghost use Rattle.std.specs.Prelude.{◌≡◌, List, ℕ, IfErr, IfOk, IsTrue, OnOk, length};
ghost use Rattle.sqlite.specs.Held.{state};
ghost use Rattle.sqlite.specs.State.{HasCleanDisk};
ghost use Rattle.sqlite_trees.specs.Tree.{Trees};
ghost use Rattle.keys_roles.specs.Views.{entries_view};
ghost use Rattle.lms.specs.Hss.{VerifiesHss};
ghost use Rattle.lms.specs.HssKeys.{hss_public_of};
ghost use Rattle.metadata.specs.Shape.{IsSignedBy};
ghost use Rattle.leaf_plans.specs.Book.{IsBook};
ghost use Rattle.leaf_book.specs.Rows.{HoldsWhole, IsRecorded};
ghost use Rattle.signer.specs.Below.{below_of, top_of};
ghost use Rattle.signer.specs.BelowOnce.{IsBegunFileBelow, IsBegunIn, IsTreeAt, IsUnsignedFileBelow, IsUnsignedIn, SignsFileBelow, hss_signature_len};
ghost use Rattle.signer.specs.Levels.{SignsBelow};
ghost use Rattle.signer.specs.Messages.{CrashLeavesOf};

use crate::entries::{are_bytes, has_digits, with_entry};
use crate::faults::SignFileFault;
use crate::files::{id_of, judge_result};
use crate::hss_signer::HssSigner;
use crate::levels::sign_below;
use crate::trees::{hss_id, is_leaf_for, tree_for};
use leaf_book::{Book, BookFault};
use metadata::{SignedFile, read_signed};
use sqlite::Alter;
use std::alloc::Global;

/// The file with a signature of the key of two levels over its signed part, in canonical JSON: the key's entry stands last, and an older one
/// of the key is taken out. `tree_for` says which tree signs it; the book keeps a leaf of the top tree for the public key of this tree, and a
/// leaf of the tree for the signed part, before either signs. The same file, signed or not, gives the same bytes.
///
/// - `Denied`: as `sign_file_with` says it, by the length of a signature of two levels. Nothing is registered and no leaf reserved.
/// - `Book`: as `sign_below` says it. `LeavesSpent` besides where no tree has a leaf left, nor the top tree, and `Damaged` where the leaf of
///   the top tree is kept for a public key with another root than the tree has. Nothing is registered then and no leaf reserved.
/// - `OutOfMemory`: memory was refused. Leaves may be reserved: the same file gets the same ones.
///
/// A crash inside the call, or after it, leaves the whole database of a book as far as the signing may have come. It hashes each leaf of one
/// tree below, where the signer has not hashed this tree last.
pub fn sign_file_below<S: Alter>(
    alloc: Global,
    book: &mut Book<S>,
    signer: &mut HssSigner,
    file: &[u8],
) -> Result<Vec<u8>, SignFileFault>
    ensures signed { IfOk result (λ out. SignsFileBelow book.old.book signer.old file.now out.items book.new.book) }
    ensures unsigned { IfErr result (λ fault. IsUnsignedFileBelow book.old.book signer.old file.now fault book.new.book) }
    ensures same { signer.new ≡ signer.old }
    ensures right { IsBook book.new.book }
    ensures rows { HasCleanDisk (state S.Store book.new.conn) → IsTrue (state S.Store book.new.conn).is_open → IsRecorded (state S.Store book.new.conn) book.new.book }
    ensures kept { HasCleanDisk (state S.Store book.new.conn) → OnOk result (IsTrue (state S.Store book.new.conn).is_open
        × ((trees : Trees) → (state S.Store book.new.conn).may_leave trees → HoldsWhole trees book.new.book)) }
    ensures crash { CrashLeavesOf (state S.Store book.old.conn) (state S.Store book.new.conn) (IsBegunFileBelow book.old.book signer.old file.now) }
{
    book.rests();
    match read_signed(alloc, file) {
        Ok(signed) => sign_parts_below(alloc, book, signer, &signed),
        Err(fault) => Err(SignFileFault::from(fault)),
    }
}

// The same of a file that was read.
pub(crate) fn sign_parts_below<S: Alter>(
    alloc: Global,
    book: &mut Book<S>,
    signer: &mut HssSigner,
    file: &SignedFile<'_>,
) -> Result<Vec<u8>, SignFileFault>
    ensures signed { IfOk result (λ out. (bytes : List ℕ) → IsSignedBy bytes (entries_view file.now.signatures.items) file.now.signed.now
        → SignsFileBelow book.old.book signer.old bytes out.items book.new.book) }
    ensures unsigned { IfErr result (λ fault. (bytes : List ℕ) → IsSignedBy bytes (entries_view file.now.signatures.items) file.now.signed.now
        → IsUnsignedFileBelow book.old.book signer.old bytes fault book.new.book) }
    ensures same { signer.new ≡ signer.old }
    ensures right { IsBook book.new.book }
    ensures rows { HasCleanDisk (state S.Store book.new.conn) → IsTrue (state S.Store book.new.conn).is_open → IsRecorded (state S.Store book.new.conn) book.new.book }
    ensures kept { HasCleanDisk (state S.Store book.new.conn) → OnOk result (IsTrue (state S.Store book.new.conn).is_open
        × ((trees : Trees) → (state S.Store book.new.conn).may_leave trees → HoldsWhole trees book.new.book)) }
    ensures crash { CrashLeavesOf (state S.Store book.old.conn) (state S.Store book.new.conn) (IsBegunIn book.old.book signer.old file.now.signed.now) }
{
    book.rests();
    let id = hss_id(alloc, signer.pair());
    has_digits(&id);
    match judge_result(alloc, file, &id, signer.signature_len()) {
        Ok(()) => {}
        Err(fault) => return Err(fault),
    }
    let signature = match sign_by_tree(alloc, book, signer, file.signed) {
        Ok(signature) => signature,
        Err(fault) => return Err(SignFileFault::from(fault)),
    };
    are_bytes(signature.as_slice());
    match with_entry(alloc, file, &id, signature.as_slice()) {
        Ok(out) => Ok(out),
        Err(_) => Err(SignFileFault::OutOfMemory),
    }
}

// The signature of the message by the tree that it gets.
fn sign_by_tree<S: Alter>(
    alloc: Global,
    book: &mut Book<S>,
    signer: &mut HssSigner,
    message: &[u8],
) -> Result<Vec<u8>, BookFault>
    ensures signs { IfOk result (λ bytes. (q : ℕ) × IsTreeAt book.old.book signer.old message.now q
        × SignsBelow book.old.book (top_of signer.old) q (below_of signer.old q) message.now bytes.items book.new.book) }
    ensures verifies { IfOk result (λ bytes. VerifiesHss (hss_public_of signer.old.seed signer.old.levels) message.now bytes.items) }
    ensures length { IfOk result (λ bytes. length bytes.items ≡ hss_signature_len signer.old) }
    ensures unsigned { IfErr result (λ fault. IsUnsignedIn book.old.book signer.old message.now fault book.new.book) }
    ensures same { signer.new ≡ signer.old }
    ensures right { IsBook book.new.book }
    ensures rows { HasCleanDisk (state S.Store book.new.conn) → IsTrue (state S.Store book.new.conn).is_open → IsRecorded (state S.Store book.new.conn) book.new.book }
    ensures kept { HasCleanDisk (state S.Store book.new.conn) → OnOk result (IsTrue (state S.Store book.new.conn).is_open
        × ((trees : Trees) → (state S.Store book.new.conn).may_leave trees → HoldsWhole trees book.new.book)) }
    ensures crash { CrashLeavesOf (state S.Store book.old.conn) (state S.Store book.new.conn) (IsBegunIn book.old.book signer.old message.now) }
{
    book.rests();
    let top = id_of(alloc, signer.pair().top());
    let Some(q) = tree_for(alloc, book, signer.pair(), message) else {
        return Err(BookFault::LeavesSpent);
    };
    let tree = match signer.take_tree(alloc, q) {
        Ok(tree) => tree,
        Err(_) => return Err(BookFault::OutOfMemory),
    };
    if !is_leaf_for(book, &top, &tree.public(), q) {
        return Err(BookFault::Damaged);
    }
    let made = sign_below(alloc, book, signer.pair().top(), q, &tree, message);
    signer.keep_tree(q, tree);
    match made {
        Ok(signature) => Ok(signature),
        Err(fault) => Err(fault),
    }
}
