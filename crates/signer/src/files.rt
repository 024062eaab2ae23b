//! Files that get a signature.
ghost use Rattle.std.specs.Prelude.{◌≡◌, ◌⊎◌, ◌<◌, ◌≤◌, List, ℕ, length, IfErr, IfOk, OnOk};
ghost use Rattle.limits.specs.Limits.{file_limit, most_signatures};
ghost use Rattle.hex.specs.Hex.{encode_lower};
ghost use Rattle.sqlite.specs.Held.{state};
ghost use Rattle.sqlite.specs.State.{HasCleanDisk};
ghost use Rattle.sqlite_trees.specs.Tree.{Trees};
ghost use Rattle.denials.specs.declared.denial.Denial.TheVariants as denials;
ghost use Rattle.keys_roles.specs.Views.{entries_view, id_text};
ghost use Rattle.metadata.specs.Shape.{IsSignedBy};
ghost use Rattle.leaf_plans.specs.Book.{key_of};
ghost use Rattle.leaf_book.specs.Rows.{HoldsWhole, IsRecorded};
ghost use Rattle.signer.specs.Files.{IsBegunFile, IsUnsignedFile, SignsFile, others as others_of};
ghost use Rattle.signer.specs.Messages.{CrashLeavesOf, IsBegun};
ghost use Rattle.signer.specs.steps.Texts.{parts_text};

use crate::entries::{are_bytes, has_digits, others, with_entry};
use crate::faults::SignFileFault;
use crate::messages::sign_message;
use denials::Denial;
use keys_roles::{Key, KeyId, key_id};
use leaf_book::Book;
use limits::{FILE_LIMIT, MOST_SIGNATURES};
use lms::{KeyPair, Params, Seed};
use metadata::{SignedFile, read_signed};
use sqlite::Alter;
use std::alloc::Global;

/// The file with a signature of the seed's key over its signed part, in canonical JSON: the key's entry stands last, and an older one of
/// the key is taken out. The leaf is the one that the book keeps for this signed part; the book keeps it before anything is signed. The
/// same file, signed or not, gives the same bytes. A crash inside the call, or after it, leaves the whole database of a book as far as
/// the signing may have come.
///
/// - `Denied`: `TooLong`, `NotCanonical` or `WrongShape` of the file's envelope, in this order; then `WrongShape` where the result would
///   have over 16 entries, and `TooLong` where it would have over 262,144 bytes. Nothing is registered and no leaf reserved.
/// - `Book`: as `Book::register` and `Book::reserve` say it.
/// - `OutOfMemory`: memory was refused.
pub fn sign_file<S: Alter>(
    alloc: Global,
    book: &mut Book<S>,
    seed: &Seed,
    params: Params,
    file: &[u8],
) -> Result<Vec<u8>, SignFileFault>
    ensures signed { IfOk result (λ out. SignsFile book.old.book seed.now params file.now out.items book.new.book) }
    ensures unsigned { IfErr result (λ fault. IsUnsignedFile book.old.book seed.now params file.now fault book.new.book) }
    ensures kept { HasCleanDisk (state S.Store book.new.conn) → OnOk result (IsRecorded (state S.Store book.new.conn) book.new.book
        × ((trees : Trees) → (state S.Store book.new.conn).may_leave trees → HoldsWhole trees book.new.book)) }
    ensures crash { CrashLeavesOf (state S.Store book.old.conn) (state S.Store book.new.conn) (IsBegunFile book.old.book seed.now params file.now) }
{
    book.rests();
    match KeyPair::new(alloc, seed, params) {
        Ok(pair) => sign_file_with(alloc, book, &pair, file),
        Err(_) => Err(SignFileFault::OutOfMemory),
    }
}

/// The same by a key pair whose tree is hashed already.
pub fn sign_file_with<S: Alter>(
    alloc: Global,
    book: &mut Book<S>,
    pair: &KeyPair,
    file: &[u8],
) -> Result<Vec<u8>, SignFileFault>
    ensures signed { IfOk result (λ out. SignsFile book.old.book pair.now.seed pair.now.params file.now out.items book.new.book) }
    ensures unsigned { IfErr result (λ fault. IsUnsignedFile book.old.book pair.now.seed pair.now.params file.now fault book.new.book) }
    ensures kept { HasCleanDisk (state S.Store book.new.conn) → OnOk result (IsRecorded (state S.Store book.new.conn) book.new.book
        × ((trees : Trees) → (state S.Store book.new.conn).may_leave trees → HoldsWhole trees book.new.book)) }
    ensures crash { CrashLeavesOf (state S.Store book.old.conn) (state S.Store book.new.conn) (IsBegunFile book.old.book pair.now.seed pair.now.params file.now) }
{
    book.rests();
    match read_signed(alloc, file) {
        Ok(signed) => sign_parts(alloc, book, pair, &signed),
        Err(fault) => Err(SignFileFault::from(fault)),
    }
}

// The same of a file that was read.
pub(crate) fn sign_parts<S: Alter>(
    alloc: Global,
    book: &mut Book<S>,
    pair: &KeyPair,
    file: &SignedFile<'_>,
) -> Result<Vec<u8>, SignFileFault>
    ensures signed { IfOk result (λ out. (bytes : List ℕ) → IsSignedBy bytes (entries_view file.now.signatures.items) file.now.signed.now
        → SignsFile book.old.book pair.now.seed pair.now.params bytes out.items book.new.book) }
    ensures unsigned { IfErr result (λ fault. (bytes : List ℕ) → IsSignedBy bytes (entries_view file.now.signatures.items) file.now.signed.now
        → IsUnsignedFile book.old.book pair.now.seed pair.now.params bytes fault book.new.book) }
    ensures kept { HasCleanDisk (state S.Store book.new.conn) → OnOk result (IsRecorded (state S.Store book.new.conn) book.new.book
        × ((trees : Trees) → (state S.Store book.new.conn).may_leave trees → HoldsWhole trees book.new.book)) }
    ensures crash { CrashLeavesOf (state S.Store book.old.conn) (state S.Store book.new.conn) (IsBegun book.old.book pair.now.seed pair.now.params file.now.signed.now) }
{
    book.rests();
    let id = id_of(alloc, pair);
    has_digits(&id);
    match judge_result(alloc, file, &id, pair.signature_len()) {
        Ok(()) => {}
        Err(fault) => return Err(fault),
    }
    let (key, signature) = match sign_message(alloc, book, pair, file.signed) {
        Ok(made) => made,
        Err(fault) => return Err(SignFileFault::from(fault)),
    };
    has_digits(&key);
    are_bytes(signature.as_slice());
    match with_entry(alloc, file, &key, signature.as_slice()) {
        Ok(out) => Ok(out),
        Err(_) => Err(SignFileFault::OutOfMemory),
    }
}

// The id of the pair's key.
pub(crate) fn id_of(alloc: Global, pair: &KeyPair) -> KeyId
    ensures { id_text result ≡ key_of pair.now.seed pair.now.params }
{
    match key_id(alloc, &Key::Lms(pair.public())) {
        Ok(id) => id,
        Err(_) => KeyId([0; 32]),
    }
}

// Whether the file with a signature of so many bytes more would be within the limits.
pub(crate) fn judge_result(
    alloc: Global,
    file: &SignedFile<'_>,
    id: &KeyId,
    signature_len: usize,
) -> Result<(), SignFileFault>
    ensures ok { OnOk result ((length (others_of (id_text id.now) (entries_view file.now.signatures.items)) < most_signatures)
        × ((signature : List ℕ) → length signature ≡ signature_len
        → length (parts_text (others_of (id_text id.now) (entries_view file.now.signatures.items)) (id_text id.now) (encode_lower signature) file.now.signed.now) ≤ file_limit)) }
    ensures fault { IfErr result (λ e. (e ≡ SignFileFault.OutOfMemory)
        ⊎ (((e ≡ SignFileFault.Denied denials.WrongShape) × (most_signatures ≤ length (others_of (id_text id.now) (entries_view file.now.signatures.items))))
        ⊎ ((e ≡ SignFileFault.Denied denials.TooLong) × (length (others_of (id_text id.now) (entries_view file.now.signatures.items)) < most_signatures)
        × ((signature : List ℕ) → length signature ≡ signature_len
        → file_limit < length (parts_text (others_of (id_text id.now) (entries_view file.now.signatures.items)) (id_text id.now) (encode_lower signature) file.now.signed.now))))) }
{
    if others(file.signatures.as_slice(), id) >= MOST_SIGNATURES {
        return Err(SignFileFault::Denied(Denial::WrongShape));
    }
    // zeros, in the place of a signature
    let nothing = vec![in alloc; 0; signature_len]?;
    let whole = with_entry(alloc, file, id, nothing.as_slice())?;
    if whole.len() > FILE_LIMIT {
        return Err(SignFileFault::Denied(Denial::TooLong));
    }
    Ok(())
}
