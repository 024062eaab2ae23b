//! The book: its keys and the leaf history, whose rows the tables hold.
ghost use Rattle.std.specs.Prelude.{◌≡◌, ◌≢◌, map, IfErr, IsTrue, MatchBool, MatchOption, OnErr, OnOk};
ghost use Rattle.lms.specs.declared.Params.{Params};
ghost use Rattle.lms.specs.declared.SigningHeight.{SigningHeight};
ghost use Rattle.sqlite.specs.Held.{state};
ghost use Rattle.sqlite.specs.State.{HasCleanDisk, Survives};
ghost use Rattle.sql_tables.specs.Outliving.{Outlives, StaysOpen};
ghost use Rattle.lms.specs.Keys.{leaf_count};
ghost use Rattle.keys_roles.specs.Keys.{id_of};
ghost use Rattle.keys_roles.specs.Views.{id_text, key_view};
ghost use Rattle.leaf_plans.specs.Book.{HasOtherTree, HasTree, IsBook, IsLeastUnused, IsRegistered, LacksMessage, LacksOtherTree, key_of, with_leaf, with_signer};
ghost use Rattle.leaf_book.specs.Calls.{Registers, Reserves};
ghost use Rattle.leaf_book.specs.Faults.{IsOutside};
ghost use Rattle.leaf_book.specs.Rows.{HoldsWhole};
ghost use Rattle.leaf_book.specs.Standing.{CrashLeaves, CrashLeavesEither, LeavesOnly, RestsOn, StaysClean, WasOpen};
ghost use Rattle.leaf_plans.specs.Views.{book_view, kept_view};
ghost use Rattle.leaf_book.specs.Views.{id_answer};
ghost use Rattle.leaf_plans.specs.Planning.{HasNoLeaf, IsNextLeaf, IsPlan};

use crate::cells::copied;
use crate::faults::BookFault;
use crate::leaf::Leaf;
use crate::writing::{check_open, put_leaf, put_signer};
use keys_roles::{Key, KeyId, key_id};
use leaf_plans::{LeafRow, Plan, Signer, has_params, next_leaf, params_of, plan_for, same_params};
use lms::{KeyPair, OtsType, Params, Seed, SigningHeight, public_of};
use sqlite::{Alter, Connection};
use std::alloc::Global;
use std::marker::Model;

/// A book of leaves, and the connection to the tables that hold its rows. A clause sees the connection and what the book holds.
/// While the connection is open, and unless a wrong answer of the disk was taken as true, the rows are those of the book.
#[derive(Drop)]
pub struct Book<S: Alter> {
    conn: Connection<S>,
    signers: Vec<Signer>,
    leaves: Vec<LeafRow>,
    alloc: Global,
}

impl<S: Alter> Model for Book<S> {
    ghost use Rattle.sqlite.specs.Held.{state};
    ghost use Rattle.leaf_plans.specs.Book.{IsBook};
    ghost use Rattle.leaf_book.specs.Standing.{RestsOn};
    ghost use Rattle.leaf_plans.specs.Views.{book_view};
    ghost use Rattle.leaf_book.specs.Views.{Shown, shown_code};

    ghost Value = { Shown S };

    ghost coded = { shown_code S.code };

    ghost view = { λ b. record { conn = b.conn; book = book_view b.signers.items b.leaves.items } };

    ghost invariant = { λ b. IsBook (book_view b.signers.items b.leaves.items) × RestsOn (state S.Store b.conn) (book_view b.signers.items b.leaves.items) };
}

impl<S: Alter> Book<S> {
    // A book over a connection whose tables hold its rows.
    pub(crate) fn over(
        alloc: Global,
        conn: Connection<S>,
        signers: Vec<Signer>,
        leaves: Vec<LeafRow>,
    ) -> Book<S>
        requires right { IsBook (book_view signers.items leaves.items) }
        requires rows { RestsOn (state S.Store conn) (book_view signers.items leaves.items) }
        ensures conn { result.conn ≡ conn }
        ensures book { result.book ≡ book_view signers.items leaves.items }
    {
        Book {
            conn,
            signers,
            leaves,
            alloc,
        }
    }

    /// Registers the key of a seed under parameters, and answers its id. Where it is registered with the same parameters nothing
    /// changes. It writes by one statement at most, outside a transaction, as its last call of the database, and takes no memory
    /// after it. Whatever it answers, the book may be used on, unless a call of the disk answered a fault. It hashes the tree, and one
    /// more for each other width and height that keys of the book have.
    ///
    /// - `OtherTree`: the seed has a tree in the book with other parameters, which has the same one-time keys. Also where the key is
    ///   registered, so that of two trees that an older release has put there neither signs.
    /// - `Damaged`: the key is registered with other parameters.
    /// - `Database`: a call of the database answered a fault.
    /// - `OutOfMemory`: memory was refused.
    pub fn register(&mut self, seed: &Seed, params: Params) -> Result<KeyId, BookFault>
        ensures registers { Registers self.old.book seed.now params (id_answer result) self.new.book }
        ensures rows { RestsOn (state S.Store self.new.conn) self.new.book }
        ensures right { IsBook self.new.book }
        ensures clean { StaysClean (state S.Store self.old.conn) (state S.Store self.new.conn) }
        ensures live { WasOpen (state S.Store self.old.conn) (state S.Store self.new.conn) result }
        ensures stays { StaysOpen (state S.Store self.old.conn) (state S.Store self.new.conn) }
        ensures crash { CrashLeaves (state S.Store self.old.conn) (state S.Store self.new.conn) self.old.book (Registers self.old.book seed.now params) }
        ensures durable { LeavesOnly (state S.Store self.new.conn) self.new.book }
    {
        let key = key_by(self.alloc(), &Key::Lms(public_of(seed, params)));
        let result = self.enter(key, seed, params);
        self.rests();
        result
    }

    /// The same of a key pair whose tree is hashed already.
    pub fn register_pair(&mut self, pair: &KeyPair) -> Result<KeyId, BookFault>
        ensures registers { Registers self.old.book pair.now.seed pair.now.params (id_answer result) self.new.book }
        ensures rows { RestsOn (state S.Store self.new.conn) self.new.book }
        ensures right { IsBook self.new.book }
        ensures clean { StaysClean (state S.Store self.old.conn) (state S.Store self.new.conn) }
        ensures live { WasOpen (state S.Store self.old.conn) (state S.Store self.new.conn) result }
        ensures stays { StaysOpen (state S.Store self.old.conn) (state S.Store self.new.conn) }
        ensures crash { CrashLeaves (state S.Store self.old.conn) (state S.Store self.new.conn) self.old.book (Registers self.old.book pair.now.seed pair.now.params) }
        ensures durable { LeavesOnly (state S.Store self.new.conn) self.new.book }
    {
        let key = key_by(self.alloc(), &Key::Lms(pair.public()));
        let result = self.enter(key, pair.seed(), pair.params());
        self.rests();
        result
    }

    /// Reserves a leaf of the key for the message: the one that is kept for it already, else the least that is not used, which is
    /// then kept for the message, committed before the call answers. It writes by one statement at most, outside a transaction, as
    /// its last call of the database, and takes no memory after it. Whatever it answers, the book may be used on, unless a call of
    /// the disk answered a fault.
    ///
    /// - `LeavesSpent`: all leaves of the key are used, and the message has none.
    /// - `UnknownKey`: the key is not registered.
    /// - `Database`: a call of the database answered a fault.
    /// - `OutOfMemory`: memory was refused.
    pub fn reserve(&mut self, key: &KeyId, message: &[u8]) -> Result<Leaf, BookFault>
        ensures reserves { Reserves self.old.book (id_text key.now) message.now result self.new.book }
        ensures rows { RestsOn (state S.Store self.new.conn) self.new.book }
        ensures right { IsBook self.new.book }
        ensures clean { StaysClean (state S.Store self.old.conn) (state S.Store self.new.conn) }
        ensures live { WasOpen (state S.Store self.old.conn) (state S.Store self.new.conn) result }
        ensures stays { StaysOpen (state S.Store self.old.conn) (state S.Store self.new.conn) }
        ensures crash { CrashLeaves (state S.Store self.old.conn) (state S.Store self.new.conn) self.old.book (Reserves self.old.book (id_text key.now) message.now) }
        ensures durable { LeavesOnly (state S.Store self.new.conn) self.new.book }
    {
        let result = self.take(key, message);
        self.rests();
        result
    }

    /// The parameters with which a key is registered, and `None` where it is not. It takes no memory.
    pub fn registered(&self, key: &KeyId) -> Option<Params>
        ensures { MatchOption result ((params : Params) → IsRegistered self.now.book (id_text key.now) params → ⊥) (λ params. IsRegistered self.now.book (id_text key.now) params) }
    {
        params_of(self.signers.as_slice(), key)
    }

    /// The leaf that a message gets which has none: the least of the registered key that is not used. `None` where each is used, and where
    /// the key is not registered. It takes no memory.
    pub fn next_leaf(&self, key: &KeyId) -> Option<u32>
        ensures { MatchOption result (HasNoLeaf self.now.book (id_text key.now)) (λ leaf. IsNextLeaf self.now.book (id_text key.now) leaf) }
    {
        next_leaf(self.signers.as_slice(), self.leaves.as_slice(), key)
    }

    /// The leaf history: each leaf that is kept, with its key and its message. It takes no memory.
    pub fn kept(&self) -> &[LeafRow]
        ensures { map kept_view result.now ≡ self.now.book.leaves }
    {
        self.leaves.as_slice()
    }

    /// The connection of a book that is done.
    pub fn into_connection(self) -> Connection<S>
        ensures { result ≡ self.conn }
    {
        self.conn
    }

    /// A law, which does nothing: the rows are those of the book, and a crash leaves just these, in both tables.
    pub fn rests(&self)
        ensures right { IsBook self.now.book }
        ensures rows { RestsOn (state S.Store self.now.conn) self.now.book }
        ensures left { LeavesOnly (state S.Store self.now.conn) self.now.book }
        ensures whole { HasCleanDisk (state S.Store self.now.conn) → IsTrue (state S.Store self.now.conn).is_open → HoldsWhole (state S.Store self.now.conn).committed.trees self.now.book }
    {
        let _ = self.conn.schema();
    }

    // Asks the database for one column, so that nothing is answered from memory where the connection is shut.
    fn touch(&mut self) -> Result<(), BookFault>
        ensures same { self.new.book ≡ self.old.book }
        ensures open { WasOpen (state S.Store self.old.conn) (state S.Store self.new.conn) result }
        ensures survives { Survives (state S.Store self.old.conn) (state S.Store self.new.conn) (λ _. ⊥) }
        ensures fault { IfErr result IsOutside }
    {
        check_open(&mut self.conn)
    }

    // Makes the signer: all memory first, then the row and its commit, then the entry with no memory.
    fn keep_signer(&mut self, key: &KeyId, params: Params) -> Result<(), BookFault>
        requires right { IsBook (with_signer (id_text key.now) params self.old.book) }
        requires open { HasCleanDisk (state S.Store self.old.conn) → IsTrue (state S.Store self.old.conn).is_open }
        ensures done { OnOk result (self.new.book ≡ with_signer (id_text key.now) params self.old.book) }
        ensures kept { OnErr result (self.new.book ≡ self.old.book) }
        ensures live { HasCleanDisk (state S.Store self.new.conn) → IsTrue (state S.Store self.old.conn).is_open → OnOk result (IsTrue (state S.Store self.new.conn).is_open) }
        ensures outlives { Outlives (state S.Store self.old.conn) (state S.Store self.new.conn) }
        ensures crash { CrashLeavesEither (state S.Store self.old.conn) (state S.Store self.new.conn) self.old.book (with_signer (id_text key.now) params self.old.book) }
        ensures clean { StaysClean (state S.Store self.old.conn) (state S.Store self.new.conn) }
        ensures fault { IfErr result IsOutside }
    {
        self.rests();
        let signer = Signer { key: *key, params };
        self.signers.reserve(1)?;
        put_signer(&mut self.conn, key, params)?;
        self.signers.push_reserved(signer);
        Ok(())
    }

    // Keeps a new leaf: all memory first, then the row and its commit, then the entry with no memory.
    fn keep_leaf(&mut self, key: &KeyId, leaf: u32, message: &[u8]) -> Result<(), BookFault>
        requires right { IsBook (with_leaf (id_text key.now) leaf message.now self.old.book) }
        requires open { HasCleanDisk (state S.Store self.old.conn) → IsTrue (state S.Store self.old.conn).is_open }
        ensures done { OnOk result (self.new.book ≡ with_leaf (id_text key.now) leaf message.now self.old.book) }
        ensures kept { OnErr result (self.new.book ≡ self.old.book) }
        ensures live { HasCleanDisk (state S.Store self.new.conn) → IsTrue (state S.Store self.old.conn).is_open → OnOk result (IsTrue (state S.Store self.new.conn).is_open) }
        ensures outlives { Outlives (state S.Store self.old.conn) (state S.Store self.new.conn) }
        ensures crash { CrashLeavesEither (state S.Store self.old.conn) (state S.Store self.new.conn) self.old.book (with_leaf (id_text key.now) leaf message.now self.old.book) }
        ensures clean { StaysClean (state S.Store self.old.conn) (state S.Store self.new.conn) }
        ensures fault { IfErr result IsOutside }
    {
        self.rests();
        let kept = LeafRow {
            key: *key,
            leaf,
            message: copied(self.alloc, message)?,
        };
        self.leaves.reserve(1)?;
        put_leaf(&mut self.conn, key, leaf, message)?;
        self.leaves.push_reserved(kept);
        Ok(())
    }

    // What is to be done for the message.
    fn plan(&self, key: &KeyId, message: &[u8]) -> Plan
        ensures { IsPlan self.now.book (id_text key.now) message.now result }
    {
        plan_for(
            self.signers.as_slice(),
            self.leaves.as_slice(),
            key,
            message,
        )
    }

    fn alloc(&self) -> Global {
        self.alloc
    }

    /// Whether the tree of the seed with these parameters is registered. It is hashed only where some key has these parameters. It takes
    /// no memory.
    pub fn has_tree(&self, seed: &Seed, params: Params) -> bool
        ensures { MatchBool result (HasTree self.now.book seed.now params) (HasTree self.now.book seed.now params → ⊥) }
    {
        self.rests();
        if !has_params(self.signers.as_slice(), params) {
            return false;
        }
        let key = key_by(self.alloc, &Key::Lms(public_of(seed, params)));
        match self.registered(&key) {
            Some(held) => same_params(held, params),
            None => false,
        }
    }

    // Whether a tree of the seed with these parameters is registered, other than this one.
    fn has_other(&self, seed: &Seed, other: Params, params: Params) -> bool
        ensures { MatchBool result ((other ≢ params) × HasTree self.now.book seed.now other) (other ≢ params → HasTree self.now.book seed.now other → ⊥) }
    {
        !same_params(other, params) && self.has_tree(seed, other)
    }

    // The same of a tree of this width and any height.
    fn has_other_wide(&self, seed: &Seed, ots: OtsType, params: Params) -> bool
        ensures { MatchBool result ((height : SigningHeight) × ((record { ots = ots; height = height }) ≢ params) × HasTree self.now.book seed.now (record { ots = ots; height = height }))
            ((height : SigningHeight) → (record { ots = ots; height = height }) ≢ params → HasTree self.now.book seed.now (record { ots = ots; height = height }) → ⊥) }
    {
        let low = Params {
            ots,
            height: SigningHeight::H5,
        };
        let high = Params {
            ots,
            height: SigningHeight::H10,
        };
        if self.has_other(seed, low, params) {
            return true;
        }
        self.has_other(seed, high, params)
    }

    // Whether another tree of the seed is registered.
    fn has_other_tree(&self, seed: &Seed, params: Params) -> bool
        ensures { MatchBool result (HasOtherTree self.now.book seed.now params) (LacksOtherTree self.now.book seed.now params) }
    {
        if self.has_other_wide(seed, OtsType::W1, params) {
            return true;
        }
        if self.has_other_wide(seed, OtsType::W2, params) {
            return true;
        }
        if self.has_other_wide(seed, OtsType::W4, params) {
            return true;
        }
        self.has_other_wide(seed, OtsType::W8, params)
    }

    // Registers the key of a seed, which has this id.
    fn enter(&mut self, key: KeyId, seed: &Seed, params: Params) -> Result<KeyId, BookFault>
        requires { id_text key ≡ key_of seed.now params }
        ensures registers { Registers self.old.book seed.now params (id_answer result) self.new.book }
        ensures clean { StaysClean (state S.Store self.old.conn) (state S.Store self.new.conn) }
        ensures live { WasOpen (state S.Store self.old.conn) (state S.Store self.new.conn) result }
        ensures outlives { Outlives (state S.Store self.old.conn) (state S.Store self.new.conn) }
        ensures crash { CrashLeaves (state S.Store self.old.conn) (state S.Store self.new.conn) self.old.book (Registers self.old.book seed.now params) }
    {
        self.rests();
        match self.touch() {
            Ok(()) => {}
            Err(fault) => return Err(fault),
        }
        if self.has_other_tree(seed, params) {
            return Err(BookFault::OtherTree);
        }
        match self.registered(&key) {
            None => {}
            Some(held) if same_params(held, params) => return Ok(key),
            Some(_) => return Err(BookFault::Damaged),
        }
        match self.keep_signer(&key, params) {
            Ok(()) => Ok(key),
            Err(fault) => Err(fault),
        }
    }

    // Reserves a leaf.
    fn take(&mut self, key: &KeyId, message: &[u8]) -> Result<Leaf, BookFault>
        ensures reserves { Reserves self.old.book (id_text key.now) message.now result self.new.book }
        ensures clean { StaysClean (state S.Store self.old.conn) (state S.Store self.new.conn) }
        ensures live { WasOpen (state S.Store self.old.conn) (state S.Store self.new.conn) result }
        ensures outlives { Outlives (state S.Store self.old.conn) (state S.Store self.new.conn) }
        ensures crash { CrashLeaves (state S.Store self.old.conn) (state S.Store self.new.conn) self.old.book (Reserves self.old.book (id_text key.now) message.now) }
    {
        self.rests();
        match self.touch() {
            Ok(()) => {}
            Err(fault) => return Err(fault),
        }
        // All memory first, that of the answer too.
        let copy = match copied(self.alloc(), message) {
            Ok(copy) => copy,
            Err(_) => return Err(BookFault::OutOfMemory),
        };
        let (leaf, params) = match self.plan(key, message) {
            Plan::Held(leaf, params) => return Ok(Leaf::of(*key, leaf, params, copy)),
            Plan::New(leaf, params) => (leaf, params),
            Plan::Spent => return Err(BookFault::LeavesSpent),
            Plan::Unknown => return Err(BookFault::UnknownKey),
        };
        match self.keep_leaf(key, leaf, message) {
            Ok(()) => Ok(Leaf::of(*key, leaf, params, copy)),
            Err(unkept) => Err(unkept),
        }
    }
}

// The id of a key.
fn key_by(alloc: Global, key: &Key) -> KeyId
    ensures { id_text result ≡ id_of (key_view key.now) }
{
    match key_id(alloc, key) {
        Ok(key) => key,
        Err(_) => KeyId([0; 32]),
    }
}
