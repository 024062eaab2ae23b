//! The connection to the tables of a repository, and the bytes of target files in them.
ghost use Rattle.std.specs.Prelude.{◌≡◌, ◌≢◌, ◌≤◌, false, length, Err, IsTrue, OnErr, OnOk};
ghost use Rattle.limits.specs.Limits.{most_held};
ghost use Rattle.sqlite.specs.Held.{state};
ghost use Rattle.sqlite.specs.State.{HasCleanDisk, Survives};
ghost use Rattle.sqlite_trees.specs.Tree.{Trees};
ghost use Rattle.trust_rules.specs.State as trust;
ghost use Rattle.trust_rules.specs.State.{IsState};
ghost use Rattle.trust_rules.specs.Effects.{applied};
ghost use Rattle.machine.specs.PartViews.{effects_view};
ghost use Rattle.repository_rows.specs.Contents.{Contents};
ghost use Rattle.table_rows.specs.Tables.{HoldsWhole, IsStore};
ghost use Rattle.store.specs.StateRows.{rows_of};

use crate::changes::write;
use crate::laws::leaves_rows;
use machine::{Blobs, Effects, LoadFault};
use path_patterns::Digest;
use repository_tables::{StoreFault, check_open, load_blob};
use sqlite::{Alter, Connection};
use std::alloc::Global;
use std::marker::Model;

/// A connection between two transactions. While it is open, and unless a wrong answer of the disk was taken as true, it is one to the
/// six tables.
#[derive(Drop)]
pub(crate) struct StoredRows<S: Alter> {
    conn: Connection<S>,
}

impl<S: Alter> Model for StoredRows<S> {
    ghost use Rattle.std.specs.Prelude.{◌≡◌, false, IsTrue};
    ghost use Rattle.sqlite.specs.Held.{Held, held_code, state};
    ghost use Rattle.sqlite.specs.State.{HasCleanDisk};
    ghost use Rattle.repository_rows.specs.Contents.{Contents};
    ghost use Rattle.table_rows.specs.Tables.{IsStore};

    ghost Value = { Held S };

    ghost coded = { held_code S.code };

    ghost view = { λ s. s.conn };

    ghost invariant = { λ s. (s.conn.in_transaction ≡ false) × (HasCleanDisk (state S.Store s.conn) → IsTrue (state S.Store s.conn).is_open → (rows : Contents) × IsStore (state S.Store s.conn) rows) };
}

impl<S: Alter> StoredRows<S> {
    pub fn new(conn: Connection<S>) -> StoredRows<S>
        requires autocommit { conn.in_transaction ≡ false }
        requires rows { HasCleanDisk (state S.Store conn) → IsTrue (state S.Store conn).is_open → (rows : Contents) × IsStore (state S.Store conn) rows }
        ensures { result ≡ conn }
    {
        StoredRows { conn }
    }

    pub fn into_connection(self) -> Connection<S>
        ensures { result ≡ self }
    {
        self.conn
    }

    /// Asks the database for one row, so that nothing is answered from memory where the connection is shut.
    pub fn touch(&mut self) -> Result<(), StoreFault>
        ensures open { HasCleanDisk (state S.Store self.new) → OnOk result (IsTrue (state S.Store self.old).is_open × IsTrue (state S.Store self.new).is_open) }
        ensures was_open { HasCleanDisk (state S.Store self.new) → IsTrue (state S.Store self.new).is_open → IsTrue (state S.Store self.old).is_open }
        ensures kept { HasCleanDisk (state S.Store self.new) → IsTrue (state S.Store self.new).is_open → (t : Contents) → IsStore (state S.Store self.old) t → IsStore (state S.Store self.new) t }
        ensures survives { Survives (state S.Store self.old) (state S.Store self.new) (λ _. ⊥) }
        ensures sound { result ≢ Err StoreFault.Damaged }
    {
        check_open(&mut self.conn)
    }

    /// Writes what becomes of a state's rows by these changes, in one transaction.
    pub fn write(&mut self, alloc: Global, effects: &Effects) -> Result<(), StoreFault>
        requires { length effects.now.changes.roots.items ≤ most_held }
        ensures wrote { HasCleanDisk (state S.Store self.new) → (U : trust.State) → IsState U → IsState (applied U (effects_view effects.now))
            → IsStore (state S.Store self.old) (rows_of U) → OnOk result (IsStore (state S.Store self.new) (rows_of (applied U (effects_view effects.now)))) }
        ensures kept { HasCleanDisk (state S.Store self.new) → IsTrue (state S.Store self.new).is_open → (t : Contents) → IsStore (state S.Store self.old) t → OnErr result (IsStore (state S.Store self.new) t) }
        ensures was_open { HasCleanDisk (state S.Store self.new) → IsTrue (state S.Store self.new).is_open → IsTrue (state S.Store self.old).is_open }
        ensures crash { Survives (state S.Store self.old) (state S.Store self.new)
            (λ trees. (U : trust.State) → IsState U → IsState (applied U (effects_view effects.now))
            → IsStore (state S.Store self.old) (rows_of U) → HoldsWhole trees (rows_of (applied U (effects_view effects.now)))) }
        ensures fault { result ≢ Err StoreFault.Damaged }
    {
        write(alloc, &mut self.conn, effects)
    }

    /// A law, which does nothing: a crash leaves just the rows that the tables hold, and all six tables.
    pub fn rests(&self)
        ensures { (t : Contents) → IsTrue (state S.Store self.now).is_open → IsStore (state S.Store self.now) t → (trees : Trees) → (state S.Store self.now).may_leave trees → HoldsWhole trees t }
    {
        leaves_rows(&self.conn);
    }
}

/// The bytes of target files, in their table.
impl<S: Alter> Blobs for StoredRows<S> {
    ghost use Rattle.std.specs.Prelude.{◌≡◌, IsTrue};
    ghost use Rattle.sqlite.specs.Held.{state};
    ghost use Rattle.sqlite.specs.State.{HasCleanDisk};
    ghost use Rattle.store.specs.steps.Loading.{HasFile, ReadsOnly, reads_on};

    ghost Holds = { λ s digest bytes. HasFile (state S.Store s) digest bytes };

    ghost IsHonest = { λ s. HasCleanDisk (state S.Store s) × IsTrue (state S.Store s).is_open };

    ghost MayBecome = { λ old new. ReadsOnly (state S.Store old) (state S.Store new) };

    ghost HasLoaded = { λ s. HasCleanDisk (state S.Store s) → IsTrue (state S.Store s).is_open };

    ghost becomes_on = { λ a b c p q. reads_on _ _ _ p q };

    fn load(&mut self, digest: &Digest, out: &mut Vec<u8>) -> Result<(), LoadFault> {
        match load_blob(&mut self.conn, &digest.0, out) {
            Ok(true) => Ok(()),
            Ok(false) => Err(LoadFault::Missing),
            Err(StoreFault::OutOfMemory) => Err(LoadFault::OutOfMemory),
            Err(_) => Err(LoadFault::Database),
        }
    }
}
