//! Opening a store: the rows that stand in the tables become a state.
ghost use Rattle.std.specs.Prelude.{◌≡◌, ◌≢◌, true, false, Err, MatchOption, MatchResult, IfErr, IfOk, OnOk, IsSomeAnd, IsTrue};
ghost use Rattle.sqlite.specs.Held.{state};
ghost use Rattle.sqlite.specs.State.{HasCleanDisk, IsLive, Survives};
ghost use Rattle.sqlite_trees.specs.Tree.{Trees};
ghost use Rattle.repository_tables.specs.Opening.{IsSettled};
ghost use Rattle.table_rows.specs.Schema.{IsBeginning};
ghost use Rattle.repository_tables.specs.Migration.{IsEarlier};
ghost use Rattle.table_rows.specs.Tables.{HoldsWhole, IsStore, Stands};
ghost use Rattle.store.specs.Standing.{IsStateOf, Opens, StandsAt, seen};
ghost use Rattle.store.specs.StateRows.{Begins, LeavesStanding, OpensTo, RestsAt, rows_of};
ghost use Rattle.trust_rules.specs.State as trust;
ghost use Rattle.trust_rules.specs.State.{IsState};

use crate::laws::{leaves_committed, trees_tell_state};
use crate::store::Store;
use crate::stored_rows::StoredRows;
use machine::{Held, nothing_is_valid};
use metadata::{one_document, one_shape};
use repository_tables::{StoreFault, migrate, prepare, renew};
use sqlite::{Alter, Connection};
use std::alloc::Global;

/// Why no store was opened, and the connection, where there still is one.
#[derive(Drop)]
pub struct Unopened<S: Alter> {
    pub fault: StoreFault,
    pub conn: Option<Connection<S>>,
}

impl<S: Alter + Drop> Store<S> {
    /// Opens a store over a connection: the state is read from its tables, where one that is absent counts as empty. Where all
    /// are empty, those that are absent are made, in one transaction. Tables of schema 1 are brought to schema 2 in one transaction,
    /// once their rows are known to be those of a state. What was not committed over the connection is undone; where
    /// there was such a thing, its clock and step limit are lost.
    ///
    /// - `Damaged`: the tables are those of a store, or the first of them, and their rows are those of no state.
    /// - `Database`: a call of the database answered a fault, or its tables are other than the first of the six of a store and
    ///   nothing else, or all six, in the order in which they are made, or the rowids that it answered are not integers that
    ///   come once, which by its own laws they are. After all six may stand further tables, indexes and views, if no foreign
    ///   key is onto one of the six.
    /// - `OutOfMemory`: memory was refused.
    ///
    /// The connection is given back on each fault, so that it can be said of every kind of disk what stands in the rows then. Whether it
    /// opens or not, a crash leaves what it left before, or all six tables with the rows of the state for which the tables stood, and only a
    /// fault of a disk's call shuts the connection: what stood for a state stands for it. There is no call that opens a store and lets go of
    /// the connection of one that does not open, since nothing could be said of the rows then.
    ///
    /// Where a transaction was under way, `stays` says the same of each connection that is given back. Then none may be: the store of one
    /// that cannot be made anew is closed, and no clause can speak of it. Nor does `crash` speak of this case, since the kit does not say
    /// what a connection that is made anew may leave while it is made.
    pub fn open_over(alloc: Global, conn: Connection<S>) -> Result<Store<S>, Unopened<S>>
        ensures opened { IfOk result (λ s. Opens (state S.Store conn) (seen s.kept (state S.Store s.conn))) }
        ensures fault { IfErr result (λ u. MatchOption u.conn (u.fault ≢ StoreFault.Damaged) (λ c. HasCleanDisk (state S.Store c) → OpensTo (state S.Store conn).committed.trees (Err u.fault))) }
        ensures crash { conn.in_transaction ≡ false → MatchResult result (λ s. Survives (state S.Store conn) (state S.Store s.conn) (λ trees. Begins (state S.Store conn) trees))
            (λ u. IsSomeAnd u.conn (λ c. Survives (state S.Store conn) (state S.Store c) (λ trees. Begins (state S.Store conn) trees))) }
        ensures stays { (U : trust.State) → RestsAt (state S.Store conn) U → MatchResult result (λ s. LeavesStanding (state S.Store s.conn) U)
            (λ u. MatchOption u.conn (conn.in_transaction ≡ true) (λ c. LeavesStanding (state S.Store c) U)) }
        ensures durable { IfOk result (λ s. HasCleanDisk (state S.Store s.conn) → (U : trust.State) → StandsAt (seen s.kept (state S.Store s.conn)) U
            → (trees : Trees) → (state S.Store s.conn).may_leave trees → HoldsWhole trees (rows_of U)) }
    {
        trees_tell_state();
        let mut conn = match renew(alloc, conn) {
            Ok(conn) => conn,
            Err(fault) => {
                return Err(Unopened { fault, conn: None });
            }
        };
        match read_state(alloc, &mut conn) {
            Ok(held) => {
                let store = Store::over(alloc, StoredRows::new(conn), held);
                store.rests();
                Ok(store)
            }
            Err(fault) => Err(Unopened {
                fault,
                conn: Some(conn),
            }),
        }
    }
}

// What is held of the state that stands in the tables. Where they have no row, those that are absent are made, and where they are those of
// schema 1, they become those of schema 2.
fn read_state<S: Alter>(alloc: Global, conn: &mut Connection<S>) -> Result<Held, StoreFault>
    requires { conn.old.in_transaction ≡ false }
    ensures autocommit { conn.new.in_transaction ≡ false }
    ensures schema { IfOk result (λ _. IsBeginning conn.old.schema) }
    ensures live { IsLive (state S.Store conn.old) }
    ensures was_open { HasCleanDisk (state S.Store conn.new) → OnOk result (IsTrue (state S.Store conn.old).is_open) }
    ensures loaded { IfOk result (λ h. (U : trust.State) × IsStateOf h.held U × (HasCleanDisk (state S.Store conn.new) → IsSettled (state S.Store conn.old)
        → Stands (state S.Store conn.old).now (rows_of U) × IsStore (state S.Store conn.new) (rows_of U))) }
    ensures damaged { HasCleanDisk (state S.Store conn.new) → IsSettled (state S.Store conn.old)
        → result ≡ Err StoreFault.Damaged → IsTrue (state S.Store conn.old).is_open × IsBeginning conn.old.schema × ((U : trust.State) → IsState U → Stands (state S.Store conn.old).now (rows_of U) → ⊥) }
    ensures crash { Survives (state S.Store conn.old) (state S.Store conn.new) (λ trees. Begins (state S.Store conn.old) trees) }
{
    one_document();
    one_shape();
    nothing_is_valid();
    leaves_committed(conn);
    let read = prepare(alloc, conn)?;
    match Held::load(alloc, read.0, read.1) {
        Ok(Some(held)) => match renew_schema(alloc, conn, &held, read.2) {
            Ok(()) => Ok(held),
            Err(fault) => Err(fault),
        },
        Ok(None) => Err(StoreFault::Damaged),
        Err(_) => Err(StoreFault::OutOfMemory),
    }
}

// Brings the tables to schema 2 where they are earlier ones.
fn renew_schema<S: Alter>(
    alloc: Global,
    conn: &mut Connection<S>,
    held: &Held,
    is_earlier: bool,
) -> Result<(), StoreFault>
    requires { conn.old.in_transaction ≡ false }
    ensures autocommit { conn.new.in_transaction ≡ false }
    ensures whole { is_earlier ≡ false → conn.new ≡ conn.old }
    ensures wrote { HasCleanDisk (state S.Store conn.new) → is_earlier ≡ true → (U : trust.State) → IsStateOf held.now.held U → IsEarlier (state S.Store conn.old) (rows_of U)
        → OnOk result (IsStore (state S.Store conn.new) (rows_of U)) }
    ensures was_open { HasCleanDisk (state S.Store conn.new) → IsTrue (state S.Store conn.new).is_open → IsTrue (state S.Store conn.old).is_open }
    ensures crash { Survives (state S.Store conn.old) (state S.Store conn.new) (λ trees. (is_earlier ≡ true)
        × ((U : trust.State) → IsStateOf held.now.held U → IsEarlier (state S.Store conn.old) (rows_of U) → HoldsWhole trees (rows_of U))) }
    ensures fault { result ≢ Err StoreFault.Damaged }
{
    if !is_earlier {
        return Ok(());
    }
    let roots = held.roots(alloc)?;
    migrate(conn, &roots)
}
