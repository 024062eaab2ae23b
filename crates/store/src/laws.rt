//! What is known of the state that a store stands for, and of what a crash leaves.
ghost use Rattle.std.specs.Prelude.{◌≡◌, ◌↔◌, ◌≤◌, false, codes, nat_eq, option_map, ℕ, IsTrue, Option};
ghost use Rattle.path_patterns.specs.Names.{dotted};
ghost use Rattle.repository_rows.specs.Contents.{Contents};
ghost use Rattle.sqlite.specs.Held.{state};
ghost use Rattle.sqlite.specs.State.{HasCleanDisk, IsLive};
ghost use Rattle.sqlite_trees.specs.Tree.{Trees};
ghost use Rattle.delegations.specs.Rows.{value_at};
ghost use Rattle.denials.specs.Orders.{Judged};
ghost use Rattle.trust_rules.specs.Before.{grants_before, metadata_before};
ghost use Rattle.trust_rules.specs.Grants.{grants};
ghost use Rattle.trust_rules.specs.State as trust;
ghost use Rattle.trust_rules.specs.State.{IsState, metadata_of};
ghost use Rattle.metadata.specs.File.{Bytes};
ghost use Rattle.document_parts.specs.Parts.{last_number};
ghost use Rattle.repository_tables.specs.Opening.{IsSettled};
ghost use Rattle.table_rows.specs.Tables.{HoldsFirst, HoldsWhole, IsStore};
ghost use Rattle.store.specs.Standing.{StandsAt, seen};
ghost use Rattle.store.specs.StateRows.{HoldsNoState, TreesStand, rows_of};

use crate::store::Store;
use machine::{first_profile_as_before, names_find};
use metadata::{one_document, one_shape};
use repository_tables::one_contents;
use sqlite::{Alter, Connection};

/// A law, which does nothing: a store stands at a state, which is a valid one; and while the connection is open, and unless a wrong
/// answer of the disk was taken as true, at one only.
pub fn stands<S: Alter>(store: &Store<S>)
    ensures somewhere { (U : trust.State) × StandsAt (seen store.now.kept (state S.Store store.now.conn)) U }
    ensures valid { (U : trust.State) → StandsAt (seen store.now.kept (state S.Store store.now.conn)) U → IsState U }
    ensures once { HasCleanDisk (state S.Store store.now.conn) → IsTrue (state S.Store store.now.conn).is_open
        → (U V : trust.State) → StandsAt (seen store.now.kept (state S.Store store.now.conn)) U
        → StandsAt (seen store.now.kept (state S.Store store.now.conn)) V → U ≡ V }
{
    one_document();
    one_shape();
    one_contents();
    store.rests();
}

/// A law, which does nothing: trees stand for the rows of one state or of none, whichever database they are read as. Those that hold the
/// rows of a state in all six tables, as a crash leaves them, stand for that state.
pub fn trees_tell_state()
    ensures whole { (trees : Trees) (t : Contents) → HoldsWhole trees t → TreesStand trees t }
    ensures once { (trees : Trees) (U V : trust.State) → IsState U → IsState V → TreesStand trees (rows_of U) → TreesStand trees (rows_of V) → V ≡ U }
    ensures sound { (trees : Trees) (U : trust.State) → IsState U → TreesStand trees (rows_of U) → HoldsNoState trees → ⊥ }
{
    one_document();
    one_shape();
}

/// A law, which does nothing: the state for which tables of schema 1 stand has roots of the first profile alone. So after its migration, which
/// leaves that state, each request for a target has the end that it had before roots had profiles, and each name finds the metadata that it
/// found then, or none: a row's bytes are found under its version and role, and a root under the name under which its row was found in `root`.
pub fn migration_keeps_answers()
    ensures targets { (trees : Trees) (S : trust.State) → IsState S → HoldsFirst trees (rows_of S)
        → (path : Bytes) (asked : Option Bytes) (now : ℕ) (r : Judged Bytes) → grants S path asked now r ↔ grants_before S path asked now r }
    ensures roots { (trees : Trees) (S : trust.State) → IsState S → HoldsFirst trees (rows_of S) → (n : ℕ) → n ≤ last_number
        → metadata_of S.trusted (dotted n (codes "root")) ≡ option_map (λ r. r.1) (value_at nat_eq (rows_of S).roots n) }
    ensures metadata { (trees : Trees) (S : trust.State) → IsState S → HoldsFirst trees (rows_of S) → (name : Bytes) → metadata_of S.trusted name ≡ metadata_before (rows_of S) name }
{
    first_profile_as_before();
    names_find();
}

// A law, which does nothing: while a connection is open a crash leaves just what was committed, and between two transactions that is
// what it sees.
pub(crate) fn leaves_committed<S: Alter>(conn: &Connection<S>)
    ensures left { IsTrue (state S.Store conn.now).is_open → (trees : Trees) → (state S.Store conn.now).may_leave trees → trees ≡ (state S.Store conn.now).committed.trees }
    ensures settled { conn.now.in_transaction ≡ false → IsSettled (state S.Store conn.now) }
    ensures live { IsLive (state S.Store conn.now) }
{
    let _ = conn.is_autocommit();
    let _ = conn.schema();
}

// A law, which does nothing: a crash leaves just the rows that the tables hold, and all six tables.
pub(crate) fn leaves_rows<S: Alter>(conn: &Connection<S>)
    ensures { (t : Contents) → IsTrue (state S.Store conn.now).is_open → IsStore (state S.Store conn.now) t → (trees : Trees) → (state S.Store conn.now).may_leave trees → HoldsWhole trees t }
{
    leaves_committed(conn);
}
