// Which of the six tables a schema has.
ghost use Rattle.std.specs.Prelude.{◌≡◌, IsTrue, MatchOption};
ghost use Rattle.sql_tables.specs.Described as listed;
ghost use Rattle.table_rows.specs.Schema.{five, HasFirst, HasFive, IsBeginning, IsFree};

use crate::described::six_tables;
use crate::second::{has_second, is_free};
use sqlite_schema::schema::Schema;

// How many of the five tables of schema 1 there are, where they are the first in their order, and nothing else, or all.
fn first_of(schema: &Schema) -> Option<usize>
    ensures { MatchOption result (listed.IsBeginning five schema.now → ⊥) (λ count. listed.HasFirst five count schema.now) }
{
    let six = six_tables();
    sql_tables::beginning_of(&six[..5], schema)
}

/// How many of the six tables there are: the first in their order, and nothing else; or the five, and `root2` can be made; or all.
pub fn beginning_of(schema: &Schema) -> Option<usize>
    ensures { MatchOption result (IsBeginning schema.now → ⊥) (λ count. HasFirst count schema.now) }
{
    let count = first_of(schema)?;
    if count < 5 {
        return Some(count);
    }
    let Some(place) = schema.table_named(b"root2") else {
        return if is_free(schema) { Some(5) } else { None };
    };
    if has_second(schema, place) {
        Some(6)
    } else {
        None
    }
}

/// Whether the tables are the five of schema 1, which an opening brings to schema 2 where they have rows: `root2` can be made after them
/// and after what else is there.
#[tactic(auto, using(crate::proofs::Firsts::free_five, crate::proofs::Firsts::free_begins))]
pub fn has_first_schema(schema: &Schema) -> bool
    ensures same { IsTrue result → IsFree schema.now }
    ensures other { IsFree schema.now → IsTrue result }
{
    match beginning_of(schema) {
        Some(count) => count == 5,
        None => false,
    }
}

/// Whether the five tables of schema 1 are there, and so stand the others beside them that no opening brings them to schema 2.
#[tactic(auto, using(crate::proofs::Firsts::others_five, crate::proofs::Firsts::five_begin))]
pub fn has_others_behind(schema: &Schema) -> bool
    ensures same { IsTrue result → HasFive schema.now × (IsBeginning schema.now → ⊥) }
    ensures other { HasFive schema.now → (IsBeginning schema.now → ⊥) → IsTrue result }
{
    if beginning_of(schema).is_some() {
        return false;
    }
    match first_of(schema) {
        Some(count) => count == 5,
        None => false,
    }
}
