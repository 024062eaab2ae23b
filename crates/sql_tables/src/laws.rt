//! Laws of the definitions, which do nothing.
ghost use Rattle.std.specs.Prelude.{◌≡◌, List};
ghost use Rattle.sqlite.specs.Effect.{Database, IsDatabase};
ghost use Rattle.sql_tables.specs.Described.{Description, HasAll, IsBeginning};

/// A law, which does nothing: the trees of a database tell its tables. So where all tables of a list are there, no other reading of the
/// same trees finds fewer of them.
pub fn trees_tell_tables()
    ensures tables { (d e : Database) → IsDatabase d → IsDatabase e → d.trees ≡ e.trees → d.schema.tables ≡ e.schema.tables }
    ensures all { (ds : List Description) (d e : Database) → IsDatabase d → IsDatabase e → d.trees ≡ e.trees
        → HasAll ds d.schema → IsBeginning ds e.schema → HasAll ds e.schema }
{}
