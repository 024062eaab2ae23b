// Where the table `root2` stands, or may stand, after the five tables of schema 1.
ghost use Rattle.std.specs.Prelude.{◌≡◌, ◌<◌, ◌≤◌, ◌^◌, ℕ, [], ◌∷◌, codes, true, false, IsTrue, None, Some, slice_get};
ghost use Rattle.std.specs.List.{list_any};
ghost use Rattle.sqlite.specs.Kind.TheVariants as kind;
ghost use Rattle.sqlite_catalog.specs.Change as plain;
ghost use Rattle.sqlite_schema.specs.Names as names;
ghost use Rattle.sqlite_schema.specs.declared.schema.Table.{Table as PlainTable};
ghost use Rattle.sql_tables.specs.Described.{table_of};
ghost use Rattle.sql_tables.specs.Schema.{HasNoRule, no_stamps, required};
ghost use Rattle.table_rows.specs.Schema as spec;
ghost use Rattle.table_rows.specs.Schema.{HasFive, HasSecond, IsFree, root2_table};

use sql_tables::{has_no_rule, is_column};
use sqlite_catalog::layout::next_tree;
use sqlite_schema::names::same_name;
use sqlite_schema::schema::{Column, Kind, Reference, Schema, Stamps, Table};
use sqlite_value::keys::Collation;
use sqlite_value::value::Value;

// Whether these are the columns of `root2`.
fn are_columns(columns: &[Column]) -> bool
    ensures same { IsTrue result → columns.now ≡ (table_of root2_table 0).columns }
    ensures other { columns.now ≡ (table_of root2_table 0).columns → IsTrue result }
{
    match columns {
        [version, profile, bytes] => {
            is_column(version, b"version", Kind::Integer)
                && is_column(profile, b"profile", Kind::Integer)
                && is_column(bytes, b"bytes", Kind::Any)
        }
        _ => false,
    }
}

// Whether the first column is the rowid, and there is no UNIQUE.
fn has_keys(of: &Table) -> bool
    ensures same { IsTrue result → (of.now.key ≡ Some 0) × (of.now.primary ≡ 0 ∷ []) × (of.now.uniques ≡ []) × (of.now.orders ≡ []) }
    ensures other { (of.now.key ≡ Some 0) × (of.now.primary ≡ 0 ∷ []) × (of.now.uniques ≡ []) × (of.now.orders ≡ []) → IsTrue result }
{
    of.key == Some(0)
        && of.primary.as_slice() == [0].as_slice()
        && of.uniques.is_empty()
        && of.orders.is_empty()
}

// Whether the table is `root2`, at whatever tree.
fn is_root2(of: &Table) -> bool
    ensures same { IsTrue result → of.now ≡ table_of root2_table of.now.tree }
    ensures other { of.now ≡ table_of root2_table of.now.tree → IsTrue result }
{
    of.name.as_slice() == b"root2".as_slice()
        && has_keys(of)
        && has_no_rule(of)
        && are_columns(of.columns.as_slice())
}

// Whether none of the foreign keys is onto `root2`.
fn is_apart(references: &[Reference]) -> bool
    ensures { result ≡ spec.is_apart references.now }
{
    references.iter().all(|reference| !same_name(b"root2", reference.parent.as_slice()))
}

// The same of all tables.
fn are_apart(tables: &[Table]) -> bool
    ensures { result ≡ spec.are_apart tables.now }
{
    tables.iter().all(|of| is_apart(of.references.as_slice()))
}

// The first table of this tree, by its place.
fn first_at(tables: &[Table], tree: u64) -> Option<usize>
    ensures { result ≡ spec.first_at tables.now tree }
{
    tables.iter().position(|of| u64::from(of.tree) == tree)
}

// Whether each table of this tree has the name `root2`.
fn are_alone(tables: &[Table], tree: u64) -> bool
    ensures { result ≡ spec.are_alone tables.now tree }
{
    tables.iter().all(|of| u64::from(of.tree) != tree || of.name.as_slice() == b"root2".as_slice())
}

// Whether a table has AUTOINCREMENT.
fn are_counted(tables: &[Table]) -> bool
    ensures { result ≡ list_any (λ (t : PlainTable). t.is_counted) tables.now }
{
    tables.iter().any(|of| of.is_counted)
}

// Whether `sqlite_sequence` is absent, and an AUTOINCREMENT wants it.
fn lacks_counters(schema: &Schema) -> bool
    ensures { result ≡ spec.lacks_counters schema.now }
{
    are_counted(schema.tables.as_slice()) && schema.table_named(b"sqlite_sequence").is_none()
}

// Whether no table, index or view has the name `root2`.
fn is_unused(schema: &Schema) -> bool
    ensures same { IsTrue result → (names.table_named schema.now (codes "root2") ≡ None) × (names.index_named schema.now (codes "root2") ≡ None) × (names.view_named schema.now (codes "root2") ≡ None) }
    ensures other { (names.table_named schema.now (codes "root2") ≡ None) × (names.index_named schema.now (codes "root2") ≡ None) × (names.view_named schema.now (codes "root2") ≡ None) → IsTrue result }
{
    schema.table_named(b"root2").is_none()
        && schema.index_named(b"root2").is_none()
        && schema.view_named(b"root2").is_none()
}

// Whether the tree of the next table is after those of the five, is that of no table, and is none of a statement's own.
fn has_room(schema: &Schema) -> bool
    ensures same { IsTrue result → (spec.first_at schema.now.tables (plain.next_tree schema.now) ≡ None) × (8 ≤ plain.next_tree schema.now) × (plain.next_tree schema.now < 2 ^ 31) }
    ensures other { (spec.first_at schema.now.tables (plain.next_tree schema.now) ≡ None) × (8 ≤ plain.next_tree schema.now) × (plain.next_tree schema.now < 2 ^ 31) → IsTrue result }
{
    let next = next_tree(schema);
    first_at(schema.tables.as_slice(), next).is_none() && 8 <= next && next < 0x8000_0000
}

// Whether `root2` can be made, where the five are there.
pub(crate) fn is_free(schema: &Schema) -> bool
    ensures same { IsTrue result → HasFive schema.now → IsFree schema.now }
    ensures other { IsFree schema.now → IsTrue result }
{
    is_unused(schema)
        && are_apart(schema.tables.as_slice())
        && !lacks_counters(schema)
        && has_room(schema)
}

// Whether `root2` is the table at this place, which is the first of its name.
pub(crate) fn has_second(schema: &Schema, place: usize) -> bool
    requires { names.table_named schema.now (codes "root2") ≡ Some place }
    ensures same { IsTrue result → (tree : ℕ) × HasSecond schema.now place tree }
    ensures other { (tree : ℕ) → HasSecond schema.now place tree → IsTrue result }
{
    let tables = schema.tables.as_slice();
    match tables.get(place) {
        None => false,
        Some(of) => {
            let tree = u64::from(of.tree);
            is_root2(of)
                && first_at(tables, tree) == Some(place)
                && are_alone(tables, tree)
                && are_apart(tables)
                && 8 <= tree
                && tree < 0x8000_0000
        }
    }
}
