// Whether the tables of a schema are the first of a list.
ghost use Rattle.std.specs.Prelude.{◌≡◌, ◌<◌, ◌+◌, ◌++◌, ◌^◌, [], false, IsTrue, List, MatchOption, length, map};
ghost use Rattle.std.specs.List.{AllByRecursion};
ghost use Rattle.sqlite_schema.specs.Names.{same_name};
ghost use Rattle.sqlite_schema.specs.declared.schema.Index.{Index as PlainIndex};
ghost use Rattle.sqlite_schema.specs.declared.schema.Reference.{Reference as PlainReference};
ghost use Rattle.sqlite_schema.specs.declared.schema.Schema.{Schema as PlainSchema};
ghost use Rattle.sqlite_schema.specs.declared.schema.Table.{Table as PlainTable};
ghost use Rattle.sqlite_value.specs.Keys.{plain};
ghost use Rattle.sql_tables.specs.Schema.{required, table, no_stamps, HasNoRule, unique_index};
ghost use Rattle.sql_tables.specs.Described.{columns_of, described_view, Description, followed, HasAll, HasFirst, indexes_at, indexes_from, IsBeginning, IsFurther, past_all, past_table, places_of, primary_of, rowid_of, schema_of, table_of, tables_from};

use crate::described::{Described, Key};
use sqlite_items::Items;
use sqlite_schema::names::same_name;
use sqlite_schema::schema::{Column, Index, Kind, Reference, Schema, Stamps, Table, View};
use sqlite_value::keys::{Collation, Order};
use sqlite_value::value::Value;

/// Whether the column is NOT NULL and has this name and this type, and nothing else is said of it.
pub fn is_column(column: &Column, name: &[u8], kind: Kind) -> bool
    ensures same { IsTrue result → column.now ≡ required name.now kind }
    ensures other { column.now ≡ required name.now kind → IsTrue result }
{
    column.name.as_slice() == name
        && column.kind == kind
        && !column.is_strict
        && column.not_null
        && matches!(column.default, Value::Null)
        && column.collation == Collation::Binary
}

// Whether no default reads the time.
fn has_no_stamp(stamps: &Stamps) -> bool
    ensures same { IsTrue result → stamps.now ≡ no_stamps }
    ensures other { stamps.now ≡ no_stamps → IsTrue result }
{
    stamps.places.is_empty() && stamps.terms.roots.is_empty() && stamps.formats.is_empty()
}

/// Whether there is no CHECK, no reference, no default that is computed, and no AUTOINCREMENT.
pub fn has_no_rule(of: &Table) -> bool
    ensures same { IsTrue result → HasNoRule of.now }
    ensures other { HasNoRule of.now → IsTrue result }
{
    of.checks.roots.is_empty()
        && of.references.is_empty()
        && of.computed.is_empty()
        && has_no_stamp(&of.stamps)
        && !of.is_counted
}

// Whether the column that is the rowid is the one of this kind of key.
fn is_rowid(column: Option<usize>, key: Key) -> bool
    ensures same { IsTrue result → column ≡ rowid_of key }
    ensures other { column ≡ rowid_of key → IsTrue result }
{
    match key {
        Key::Rowid => column == Some(0),
        Key::FirstUnique | Key::Absent => column.is_none(),
    }
}

fn are_places(places: &[usize], others: &[usize]) -> bool
    ensures same { IsTrue result → places.now ≡ others.now }
    ensures other { places.now ≡ others.now → IsTrue result }
{
    places == others
}

// Whether these are the columns of the primary key.
fn is_primary(places: &[usize], key: Key, uniques: &[(&[usize], &[u8])]) -> bool
    ensures same { IsTrue result → places.now ≡ primary_of key (map (λ u. (u.0.now, u.1.now)) uniques.now) }
    ensures other { places.now ≡ primary_of key (map (λ u. (u.0.now, u.1.now)) uniques.now) → IsTrue result }
{
    match key {
        Key::Rowid => are_places(places, &[0]),
        Key::FirstUnique => match uniques {
            [] => places.is_empty(),
            [(first, _), ..] => are_places(places, first),
        },
        Key::Absent => places.is_empty(),
    }
}

// Whether the UNIQUE constraints are over these columns.
fn are_uniques(lists: &[Items<usize>], uniques: &[(&[usize], &[u8])]) -> bool
    ensures same { IsTrue result → lists.now ≡ places_of (map (λ u. (u.0.now, u.1.now)) uniques.now) }
    ensures other { lists.now ≡ places_of (map (λ u. (u.0.now, u.1.now)) uniques.now) → IsTrue result }
{
    match (lists, uniques) {
        ([], []) => true,
        ([list, lists @ ..], [(places, _), uniques @ ..]) => {
            are_places(list.as_slice(), places) && are_uniques(lists, uniques)
        }
        _ => false,
    }
}

// Whether there is the one plain order for each of them.
fn are_plain(orders: &[Order], uniques: &[(&[usize], &[u8])]) -> bool
    ensures same { IsTrue result → orders.now ≡ map (λ _. plain) (places_of (map (λ u. (u.0.now, u.1.now)) uniques.now)) }
    ensures other { orders.now ≡ map (λ _. plain) (places_of (map (λ u. (u.0.now, u.1.now)) uniques.now)) → IsTrue result }
{
    match (orders, uniques) {
        ([], []) => true,
        ([order, orders @ ..], [_, uniques @ ..]) => {
            order.digits == 0 && are_plain(orders, uniques)
        }
        _ => false,
    }
}

// Whether the index is the one of a UNIQUE over these places.
fn is_index(index: &Index, name: &[u8], tree: u32, on: u32, columns: &[usize]) -> bool
    ensures same { IsTrue result → index.now ≡ unique_index name.now tree on columns.now }
    ensures other { index.now ≡ unique_index name.now tree on columns.now → IsTrue result }
{
    index.name.as_slice() == name
        && index.tree == tree
        && index.table == on
        && index.columns.as_slice() == columns
        && index.order.digits == 0
        && index.is_unique
}

// Whether these are the columns, each NOT NULL.
fn are_columns(columns: &[Column], named: &[(&[u8], Kind)]) -> bool
    ensures same { IsTrue result → columns.now ≡ columns_of (map (λ c. (c.0.now, c.1)) named.now) }
    ensures other { columns.now ≡ columns_of (map (λ c. (c.0.now, c.1)) named.now) → IsTrue result }
{
    match (columns, named) {
        ([], []) => true,
        ([column, columns @ ..], [(name, kind), named @ ..]) => {
            is_column(column, name, *kind) && are_columns(columns, named)
        }
        _ => false,
    }
}

// Whether the keys of the table are those described.
fn has_keys(of: &Table, described: &Described<'_>) -> bool
    ensures same { IsTrue result → (of.now.key ≡ rowid_of described.now.key) × (of.now.primary ≡ primary_of described.now.key (described_view described.now).uniques)
        × (of.now.uniques ≡ places_of (described_view described.now).uniques) × (of.now.orders ≡ map (λ _. plain) (places_of (described_view described.now).uniques)) }
    ensures other { (of.now.key ≡ rowid_of described.now.key) × (of.now.primary ≡ primary_of described.now.key (described_view described.now).uniques)
        × (of.now.uniques ≡ places_of (described_view described.now).uniques) × (of.now.orders ≡ map (λ _. plain) (places_of (described_view described.now).uniques)) → IsTrue result }
{
    is_rowid(of.key, described.key)
        && is_primary(of.primary.as_slice(), described.key, described.uniques)
        && are_uniques(of.uniques.as_slice(), described.uniques)
        && are_plain(of.orders.as_slice(), described.uniques)
}

// Whether the table is the one described, at this tree.
fn is_described(of: &Table, described: &Described<'_>, tree: u32) -> bool
    ensures same { IsTrue result → of.now ≡ table_of (described_view described.now) tree }
    ensures other { of.now ≡ table_of (described_view described.now) tree → IsTrue result }
{
    of.name.as_slice() == described.name
        && of.tree == tree
        && has_keys(of, described)
        && has_no_rule(of)
        && are_columns(of.columns.as_slice(), described.columns)
}

// The tree after those of the table and of its indexes.
fn past(described: &Described<'_>, tree: u32) -> u32
    requires { past_table (described_view described.now) tree < 2 ^ 32 }
    ensures { result ≡ past_table (described_view described.now) tree }
{
    tree + 1 + described.uniques.len() as u32
}

// What follows the tables described, from this tree on, if these come first.
fn after_tables<'a>(
    tables: &'a [Table],
    described: &[Described<'_>],
    tree: u32,
) -> Option<&'a [Table]>
    requires { past_all tree (map described_view described.now) < 2 ^ 32 }
    ensures { MatchOption result ((rest : List PlainTable) → tables.now ≡ tables_from tree (map described_view described.now) ++ rest → ⊥)
        (λ rest. tables.now ≡ tables_from tree (map described_view described.now) ++ rest.now) }
{
    let [first, described @ ..] = described else {
        return Some(tables);
    };
    let [of, tables @ ..] = tables else {
        return None;
    };
    if !is_described(of, first, tree) {
        return None;
    }
    after_tables(tables, described, past(first, tree))
}

// What follows the indexes of the UNIQUE constraints of the table at the tree `on`, if these come first. Theirs are the trees from
// this one on.
fn after_indexes<'a>(
    indexes: &'a [Index],
    on: u32,
    uniques: &[(&[usize], &[u8])],
    tree: u32,
) -> Option<&'a [Index]>
    requires { tree + length uniques.now < 2 ^ 32 }
    ensures { MatchOption result ((rest : List PlainIndex) → indexes.now ≡ indexes_at on (map (λ u. (u.0.now, u.1.now)) uniques.now) tree ++ rest → ⊥)
        (λ rest. indexes.now ≡ indexes_at on (map (λ u. (u.0.now, u.1.now)) uniques.now) tree ++ rest.now) }
{
    let [(places, name), uniques @ ..] = uniques else {
        return Some(indexes);
    };
    let [index, indexes @ ..] = indexes else {
        return None;
    };
    if !is_index(index, name, tree, on, places) {
        return None;
    }
    after_indexes(indexes, on, uniques, tree + 1)
}

// What follows the indexes of the tables described, from this tree on, if these come first.
fn after_all_indexes<'a>(
    indexes: &'a [Index],
    described: &[Described<'_>],
    tree: u32,
) -> Option<&'a [Index]>
    requires { past_all tree (map described_view described.now) < 2 ^ 32 }
    ensures { MatchOption result ((rest : List PlainIndex) → indexes.now ≡ indexes_from tree (map described_view described.now) ++ rest → ⊥)
        (λ rest. indexes.now ≡ indexes_from tree (map described_view described.now) ++ rest.now) }
{
    let [first, described @ ..] = described else {
        return Some(indexes);
    };
    match after_indexes(indexes, tree, first.uniques, tree + 1) {
        None => None,
        Some(rest) => after_all_indexes(rest, described, past(first, tree)),
    }
}

// The tree after those of all tables described.
fn past_last(described: &[Described<'_>], tree: u32) -> u32
    requires { past_all tree (map described_view described.now) < 2 ^ 32 }
    ensures { result ≡ past_all tree (map described_view described.now) }
{
    match described {
        [] => tree,
        [first, described @ ..] => past_last(described, past(first, tree)),
    }
}

// Whether none of the tables described has this name.
fn lack_name(described: &[Described<'_>], name: &[u8]) -> bool
    ensures same { IsTrue result → AllByRecursion (λ (d : Description). same_name d.name name.now ≡ false) (map described_view described.now) }
    ensures other { AllByRecursion (λ (d : Description). same_name d.name name.now ≡ false) (map described_view described.now) → IsTrue result }
{
    match described {
        [] => true,
        [first, described @ ..] => !same_name(first.name, name) && lack_name(described, name),
    }
}

// Whether none of the references is to a table described.
fn are_apart(references: &[Reference], described: &[Described<'_>]) -> bool
    ensures same { IsTrue result → AllByRecursion (λ (r : PlainReference). AllByRecursion (λ (d : Description). same_name d.name r.parent ≡ false) (map described_view described.now)) references.now }
    ensures other { AllByRecursion (λ (r : PlainReference). AllByRecursion (λ (d : Description). same_name d.name r.parent ≡ false) (map described_view described.now)) references.now → IsTrue result }
{
    match references {
        [] => true,
        [first, references @ ..] => {
            lack_name(described, first.parent.as_slice()) && are_apart(references, described)
        }
    }
}

// Whether the tables may stand after those described, whose trees are below this one.
fn are_further(tables: &[Table], described: &[Described<'_>], past: u32) -> bool
    requires { past ≡ past_all 0 (map described_view described.now) }
    ensures same { IsTrue result → AllByRecursion (IsFurther (map described_view described.now)) tables.now }
    ensures other { AllByRecursion (IsFurther (map described_view described.now)) tables.now → IsTrue result }
{
    match tables {
        [] => true,
        [of, tables @ ..] => {
            past <= of.tree
                && are_apart(of.references.as_slice(), described)
                && are_further(tables, described, past)
        }
    }
}

// What stands after the tables described and their indexes, if these come first.
fn further<'a>(
    described: &[Described<'_>],
    schema: &'a Schema,
) -> Option<(&'a [Table], &'a [Index])>
    requires { past_all 0 (map described_view described.now) < 2 ^ 32 }
    ensures { MatchOption result ((rest : PlainSchema) → schema.now ≡ followed (map described_view described.now) rest → ⊥)
        (λ rest. schema.now ≡ followed (map described_view described.now) (record { tables = rest.0.now; indexes = rest.1.now; views = schema.now.views })) }
{
    let tables = after_tables(schema.tables.as_slice(), described, 0)?;
    let indexes = after_all_indexes(schema.indexes.as_slice(), described, 0)?;
    Some((tables, indexes))
}

// Whether there is nothing of all this.
fn are_none(tables: &[Table], indexes: &[Index], views: &[View]) -> bool
    ensures same { IsTrue result → (tables.now ≡ []) × (indexes.now ≡ []) × (views.now ≡ []) }
    ensures other { (tables.now ≡ []) × (indexes.now ≡ []) × (views.now ≡ []) → IsTrue result }
{
    tables.is_empty() && indexes.is_empty() && views.is_empty()
}

// Whether the schema is that of the tables described, and nothing else.
fn is_schema(described: &[Described<'_>], schema: &Schema) -> bool
    requires { past_all 0 (map described_view described.now) < 2 ^ 32 }
    ensures same { IsTrue result → schema.now ≡ schema_of (map described_view described.now) }
    ensures other { schema.now ≡ schema_of (map described_view described.now) → IsTrue result }
{
    match further(described, schema) {
        Some((tables, indexes)) => are_none(tables, indexes, schema.views.as_slice()),
        None => false,
    }
}

// Whether all tables described are there.
fn has_all(described: &[Described<'_>], schema: &Schema) -> bool
    requires { past_all 0 (map described_view described.now) < 2 ^ 32 }
    ensures same { IsTrue result → HasAll (map described_view described.now) schema.now }
    ensures other { HasAll (map described_view described.now) schema.now → IsTrue result }
{
    match further(described, schema) {
        Some((tables, _)) => are_further(tables, described, past_last(described, 0)),
        None => false,
    }
}

/// How many of the tables there are, where they are the first of those described, in their order, and nothing else, or all of
/// them. After all of them may stand further tables, indexes and views, if no foreign key is onto one of those described.
pub fn beginning_of(described: &[Described<'_>], schema: &Schema) -> Option<usize>
    requires { past_all 0 (map described_view described.now) < 2 ^ 32 }
    ensures { MatchOption result (IsBeginning (map described_view described.now) schema.now → ⊥) (λ count. HasFirst (map described_view described.now) count schema.now) }
{
    let count = schema.tables.len();
    if count >= described.len() {
        return if has_all(described, schema) {
            Some(described.len())
        } else {
            None
        };
    }
    if !is_schema(&described[..count], schema) {
        return None;
    }
    Some(count)
}
