//! The two tables as data.
ghost use Rattle.std.specs.Prelude.{◌≡◌, map, MatchOption};
ghost use Rattle.sql_tables.specs.Described.{HasFirst, IsBeginning, described_view};
ghost use Rattle.leaf_book.specs.Schema.{two};

use sql_tables::{Described, Key};
use sqlite_schema::schema::{Kind, Schema};

static SIGNER: [(&[u8], Kind); 3] = [
    (b"key", Kind::Text),
    (b"ots", Kind::Integer),
    (b"height", Kind::Integer),
];

static SIGNER_KEY: [(&[usize], &[u8]); 1] = [(&[1], b"sqlite_autoindex_signer_1")];

static LEAF: [(&[u8], Kind); 3] = [
    (b"key", Kind::Text),
    (b"leaf", Kind::Integer),
    (b"message", Kind::Any),
];

static LEAF_UNIQUES: [(&[usize], &[u8]); 2] = [
    (&[1, 2], b"sqlite_autoindex_leaf_1"),
    (&[1, 3], b"sqlite_autoindex_leaf_2"),
];

/// The two tables, in the order in which they are made.
pub(crate) fn two_tables() -> [Described<'static>; 2]
    ensures { map described_view result ≡ two }
{
    [
        Described {
            name: b"signer",
            columns: &SIGNER,
            key: Key::FirstUnique,
            uniques: &SIGNER_KEY,
            make: "CREATE TABLE signer (key TEXT NOT NULL PRIMARY KEY, ots INTEGER NOT NULL, height INTEGER NOT NULL)",
            look: "SELECT key FROM signer",
        },
        Described {
            name: b"leaf",
            columns: &LEAF,
            key: Key::Absent,
            uniques: &LEAF_UNIQUES,
            make: "CREATE TABLE leaf (key TEXT NOT NULL, leaf INTEGER NOT NULL, message BLOB NOT NULL, UNIQUE (key, leaf), UNIQUE (key, message))",
            look: "SELECT key FROM leaf",
        },
    ]
}

/// How many of the two tables there are, where they are the first in their order, and nothing else, or both. After both may stand
/// further tables, indexes and views, if no foreign key is onto one of the two.
pub(crate) fn beginning_of(schema: &Schema) -> Option<usize>
    ensures { MatchOption result (IsBeginning two schema.now → ⊥) (λ count. HasFirst two count schema.now) }
{
    sql_tables::beginning_of(&two_tables(), schema)
}
