// The six tables as data.
ghost use Rattle.std.specs.Prelude.{◌≡◌, map};
ghost use Rattle.sql_tables.specs.Described.{described_view};
ghost use Rattle.table_rows.specs.Schema.{six};

use sql_tables::{Described, Key};
use sqlite_schema::schema::Kind;

static ROOT: [(&[u8], Kind); 2] = [(b"version", Kind::Integer), (b"bytes", Kind::Any)];

static CURRENT: [(&[u8], Kind); 3] = [
    (b"slot", Kind::Text),
    (b"version", Kind::Integer),
    (b"bytes", Kind::Any),
];

static SHELF: [(&[u8], Kind); 3] = [
    (b"role", Kind::Text),
    (b"version", Kind::Integer),
    (b"bytes", Kind::Any),
];

static BLOB: [(&[u8], Kind); 2] = [(b"digest", Kind::Text), (b"bytes", Kind::Any)];

static VERSION: [(&[u8], Kind); 1] = [(b"version", Kind::Integer)];

static ROOT2: [(&[u8], Kind); 3] = [
    (b"version", Kind::Integer),
    (b"profile", Kind::Integer),
    (b"bytes", Kind::Any),
];

static CURRENT_KEY: [(&[usize], &[u8]); 1] = [(&[1], b"sqlite_autoindex_current_1")];

static SHELF_KEY: [(&[usize], &[u8]); 1] = [(&[1, 2], b"sqlite_autoindex_shelf_1")];

static BLOB_KEY: [(&[usize], &[u8]); 1] = [(&[1], b"sqlite_autoindex_blob_1")];

/// The six tables, in the order in which they are made.
pub fn six_tables() -> [Described<'static>; 6]
    ensures { map described_view result ≡ six }
{
    [
        Described {
            name: b"root",
            columns: &ROOT,
            key: Key::Rowid,
            uniques: &[],
            make: "CREATE TABLE root (version INTEGER NOT NULL PRIMARY KEY, bytes BLOB NOT NULL)",
            look: "SELECT version FROM root",
        },
        Described {
            name: b"current",
            columns: &CURRENT,
            key: Key::FirstUnique,
            uniques: &CURRENT_KEY,
            make: "CREATE TABLE current (slot TEXT NOT NULL PRIMARY KEY, version INTEGER NOT NULL, bytes BLOB NOT NULL)",
            look: "SELECT version FROM current",
        },
        Described {
            name: b"shelf",
            columns: &SHELF,
            key: Key::FirstUnique,
            uniques: &SHELF_KEY,
            make: "CREATE TABLE shelf (role TEXT NOT NULL, version INTEGER NOT NULL, bytes BLOB NOT NULL, PRIMARY KEY (role, version))",
            look: "SELECT version FROM shelf",
        },
        Described {
            name: b"blob",
            columns: &BLOB,
            key: Key::FirstUnique,
            uniques: &BLOB_KEY,
            make: "CREATE TABLE blob (digest TEXT NOT NULL PRIMARY KEY, bytes BLOB NOT NULL)",
            look: "SELECT digest FROM blob",
        },
        Described {
            name: b"schema",
            columns: &VERSION,
            key: Key::Rowid,
            uniques: &[],
            make: "CREATE TABLE schema (version INTEGER NOT NULL PRIMARY KEY)",
            look: "SELECT version FROM schema",
        },
        Described {
            name: b"root2",
            columns: &ROOT2,
            key: Key::Rowid,
            uniques: &[],
            make: "CREATE TABLE root2 (version INTEGER NOT NULL PRIMARY KEY, profile INTEGER NOT NULL, bytes BLOB NOT NULL)",
            look: "SELECT version FROM root2",
        },
    ]
}
