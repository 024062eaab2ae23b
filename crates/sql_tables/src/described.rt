// A table as data.
use sqlite_schema::schema::Kind;

/// What the primary key of a table is.
#[derive(Debug, Clone, Copy)]
pub enum Key {
    /// The first column, an `INTEGER PRIMARY KEY`, which then is the rowid.
    Rowid,
    /// The columns of the first of its UNIQUE constraints.
    FirstUnique,
    /// There is none.
    Absent,
}

/// A table as data. A list of them is a schema, in the order in which they are made.
#[derive(Debug, Clone, Copy)]
pub struct Described<'a> {
    /// Its name.
    pub name: &'a [u8],
    /// Name and type of each column. None may be NULL. BLOB is `Kind::Any`.
    pub columns: &'a [(&'a [u8], Kind)],
    /// Which columns are its primary key.
    pub key: Key,
    /// Of each UNIQUE constraint, in their order, the places of its columns, counted from 1, and the name that SQL gives to its
    /// index. A primary key that is not the rowid is one.
    pub uniques: &'a [(&'a [usize], &'a [u8])],
    /// The text that makes it.
    pub make: &'a str,
    /// A text that asks for one cell of each of its rows.
    pub look: &'a str,
}
