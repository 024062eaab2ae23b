//! The database of a case, in memory. What owns a store does little besides: all other functions borrow it.
use metadata::Moment;
use sqlite::{Connection, Error, MemStore, Row};
use std::alloc::{AllocError, Global};
use std::mem::replace;
use store::{Command, Reply, Store, StoreFault};

/// The database of a case: a store, a connection to tables that something else may have changed, or nothing.
#[derive(Drop)]
pub enum Base {
    Open(Store<MemStore>),
    Shut(Connection<MemStore>),
    None,
}

// A line for each row of the six tables, with the bytes in hex.
const ROWS: &str = "SELECT 'root ' || version || ' ' || lower(hex(bytes)) FROM root
    UNION ALL SELECT 'root2 ' || version || ' ' || profile || ' ' || lower(hex(bytes)) FROM root2
    UNION ALL SELECT 'current ' || slot || ' ' || version || ' ' || lower(hex(bytes)) FROM current
    UNION ALL SELECT 'shelf ' || role || ' ' || version || ' ' || lower(hex(bytes)) FROM shelf
    UNION ALL SELECT 'blob ' || digest || ' ' || lower(hex(bytes)) FROM blob
    UNION ALL SELECT 'schema ' || version || ' ' FROM schema ORDER BY 1";

// A connection to a new database.
fn new_base(alloc: Global) -> Base {
    match Connection::open_in_memory(alloc) {
        Ok(conn) => Base::Shut(conn),
        Err(_) => Base::None,
    }
}

// A store over a connection, if there is one.
fn open_over(alloc: Global, conn: Connection<MemStore>) -> (Base, Result<(), StoreFault>) {
    match Store::open_over(alloc, conn) {
        Ok(store) => (Base::Open(store), Ok(())),
        Err(unopened) => (shut(unopened.conn), Err(unopened.fault)),
    }
}

fn shut(conn: Option<Connection<MemStore>>) -> Base {
    match conn {
        Some(conn) => Base::Shut(conn),
        None => Base::None,
    }
}

/// Puts each in the place of the other.
pub fn exchange(first: &mut Base, second: &mut Base) {
    let held = replace(first, Base::None);
    *first = replace(second, held);
}

impl Base {
    /// Puts a new database in the place of this one, and opens a store over it.
    pub fn begin(&mut self, alloc: Global) -> Result<(), StoreFault> {
        *self = new_base(alloc);
        if self.is_gone() {
            return Err(StoreFault::OutOfMemory);
        }
        self.open(alloc)
    }

    /// Whether there is no database: none was made, or its connection was lost with the memory for it.
    pub fn is_gone(&self) -> bool {
        matches!(self, Base::None)
    }

    /// Shuts the store, if there is one.
    pub fn shut(&mut self) {
        *self = match replace(self, Base::None) {
            Base::Open(store) => Base::Shut(store.into_connection()),
            base => base,
        };
    }

    /// Opens a store over the connection.
    pub fn open(&mut self, alloc: Global) -> Result<(), StoreFault> {
        let conn = match replace(self, Base::None) {
            Base::Open(store) => store.into_connection(),
            Base::Shut(conn) => conn,
            Base::None => return Err(StoreFault::Database),
        };
        let (base, result) = open_over(alloc, conn);
        *self = base;
        result
    }

    /// Whether a store is open.
    pub fn is_open(&self) -> bool {
        matches!(self, Base::Open(_))
    }

    /// The store, if it is open.
    pub fn store(&mut self) -> Option<&mut Store<MemStore>> {
        match self {
            Base::Open(store) => Some(store),
            _ => None,
        }
    }

    /// Makes a command.
    pub fn apply(&mut self, command: Command<'_>, now: Moment) -> Result<Reply, StoreFault> {
        match self.store() {
            Some(store) => store.apply(command, now),
            None => Err(StoreFault::Database),
        }
    }

    /// The connection, if the store is shut.
    pub fn connection(&mut self) -> Option<&mut Connection<MemStore>> {
        match self {
            Base::Shut(conn) => Some(conn),
            _ => None,
        }
    }

    /// Runs statements of SQL. The store is shut then.
    pub fn execute(&mut self, text: &str) -> Result<(), Error> {
        self.shut();
        match self.connection() {
            Some(conn) => conn.execute_batch(text),
            None => Ok(()),
        }
    }

    /// A line for each row of the six tables: its table, its key, and its bytes in hex. A store that was open is opened again.
    pub fn rows(&mut self, alloc: Global) -> Result<Vec<String>, StoreFault> {
        let is_open = self.is_open();
        self.shut();
        let lines = match self.connection() {
            Some(conn) => rows_in(alloc, conn).map_err(|_| StoreFault::Database),
            None => Err(StoreFault::Database),
        };
        if is_open {
            self.open(alloc)?;
        }
        lines
    }
}

fn rows_in(alloc: Global, conn: &mut Connection<MemStore>) -> Result<Vec<String>, Error> {
    let rows = conn.query_all(ROWS, &[])?;
    let mut lines = Vec::new(alloc);
    for row in rows.iter() {
        push_line(&mut lines, row)?;
    }
    Ok(lines)
}

fn push_line(lines: &mut Vec<String>, row: &Row) -> Result<(), Error> {
    let line: String = row.get(0)?;
    lines.push(line).map_err(AllocError::from)?;
    Ok(())
}
