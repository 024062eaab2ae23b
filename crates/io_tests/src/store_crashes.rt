// A store over two files in memory, each of which stops at each of its calls in turn, and is opened again after the crash.
use crate::documents::{ROOT, SNAPSHOT, TARGETS, TIMESTAMP};
use crate::files::{calm_files, closed, connected, files_that_stop, is_same_value, stops};
use metadata::{digest_of, read_date_time};
use sqlite::{Alter, Connection, Files, Row};
use sqlite_disk::{Crash, Disk, Fuse, Memory};
use sqlite_pager::Options;
use std::alloc::Global;
use std::process::Abort;
use std::test::Fail;
use store::{Command, Moment, Offer, Reply, RoleName, Store};

type Document<'a> = (Offer, &'a [u8]);

// The rows of each table.
type Tables = Vec<Vec<Row>>;

#[derive(Clone, Copy)]
enum Step {
    Init,
    // the document at this place
    Offer(usize),
    Batch,
    Put,
    Prune,
}

// Each document alone, and all as one batch. The prune takes the target file away, which no document lists.
const ALONE: [Step; 6] = [
    Step::Init,
    Step::Offer(0),
    Step::Offer(1),
    Step::Offer(2),
    Step::Put,
    Step::Prune,
];

const TOGETHER: [Step; 4] = [Step::Init, Step::Batch, Step::Put, Step::Prune];

// The rows of each of the six tables, of which schema 1 had the first five.
const QUERIES: [&str; 6] = [
    "SELECT version, bytes FROM root ORDER BY version",
    "SELECT slot, version, bytes FROM current ORDER BY slot",
    "SELECT role, version, bytes FROM shelf ORDER BY role, version",
    "SELECT digest, bytes FROM blob ORDER BY digest",
    "SELECT version FROM schema",
    "SELECT version, profile, bytes FROM root2 ORDER BY version",
];

// Back to schema 1.
const BACK: &str =
    "INSERT INTO root (version, bytes) SELECT version, bytes FROM root2; DROP TABLE root2; DELETE FROM schema; INSERT INTO schema (version) VALUES (1)";

fn command<'a>(step: Step, documents: &'a [Document<'a>]) -> Command<'a> {
    match step {
        Step::Init => Command::Init(ROOT.as_bytes()),
        Step::Offer(at) if at < documents.len() => Command::Offer(
            &documents[at].0,
            documents[at].1,
        ),
        Step::Offer(_) | Step::Batch => Command::Batch(documents),
        Step::Put => Command::PutBlob(digest_of(b"abc"), b"abc"),
        Step::Prune => Command::Prune,
    }
}

// The store over a connection, or the connection, unless the opening that failed took it with it.
fn opened_over<S: Alter + Drop>(
    alloc: Global,
    conn: Connection<S>,
) -> Result<Store<S>, Option<Connection<S>>> {
    match Store::open_over(alloc, conn) {
        Ok(store) => Ok(store),
        Err(unopened) => Err(unopened.conn),
    }
}

// Whether a command is made, unless it is denied.
fn is_made<S: Alter>(store: &mut Store<S>, command: Command<'_>, now: Moment) -> Option<bool> {
    match store.apply(command, now) {
        Ok(Reply::Denied(_, _)) => None,
        Ok(_) => Some(true),
        Err(_) => Some(false),
    }
}

// Makes the commands until one is not made: how many were, unless one is denied.
fn make<'a, S: Alter>(
    store: &mut Store<S>,
    steps: &[Step],
    documents: &'a [Document<'a>],
    now: Moment,
) -> Option<usize> {
    let mut made: usize = 0;
    for step in steps {
        match is_made(store, command(*step, documents), now) {
            Some(true) => made = made.saturating_add(1),
            Some(false) => return Some(made),
            None => return None,
        }
    }
    Some(made)
}

// The same over a store that is done with them, and its connection.
fn made_over<'a, S: Alter + Drop>(
    mut store: Store<S>,
    steps: &[Step],
    documents: &'a [Document<'a>],
    now: Moment,
) -> (Option<usize>, Connection<S>) {
    let made = make(&mut store, steps, documents, now);
    (made, store.into_connection())
}

// The same over a connection, which is handed back, unless the opening that failed took it with it.
fn made_in<'a, S: Alter + Drop>(
    alloc: Global,
    conn: Connection<S>,
    steps: &[Step],
    documents: &'a [Document<'a>],
    now: Moment,
) -> (Option<usize>, Option<Connection<S>>) {
    match opened_over(alloc, conn) {
        Ok(store) => {
            let (made, conn) = made_over(store, steps, documents, now);
            (made, Some(conn))
        }
        Err(conn) => (Some(0), conn),
    }
}

// The same over these files, which are handed back, unless the opening that failed took them with it.
fn run<'a>(
    alloc: Global,
    files: Files<Fuse<Memory>>,
    steps: &[Step],
    documents: &'a [Document<'a>],
    now: Moment,
) -> (Option<usize>, Option<Files<Fuse<Memory>>>) {
    let conn = match connected(alloc, files, Options::new(1)) {
        Ok(conn) => conn,
        Err(files) => return (Some(0), Some(files)),
    };
    match made_in(alloc, conn, steps, documents, now) {
        (made, Some(conn)) => (made, Some(closed(conn))),
        (made, None) => (made, None),
    }
}

// Puts the rows that the query answers after the others.
fn add_rows<S: Alter>(conn: &mut Connection<S>, query: &str, tables: &mut Tables) -> bool {
    match conn.query_all(query, &[]) {
        Ok(rows) => tables.push(rows).is_ok(),
        Err(_) => false,
    }
}

// The rows of the six tables, or of the five where there is no sixth.
fn tables_of<S: Alter>(alloc: Global, conn: &mut Connection<S>) -> Option<Tables> {
    let mut tables = Vec::new(alloc);
    for query in &QUERIES[..5] {
        if !add_rows(conn, query, &mut tables) {
            return None;
        }
    }
    let _ = add_rows(conn, QUERIES[5], &mut tables);
    Some(tables)
}

// The rows that a store over a connection finds.
fn tables_in<S: Alter + Drop>(alloc: Global, conn: Connection<S>) -> Option<Tables> {
    match opened_over(alloc, conn) {
        Ok(store) => tables_of(alloc, &mut store.into_connection()),
        Err(_) => None,
    }
}

// The rows that the next open after a crash finds.
fn tables_after(alloc: Global, mut files: Files<Fuse<Memory>>) -> Option<Tables> {
    files.log.crash();
    files.db.crash();
    match connected(alloc, files, Options::new(1)) {
        Ok(conn) => tables_in(alloc, conn),
        Err(_) => None,
    }
}

fn is_same_row(one: &Row, other: &Row) -> bool {
    for at in 0..one.column_count() {
        match (one.get_ref(at), other.get_ref(at)) {
            (Ok(a), Ok(b)) if is_same_value(a, b) => {}
            _ => return false,
        }
    }
    one.column_count() == other.column_count()
}

fn are_same_rows(one: &[Row], other: &[Row]) -> bool {
    for at in 0..one.len() {
        if at >= other.len() || !is_same_row(&one[at], &other[at]) {
            return false;
        }
    }
    one.len() == other.len()
}

fn are_same(one: &[Vec<Row>], other: &[Vec<Row>]) -> bool {
    for at in 0..one.len() {
        if at >= other.len() || !are_same_rows(&one[at], &other[at]) {
            return false;
        }
    }
    one.len() == other.len()
}

// The documents that the steps offer.
fn documents_of<'a>(role: RoleName) -> [Document<'a>; 3] {
    [
        (Offer::Timestamp, TIMESTAMP.as_bytes()),
        (Offer::Snapshot, SNAPSHOT.as_bytes()),
        (Offer::Targets(role), TARGETS.as_bytes()),
    ]
}

// The rows after these commands, where nothing stops.
fn tables_behind<'a>(
    alloc: Global,
    steps: &[Step],
    documents: &'a [Document<'a>],
    now: Moment,
) -> Option<Tables> {
    match run(alloc, calm_files(alloc), steps, documents, now) {
        (Some(made), Some(files)) if made == steps.len() => tables_after(alloc, files),
        _ => None,
    }
}

// Puts the rows after these commands after the others.
fn add_wanted<'a>(
    alloc: Global,
    wanted: &mut Vec<Tables>,
    steps: &[Step],
    documents: &'a [Document<'a>],
    now: Moment,
) -> bool {
    match tables_behind(alloc, steps, documents, now) {
        Some(tables) => wanted.push(tables).is_ok(),
        None => false,
    }
}

// The rows after each number of commands, where nothing stops.
fn wanted<'a>(
    alloc: Global,
    steps: &[Step],
    documents: &'a [Document<'a>],
    now: Moment,
) -> Option<Vec<Tables>> {
    let mut wanted = Vec::new(alloc);
    for count in 0..=steps.len() {
        if !add_wanted(alloc, &mut wanted, &steps[..count], documents, now) {
            return None;
        }
    }
    Some(wanted)
}

// Whether these are the rows after so many commands.
fn are_behind(found: &[Vec<Row>], wanted: &[Tables], made: usize) -> bool {
    made < wanted.len() && are_same(found, &wanted[made])
}

// Whether the next open after a crash finds the rows after the commands that were made, or after one more, where there is one.
fn finds(alloc: Global, files: Files<Fuse<Memory>>, wanted: &[Tables], made: usize) -> bool {
    match tables_after(alloc, files) {
        Some(found) => {
            are_behind(&found, wanted, made) || are_behind(&found, wanted, made.saturating_add(1))
        }
        None => false,
    }
}

// How many commands were made before the files stopped, unless one is denied or what the crash leaves is wrong.
fn made_before<'a>(
    alloc: Global,
    files: Files<Fuse<Memory>>,
    steps: &[Step],
    documents: &'a [Document<'a>],
    now: Moment,
    wanted: &[Tables],
) -> Option<usize> {
    match run(alloc, files, steps, documents, now) {
        (Some(made), Some(files)) => {
            if finds(alloc, files, wanted, made) {
                Some(made)
            } else {
                None
            }
        }
        _ => None,
    }
}

// The file stops at each of its calls in turn, until none is left: the number of calls after which something was wrong, if any.
fn wrong_stop<'a>(
    alloc: Global,
    steps: &[Step],
    documents: &'a [Document<'a>],
    now: Moment,
    wanted: &[Tables],
    stops_log: bool,
) -> Option<u64> {
    for calls in 0..2_000u64 {
        match made_before(
            alloc,
            files_that_stop(alloc, stops_log, calls),
            steps,
            documents,
            now,
            wanted,
        ) {
            None => return Some(calls),
            Some(made) if made == steps.len() => return None,
            Some(_) => {}
        }
    }
    Some(2_000)
}

// After each stop the next open finds the rows before the command that was not made, or those after it.
fn stops_at_each_call(
    rt: &(impl Abort + AllocGlobal),
    steps: &[Step],
    stops_log: bool,
) -> Result<(), Fail> {
    let alloc = rt.alloc();
    let now = read_date_time("2030-01-01T00:00:00Z").expect(rt, "a moment");
    let role = RoleName::read(alloc, "targets")?.expect(rt, "a role");
    let documents = documents_of(role);
    let Some(wanted) = wanted(alloc, steps, &documents, now) else {
        return Err(Fail::from("not made where nothing stops"));
    };
    match wrong_stop(alloc, steps, &documents, now, &wanted, stops_log) {
        Some(calls) => panic!(rt; "{calls} calls"),
        None => Ok(()),
    }
}

// Brings a database back to schema 1.
fn is_brought_back<S: Alter>(conn: &mut Connection<S>) -> bool {
    conn.execute_batch(BACK).is_ok()
}

// The same over files, which are handed back.
fn brought_back(alloc: Global, files: Files<Fuse<Memory>>) -> Option<Files<Fuse<Memory>>> {
    let mut conn = match connected(alloc, files, Options::new(1)) {
        Ok(conn) => conn,
        Err(_) => return None,
    };
    if is_brought_back(&mut conn) {
        Some(closed(conn))
    } else {
        None
    }
}

// The files of a database of schema 1.
fn first_schema<'a>(
    alloc: Global,
    documents: &'a [Document<'a>],
    now: Moment,
) -> Option<Files<Fuse<Memory>>> {
    let files = calm_files(alloc);
    match run(alloc, files, &TOGETHER[..3], documents, now) {
        (Some(3), Some(files)) => brought_back(alloc, files),
        _ => None,
    }
}

// A copy of a file, which stops after so many calls.
fn copied(alloc: Global, file: &Fuse<Memory>, calls: u64) -> Option<Fuse<Memory>> {
    let mut copy = Memory::new(alloc);
    if copy.write_at(0, file.inner().bytes()).is_ok() && copy.sync().is_ok() {
        Some(Fuse::new(copy, calls))
    } else {
        None
    }
}

fn copies(
    alloc: Global,
    files: &Files<Fuse<Memory>>,
    stops_log: bool,
    calls: u64,
) -> Option<Files<Fuse<Memory>>> {
    let (log, db) = stops(stops_log, calls);
    match (copied(alloc, &files.log, log), copied(alloc, &files.db, db)) {
        (Some(log), Some(db)) => Some(Files { log, db }),
        _ => None,
    }
}

// Opens a store over a connection: whether it is open, and the connection, unless the opening that failed took it with it.
fn migrated_in<S: Alter + Drop>(
    alloc: Global,
    conn: Connection<S>,
) -> (bool, Option<Connection<S>>) {
    match opened_over(alloc, conn) {
        Ok(store) => (true, Some(store.into_connection())),
        Err(conn) => (false, conn),
    }
}

// The same over files.
fn migrated(alloc: Global, files: Files<Fuse<Memory>>) -> (bool, Option<Files<Fuse<Memory>>>) {
    let conn = match connected(alloc, files, Options::new(1)) {
        Ok(conn) => conn,
        Err(files) => return (false, Some(files)),
    };
    match migrated_in(alloc, conn) {
        (is_open, Some(conn)) => (is_open, Some(closed(conn))),
        (is_open, None) => (is_open, None),
    }
}

// The rows that stand in files after a crash, and the files.
fn tables_left(
    alloc: Global,
    mut files: Files<Fuse<Memory>>,
) -> Option<(Tables, Files<Fuse<Memory>>)> {
    files.log.crash();
    files.db.crash();
    let mut conn = match connected(alloc, files, Options::new(1)) {
        Ok(conn) => conn,
        Err(_) => return None,
    };
    match tables_of(alloc, &mut conn) {
        Some(tables) => Some((tables, closed(conn))),
        None => None,
    }
}

// Whether a crash leaves the rows of schema 2, or, where no store is open, of schema 1, and the next open finds those of schema 2.
fn are_whole(
    alloc: Global,
    files: Files<Fuse<Memory>>,
    is_open: bool,
    first: &[Vec<Row>],
    second: &[Vec<Row>],
) -> bool {
    match tables_left(alloc, files) {
        Some((found, files)) => {
            (are_same(&found, second) || !is_open && are_same(&found, first))
                && are_found(alloc, files, second)
        }
        None => false,
    }
}

// Whether the next open after a crash finds these rows.
fn are_found(alloc: Global, files: Files<Fuse<Memory>>, rows: &[Vec<Row>]) -> bool {
    match tables_after(alloc, files) {
        Some(found) => are_same(&found, rows),
        None => false,
    }
}

// Whether a store is open after a migration that may stop, unless what it leaves is wrong.
fn is_open_after(
    alloc: Global,
    files: Files<Fuse<Memory>>,
    first: &[Vec<Row>],
    second: &[Vec<Row>],
) -> Option<bool> {
    match migrated(alloc, files) {
        (is_open, Some(files)) => {
            if are_whole(alloc, files, is_open, first, second) {
                Some(is_open)
            } else {
                None
            }
        }
        (_, None) => None,
    }
}

// An opening of a database of schema 1 stops at each of its calls in turn, until none is left: the number of calls after which something
// was wrong, if any.
fn wrong_stop_of_a_migration(
    alloc: Global,
    before: &Files<Fuse<Memory>>,
    first: &[Vec<Row>],
    second: &[Vec<Row>],
    stops_log: bool,
) -> Option<u64> {
    for calls in 0..2_000u64 {
        let Some(files) = copies(alloc, before, stops_log, calls) else {
            return Some(calls);
        };
        match is_open_after(alloc, files, first, second) {
            None => return Some(calls),
            Some(true) => return None,
            Some(false) => {}
        }
    }
    Some(2_000)
}

// Each stop leaves schema 1 whole or schema 2 whole, and the next open brings it to schema 2.
fn stops_at_each_call_of_a_migration(
    rt: &(impl Abort + AllocGlobal),
    stops_log: bool,
) -> Result<(), Fail> {
    let alloc = rt.alloc();
    let now = read_date_time("2030-01-01T00:00:00Z").expect(rt, "a moment");
    let role = RoleName::read(alloc, "targets")?.expect(rt, "a role");
    let documents = documents_of(role);
    let Some(second) = tables_behind(alloc, &TOGETHER[..3], &documents, now) else {
        return Err(Fail::from("not made where nothing stops"));
    };
    let Some(before) = first_schema(alloc, &documents, now) else {
        return Err(Fail::from("not brought back"));
    };
    let Some((first, before)) = tables_left(alloc, before) else {
        return Err(Fail::from("no rows of schema 1"));
    };
    assert!(rt; !are_same(&first, &second));
    match wrong_stop_of_a_migration(alloc, &before, &first, &second, stops_log) {
        Some(calls) => panic!(rt; "{calls} calls"),
        None => Ok(()),
    }
}

#[test]
fn the_log_stops_in_a_migration(rt: HostRuntime) -> Result<(), Fail> {
    stops_at_each_call_of_a_migration(&rt, true)
}

#[test]
fn the_database_stops_in_a_migration(rt: HostRuntime) -> Result<(), Fail> {
    stops_at_each_call_of_a_migration(&rt, false)
}

#[test]
fn the_log_stops_in_each_command(rt: HostRuntime) -> Result<(), Fail> {
    stops_at_each_call(&rt, &ALONE, true)
}

#[test]
fn the_database_stops_in_each_command(rt: HostRuntime) -> Result<(), Fail> {
    stops_at_each_call(&rt, &ALONE, false)
}

#[test]
fn the_log_stops_in_a_batch(rt: HostRuntime) -> Result<(), Fail> {
    stops_at_each_call(&rt, &TOGETHER, true)
}

#[test]
fn the_database_stops_in_a_batch(rt: HostRuntime) -> Result<(), Fail> {
    stops_at_each_call(&rt, &TOGETHER, false)
}
