// A book over two files in memory, each of which stops at each of its calls in turn, and is opened again after the crash.
use crate::files::{Disks, closed, connected, files_that_stop, is_same_value};
use leaf_book::{Book, BookFault, close_into_file};
use lms::{KeyPair, OtsType, Params, Seed, SigningHeight};
use signer::sign_message;
use sqlite::types::ValueRef;
use sqlite::{Alter, Connection, Files, Row};
use sqlite_disk::{Crash, Fuse, Memory};
use sqlite_pager::Options;
use std::alloc::{AllocError, Global};
use std::process::Abort;
use std::test::Fail;

// The id of the pair's key.
const KEY: &[u8] = b"34f4bb3f1c145bb86b4327af8a78f5372c7821cb812e3c6daca2fe7cca113db9";

// All rows of the two tables.
const SIGNERS: &str = "SELECT * FROM signer ORDER BY key";

const LEAVES: &str = "SELECT * FROM leaf ORDER BY key, leaf";

// What the steps put there, a row for each: the key with its LM-OTS type and its height, then a leaf for each of the two messages.
const SIGNER_ROWS: [[ValueRef<'static>; 3]; 1] = [[
    ValueRef::Text(KEY),
    ValueRef::Int(3),
    ValueRef::Int(5),
]];

const LEAF_ROWS: [[ValueRef<'static>; 3]; 2] = [
    [
        ValueRef::Text(KEY),
        ValueRef::Int(0),
        ValueRef::Blob(b"first"),
    ],
    [
        ValueRef::Text(KEY),
        ValueRef::Int(1),
        ValueRef::Blob(b"second"),
    ],
];

// The pair of the seed of ones, with 32 leaves.
fn low_pair(alloc: Global) -> Result<KeyPair, AllocError> {
    let seed = Seed {
        identifier: [1; 16],
        secret: [1; 32],
    };
    let params = Params {
        ots: OtsType::W4,
        height: SigningHeight::H5,
    };
    KeyPair::new(alloc, &seed, params)
}

// The signature of the message.
fn signature<S: Alter>(
    alloc: Global,
    book: &mut Book<S>,
    pair: &KeyPair,
    message: &[u8],
) -> Result<Vec<u8>, BookFault> {
    Ok(sign_message(alloc, book, pair, message)?.1)
}

// The leaf that a signature was made with: its first four bytes (RFC 8554, section 5.4).
fn leaf_of(signature: &[u8]) -> u32 {
    match signature {
        [a, b, c, d, ..] => u32::from_be_bytes([*a, *b, *c, *d]),
        _ => u32::MAX,
    }
}

// What was made before the disks stopped.
#[derive(Drop)]
struct Made {
    is_registered: bool,
    first: Option<Vec<u8>>,
    second: Option<Vec<u8>>,
}

impl Made {
    // How many steps that is.
    fn count(&self) -> usize {
        match (self.is_registered, &self.first, &self.second) {
            (false, _, _) => 0,
            (true, None, _) => 1,
            (true, Some(_), None) => 2,
            (true, Some(_), Some(_)) => 3,
        }
    }
}

const NOTHING: Made = Made {
    is_registered: false,
    first: None,
    second: None,
};

// The steps, as far as the disks go along: the key is registered, and two messages are signed.
fn make<S: Alter>(alloc: Global, book: &mut Book<S>, pair: &KeyPair) -> Made {
    let is_registered = book.register_pair(pair).is_ok();
    let first = signature(alloc, book, pair, b"first").ok();
    let second = signature(alloc, book, pair, b"second").ok();
    Made {
        is_registered,
        first,
        second,
    }
}

// With a log of so many frames a change copies it into the database first.
fn options(frames: usize) -> Options {
    let mut options = Options::new(1);
    options.checkpoint_frames = frames;
    options
}

// The book over a connection, or the connection, unless the opening that failed took it with it.
fn opened_over<S: Alter + Drop>(
    alloc: Global,
    conn: Connection<S>,
) -> Result<Book<S>, Option<Connection<S>>> {
    match Book::open_over(alloc, conn) {
        Ok(book) => Ok(book),
        Err(unopened) => Err(unopened.conn),
    }
}

// The steps over a book, and its connection.
fn made_over<S: Alter + Drop>(
    alloc: Global,
    mut book: Book<S>,
    pair: &KeyPair,
) -> (Made, Connection<S>) {
    let made = make(alloc, &mut book, pair);
    (made, book.into_connection())
}

// The same over a connection, which is handed back, unless the opening that failed took it with it.
fn made_in<S: Alter + Drop>(
    alloc: Global,
    conn: Connection<S>,
    pair: &KeyPair,
) -> (Made, Option<Connection<S>>) {
    match opened_over(alloc, conn) {
        Ok(book) => {
            let (made, conn) = made_over(alloc, book, pair);
            (made, Some(conn))
        }
        Err(conn) => (NOTHING, conn),
    }
}

// The steps over new files, which are handed back, unless the opening that failed took them with it.
fn run(
    alloc: Global,
    pair: &KeyPair,
    files: Files<Fuse<Memory>>,
    frames: usize,
) -> (Made, Option<Files<Fuse<Memory>>>) {
    let conn = match connected(alloc, files, options(frames)) {
        Ok(conn) => conn,
        Err(files) => return (NOTHING, Some(files)),
    };
    match made_in(alloc, conn, pair) {
        (made, Some(conn)) => (made, Some(closed(conn))),
        (made, None) => (made, None),
    }
}

// All rows that the query answers.
fn rows_of<S: Alter>(conn: &mut Connection<S>, query: &str) -> Option<Vec<Row>> {
    conn.query_all(query, &[]).ok()
}

fn is_row(row: &Row, wanted: &[ValueRef<'_>]) -> bool {
    for at in 0..wanted.len() {
        match row.get_ref(at) {
            Ok(value) if is_same_value(value, wanted[at]) => {}
            _ => return false,
        }
    }
    row.column_count() == wanted.len()
}

// Whether the rows are just so many of the first of these.
fn are_first(rows: &[Row], wanted: &[[ValueRef<'_>; 3]], count: usize) -> bool {
    for at in 0..rows.len() {
        if at >= wanted.len() || !is_row(&rows[at], &wanted[at]) {
            return false;
        }
    }
    rows.len() == count
}

// Whether the rows of both tables are just those after so many steps.
fn are_behind(signers: &[Row], leaves: &[Row], count: usize) -> bool {
    are_first(signers, &SIGNER_ROWS, count.min(1))
        && are_first(leaves, &LEAF_ROWS, count.saturating_sub(1))
}

// Whether the rows of both tables are just those after so many steps, or after one more.
fn finds<S: Alter>(conn: &mut Connection<S>, count: usize) -> bool {
    let signers = rows_of(conn, SIGNERS);
    let leaves = rows_of(conn, LEAVES);
    match (&signers, &leaves) {
        (Some(signers), Some(leaves)) => {
            are_behind(signers, leaves, count)
                || are_behind(signers, leaves, count.saturating_add(1))
        }
        _ => false,
    }
}

// Whether a signature that was made is made again.
fn is_again(before: &Option<Vec<u8>>, again: &[u8]) -> bool {
    match before {
        Some(before) => before.as_slice() == again,
        None => true,
    }
}

// Whether each message has one leaf, the one that it had.
fn signs_again<S: Alter>(alloc: Global, book: &mut Book<S>, pair: &KeyPair, made: &Made) -> bool {
    let Ok(other) = signature(alloc, book, pair, b"other") else {
        return false;
    };
    let Ok(first) = signature(alloc, book, pair, b"first") else {
        return false;
    };
    let Ok(second) = signature(alloc, book, pair, b"second") else {
        return false;
    };
    let [a, b, c] = [leaf_of(&other), leaf_of(&first), leaf_of(&second)];
    is_again(&made.first, &first)
        && is_again(&made.second, &second)
        && a != b
        && b != c
        && c != a
        && a < 3
        && b < 3
        && c < 3
}

// Whether the book has the rows after the steps that were made, or after one more, and each message its leaf.
fn is_whole<S: Alter + Drop>(alloc: Global, book: Book<S>, pair: &KeyPair, made: &Made) -> bool {
    let mut conn = book.into_connection();
    let has_rows = finds(&mut conn, made.count());
    match opened_over(alloc, conn) {
        Ok(mut book) => has_rows && signs_again(alloc, &mut book, pair, made),
        Err(_) => false,
    }
}

// Whether the book that opens over a connection is whole.
fn is_whole_in<S: Alter + Drop>(
    alloc: Global,
    conn: Connection<S>,
    pair: &KeyPair,
    made: &Made,
) -> bool {
    match opened_over(alloc, conn) {
        Ok(book) => is_whole(alloc, book, pair, made),
        Err(_) => false,
    }
}

// Whether the book that opens after the crash is whole.
fn is_whole_after(
    alloc: Global,
    pair: &KeyPair,
    made: &Made,
    mut files: Files<Fuse<Memory>>,
    frames: usize,
) -> bool {
    files.log.crash();
    files.db.crash();
    match connected(alloc, files, options(frames)) {
        Ok(conn) => is_whole_in(alloc, conn, pair, made),
        Err(_) => false,
    }
}

// How many steps were made before the files stopped, unless what the crash leaves is not whole.
fn steps_before(
    alloc: Global,
    pair: &KeyPair,
    files: Files<Fuse<Memory>>,
    frames: usize,
) -> Option<usize> {
    let (made, files) = run(alloc, pair, files, frames);
    let is_whole = match files {
        Some(files) => is_whole_after(alloc, pair, &made, files, frames),
        None => false,
    };
    if is_whole { Some(made.count()) } else { None }
}

// The file stops at each of its calls in turn, until none is left: in the opening, in the registration and in two reservations. It
// answers how many calls there are.
fn stops_at_each_call(
    rt: &(impl Abort + AllocGlobal),
    stops_log: bool,
    frames: usize,
) -> Result<u64, Fail> {
    let alloc = rt.alloc();
    let pair = low_pair(alloc)?;
    for calls in 0..1_000u64 {
        let files = files_that_stop(alloc, stops_log, calls);
        match steps_before(alloc, &pair, files, frames) {
            None => panic!(rt; "after {calls} calls"),
            Some(3) => return Ok(calls),
            Some(_) => {}
        }
    }
    Err(Fail::from("never at the end"))
}

#[test]
fn the_log_stops_at_each_call(rt: HostRuntime) -> Result<(), Fail> {
    let calls = stops_at_each_call(&rt, true, 1_000)?;
    assert!(rt; calls > 10, "{calls}");
    Ok(())
}

// The log is copied into the database before each step but the first.
#[test]
fn the_log_stops_beside_copies(rt: HostRuntime) -> Result<(), Fail> {
    let calls = stops_at_each_call(&rt, true, 1)?;
    assert!(rt; calls > 20, "{calls}");
    Ok(())
}

#[test]
fn the_database_stops_at_each_call(rt: HostRuntime) -> Result<(), Fail> {
    let calls = stops_at_each_call(&rt, false, 1)?;
    assert!(rt; calls > 10, "{calls}");
    Ok(())
}

// The steps over a book, which is then closed into its file alone: what was made, and the file where that is answered.
fn closed_over(
    alloc: Global,
    mut book: Book<Disks>,
    pair: &KeyPair,
) -> (Made, Option<Fuse<Memory>>) {
    let made = make(alloc, &mut book, pair);
    match close_into_file(book) {
        Ok(files) => (made, Some(files.db)),
        Err(_) => (made, None),
    }
}

// The same over new files.
fn run_alone(
    alloc: Global,
    pair: &KeyPair,
    files: Files<Fuse<Memory>>,
) -> (Made, Option<Fuse<Memory>>) {
    let conn = match connected(alloc, files, options(1_000)) {
        Ok(conn) => conn,
        Err(_) => return (NOTHING, None),
    };
    match opened_over(alloc, conn) {
        Ok(book) => closed_over(alloc, book, pair),
        Err(_) => (NOTHING, None),
    }
}

// Whether the database file alone, with an empty log beside it, is the whole book after a crash.
fn is_whole_alone(alloc: Global, pair: &KeyPair, made: &Made, db: Fuse<Memory>) -> bool {
    let log = Fuse::new(Memory::new(alloc), u64::MAX);
    is_whole_after(alloc, pair, made, Files { log, db }, 1_000)
}

// The file stops at each of its calls in turn, until none is left. Where the close is answered, the database file alone is the book, by a copy
// of it as by itself. It answers how many of the stops were in the close.
fn closes_at_each_stop(rt: &(impl Abort + AllocGlobal), stops_log: bool) -> Result<u64, Fail> {
    let alloc = rt.alloc();
    let pair = low_pair(alloc)?;
    let mut in_close = 0u64;
    for calls in 0..1_000u64 {
        let (made, db) = run_alone(alloc, &pair, files_that_stop(alloc, stops_log, calls));
        let is_done = made.count() == 3;
        match db {
            Some(db) => {
                if !is_whole_alone(alloc, &pair, &made, db) {
                    panic!(rt; "after {calls} calls");
                }
                if is_done {
                    return Ok(in_close);
                }
            }
            None if is_done => in_close = in_close.saturating_add(1),
            None => {}
        }
    }
    Err(Fail::from("never at the end"))
}

#[test]
fn a_closed_book_needs_no_log(rt: HostRuntime) -> Result<(), Fail> {
    let log = closes_at_each_stop(&rt, true)?;
    let db = closes_at_each_stop(&rt, false)?;
    assert!(rt; log > 0 && db > 0, "{log} {db}");
    Ok(())
}
