//! Database files.
ghost use Rattle.std.specs.Prelude.{◌≡◌, ◌+◌, ◌≤◌, IfErr, length};
ghost use Rattle.cli_faults.specs.Statuses.{status_of};

use crate::files::read_at_most;
use crate::on_disk::OWNER_ALONE;
use cli_faults::{Fault, Notes};
use sqlite::{Connection, Error, ErrorCode, FileFrom, FileStore, Wary};
use std::alloc::AllocError;
use std::fs::{self, File};
use std::io::{IsTerminal, Write};
use std::os::unix::fs::{OpenOptionsExt, PermissionsExt};

// The name that the kit has for a database in memory, which it refuses to open as a file.
const IN_MEMORY: &str = ":memory:";

// The bytes of a log without a change: its head.
const LOG_HEAD: u64 = 41;

// Where the first change of a log has its page, and the most bytes of a page.
const FIRST_PAGE: usize = 56;

const PAGE: usize = 65_536;

// So many MiB take a while to open, and each so many milliseconds (docs/OPERATING.md).
const LARGE: u64 = 64;

const MILLISECONDS: u64 = 9;

// Who may read and write a file.
const READ_AND_WRITE: u32 = 0o666;

/// A connection to a database file, which is made where there is none, for its owner alone, as its log is. Of what a torn write leaves,
/// nothing is supposed. Where the file is
/// empty or absent and next to it stands a log with changes, it is `Damaged`, and both are let be. Where another process has the file, the
/// last text says what is to be done.
pub fn connected<E: Write>(
    rt: &HostRuntime,
    db: &str,
    busy: &str,
    notes: &mut Notes<'_, E>,
) -> Result<Connection<FileStore<FileFrom<Wary>>>, Fault>
    ensures { IfErr result (λ fault. status_of fault ≡ 3) }
{
    if is_log_alone(rt, db)? {
        notes.fault(&db, &"empty or absent, next to a log with changes");
        return Err(Fault::Damaged);
    }
    make_both(rt, db)?;
    tell_size(rt, db, notes)?;
    let is_disregarded = has_ill_log(rt, db, notes)?;
    match Connection::open_from(rt, db, false, Wary) {
        Ok(conn) => {
            if is_disregarded {
                notes.tell(
                    &db,
                    &"the first change of its log does not check: the log is disregarded",
                );
            }
            Ok(conn)
        }
        Err((error, _)) => Err(unopened(rt, db, busy, &error, notes)),
    }
}

/// The database stands there, or a log with changes that `connected` tells of: a command that only reads makes none.
pub fn see_database<E: Write>(
    rt: &HostRuntime,
    db: &str,
    notes: &mut Notes<'_, E>,
) -> Result<(), Fault>
    ensures { IfErr result (λ fault. status_of fault ≡ 3) }
{
    match fs::metadata(rt, db) {
        Ok(_) => Ok(()),
        Err(error) => {
            if is_log_alone(rt, db)? {
                return Ok(());
            }
            notes.fault(&db, &error);
            Err(Fault::Database)
        }
    }
}

// On a terminal tells that a large database is opened, how large it is, and in about how long.
fn tell_size<E: Write>(
    rt: &HostRuntime,
    db: &str,
    notes: &mut Notes<'_, E>,
) -> Result<(), AllocError> {
    let size = length_of(rt, db) >> 20;
    if size < LARGE || !rt.stderr().is_terminal() {
        return Ok(());
    }
    let seconds = size * MILLISECONDS / 1000 + 1;
    let told = format!(in rt.alloc(); "opening {db}: {size} MiB, some {seconds} seconds")?;
    notes.progress(&told);
    Ok(())
}

// Makes the database file where there is none, for its owner alone, and its log with the mode of the file. Where one cannot be made, the
// opening says so.
fn make_both(rt: &HostRuntime, db: &str) -> Result<(), AllocError> {
    if db == IN_MEMORY {
        return Ok(());
    }
    make(rt, db, OWNER_ALONE);
    let mode = match fs::metadata(rt, db) {
        Ok(found) => found.permissions().mode() & READ_AND_WRITE,
        Err(_) => return Ok(()),
    };
    let log = format!(in rt.alloc(); "{db}-wal")?;
    make(rt, log.as_str(), mode);
    Ok(())
}

// Makes an empty file where nothing stands.
fn make(rt: &HostRuntime, path: &str, mode: u32) {
    let _ = File::options()
        .write(true)
        .create_new(true)
        .mode(mode)
        .open(rt, path);
}

// Whether the database file is empty or absent, and its log has changes, which an opening would throw away. No crash leaves that: a
// database has its first byte before its log has a change.
fn is_log_alone(rt: &HostRuntime, db: &str) -> Result<bool, AllocError> {
    if length_of(rt, db) > 0 {
        return Ok(false);
    }
    let log = format!(in rt.alloc(); "{db}-wal")?;
    Ok(length_of(rt, log.as_str()) > LOG_HEAD)
}

// Whether facts are told, and the log has changes that an opening disregards, since the first of them does not check.
fn has_ill_log<E: Write>(
    rt: &HostRuntime,
    db: &str,
    notes: &mut Notes<'_, E>,
) -> Result<bool, AllocError> {
    if !notes.are_told() {
        return Ok(false);
    }
    let log = format!(in rt.alloc(); "{db}-wal")?;
    if length_of(rt, log.as_str()) <= LOG_HEAD {
        return Ok(false);
    }
    match read_at_most(rt, log.as_str(), FIRST_PAGE + PAGE, notes) {
        Ok(read) => Ok(!has_first_change(&read)),
        Err(_) => Ok(false),
    }
}

// Whether the head of a log checks, and its first change: it has the salt of the head, a page's number, and the sum of both (the file
// format of SQLite, "WAL File Format").
fn has_first_change(log: &[u8]) -> bool {
    if log.len() < FIRST_PAGE || log[..3] != [0x37, 0x7f, 0x06] || log[3] & 0xfe != 0x82 {
        return false;
    }
    let is_big = log[3] == 0x83;
    let end = FIRST_PAGE + word(true, log, 8) as usize;
    if log.len() < end || log[40..48] != log[16..24] || word(true, log, 32) == 0 {
        return false;
    }
    let head = sum_over(is_big, (0, 0), &log[..24]);
    let change = sum_over(is_big, head, &log[32..40]);
    let change = sum_over(is_big, change, &log[FIRST_PAGE..end]);
    head == sum_at(log, 24) && change == sum_at(log, 48)
}

// The sum of a log over these bytes, after that of what stands before them.
fn sum_over(is_big: bool, before: (u32, u32), bytes: &[u8]) -> (u32, u32) {
    let (mut first, mut second) = before;
    for i in 0..bytes.len() / 8 {
        let one = word(is_big, bytes, 8 * i);
        first = first.wrapping_add(one).wrapping_add(second);
        let other = word(is_big, bytes, 8 * i + 4);
        second = second.wrapping_add(other).wrapping_add(first);
    }
    (first, second)
}

fn sum_at(log: &[u8], at: usize) -> (u32, u32)
    requires { at + 8 ≤ length log.now }
{
    (word(true, log, at), word(true, log, at + 4))
}

fn word(is_big: bool, bytes: &[u8], at: usize) -> u32
    requires { at + 4 ≤ length bytes.now }
{
    let word = [bytes[at], bytes[at + 1], bytes[at + 2], bytes[at + 3]];
    if is_big {
        u32::from_be_bytes(word)
    } else {
        u32::from_le_bytes(word)
    }
}

// The bytes of a file, none where there is no file.
fn length_of(rt: &HostRuntime, path: &str) -> u64 {
    match fs::metadata(rt, path) {
        Ok(found) => found.len(),
        Err(_) => 0,
    }
}

// What a database file that was not opened comes to. Where the system refused to open it, its own error is told.
fn unopened<E: Write>(
    rt: &HostRuntime,
    db: &str,
    busy: &str,
    error: &Error,
    notes: &mut Notes<'_, E>,
) -> Fault
    ensures { status_of result ≡ 3 }
{
    match error {
        Error::SqliteFailure(ErrorCode::OutOfMemory) => return Fault::Memory,
        Error::SqliteFailure(ErrorCode::DatabaseBusy) => notes.fault(&db, &busy),
        Error::SqliteFailure(ErrorCode::CannotOpen) => tell_why(rt, db, notes),
        other => notes.fault(&db, other),
    }
    Fault::Database
}

fn tell_why<E: Write>(rt: &HostRuntime, db: &str, notes: &mut Notes<'_, E>) {
    match File::options().read(true).write(true).open(rt, db) {
        Ok(_) => notes.fault(&db, &"not opened"),
        Err(error) => notes.fault(&db, &error),
    }
}
