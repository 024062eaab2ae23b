//! Replies as text.
use case_databases::{Reply, StoreFault};
use machine::Denial;
use metadata::digest_of;
use script_words::{File, LineFault, bytes_of_hex, name_of, push_escaped};
use std::alloc::Global;
use std::fmt::Write;

/// A fixed text.
pub fn text_of(alloc: Global, text: &str) -> Result<String, LineFault> {
    Ok(String::from_str(alloc, text)?)
}

/// A fault of the store.
pub fn fault_text(fault: StoreFault) -> &'static str {
    match fault {
        StoreFault::Damaged => "damaged",
        StoreFault::Database => "database",
        StoreFault::OutOfMemory => "memory",
    }
}

/// A reply of the store, or its fault.
pub fn reply_text(
    alloc: Global,
    files: &[File],
    answer: &Result<Reply, StoreFault>,
) -> Result<String, LineFault> {
    match answer {
        Ok(reply) => done_text(alloc, files, reply),
        Err(fault) => text_of(alloc, fault_text(*fault)),
    }
}

fn done_text(alloc: Global, files: &[File], reply: &Reply) -> Result<String, LineFault> {
    match reply {
        Reply::Begun => text_of(alloc, "begun"),
        Reply::Batch { accepted, same } => {
            Ok(format!(in alloc; "accepted {accepted} same {same}")?)
        }
        Reply::Offered { same } => text_of(alloc, if *same { "same" } else { "taken" }),
        Reply::Stored(new) => text_of(alloc, if *new { "stored" } else { "held" }),
        Reply::Pruned { blobs, rows } => Ok(format!(in alloc; "blobs {blobs} rows {rows}")?),
        Reply::Bytes(bytes) => bytes_text(alloc, files, bytes),
        Reply::Absent => text_of(alloc, "absent"),
        Reply::Denied(denial, index) => denial_text(alloc, denial, *index),
    }
}

/// Bytes: the name of the file that has them, or else their number and their digest.
pub fn bytes_text(alloc: Global, files: &[File], bytes: &[u8]) -> Result<String, LineFault> {
    if let Some(name) = name_of(files, bytes) {
        return Ok(format!(in alloc; "file {name}")?);
    }
    let digits = digest_of(bytes).text(alloc)?;
    let length = bytes.len();
    Ok(format!(in alloc; "{length} bytes {digits}")?)
}

/// A denial with its number and its name, what it says is missing, and the index of the document.
pub fn denial_text(
    alloc: Global,
    denial: &Denial,
    index: Option<usize>,
) -> Result<String, LineFault> {
    let (number, name) = (denial.number(), denial.name());
    let missing = missing_text(alloc, denial)?;
    let missing = missing.as_str();
    match index {
        Some(index) => Ok(format!(in alloc; "denied {number} {name}{missing} at {index}")?),
        None => Ok(format!(in alloc; "denied {number} {name}{missing}")?),
    }
}

// What a denial says is missing, with a space before it.
fn missing_text(alloc: Global, denial: &Denial) -> Result<String, LineFault> {
    match denial {
        Denial::RoleMissing { role, version } => Ok(format!(in alloc; " {role} {version}")?),
        Denial::BlobMissing {
            path,
            digest,
            length,
        } => {
            let path = path.as_str();
            let digits = digest.text(alloc)?;
            Ok(format!(in alloc; " {path} {digits} {length}")?)
        }
        _ => Ok(String::new(alloc)),
    }
}

/// The trusted root's version, and the snapshot version that is due.
pub fn due_text(alloc: Global, root: Option<u32>, due: Option<u32>) -> Result<String, LineFault> {
    let mut text = match root {
        Some(version) => format!(in alloc; "root {version}")?,
        None => text_of(alloc, "no root")?,
    };
    if let Some(version) = due {
        write!(text, " snapshot {version} is due")?;
    }
    Ok(text)
}

/// A line for each row.
pub fn rows_text(alloc: Global, files: &[File], rows: &[String]) -> Result<String, LineFault> {
    let mut text = text_of(alloc, "rows")?;
    for line in rows {
        let row = row_text(alloc, files, line.as_str())?;
        let row = row.as_str();
        write!(text, "\n  {row}")?;
    }
    Ok(text)
}

// A line of a row: its table and its key, and its bytes as the name of their file, or else their number and their digest.
fn row_text(alloc: Global, files: &[File], line: &str) -> Result<String, LineFault> {
    let Some((head, digits)) = line.rsplit_once(' ') else {
        return text_of(alloc, line);
    };
    if digits.is_empty() {
        return text_of(alloc, head);
    }
    let bytes = bytes_of_hex(alloc, digits)?;
    let bytes = bytes_text(alloc, files, &bytes)?;
    Ok(format!(in alloc; "{head} {bytes}")?)
}

/// The head of a response, with the blank line, and its body.
pub fn head_and_body(response: &[u8]) -> (&[u8], &[u8]) {
    let mut rest = response;
    for at in 4..=response.len() {
        match rest {
            [b'\r', b'\n', b'\r', b'\n', ..] => return response.split_at(at),
            [_, others @ ..] => rest = others,
            [] => {}
        }
    }
    (response, &[])
}

/// A response in escapes. A body that is a file of more than 64 bytes is told by its name, `{NAME}`.
pub fn response_text(alloc: Global, files: &[File], response: &[u8]) -> Result<String, LineFault> {
    let mut text = String::new(alloc);
    let (head, body) = head_and_body(response);
    push_escaped(&mut text, head)?;
    match name_of(files, body) {
        Some(name) if body.len() > 64 => write!(text, "{{{name}}}")?,
        _ => push_escaped(&mut text, body)?,
    }
    Ok(text)
}
