//! `publish`, `put` and `prune` over a repository that is served at a port of 127.0.0.1. The moment is the server's.
use crate::asking::Asking;
use crate::sending::Sending;
use cli_faults::{Denial, Fault, MOST_DENIALS, Notes};
use cli_files::{print, read_at_most};
use cli_repository::{Batch, Offer, role_of, tell_argument};
use cli_sockets::Port;
use http_fetch::{Method, read_accepted, read_pruned};
use http_messages::{BATCH_LIMIT, BLOB_LIMIT, stored_body};
use metadata::digest_of;
use std::io::{IsTerminal, Write};

/// Has the server put the target files, offers it the documents together, and prints how many were accepted and how many were held already, as
/// `publish` over a database does. Documents that are together longer than a server takes are a fault of a file, before they are offered. What
/// `publish` over a database warns of is warned of, and why a document was denied is told, as far as the server answers what it holds.
pub fn publish_at<O: Write, E: Write>(
    rt: &HostRuntime,
    port: u16,
    batch: Batch<'_>,
    out: &mut O,
    notes: &mut Notes<'_, E>,
) -> Result<(), Fault> {
    let is_watched = rt.stderr().is_terminal();
    for (index, digest) in batch.files.digests.iter().enumerate() {
        if is_watched {
            batch.files.tell_put(index, notes);
        }
        let bytes = batch.files.read(digest, notes)?;
        let digits = digest.digits();
        let name = str::from_utf8(&digits).unwrap_or("-");
        put_bytes_at(rt, port, name, &bytes, &mut Vec::new(rt.alloc()), notes)?;
    }
    let body = batch_body(rt, batch.documents, notes)?;
    publish_body(rt, port, batch, &body, out, notes)
}

// Sends what is offered.
fn publish_body<O: Write, E: Write>(
    rt: &HostRuntime,
    port: u16,
    batch: Batch<'_>,
    body: &[u8],
    out: &mut O,
    notes: &mut Notes<'_, E>,
) -> Result<(), Fault> {
    let (alloc, count) = (rt.alloc(), batch.documents.len());
    let mut asking = Asking { rt, port };
    let before = batch.before(alloc, &mut asking, notes);
    let sending = Sending {
        rt,
        port,
        method: Method::Post,
        name: "batch",
        body,
    };
    let sent = believed(sending, count, sending.send(notes), notes);
    if let Err(Fault::Refused(number, _, Some(index))) = &sent {
        batch.tell(alloc, &mut asking, *number, *index, notes);
    }
    let reply = tell_argument(sent, batch.arguments, notes)?;
    let Some(same) = same_of(&reply, count) else {
        return Err(sending.unknown(Fault::Network, notes));
    };
    batch.warn_after(alloc, &mut asking, before, same, &Port(port), notes);
    print(out, &reply, notes)?;
    print(out, b"\n", notes)
}

// What was answered to a batch of so many documents, where it can be so: a denial has a number that there is, and is about one of the
// documents or about all.
fn believed<E: Write>(
    sending: Sending<'_>,
    documents: usize,
    sent: Result<Vec<u8>, Fault>,
    notes: &mut Notes<'_, E>,
) -> Result<Vec<u8>, Fault> {
    match sent {
        Err(Fault::Refused(number, name, index)) => {
            if number == 0
                || number > MOST_DENIALS
                || index.is_some_and(|index| index > documents)
            {
                return Err(sending.unknown(Fault::Network, notes));
            }
            Err(Fault::Refused(number, name, index))
        }
        sent => sent,
    }
}

// How many of so many documents a reply counts as the same: those and the accepted ones are all.
fn same_of(reply: &[u8], documents: usize) -> Option<usize> {
    let (accepted, same) = read_accepted(reply)?;
    if accepted.checked_add(same)? == documents {
        Some(same)
    } else {
        None
    }
}

// The documents as the body of a batch: each after a line with its role and its length.
fn batch_body<E: Write>(
    rt: &HostRuntime,
    documents: &[(Offer, &[u8])],
    notes: &mut Notes<'_, E>,
) -> Result<Vec<u8>, Fault> {
    let alloc = rt.alloc();
    let mut body = Vec::new(alloc);
    for (offer, bytes) in documents {
        let (role, len) = (role_of(offer), bytes.len());
        let line = format!(in alloc; "{role} {len}\n")?;
        body.extend_from_slice(line.as_bytes())?;
        body.extend_from_slice(bytes)?;
        if (body.len() as u64) > BATCH_LIMIT {
            notes.fault(&"the documents together", &"longer than a server takes");
            return Err(Fault::File);
        }
    }
    Ok(body)
}

/// Stores the file under its SHA-256 by the server, and prints its 64 hex digits, also where it was stored already. A file that is longer
/// than any is denied before the server is asked.
pub fn put_at<O: Write, E: Write>(
    rt: &HostRuntime,
    port: u16,
    file: &str,
    out: &mut O,
    notes: &mut Notes<'_, E>,
) -> Result<(), Fault> {
    let bytes = read_at_most(rt, file, BLOB_LIMIT, notes)?;
    if bytes.len() > BLOB_LIMIT {
        notes.denied(&file, Denial::BlobLength.number());
        return Err(Fault::Denied(Denial::BlobLength, None));
    }
    put_bytes_at(rt, port, file, &bytes, out, notes)
}

// The same of bytes that were read already, at most as many as a file may have. What is told of them has this name.
fn put_bytes_at<O: Write, E: Write>(
    rt: &HostRuntime,
    port: u16,
    file: &str,
    bytes: &[u8],
    out: &mut O,
    notes: &mut Notes<'_, E>,
) -> Result<(), Fault> {
    let digits = digest_of(bytes).digits();
    let digits = str::from_utf8(&digits).unwrap_or("-");
    let name = format!(in rt.alloc(); "blobs/{digits}")?;
    let sending = Sending {
        rt,
        port,
        method: Method::Put,
        name: name.as_str(),
        body: bytes,
    };
    let reply = told(sending.send(notes), file, notes)?;
    if reply.as_slice() != stored_body(true) && reply.as_slice() != stored_body(false) {
        return Err(sending.unknown(Fault::Network, notes));
    }
    print(out, digits.as_bytes(), notes)?;
    print(out, b"\n", notes)
}

/// Has the server take away what the listed documents do not ask for, and prints how many target files and documents went.
pub fn prune_at<O: Write, E: Write>(
    rt: &HostRuntime,
    port: u16,
    out: &mut O,
    notes: &mut Notes<'_, E>,
) -> Result<(), Fault> {
    let sending = Sending {
        rt,
        port,
        method: Method::Post,
        name: "prune",
        body: b"",
    };
    let reply = told(sending.send(notes), sending.name, notes)?;
    if read_pruned(&reply).is_none() {
        return Err(sending.unknown(Fault::Network, notes));
    }
    print(out, &reply, notes)?;
    print(out, b"\n", notes)
}

// What was answered, where a denial is told with what it is about.
fn told<E: Write>(
    sent: Result<Vec<u8>, Fault>,
    name: &str,
    notes: &mut Notes<'_, E>,
) -> Result<Vec<u8>, Fault> {
    if let Err(Fault::Refused(number, _, _)) = &sent {
        notes.denied(&name, *number);
    }
    sent
}
