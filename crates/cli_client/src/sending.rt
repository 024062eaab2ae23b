//! A command that the server at a port of 127.0.0.1 is asked for, by one request with a body.
use crate::wire::{Wire, connected, host};
use cli_faults::{Fault, Notes};
use cli_sockets::{FILE_SECONDS, Port, Timer};
use http_fetch::{FetchFault, Message, Method, Reply, SendFault, read_denial, send_over};
use http_messages as messages;
use std::alloc::{AllocError, Global};
use std::fmt;
use std::io::Write;
use std::net::TcpStream;

/// The most bytes of a reply's body, more than any reply to such a command has.
const REPLY_LIMIT: usize = 4096;

const UNKNOWN: &str = "it is not known whether this was taken; sending it again is safe";

/// What a server is asked for: its port, the method, the name after the first `/` of the target, and the body.
#[derive(Clone, Copy)]
pub struct Sending<'a> {
    pub rt: &'a HostRuntime,
    pub port: u16,
    pub method: Method,
    pub name: &'a str,
    pub body: &'a [u8],
}

impl Sending<'_> {
    /// Sends the request over one connection, and answers the body of the reply that says that the command was done. Where the
    /// request was sent and no reply says what became of it, a warning says so.
    pub fn send<E: Write>(&self, notes: &mut Notes<'_, E>) -> Result<Vec<u8>, Fault> {
        match connected(self.rt, "127.0.0.1", self.port, FILE_SECONDS) {
            Ok((stream, timer)) => self.send_by(&stream, timer, notes),
            Err(error) => {
                notes.fault(&Port(self.port), &error);
                Err(Fault::Network)
            }
        }
    }

    fn send_by<E: Write>(
        &self,
        stream: &TcpStream,
        timer: Timer<'_>,
        notes: &mut Notes<'_, E>,
    ) -> Result<Vec<u8>, Fault> {
        let alloc = self.rt.alloc();
        let host = host(alloc, self.port)?;
        let message = Message {
            method: self.method,
            host: host.as_str(),
            name: self.name,
            body: self.body,
        };
        let mut writer = Wire::new(stream, timer, FILE_SECONDS);
        let mut reader = Wire::new(stream, timer, FILE_SECONDS);
        match send_over(alloc, &mut writer, &mut reader, &message, REPLY_LIMIT) {
            Ok(reply) if reply.status == 200 => Ok(reply.body),
            Ok(reply) => Err(self.refused(alloc, &reply, notes)),
            Err(SendFault::Unsent(fault)) => Err(self.fault_of(fault, notes)),
            Err(SendFault::Unanswered(fault)) => {
                let fault = self.fault_of(fault, notes);
                Err(self.unknown(fault, notes))
            }
        }
    }

    // Why the command was not done, by a reply of another status than 200.
    fn refused<E: Write>(&self, alloc: Global, reply: &Reply, notes: &mut Notes<'_, E>) -> Fault {
        let status = reply.status;
        if status == 403 || status == 404 {
            match denied(alloc, &reply.body) {
                Ok(Some(fault)) => return fault,
                Ok(None) => {}
                Err(_) => return Fault::Memory,
            }
        }
        notes.fault(&self.name, &Status(status));
        if status == 503 && reply.body.as_slice() == messages::Fault::Memory.body() {
            return Fault::Memory;
        }
        if status == 503 && reply.body.as_slice() == messages::Fault::Database.body() {
            return self.unknown(Fault::Database, notes);
        }
        if 400 <= status && status <= 499 {
            return Fault::Network;
        }
        self.unknown(Fault::Network, notes)
    }

    /// The fault, where the request was sent and it is not known what became of it.
    pub fn unknown<E: Write>(&self, fault: Fault, notes: &mut Notes<'_, E>) -> Fault {
        notes.warn(&Port(self.port), &UNKNOWN);
        fault
    }

    // What a fault of the connection comes to.
    fn fault_of<E: Write>(&self, fault: FetchFault, notes: &mut Notes<'_, E>) -> Fault {
        notes.fault(&self.name, &fault);
        match fault {
            FetchFault::OutOfMemory => Fault::Memory,
            FetchFault::TooLong | FetchFault::Broken => Fault::Network,
        }
    }
}

// The denial that the body of a reply tells, if it tells one.
fn denied(alloc: Global, body: &[u8]) -> Result<Option<Fault>, AllocError> {
    match read_denial(alloc, body)? {
        Some(denied) => {
            let name = String::from_str(alloc, denied.name)?;
            Ok(Some(Fault::Refused(denied.number, name, denied.index)))
        }
        None => Ok(None),
    }
}

// The status of a reply, as notes tell it.
#[derive(Clone, Copy)]
struct Status(u16);

impl fmt::Display for Status {
    fn fmt<W: fmt::Write>(&self, f: &mut fmt::Formatter<W>) -> fmt::Result {
        let status = self.0;
        match status {
            403 | 404 => write!(
                f,
                "status {status}: a server that only reads has no writing route"
            ),
            _ => write!(f, "status {status}"),
        }
    }
}
