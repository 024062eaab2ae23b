//! The port of `serve`, and the connections that come to it.
use cli_faults::{Fault, Notes};
use std::io::{self, ErrorKind, Write};
use std::net::{Ipv4Addr, SocketAddr, TcpListener, TcpStream};
use std::thread;
use std::time::Duration;

// The system's numbers of errors of `accept` (Linux, accept(2)): no descriptor is free, in the system or the process, or no
// memory for one.
const WANTING: [i32; 4] = [23, 24, 12, 105];

// Errors of a connection that was given up before it was accepted: EPROTO, ENOPROTOOPT, ENONET, ENETDOWN, ENETUNREACH,
// ETIMEDOUT, EHOSTDOWN, EHOSTUNREACH.
const GIVEN_UP: [i32; 8] = [71, 92, 64, 100, 101, 110, 112, 113];

// So many milliseconds are waited before a descriptor is looked for again.
const WAIT: u64 = 100;

/// Listens on the port of 127.0.0.1.
pub fn listen<E: Write>(
    rt: &HostRuntime,
    port: u16,
    notes: &mut Notes<'_, E>,
) -> Result<TcpListener, Fault> {
    let here = Ipv4Addr::new(127, 0, 0, 1);
    match TcpListener::bind(rt, SocketAddr::from((here, port))) {
        Ok(listener) => Ok(listener),
        Err(error) => {
            notes.fault(&Port(port), &error);
            Err(Fault::Network)
        }
    }
}

/// The next connection. One that its peer gave up before it was accepted is passed over, and where no descriptor is free, one
/// is waited for.
pub fn next_stream<E: Write>(
    rt: &HostRuntime,
    listener: &TcpListener,
    notes: &mut Notes<'_, E>,
) -> Result<TcpStream, Fault> {
    for stream in listener.incoming() {
        match stream {
            Ok(stream) => return Ok(stream),
            Err(error) if is_given_up(&error) => {}
            Err(error) if is_wanting(&error) => wait(rt, &error, notes),
            Err(error) => {
                notes.fault(&"accept", &error);
                return Err(Fault::Network);
            }
        }
    }
    Err(Fault::Network)
}

fn is_given_up(error: &io::Error) -> bool {
    match error.raw_os_error() {
        Some(number) if GIVEN_UP.contains(&number) => true,
        _ => error.kind() == ErrorKind::ConnectionAborted || error.kind() == ErrorKind::Interrupted,
    }
}

fn is_wanting(error: &io::Error) -> bool {
    match error.raw_os_error() {
        Some(number) => WANTING.contains(&number),
        None => false,
    }
}

fn wait<E: Write>(rt: &HostRuntime, error: &io::Error, notes: &mut Notes<'_, E>) {
    notes.tell(&"accept", error);
    thread::sleep(rt, Duration::from_millis(WAIT));
}

/// A port, as notes name it.
#[derive(Drop)]
pub struct Port(pub u16);

impl std::fmt::Display for Port {
    fn fmt<W: std::fmt::Write>(&self, f: &mut std::fmt::Formatter<W>) -> std::fmt::Result {
        let port = self.0;
        write!(f, "port {port}")
    }
}
