// Connections over loopback.
use crate::requests::{NO_ROUTE, NOT_FOUND};
use http_messages::{Receive, Received, Routes, Transmit, read_request, write_fault};
use std::alloc::Global;
use std::io::{Read, Write};
use std::net::{Ipv4Addr, SocketAddr, TcpListener, TcpStream};
use std::test::Fail;

// A client that has sent a request, and the other side of its connection.
fn connected(rt: HostRuntime) -> Result<(TcpStream, TcpStream), Fail> {
    let here = SocketAddr::from((Ipv4Addr::new(127, 0, 0, 1), 0));
    let listener = TcpListener::bind(&rt, here)?;
    let mut client = TcpStream::connect(&rt, listener.local_addr()?)?;
    client.write_all(NO_ROUTE)?;
    let (stream, _) = listener.accept()?;
    Ok((client, stream))
}

// Reads what is no command, and answers it.
fn answer<S: Receive + Transmit>(
    alloc: Global,
    routes: &Routes,
    stream: &mut S,
) -> Result<(), Fail> {
    match read_request(alloc, routes, stream)? {
        Received::Fault(fault) => Ok(write_fault(stream, fault)?),
        _ => Err(Fail::from("a command was read")),
    }
}

// All that the client reads is the answer.
fn is_answered(alloc: Global, client: &mut TcpStream) -> Result<(), Fail> {
    let mut text = Vec::new(alloc);
    client.read_to_end(&mut text)?;
    if text.as_slice() == NOT_FOUND {
        return Ok(());
    }
    Err(Fail::from("the client reads something else"))
}

// One request and its answer, over a socket of one's own or one that is lent.
fn exchange(rt: HostRuntime, routes: &Routes, is_lent: bool) -> Result<(), Fail> {
    let (mut client, mut stream) = connected(rt)?;
    let answered = if is_lent {
        answer(rt.alloc(), routes, &mut &stream)
    } else {
        answer(rt.alloc(), routes, &mut stream)
    };
    drop(stream);
    answered?;
    is_answered(rt.alloc(), &mut client)
}

#[test]
fn loopback(rt: HostRuntime) -> Result<(), Fail> {
    let routes = Routes::new(rt.alloc())?;
    exchange(rt, &routes, false)?;
    exchange(rt, &routes, true)
}
