// One connection over loopback. One function owns the store, and lends it.
use crate::documents::ROOT;
use http_serve::{Moment, Routes, Store, serve_one};
use sqlite::{Connection, MemStore};
use std::alloc::Global;
use std::io::{Read, Write};
use std::net::{Ipv4Addr, SocketAddr, TcpListener, TcpStream};
use std::test::Fail;
use store::{Command, StoreFault};

const REQUEST: &[u8] = b"GET /metadata/1.root.json HTTP/1.1\r\n\r\n";

// A client that has sent a request, and the other side of its connection.
fn connected(rt: HostRuntime) -> Result<(TcpStream, TcpStream), Fail> {
    let here = SocketAddr::from((Ipv4Addr::new(127, 0, 0, 1), 0));
    let listener = TcpListener::bind(&rt, here)?;
    let mut client = TcpStream::connect(&rt, listener.local_addr()?)?;
    client.write_all(REQUEST)?;
    let (stream, _) = listener.accept()?;
    Ok((client, stream))
}

// The client reads a reply with the file's bytes, to the end of the connection.
fn is_answered(rt: HostRuntime, client: &mut TcpStream) -> Result<(), Fail> {
    let mut text = Vec::new(rt.alloc());
    client.read_to_end(&mut text)?;
    if text.starts_with(b"HTTP/1.1 200 OK\r\n") && text.ends_with(ROOT.as_bytes()) {
        return Ok(());
    }
    Err(Fail::from("the client reads something else"))
}

// A store that has its first root serves the accepted connection.
fn exchange(rt: HostRuntime, store: &mut Store<MemStore>) -> Result<(), Fail> {
    let Some(now) = Moment::new(1_893_456_000) else {
        return Err(Fail::from("no moment"));
    };
    let _ = store.apply(Command::Init(ROOT.as_bytes()), now)?;
    let routes = Routes::new(rt.alloc())?;
    let (mut client, stream) = connected(rt)?;
    let served = serve_one(rt.alloc(), &routes, &mut &stream, &mut &stream, store, now);
    drop(stream);
    served?;
    is_answered(rt, &mut client)
}

// The store over a connection in memory.
fn opened(alloc: Global, conn: Connection<MemStore>) -> Result<Store<MemStore>, StoreFault> {
    match Store::open_over(alloc, conn) {
        Ok(store) => Ok(store),
        Err(unopened) => Err(unopened.fault),
    }
}

#[test]
fn loopback(rt: HostRuntime) -> Result<(), Fail> {
    let conn = Connection::open_in_memory(rt.alloc())?;
    let mut store = opened(rt.alloc(), conn)?;
    exchange(rt, &mut store)
}
