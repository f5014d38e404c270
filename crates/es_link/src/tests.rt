use super::*;
use es_edge::{Bytes, Got, MemSink, MemSource, NoMemory, Numbers, Sent, Source, put};
use std::alloc::Global;
use std::io::Write;
use std::net::{OpenListener, TcpStream};
use std::test::Fail;

fn link(alloc: Global, bytes: &[u8]) -> Result<MemLink, NoMemory> {
    let input = MemSource::new(Bytes::from_slice(alloc, bytes)?, 2, Numbers::empty(alloc));
    let output = MemSink::new(Bytes::empty(alloc), 2, 8, Numbers::empty(alloc))?;
    Ok(MemLink::new(input, output, false))
}

/// Links come in their order, and each side has what it gave and took; the listed calls fail, and leave the links.
#[test]
fn links_come_in_order(rt: HostRuntime) -> Result<(), Fail> {
    let alloc = rt.alloc();
    let mut links = Links::new(alloc);
    links.push_back(link(alloc, b"abc")?)?;
    links.push_back(link(alloc, b"")?)?;
    let mut listener = MemListener::new(links, Numbers::from_slice(alloc, &[1, 3])?);
    let Bound::Failed = listener.bind("anywhere") else {
        return Err(Fail::new("the first call didn't fail"));
    };
    let Bound::Ok = listener.bind("anywhere") else {
        return Err(Fail::new("the second call failed"));
    };
    let Accepted::Failed = listener.accept() else {
        return Err(Fail::new("the third call didn't fail"));
    };
    let Accepted::Link(mut first) = listener.accept() else {
        return Err(Fail::new("no first link"));
    };
    if first.closed {
        return Err(Fail::new("a closed link"));
    }
    let mut buf = [0u8; 3];
    assert_eq!(rt; first.read(&mut buf), Got::Bytes(2));
    assert_eq!(rt; put(&mut first, b"xyz"), Sent::Ok);
    assert_eq!(rt; first.output.taken.as_slice(), b"xyz".as_slice());
    first.close();
    assert_eq!(rt; first.closed, true);
    let Accepted::Link(mut second) = listener.accept() else {
        return Err(Fail::new("no second link"));
    };
    assert_eq!(rt; second.read(&mut buf), Got::End);
    let Accepted::End = listener.accept() else {
        return Err(Fail::new("a third link"));
    };
    assert_eq!(rt; listener.given, 2);
    assert_eq!(rt; listener.ends, 1);
    assert_eq!(rt; listener.faults, 2);
    Ok(())
}

/// A listener of TCP gives a link that reads what its client wrote; what is no address, and one in use, are faults.
#[test]
fn a_client_is_taken(rt: HostRuntime) -> Result<(), Fail> {
    let mut listener = TcpListener::new(&rt);
    let Bound::Failed = listener.bind("nowhere") else {
        return Err(Fail::new("bound to what is no address"));
    };
    let Bound::Ok = listener.bind("127.0.0.1:0") else {
        return Err(Fail::new("not bound"));
    };
    let Some(socket) = &listener.socket else {
        return Err(Fail::new("no socket"));
    };
    let address = socket.local_addr()?;
    let mut other = TcpListener::new(&rt);
    let Bound::Failed = other.bind(format!(in rt.alloc(); "{address}")?.as_str()) else {
        return Err(Fail::new("bound twice"));
    };
    let mut client = TcpStream::connect(&rt, address)?;
    client.write_all(b"ab")?;
    drop(client);
    let Accepted::Link(mut link) = listener.accept() else {
        return Err(Fail::new("no link"));
    };
    let mut buf = [0u8; 3];
    assert_eq!(rt; link.read(&mut buf), Got::Bytes(2));
    assert_eq!(rt; link.read(&mut buf), Got::End);
    link.close();
    Ok(())
}
