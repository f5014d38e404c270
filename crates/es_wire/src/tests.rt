ghost use Rattle.std.specs.Prelude.{◌<◌};

use super::*;
use es_base::Str;
use es_edge::{Bytes, MemSink, MemSource, Numbers};
use std::alloc::Global;
use std::test::Fail;

/// What the connection answers until it ends, as lines: each request with its method, target, fields, body and whether it is the last.
fn told(alloc: Global, bytes: &[u8], piece: usize, failing: &[u64]) -> Result<Vec<u8>, Fail>
    requires { 0 < piece }
{
    let bytes = Bytes::from_slice(alloc, bytes)?;
    let mut source = MemSource::new(bytes, piece, Numbers::from_slice(alloc, failing)?);
    let mut conn = Conn::open(alloc)?;
    let mut lines = Vec::new(alloc);
    for _ in 0..5 {
        match conn.next(&mut source) {
            Next::Request(raw) => tell(&mut lines, &raw)?,
            Next::Ended => return with_end(lines, b"Ended"),
            Next::Truncated => return with_end(lines, b"Truncated"),
            Next::BadHead => return with_end(lines, b"BadHead"),
            Next::ReadFault => return with_end(lines, b"ReadFault"),
            Next::NoMemory => return with_end(lines, b"NoMemory"),
        }
    }
    with_end(lines, b"goes on")
}

fn with_end(mut lines: Vec<u8>, end: &[u8]) -> Result<Vec<u8>, Fail> {
    lines.extend_from_slice(end)?;
    Ok(lines)
}

fn tell(lines: &mut Vec<u8>, raw: &RawRequest) -> Result<(), Fail> {
    lines.extend_from_slice(raw.method.text().as_bytes())?;
    lines.extend_from_slice(b" ")?;
    lines.extend_from_slice(raw.target.as_slice())?;
    tell_once(lines, b" authorization", &raw.authorization)?;
    tell_once(lines, b" run as", &raw.run_as)?;
    tell_once(lines, b" seen", &raw.seen)?;
    lines.extend_from_slice(b" body ")?;
    lines.extend_from_slice(raw.body.as_slice())?;
    let last = if raw.last {
        b" last\n".as_slice()
    } else {
        b"\n"
    };
    lines.extend_from_slice(last)?;
    Ok(())
}

fn tell_once(lines: &mut Vec<u8>, name: &[u8], once: &Once) -> Result<(), Fail> {
    match once {
        Once::Absent => {}
        Once::One(value) => {
            lines.extend_from_slice(name)?;
            lines.extend_from_slice(b" ")?;
            lines.extend_from_slice(value.as_slice())?;
        }
        Once::Twice => {
            lines.extend_from_slice(name)?;
            lines.extend_from_slice(b" twice")?;
        }
    }
    Ok(())
}

#[test]
fn pipelined_requests(rt: HostRuntime) -> Result<(), Fail> {
    let alloc = rt.alloc();
    let text =
        b"PUT /hr HTTP/1.1\r\nAuthorization: Bearer T\r\nES-Security-Runas-User:  ann \t\r\n\r\nDELETE /a?b HTTP/1.1\nesec-seen: 4\nesec-seen: 5\nContent-Length: 2\n\n{}PUT /x HT";
    let want =
        b"PUT /hr authorization Bearer T run as ann body \nDELETE /a?b seen twice body {}\nTruncated";
    for piece in [1, 3, 4096] {
        let lines = told(alloc, text, piece, &[])?;
        assert_eq!(rt; lines.as_slice(), want.as_slice(), "in pieces of {piece}");
    }
    Ok(())
}

/// The source fails at the call of that number, and never where it is 0.
#[test]
fn ends_of_connections(rt: HostRuntime) -> Result<(), Fail> {
    let alloc = rt.alloc();
    for (text, failing, want) in [
        ("", 0, "Ended"),
        (
            "PUT / HTTP/1.1\r\ncontent-encoding: identity\r\ncontent-length: 000000000000000001\r\n\r\na",
            0,
            "PUT / body a\nEnded",
        ),
        ("GET / HTTP/1.1\r\n\r\n", 0, "GET / body \nEnded"),
        ("GET / HTTP/1.1\r\n\r\n", 2, "ReadFault"),
        ("GET / HTTP/1.1\r\n\r\n", 3, "GET / body \nReadFault"),
        (
            "PUT / HTTP/1.1\r\ncontent-length: 3\r\n\r\nab",
            0,
            "Truncated",
        ),
    ] {
        let lines = told(alloc, text.as_bytes(), 9, &[failing])?;
        assert_eq!(rt; lines.as_slice(), want.as_bytes(), "{text} {failing}");
    }
    Ok(())
}

#[test]
fn last_requests(rt: HostRuntime) -> Result<(), Fail> {
    let alloc = rt.alloc();
    for (text, want) in [
        ("GET /a HTTP/1.0\r\n\r\n", "GET /a body  last\nEnded"),
        (
            "GET /a HTTP/1.1\r\nConnection: keep-alive,\t Close \r\n\r\n",
            "GET /a body  last\nEnded",
        ),
        (
            "GET /a HTTP/1.1\r\nconnection: x\r\nconnection: close\r\n\r\n",
            "GET /a body  last\nEnded",
        ),
        (
            "GET /a HTTP/1.1\r\nconnection: closed, clo se\r\n\r\n",
            "GET /a body \nEnded",
        ),
    ] {
        let lines = told(alloc, text.as_bytes(), 7, &[])?;
        assert_eq!(rt; lines.as_slice(), want.as_bytes(), "{text}");
    }
    Ok(())
}

#[test]
fn refused_heads(rt: HostRuntime) -> Result<(), Fail> {
    let alloc = rt.alloc();
    for text in [
        "GET /x y\r\n",
        "PUT / HTTP/1.1\r\ntransfer-encoding: chunked\r\n\r\n",
        "PUT / HTTP/1.1\r\ncontent-encoding: gzip\r\n\r\n",
        "PUT / HTTP/1.1\r\ncontent-encoding: Identity\r\n\r\n",
        "PUT / HTTP/1.1\r\ncontent-encoding: identity\r\ncontent-encoding: br\r\n\r\n",
        "PUT / HTTP/1.1\r\ncontent-length: 1\r\ncontent-length: 1\r\n\r\na",
        "PUT / HTTP/1.1\r\ncontent-length: +2\r\n\r\nab",
        "PUT / HTTP/1.1\r\ncontent-length:\r\n\r\n",
        "PUT / HTTP/1.1\r\ncontent-length: 0000000000000000001\r\n\r\na",
        "PUT / HTTP/1.1\r\ncontent-length: 1048577\r\n\r\n",
    ] {
        let lines = told(alloc, text.as_bytes(), 7, &[])?;
        assert_eq!(rt; lines.as_slice(), b"BadHead".as_slice(), "{text}");
    }
    Ok(())
}

/// A head of so many fields, each of four bytes.
fn head_of(alloc: Global, fields: usize) -> Result<Vec<u8>, Fail> {
    let mut head = Vec::new(alloc);
    head.extend_from_slice(b"GET / HTTP/1.1\n")?;
    for _ in 0..fields {
        head.extend_from_slice(b"a:b\n")?;
    }
    head.extend_from_slice(b"\n")?;
    Ok(head)
}

/// A head that ends nowhere, of so many bytes.
fn long_head(alloc: Global, length: usize) -> Result<Vec<u8>, Fail> {
    let mut head = Vec::new(alloc);
    head.extend_from_slice(b"GET / HTTP/1.1\na:")?;
    for _ in head.len()..length {
        head.push(b'b')?;
    }
    Ok(head)
}

#[test]
fn limits_of_heads(rt: HostRuntime) -> Result<(), Fail> {
    let alloc = rt.alloc();
    for (head, want) in [
        (head_of(alloc, 100)?, "GET / body \nEnded"),
        (head_of(alloc, 101)?, "BadHead"),
        (long_head(alloc, 16383)?, "Truncated"),
        (long_head(alloc, 16384)?, "BadHead"),
    ] {
        let lines = told(alloc, head.as_slice(), 4096, &[])?;
        assert_eq!(rt; lines.as_slice(), want.as_bytes());
    }
    Ok(())
}

/// The longest body, in pieces of one byte, and a request behind it.
#[test]
fn longest_body(rt: HostRuntime) -> Result<(), Fail> {
    let alloc = rt.alloc();
    let mut bytes = Vec::new(alloc);
    bytes.extend_from_slice(b"PUT / HTTP/1.1\r\ncontent-length: 1048576\r\n\r\n")?;
    for _ in 0..1048576 {
        bytes.push(b'x')?;
    }
    bytes.extend_from_slice(b"GET /y HTTP/1.1\r\n\r\n")?;
    let lines = told(alloc, bytes.as_slice(), 1, &[])?;
    assert_eq!(rt; lines.len(), 1048606);
    Ok(())
}

/// What a sink that takes all at once has after the response, and in how many writes.
fn sent(
    alloc: Global,
    reply: &Reply,
    place: Option<u64>,
    close: bool,
) -> Result<(Vec<u8>, u64), Fail> {
    let mut sink = MemSink::new(Bytes::empty(alloc), 4096, 4096, Numbers::empty(alloc))?;
    let _ = send(&mut sink, reply, place, close);
    let MemSink { taken, calls, .. } = sink;
    Ok((taken, calls))
}

/// Each is one write.
#[test]
fn responses(rt: HostRuntime) -> Result<(), Fail> {
    let alloc = rt.alloc();
    for (status, allow, body, place, close, want) in [
        (
            200,
            "",
            "{}",
            Some(7),
            false,
            "HTTP/1.1 200 OK\r\ncontent-length: 2\r\ncontent-type: application/json\r\nesec-place: 7\r\n\r\n{}",
        ),
        (
            200,
            "",
            "{}",
            None,
            true,
            "HTTP/1.1 200 OK\r\nconnection: close\r\ncontent-length: 2\r\ncontent-type: application/json\r\n\r\n{}",
        ),
        (
            405,
            "GET, PUT",
            "[]",
            Some(18446744073709551615),
            true,
            "HTTP/1.1 405 Method Not Allowed\r\nallow: GET, PUT\r\nconnection: close\r\ncontent-length: 2\r\ncontent-type: application/json\r\nesec-place: 18446744073709551615\r\n\r\n[]",
        ),
        (
            401,
            "",
            "{}",
            Some(1),
            false,
            "HTTP/1.1 401 Unauthorized\r\ncontent-length: 2\r\ncontent-type: application/json\r\nesec-place: 1\r\nwww-authenticate: Bearer, ApiKey\r\n\r\n{}",
        ),
        (
            299,
            "",
            "",
            None,
            false,
            "HTTP/1.1 299 \r\ncontent-length: 0\r\ncontent-type: application/json\r\n\r\n",
        ),
    ] {
        let reply = Reply::new(status, allow, Str::of(alloc, body)?);
        let (bytes, calls) = sent(alloc, &reply, place, close)?;
        assert_eq!(rt; bytes.as_slice(), want.as_bytes());
        assert_eq!(rt; calls, 1);
    }
    Ok(())
}

/// A long body is a write of its own.
#[test]
fn long_responses(rt: HostRuntime) -> Result<(), Fail> {
    let alloc = rt.alloc();
    let mut text = Str::empty(alloc);
    for _ in 0..1000 {
        text.push_str("xy")?;
    }
    let reply = Reply::new(200, "", text);
    let (bytes, calls) = sent(alloc, &reply, None, false)?;
    assert_eq!(rt; bytes.len(), 73 + 2000);
    assert_eq!(rt; calls, 2);
    Ok(())
}

/// A sink that fails at its third write, of ten bytes each.
#[test]
fn faults_of_sinks(rt: HostRuntime) -> Result<(), Fail> {
    let alloc = rt.alloc();
    let reply = Reply::new(404, "", Str::of(alloc, "{}")?);
    let failing = Numbers::from_slice(alloc, &[3])?;
    let mut sink = MemSink::new(Bytes::empty(alloc), 10, 100, failing)?;
    assert_eq!(rt; send(&mut sink, &reply, Some(3), false), Sent::WriteFault);
    assert_eq!(rt; sink.taken.as_slice(), b"HTTP/1.1 404 Not Fou".as_slice());
    let mut sink = MemSink::new(Bytes::empty(alloc), 10, 100, Numbers::empty(alloc))?;
    assert_eq!(rt; send(&mut sink, &reply, Some(3), false), Sent::Ok);
    assert_eq!(rt; sink.taken.len(), 94);
    Ok(())
}
