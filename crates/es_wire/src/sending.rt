//! Responses.
ghost use Rattle.std.specs.Prelude.{◌≡◌, ℕ, List, [], ◌++◌, true};
ghost use Rattle.es_edge.specs.Sends.{Sends};
ghost use Rattle.es_wire.specs.Gathers.{Gathers};
ghost use Rattle.es_response.specs.Reply.{response, phrase_of, status_line, allow_line, length_line, line_if, place_line};

use crate::Reply;
use arrayvec::ArrayVec;
use es_edge::{Sent, Sink, put};
use itoa::Buffer;

/// As many bytes as are gathered into one write.
const ROOM: usize = 1024;

/// The bytes that wait to be written, and whether the sink failed.
#[derive(Drop)]
struct Gathered {
    held: ArrayVec<u8, ROOM>,
    so_far: Sent,
}

/// Writes the response. At a fault a part at its front was written. It takes no memory.
pub fn send<K: Sink>(sink: &mut K, reply: &Reply, place: Option<u64>, close: bool) -> Sent
    requires { (K.output sink.old).is_open ≡ true }
    ensures sends { Sends (K.output sink.old) (K.output sink.new) (response reply.now place close) result }
    ensures leaves { K.write_leaves sink.old sink.new }
{
    let body = reply.body().as_bytes();
    let mut out = Gathered {
        held: ArrayVec::new(),
        so_far: Sent::Ok,
    };
    add_status_line(&mut out, sink, reply.status());
    add_allow_line(&mut out, sink, reply);
    add(&mut out, sink, bytes_if(close, b"connection: close\r\n"));
    add_length_line(&mut out, sink, body);
    add(&mut out, sink, b"content-type: application/json\r\n");
    add_place_line(&mut out, sink, place);
    add(
        &mut out,
        sink,
        bytes_if(
            reply.status() == 401,
            b"www-authenticate: Bearer, ApiKey\r\n",
        ),
    );
    add(&mut out, sink, b"\r\n");
    add(&mut out, sink, body);
    finish(out, sink)
}

/// Writes what waits.
fn finish<K: Sink>(out: Gathered, sink: &mut K) -> Sent
    requires { (K.output sink.old).is_open ≡ true }
    ensures sends { (first : K) (bytes : List ℕ)
        → Gathers K.output K.write_leaves first sink.old out.held.items out.so_far bytes
        → Sends (K.output first) (K.output sink.new) bytes result }
    ensures leaves { K.write_leaves sink.old sink.new }
{
    match out.so_far {
        Sent::Ok => put(sink, out.held.as_slice()),
        Sent::WriteFault => Sent::WriteFault,
    }
}

/// Bytes more. They wait where there is room; else what waits is written first.
fn add<K: Sink>(out: &mut Gathered, sink: &mut K, bytes: &[u8])
    requires { (K.output sink.old).is_open ≡ true }
    ensures gathers { (first : K) (before : List ℕ)
        → Gathers K.output K.write_leaves first sink.old out.old.held.items out.old.so_far before
        → Gathers K.output K.write_leaves first sink.new out.new.held.items out.new.so_far (before ++ bytes.now) }
    ensures open { (K.output sink.new).is_open ≡ true }
{
    match out.so_far {
        Sent::Ok => {}
        Sent::WriteFault => return,
    }
    if bytes.len() <= out.held.remaining_capacity() {
        out.held.try_extend_from_slice(bytes).unwrap();
        return;
    }
    out.so_far = put_both(sink, out.held.as_slice(), bytes);
    out.held.clear();
}

/// Writes some bytes and then others.
fn put_both<K: Sink>(sink: &mut K, first: &[u8], second: &[u8]) -> Sent
    requires { (K.output sink.old).is_open ≡ true }
    ensures sends { Sends (K.output sink.old) (K.output sink.new) (first.now ++ second.now) result }
    ensures leaves { K.write_leaves sink.old sink.new }
{
    match put(sink, first) {
        Sent::Ok => put(sink, second),
        Sent::WriteFault => Sent::WriteFault,
    }
}

/// Three pieces more.
fn add_three<K: Sink>(out: &mut Gathered, sink: &mut K, first: &[u8], second: &[u8], third: &[u8])
    requires { (K.output sink.old).is_open ≡ true }
    ensures gathers { (start : K) (before : List ℕ)
        → Gathers K.output K.write_leaves start sink.old out.old.held.items out.old.so_far before
        → Gathers K.output K.write_leaves start sink.new out.new.held.items out.new.so_far (before ++ (first.now ++ (second.now ++ third.now))) }
    ensures open { (K.output sink.new).is_open ≡ true }
{
    add(out, sink, first);
    add(out, sink, second);
    add(out, sink, third);
}

fn add_status_line<K: Sink>(out: &mut Gathered, sink: &mut K, status: u16)
    requires { (K.output sink.old).is_open ≡ true }
    ensures gathers { (first : K) (before : List ℕ)
        → Gathers K.output K.write_leaves first sink.old out.old.held.items out.old.so_far before
        → Gathers K.output K.write_leaves first sink.new out.new.held.items out.new.so_far (before ++ status_line status) }
    ensures open { (K.output sink.new).is_open ≡ true }
{
    let mut buffer = Buffer::new();
    let status_text = buffer.format(status).as_bytes();
    add_three(out, sink, b"HTTP/1.1 ", status_text, b" ");
    add_three(out, sink, phrase(status), b"\r\n", b"");
}

fn add_allow_line<K: Sink>(out: &mut Gathered, sink: &mut K, reply: &Reply)
    requires { (K.output sink.old).is_open ≡ true }
    ensures gathers { (first : K) (before : List ℕ)
        → Gathers K.output K.write_leaves first sink.old out.old.held.items out.old.so_far before
        → Gathers K.output K.write_leaves first sink.new out.new.held.items out.new.so_far (before ++ allow_line reply.now) }
    ensures open { (K.output sink.new).is_open ≡ true }
{
    if reply.status() == 405 {
        add_three(out, sink, b"allow: ", reply.allow().as_bytes(), b"\r\n");
    }
}

fn add_length_line<K: Sink>(out: &mut Gathered, sink: &mut K, body: &[u8])
    requires { (K.output sink.old).is_open ≡ true }
    ensures gathers { (first : K) (before : List ℕ)
        → Gathers K.output K.write_leaves first sink.old out.old.held.items out.old.so_far before
        → Gathers K.output K.write_leaves first sink.new out.new.held.items out.new.so_far (before ++ length_line body.now) }
    ensures open { (K.output sink.new).is_open ≡ true }
{
    let mut buffer = Buffer::new();
    let length = buffer.format(body.len()).as_bytes();
    add_three(out, sink, b"content-length: ", length, b"\r\n");
}

fn add_place_line<K: Sink>(out: &mut Gathered, sink: &mut K, place: Option<u64>)
    requires { (K.output sink.old).is_open ≡ true }
    ensures gathers { (first : K) (before : List ℕ)
        → Gathers K.output K.write_leaves first sink.old out.old.held.items out.old.so_far before
        → Gathers K.output K.write_leaves first sink.new out.new.held.items out.new.so_far (before ++ place_line place) }
    ensures open { (K.output sink.new).is_open ≡ true }
{
    if let Some(place) = place {
        let mut buffer = Buffer::new();
        let place_text = buffer.format(place).as_bytes();
        add_three(out, sink, b"esec-place: ", place_text, b"\r\n");
    }
}

/// The bytes, where they apply.
fn bytes_if(applies: bool, bytes: &'static [u8]) -> &'static [u8]
    ensures { result.now ≡ line_if applies bytes.now }
{
    if applies { bytes } else { b"" }
}

/// The phrase behind a status (RFC 9110, section 15).
fn phrase(status: u16) -> &'static [u8]
    ensures { result.now ≡ phrase_of status }
{
    match status {
        200 => b"OK",
        201 => b"Created",
        400 => b"Bad Request",
        401 => b"Unauthorized",
        403 => b"Forbidden",
        404 => b"Not Found",
        405 => b"Method Not Allowed",
        409 => b"Conflict",
        411 => b"Length Required",
        413 => b"Payload Too Large",
        415 => b"Unsupported Media Type",
        431 => b"Request Header Fields Too Large",
        501 => b"Not Implemented",
        503 => b"Service Unavailable",
        _ => b"",
    }
}
