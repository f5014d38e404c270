use super::*;
use es_base::Str;
use std::alloc::Global;
use std::process::Abort;
use std::test::Fail;

#[test]
fn replies(rt: HostRuntime) -> Result<(), Fail> {
    let alloc = rt.alloc();
    let reply = error(alloc, 400, "a\\b", "[\"\n\u{1}é]")?;
    assert_eq!(rt; reply.status(), 400);
    assert_eq!(rt; reply.allow(), "");
    assert_eq!(rt;
        reply.body(),
        "{\"error\":{\"reason\":\"[\\\"\\n\\u0001é]\",\"type\":\"a\\\\b\"},\"status\":400}"
    );
    let reply = Reply::new(405, "GET, PUT", Str::of(alloc, "{}")?);
    assert_eq!(rt; reply.allow(), "GET, PUT");
    Ok(())
}

/// The fixed response of an error: its bytes are the error's reply without a place, after which the connection closes.
fn expect_fixed(
    rt: &impl Abort,
    alloc: Global,
    bytes: &[u8],
    status: u16,
    phrase: &str,
    kind: &str,
    reason: &str,
) -> Result<(), Fail> {
    let reply = error(alloc, status, kind, reason)?;
    let body = reply.body();
    let length = body.len();
    let want = format!(in alloc;
        "HTTP/1.1 {status} {phrase}\r\nconnection: close\r\ncontent-length: {length}\r\ncontent-type: application/json\r\n\r\n{body}"
    )?;
    assert_eq!(rt; bytes, want.as_bytes(), "{status}");
    Ok(())
}

#[test]
fn fixed_responses(rt: HostRuntime) -> Result<(), Fail> {
    let alloc = rt.alloc();
    for (status, bytes, phrase, reason) in [
        (400, fixed(400), "Bad Request", "bad head"),
        (
            411,
            fixed(411),
            "Length Required",
            "transfer coding is not supported",
        ),
        (
            413,
            fixed(413),
            "Payload Too Large",
            "the body is too large",
        ),
        (
            415,
            fixed(415),
            "Unsupported Media Type",
            "content coding is not supported",
        ),
        (
            431,
            fixed(431),
            "Request Header Fields Too Large",
            "the head is too large",
        ),
    ] {
        expect_fixed(&rt, alloc, bytes, status, phrase, "framing", reason)?;
    }
    expect_fixed(
        &rt,
        alloc,
        fixed(503),
        503,
        "Service Unavailable",
        "out_of_memory",
        "out of memory",
    )
}
