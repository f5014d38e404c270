//! Requests and responses of HTTP/1.1 (RFC 9112), written out from the lines of a row.
use crate::escapes::unescaped;
use crate::fault::Fault;
use crate::words::cut;
use base64::engine::general_purpose::STANDARD;
use std::alloc::Global;

/// The request of the words `WHO METHOD TARGET BODY`, with these fields beside its credentials and its length. WHO is `-`
/// without credentials, else `name:secret`.
pub fn request(alloc: Global, words: &[u8], fields: &[u8]) -> Result<Vec<u8>, Fault> {
    let (who, words) = cut(words);
    let (method, words) = cut(words);
    let (target, body) = cut(words);
    let target = unescaped(alloc, target)?;
    let body = unescaped(alloc, body)?;
    let length = body.len();
    let mut bytes = method.to_vec(alloc)?;
    bytes.extend_from_slice(b" ")?;
    bytes.extend_from_slice(&target)?;
    bytes.extend_from_slice(b" HTTP/1.1\r\n")?;
    if who != b"-".as_slice() {
        let token = STANDARD.encode(alloc, who)?;
        bytes.extend_from_slice(format!(in alloc;
            "authorization: Bearer {token}\r\n"
        )?.as_bytes())?;
    }
    bytes.extend_from_slice(fields)?;
    bytes.extend_from_slice(format!(in alloc; "content-length: {length}\r\n\r\n")?.as_bytes())?;
    bytes.extend_from_slice(&body)?;
    Ok(bytes)
}

/// The response of the words `STATUS PLACE BODY`, with or without `connection: close`. PLACE is `-` without a place, and
/// `allow` is empty where the response has no such field.
pub fn response(alloc: Global, words: &[u8], allow: &[u8], closes: bool) -> Result<Vec<u8>, Fault> {
    let (status, words) = cut(words);
    let (place, body) = cut(words);
    let body = unescaped(alloc, body)?;
    let length = body.len();
    let mut bytes = b"HTTP/1.1 ".to_vec(alloc)?;
    bytes.extend_from_slice(status)?;
    bytes.extend_from_slice(phrase(status)?.as_bytes())?;
    if !allow.is_empty() {
        bytes.extend_from_slice(b"\r\nallow: ")?;
        bytes.extend_from_slice(allow)?;
    }
    if closes {
        bytes.extend_from_slice(b"\r\nconnection: close")?;
    }
    bytes.extend_from_slice(format!(in alloc; "\r\ncontent-length: {length}")?.as_bytes())?;
    bytes.extend_from_slice(b"\r\ncontent-type: application/json")?;
    if place != b"-".as_slice() {
        bytes.extend_from_slice(b"\r\nesec-place: ")?;
        bytes.extend_from_slice(place)?;
    }
    if status == b"401".as_slice() {
        bytes.extend_from_slice(b"\r\nwww-authenticate: Bearer, ApiKey")?;
    }
    bytes.extend_from_slice(b"\r\n\r\n")?;
    bytes.extend_from_slice(&body)?;
    Ok(bytes)
}

/// A blank and the phrase behind a status (RFC 9110, section 15).
fn phrase(status: &[u8]) -> Result<&'static str, Fault> {
    match status {
        b"200" => Ok(" OK"),
        b"201" => Ok(" Created"),
        b"400" => Ok(" Bad Request"),
        b"401" => Ok(" Unauthorized"),
        b"403" => Ok(" Forbidden"),
        b"404" => Ok(" Not Found"),
        b"405" => Ok(" Method Not Allowed"),
        b"409" => Ok(" Conflict"),
        b"411" => Ok(" Length Required"),
        b"413" => Ok(" Payload Too Large"),
        b"415" => Ok(" Unsupported Media Type"),
        b"431" => Ok(" Request Header Fields Too Large"),
        b"501" => Ok(" Not Implemented"),
        b"503" => Ok(" Service Unavailable"),
        _ => Err(Fault::Line),
    }
}
