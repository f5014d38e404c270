//! A request as it came.
use es_base::Str;
use es_edge::Bytes;

/// The value of a field that may stand once, without the white space around it.
#[derive(Debug, Drop)]
pub enum Once {
    /// No field has the name.
    Absent,
    /// One field has it.
    One(Bytes),
    /// Several have it.
    Twice,
}

/// A request as it came, with the fields that are read of it. Field names compare without case.
#[derive(Debug, Drop)]
pub struct RawRequest {
    /// The method, a token (RFC 9110, section 9.1).
    pub method: Str,
    /// The request target (RFC 9112, section 3.2), not decoded.
    pub target: Bytes,
    /// The field `authorization`.
    pub authorization: Once,
    /// The field `es-security-runas-user`.
    pub run_as: Once,
    /// The field `esec-seen`.
    pub seen: Once,
    /// As many bytes as `content-length` says; none without it.
    pub body: Bytes,
    /// Whether the connection closes after its response: HTTP/1.0, or a `connection` field with the member `close`.
    pub last: bool,
}
