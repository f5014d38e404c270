//! Whole responses that never change.
ghost use Rattle.std.specs.Prelude.{◌≡◌, true};
ghost use Rattle.es_response.specs.Reply.{fixed_response, is_fixed};

/// The whole response to a head or a framing that isn't taken, or where memory was refused. It has no place, and the connection closes after it.
pub fn fixed(status: u16) -> &'static [u8]
    requires { is_fixed status ≡ true }
    ensures { result.now ≡ fixed_response status }
{
    match status {
        400 => bad_head(),
        411 => transfer_coding(),
        413 => large_body(),
        415 => content_coding(),
        431 => large_head(),
        _ => out_of_memory(),
    }
}

fn bad_head() -> &'static [u8]
    ensures { result.now ≡ fixed_response 400 }
{
    b"HTTP/1.1 400 Bad Request\r\nconnection: close\r\ncontent-length: 61\r\ncontent-type: application/json\r\n\r\n{\"error\":{\"reason\":\"bad head\",\"type\":\"framing\"},\"status\":400}"
}

fn transfer_coding() -> &'static [u8]
    ensures { result.now ≡ fixed_response 411 }
{
    b"HTTP/1.1 411 Length Required\r\nconnection: close\r\ncontent-length: 85\r\ncontent-type: application/json\r\n\r\n{\"error\":{\"reason\":\"transfer coding is not supported\",\"type\":\"framing\"},\"status\":411}"
}

fn large_body() -> &'static [u8]
    ensures { result.now ≡ fixed_response 413 }
{
    b"HTTP/1.1 413 Payload Too Large\r\nconnection: close\r\ncontent-length: 74\r\ncontent-type: application/json\r\n\r\n{\"error\":{\"reason\":\"the body is too large\",\"type\":\"framing\"},\"status\":413}"
}

fn content_coding() -> &'static [u8]
    ensures { result.now ≡ fixed_response 415 }
{
    b"HTTP/1.1 415 Unsupported Media Type\r\nconnection: close\r\ncontent-length: 84\r\ncontent-type: application/json\r\n\r\n{\"error\":{\"reason\":\"content coding is not supported\",\"type\":\"framing\"},\"status\":415}"
}

fn large_head() -> &'static [u8]
    ensures { result.now ≡ fixed_response 431 }
{
    b"HTTP/1.1 431 Request Header Fields Too Large\r\nconnection: close\r\ncontent-length: 74\r\ncontent-type: application/json\r\n\r\n{\"error\":{\"reason\":\"the head is too large\",\"type\":\"framing\"},\"status\":431}"
}

fn out_of_memory() -> &'static [u8]
    ensures { result.now ≡ fixed_response 503 }
{
    b"HTTP/1.1 503 Service Unavailable\r\nconnection: close\r\ncontent-length: 72\r\ncontent-type: application/json\r\n\r\n{\"error\":{\"reason\":\"out of memory\",\"type\":\"out_of_memory\"},\"status\":503}"
}
