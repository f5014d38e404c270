//! A reply, and those that a kind and a reason make.
ghost use Rattle.std.specs.Prelude.{◌≡◌, IfOk};
ghost use Rattle.es_response.specs.Reply.{error_body, error_reply};

use es_base::{NoMemory, Str};
use json::Writer;
use std::alloc::Global;
use std::marker::Model;

/// A reply with its printed body.
#[derive(Debug, Drop)]
pub struct Reply {
    status: u16,
    allow: &'static str,
    body: Str,
}

impl Model for Reply {
    ghost use Rattle.es_response.specs.Reply.{ReplyValue};

    ghost Value = { ReplyValue };

    ghost view = { λ reply. record { status = reply.status; allow = reply.allow.now; body = reply.body } };
}

impl Reply {
    /// A reply of a status and a printed body. `allow` is the list of methods that a 405 names, and else empty.
    pub fn new(status: u16, allow: &'static str, body: Str) -> Reply
        ensures status { result.status ≡ status }
        ensures allow { result.allow ≡ allow.now }
        ensures body { result.body ≡ body }
    {
        Reply {
            status,
            allow,
            body,
        }
    }

    /// The status code.
    pub fn status(&self) -> u16
        ensures { result ≡ self.now.status }
    {
        self.status
    }

    /// The methods that a 405 allows.
    pub fn allow(&self) -> &'static str
        ensures { result.now ≡ self.now.allow }
    {
        self.allow
    }

    /// The body.
    pub fn body(&self) -> &str
        ensures { result.now ≡ self.now.body }
    {
        self.body.text()
    }
}

/// An error's reply: its status, kind and reason as JSON.
pub fn error(alloc: Global, status: u16, kind: &str, reason: &str) -> Result<Reply, NoMemory>
    ensures { IfOk result (λ reply. reply ≡ error_reply status kind.now reason.now) }
{
    Ok(Reply::new(status, "", error_text(alloc, status, kind, reason)?))
}

/// The body of an error's reply.
fn error_text(alloc: Global, status: u16, kind: &str, reason: &str) -> Result<Str, NoMemory>
    ensures { IfOk result (λ body. body ≡ error_body status kind.now reason.now) }
{
    let mut out = Writer::new(Vec::new(alloc));
    out.begin_object()?;
    out.key("error")?;
    out.begin_object()?;
    out.key("reason")?;
    out.string(reason)?;
    out.key("type")?;
    out.string(kind)?;
    out.end_object()?;
    out.key("status")?;
    out.u64(u64::from(status))?;
    out.end_object()?;
    match String::from_utf8(out.into_inner()) {
        Ok(text) => Ok(Str::from_string(text)),
        Err(_) => unreachable!(),
    }
}
