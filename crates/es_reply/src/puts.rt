//! Replies to puts of roles and users.
ghost use Rattle.std.specs.Prelude.{◌≡◌, IfOk};
ghost use Rattle.es_reply.specs.Bodies.{role_put, user_put};

use es_base::{NoMemory, Str};
use es_response::Reply;
use std::alloc::Global;

/// The reply to the put of a role, which was created or stood already.
pub fn role_put(alloc: Global, created: bool) -> Result<Reply, NoMemory>
    ensures { IfOk result (λ reply. reply ≡ role_put created) }
{
    let body = if created {
        "{\"role\":{\"created\":true}}"
    } else {
        "{\"role\":{\"created\":false}}"
    };
    Ok(Reply::new(200, "", Str::of(alloc, body)?))
}

/// The reply to the put of a user, who was created or stood already.
pub fn user_put(alloc: Global, created: bool) -> Result<Reply, NoMemory>
    ensures { IfOk result (λ reply. reply ≡ user_put created) }
{
    let body = if created {
        "{\"created\":true}"
    } else {
        "{\"created\":false}"
    };
    Ok(Reply::new(200, "", Str::of(alloc, body)?))
}
