//! Replies whose body is a tree.
ghost use Rattle.std.specs.Prelude.{◌≡◌, IfOk};
ghost use Rattle.es_reply.specs.Bodies.{tree_reply};

use es_base::NoMemory;
use es_response::Reply;
use es_tree::{Tree, print};
use std::alloc::Global;

/// A tree's reply: its status, and the tree printed.
pub fn tree_reply(alloc: Global, status: u16, body: &Tree) -> Result<Reply, NoMemory>
    ensures { IfOk result (λ reply. reply ≡ tree_reply status body.now) }
{
    Ok(Reply::new(status, "", print(alloc, body)?))
}
