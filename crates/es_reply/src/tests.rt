use super::*;
use es_tree::read;
use std::test::Fail;

#[test]
fn trees(rt: HostRuntime) -> Result<(), Fail> {
    let alloc = rt.alloc();
    let Ok(source) = read(alloc, b"{\"dept\": \"ops\", \"age\": 41}") else {
        panic!(rt; "the source is refused");
    };
    let reply = tree_reply(alloc, 404, &source)?;
    assert_eq!(rt; reply.status(), 404);
    assert_eq!(rt; reply.allow(), "");
    assert_eq!(rt; reply.body(), "{\"age\":41,\"dept\":\"ops\"}");
    Ok(())
}
