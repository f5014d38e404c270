use super::*;
use es_mapping::Mapping;
use es_query::Query;
use es_tree::{BodyFault, Tree, read};
use std::alloc::Global;

const MAPPING: &str =
    r#"{"properties":{"dept":{"type":"keyword"},"hired":{"type":"date"},"pay":{"type":"long"},"tag":{"properties":{"name":{"type":"keyword"}}}}}"#;

const WRITTEN: &str = r#"{"properties":{"dept":{"type":"keyword"}}}"#;

fn tree(alloc: Global, text: &str) -> Result<Tree, BodyFault> {
    match read(alloc, text.as_bytes()) {
        Ok(tree) => Ok(tree),
        Err(_) => Err(BodyFault::NoMemory),
    }
}

// A field that a document wasn't written with has no value in it, whatever the index has later.
#[test]
fn written_before_the_field(rt: HostRuntime) -> Result<(), BodyFault> {
    let alloc = rt.alloc();
    let whole = Mapping::read(alloc, &tree(alloc, MAPPING)?, "")?;
    let written = Mapping::read(alloc, &tree(alloc, WRITTEN)?, "")?;
    let query = Query::read(alloc, &tree(alloc, "{\"term\":{\"pay\":10}}")?, "")?;
    let matcher = Matcher::new(alloc, &query, &whole)?;
    let document = tree(alloc, "{\"dept\":\"ops\",\"pay\":10}")?;
    assert!(rt; matcher.holds_under(&whole, &document));
    assert!(rt; !matcher.holds_under(&written, &document));
    Ok(())
}
