//! A query from standard input, made ready.
use es_mapping::Mapping;
use es_match::Matcher;
use es_query::Query;
use es_tree::read;
use std::io;
use std::io::Read;

/// Reads a query, makes it ready for an index without fields, and tells how far it came.
pub fn make_ready(rt: &HostRuntime) -> io::Result<()> {
    let alloc = rt.alloc();
    let mut text = Vec::new(alloc);
    rt.stdin().read_to_end(&mut text)?;
    let Ok(tree) = read(alloc, text.as_slice()) else {
        return println!(rt; "no tree");
    };
    let Ok(query) = Query::read(alloc, &tree, "") else {
        return println!(rt; "no query");
    };
    match Matcher::new(alloc, &query, &Mapping::empty(alloc)) {
        Ok(_matcher) => println!(rt; "ready"),
        Err(_) => println!(rt; "out of memory"),
    }
}
