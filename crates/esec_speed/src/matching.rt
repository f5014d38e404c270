//! Speed of a query on one document.
use es_base::Str;
use es_mapping::Mapping;
use es_match::{Matcher, holds};
use es_query::Query;
use es_tree::{BodyFault, Tree, read};
use std::alloc::Global;
use std::io;
use std::time::Instant;

/// Tells the time of a `bool` of 20 clauses on a document of 50 leaves, as the least of many batches.
pub fn measure(rt: &HostRuntime) -> io::Result<()> {
    match case(rt.alloc()) {
        Ok((query, mapping, document)) => {
            ready(rt, &query, &mapping, &document)?;
            each_time(rt, &query, &mapping, &document)
        }
        Err(_) => println!(rt; "out of memory"),
    }
}

fn ready(rt: &HostRuntime, query: &Query, mapping: &Mapping, document: &Tree) -> io::Result<()> {
    let Ok(matcher) = Matcher::new(rt.alloc(), query, mapping) else {
        return println!(rt; "out of memory");
    };
    let mut best = u128::MAX;
    let mut found = 0usize;
    for _ in 0..300 {
        let start = Instant::now(rt)?;
        for _ in 0..1000 {
            if matcher.holds_under(mapping, document) {
                found = found.wrapping_add(1);
            }
        }
        best = best.min(start.elapsed(rt)?.as_nanos());
    }
    println!(rt; "a query made ready: {best} ns for 1000 documents ({found} found)")
}

fn each_time(
    rt: &HostRuntime,
    query: &Query,
    mapping: &Mapping,
    document: &Tree,
) -> io::Result<()> {
    let mut best = u128::MAX;
    let mut found = 0usize;
    for _ in 0..300 {
        let start = Instant::now(rt)?;
        for _ in 0..1000 {
            if let Ok(true) = holds(rt.alloc(), query, mapping, document) {
                found = found.wrapping_add(1);
            }
        }
        best = best.min(start.elapsed(rt)?.as_nanos());
    }
    println!(rt; "a query made ready each time: {best} ns for 1000 documents ({found} found)")
}

fn case(alloc: Global) -> Result<(Query, Mapping, Tree), BodyFault> {
    let query = Query::read(
        alloc,
        &each(
            alloc,
            20,
            r#"{"bool":{"must":["#,
            r#"{"term":{"field#":"value#"}}"#,
            "]}}",
        )?,
        "",
    )?;
    let mapping = Mapping::read(
        alloc,
        &each(
            alloc,
            50,
            r#"{"properties":{"#,
            r#""field#":{"type":"keyword"}"#,
            "}}",
        )?,
        "",
    )?;
    let document = each(alloc, 50, "{", r#""field#":"value#""#, "}")?;
    Ok((query, mapping, document))
}

// A tree whose text has so many parts with a comma between each two; each `#` in a part is its number.
fn each(alloc: Global, count: u8, front: &str, part: &str, back: &str) -> Result<Tree, BodyFault> {
    let mut text = Str::of(alloc, front)?;
    for number in 0..count {
        if number > 0 {
            text.push(',')?;
        }
        for c in part.chars() {
            if c == '#' {
                text.push((b'0' + number / 10) as char)?;
                text.push((b'0' + number % 10) as char)?;
            } else {
                text.push(c)?;
            }
        }
    }
    text.push_str(back)?;
    match read(alloc, text.text().as_bytes()) {
        Ok(tree) => Ok(tree),
        Err(_) => Err(BodyFault::NoMemory),
    }
}
