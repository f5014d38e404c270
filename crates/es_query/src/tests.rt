use super::*;
use es_base::Seq;
use es_grammar::Prints;
use es_tree::{TreeFault, print};

// No tree has so great a number.
#[test]
fn prints_the_greatest_number(rt: HostRuntime) -> Result<(), TreeFault> {
    let alloc = rt.alloc();
    let query = Query::Bool(Clauses {
        must: Seq::empty(alloc),
        filter: Seq::empty(alloc),
        should: Seq::empty(alloc),
        must_not: Seq::empty(alloc),
        minimum: Some(u64::MAX),
    });
    let printed = print(alloc, &QueryForm::print(alloc, &query)?)?;
    assert_eq!(rt;
        printed.text(),
        "{\"bool\":{\"minimum_should_match\":9223372036854775807}}"
    );
    Ok(())
}
