use super::*;
use es_base::{NoMemory, Seq, Str};
use es_tree::print;
use std::alloc::Global;

// Values from the first to the last.
fn rising(alloc: Global) -> Result<Values, NoMemory> {
    let mut values = Seq::empty(alloc);
    values.push(Value::Number(-5))?;
    values.push(Value::Number(30))?;
    values.push(Value::Text(Str::empty(alloc)))?;
    values.push(Value::Text(Str::of(alloc, "10")?))?;
    values.push(Value::Text(Str::of(alloc, "9")?))?;
    values.copy(alloc)
}

#[test]
fn order_and_trees(rt: HostRuntime) -> Result<(), NoMemory> {
    let alloc = rt.alloc();
    let values = rising(alloc)?;
    let mut printed = Str::empty(alloc);
    for (at, one) in values.as_slice().iter().enumerate() {
        for (place, other) in values.as_slice().iter().enumerate() {
            assert!(rt; one.compare(other) == at.cmp(&place));
        }
        printed.push_str(print(alloc, &one.tree(alloc)?)?.text())?;
    }
    assert_eq!(rt; printed.text(), "-530\"\"\"10\"\"9\"");
    Ok(())
}
