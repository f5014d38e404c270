use super::*;
use std::alloc::Global;
use std::process::Abort;
use std::test::Fail;

fn set_where(rt: &impl Abort, alloc: Global, truths: &[bool]) -> Result<Bits, NoMemory> {
    let mut bits = Bits::zeros(alloc, truths.len())?;
    for (at, truth) in truths.iter().enumerate() {
        if *truth {
            assert!(rt; at < bits.len());
            bits.set(at);
        }
    }
    Ok(bits)
}

fn assert_same(rt: &impl Abort, bits: &Bits, truths: &[bool]) {
    assert_eq!(rt; bits.len(), truths.len());
    assert_eq!(rt; bits.is_empty(), truths.is_empty());
    let mut count: usize = 0;
    for (at, truth) in truths.iter().enumerate() {
        assert!(rt; at < bits.len());
        assert_eq!(rt; bits.get(at), *truth);
        if *truth {
            assert_eq!(rt; bits.member(count), Some(at));
            count = count.saturating_add(1);
        }
    }
    assert_eq!(rt; bits.count(), count);
    assert_eq!(rt; bits.member(count), None);
}

#[test]
fn lists_of_each_length(rt: HostRuntime) -> Result<(), Fail> {
    let alloc = rt.alloc();
    for len in [0usize, 1, 63, 64, 65, 1024] {
        let thirds: Vec<bool> = (0..len).map(|at| at % 3 == 0).collect(alloc)?;
        let halves: Vec<bool> = (0..len).map(|at| at % 2 == 0).collect(alloc)?;
        let mut bits = set_where(&rt, alloc, &thirds)?;
        assert_same(&rt, &bits, &thirds);
        let other = set_where(&rt, alloc, &halves)?;
        let mut both = bits.copy(alloc)?;
        assert_eq!(rt; both.len(), other.len());
        both.and_with(&other);
        let sixths: Vec<bool> = (0..len).map(|at| at % 6 == 0).collect(alloc)?;
        assert_same(&rt, &both, &sixths);
        let mut either = bits.copied(alloc)?;
        assert_eq!(rt; either.len(), other.len());
        either.or_with(&other);
        let any: Vec<bool> = (0..len)
            .map(|at| at % 2 == 0 || at % 3 == 0)
            .collect(alloc)?;
        assert_same(&rt, &either, &any);
        bits.invert();
        let no_thirds: Vec<bool> = (0..len).map(|at| at % 3 > 0).collect(alloc)?;
        assert_same(&rt, &bits, &no_thirds);
        let none: Vec<bool> = vec![in alloc; false; len]?;
        assert_same(&rt, &Bits::zeros(alloc, len)?, &none);
        let all: Vec<bool> = vec![in alloc; true; len]?;
        assert_same(&rt, &Bits::ones(alloc, len)?, &all);
    }
    Ok(())
}
