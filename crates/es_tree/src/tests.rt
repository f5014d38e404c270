use super::*;
use std::alloc::Global;
use std::test::Fail;

// The text inside so many lists.
fn nested(alloc: Global, levels: usize, inside: &str) -> Result<Str, NoMemory> {
    let mut text = Str::empty(alloc);
    for _ in 0..levels {
        text.push('[')?;
    }
    text.push_str(inside)?;
    for _ in 0..levels {
        text.push(']')?;
    }
    Ok(text)
}

fn copied<T: Copied>(alloc: Global, item: &T) -> Result<T, NoMemory> {
    item.copied(alloc)
}

fn number(alloc: Global, name: &str, value: u64) -> Result<Named<u64>, NoMemory> {
    let name = Str::of(alloc, name)?;
    Ok(Named { name, value })
}

#[test]
fn keeps_names_in_order(rt: HostRuntime) -> Result<(), Fail> {
    let alloc = rt.alloc();
    let mut numbers = Ordered::empty(alloc);
    assert!(rt; numbers.is_empty());
    let mut value = 0;
    for (name, wanted) in [
        ("", true),
        ("", false),
        ("b", true),
        ("a", false),
        ("b", false),
        ("ba", true),
        ("c", true),
        ("bz", false),
    ] {
        assert_eq!(rt;
            numbers.push(number(alloc, name, value)?)?,
            wanted,
            "{name} at {value}"
        );
        value = if value < 9 { value + 1 } else { value };
    }
    let copy = copied(alloc, &numbers.copy(alloc)?)?;
    assert_eq!(rt; copy.len(), 4);
    assert!(rt; !copy.is_empty());
    assert_eq!(rt; copy.get(1).name.text(), "b");
    assert_eq!(rt; copy.as_slice()[3].value, 6);
    assert_eq!(rt; copy.find("ba"), Some(&5));
    assert_eq!(rt; copy.find("bb"), None);
    let pairs = Seq::from_vec(vec![in alloc; number(alloc, "x", 1)?]?);
    assert_eq!(rt; Ordered::of(pairs).find("x"), Some(&1));
    Ok(())
}

#[test]
fn copies_persons(rt: HostRuntime) -> Result<(), Fail> {
    let alloc = rt.alloc();
    let mut roles = Strs::empty(alloc);
    roles.push(Str::of(alloc, "reader")?)?;
    let person = Person {
        username: Str::of(alloc, "ann")?,
        full_name: None,
        email: Some(Str::of(alloc, "ann@example.org")?),
        roles,
        metadata: read(alloc, b"{\"team\":[7]}")?,
    };
    let copy = person.copy(alloc)?;
    assert_eq!(rt; copy.username.text(), "ann");
    assert!(rt; copy.full_name.is_none());
    assert!(rt;
        copy.email
            .as_ref()
            .is_some_and(|email| email.text() == "ann@example.org")
    );
    assert_eq!(rt; copy.roles.len(), 1);
    assert_eq!(rt; copy.roles.get(0).text(), "reader");
    assert!(rt; copy.metadata.equals(&person.metadata));
    let fault = BodyFault::from(NoMemory);
    assert!(rt; matches!(fault, BodyFault::NoMemory));
    Ok(())
}

// 44 levels, within as many and within one fewer.
#[test]
fn reads_within_limits(rt: HostRuntime) -> Result<(), Fail> {
    let alloc = rt.alloc();
    let deeper = nested(alloc, 44, "1")?;
    let within = read_within(alloc, 44, deeper.text().as_bytes())?;
    assert_eq!(rt; print(alloc, &within)?.text(), deeper.text());
    let refused = read_within(alloc, 43, deeper.text().as_bytes());
    assert!(rt; matches!(refused, Err(TreeFault::TooDeep)));
    laws();
    assert!(rt; Tree::Null.is_null() && !within.is_null());
    Ok(())
}
