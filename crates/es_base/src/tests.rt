use super::*;
use std::test::Fail;

#[test]
fn lists(rt: HostRuntime) -> Result<(), Fail> {
    let alloc = rt.alloc();
    let mut numbers = Seq::empty(alloc);
    assert!(rt; numbers.is_empty());
    numbers.push(3u64)?;
    numbers.push(5)?;
    let copy = numbers.copy(alloc)?;
    assert_eq!(rt; copy.as_slice(), [3u64, 5].as_slice());
    numbers.extend(&[7])?;
    assert_eq!(rt; numbers.len(), 3);
    assert_eq!(rt; *numbers.get(2), 7);
    let back = Seq::from_vec(numbers.into_vec());
    assert_eq!(rt; back.len(), 3);
    let bytes = Seq::from_slice(alloc, b"ab")?;
    let lists = Seq::from_vec(vec![in alloc; bytes.copied(alloc)?, bytes]?);
    assert_eq!(rt; lists.copy(alloc)?.get(1).as_slice(), b"ab".as_slice());
    Ok(())
}

#[test]
fn texts(rt: HostRuntime) -> Result<(), Fail> {
    let alloc = rt.alloc();
    let mut text = Str::of(alloc, "a")?;
    text.push('é')?;
    text.push_str("bc")?;
    assert_eq!(rt; text.len(), 5);
    assert_eq!(rt; text.copy(alloc)?.text(), "aébc");
    assert!(rt; Str::empty(alloc).is_empty());
    let mut texts = Strs::empty(alloc);
    texts.push(text)?;
    assert_eq!(rt; texts.copy(alloc)?.get(0).text(), "aébc");
    let owned = Str::from_string(String::from_str(alloc, "x")?);
    assert_eq!(rt; owned.text(), "x");
    Ok(())
}

#[test]
fn shares(rt: HostRuntime) -> Result<(), Fail> {
    let alloc = rt.alloc();
    let first = Shared::new(alloc, Str::of(alloc, "a")?)?;
    let second = first.share()?;
    drop(first);
    assert_eq!(rt; second.get().text(), "a");
    Ok(())
}
