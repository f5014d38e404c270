use super::*;
use es_base::{NoMemory, Seq, Str};
use es_tree::{BodyFault, Member, Tree, TreeFault, print, read};
use std::alloc::Global;
use std::process::Abort;

// Every text spells itself.
struct Itself;

impl Spelling for Itself {
    type Out = Str;

    ghost use Rattle.std.specs.Prelude.{Some};

    ghost named = { λ text. Some text };

    fn parse(alloc: Global, text: &str) -> Result<Option<Str>, NoMemory> {
        Ok(Some(Str::of(alloc, text)?))
    }
}

impl Spelled for Itself {
    ghost spelled = { λ text. text };

    fn text(value: &Str) -> &str {
        value.text()
    }
}

// No text spells anything.
struct Unspelled;

impl Spelling for Unspelled {
    type Out = Str;

    ghost use Rattle.std.specs.Prelude.{None};

    ghost named = { λ _. None };

    fn parse(_alloc: Global, _text: &str) -> Result<Option<Str>, NoMemory> {
        Ok(None)
    }
}

// Names of at most two bytes.
struct Short;

impl Name for Short {
    ghost use Rattle.std.specs.Prelude.{length, nat_le};

    ghost permits = { λ name. nat_le (length name) 2 };

    fn permits(name: &str) -> bool {
        name.len() <= 2
    }
}

// A member means the length of its name.
struct NameLength;

impl MemberForm for NameLength {
    type Out = usize;

    ghost use Rattle.std.specs.Prelude.{length, Ok};

    ghost form = { λ name _. Ok (length name) };

    fn read(_alloc: Global, name: &str, _tree: &Tree) -> Result<usize, BodyFault> {
        Ok(name.len())
    }
}

fn fault_at<T: Drop>(rt: &impl Abort, found: Result<T, BodyFault>, text: &str, wanted: &str) {
    match found {
        Err(BodyFault::Bad { place }) => assert_eq!(rt; place.text(), wanted, "at {text}"),
        _ => assert!(rt; false, "no fault at {text}"),
    }
}

fn faults<F: Form>(rt: &impl Abort, alloc: Global, rows: &[(&str, &str)]) -> Result<(), TreeFault> {
    for (text, wanted) in rows {
        let tree = read(alloc, text.as_bytes())?;
        fault_at(rt, F::read(alloc, &tree), text, wanted);
    }
    Ok(())
}

#[test]
fn places_of_faults(rt: HostRuntime) -> Result<(), TreeFault> {
    let alloc = rt.alloc();
    faults::<Text>(
        &rt,
        alloc,
        &[("1", ""), ("null", ""), ("[\"a\"]", ""), ("{}", "")],
    )?;
    faults::<TextOf<Unspelled>>(&rt, alloc, &[("\"a\"", ""), ("[]", "")])?;
    faults::<Truth>(&rt, alloc, &[("\"true\"", ""), ("0", "")])?;
    faults::<Whole<1, 10>>(
        &rt,
        alloc,
        &[("0", ""), ("11", ""), ("-1", ""), ("\"1\"", "")],
    )?;
    faults::<Object>(&rt, alloc, &[("[]", ""), ("null", "")])?;
    faults::<Nullable<Text>>(&rt, alloc, &[("1", ""), ("[null]", "")])?;
    faults::<EmptyList>(&rt, alloc, &[("[1]", ""), ("{}", ""), ("null", "")])?;
    let rows = [("\"a\"", ""), ("[\"a\",1,null]", ".1"), ("[[]]", ".0")];
    faults::<ListOf<Text>>(&rt, alloc, &rows)?;
    faults::<ListOf<ListOf<Text>>>(&rt, alloc, &[("[[],[\"a\",{}]]", ".1.1"), ("[[],1]", ".1")])?;
    faults::<OneOrList<Text>>(&rt, alloc, &[("1", ""), ("[1]", ".0")])?;
    faults::<OneOrMore<Text>>(&rt, alloc, &[("[]", ""), ("[\"a\",1]", ".1"), ("1", "")])?;
    let rows = [
        ("[]", ""),
        ("{\"a\":true,\"abc\":true,\"b\":1}", ".abc"),
        ("{\"a\":true,\"b\":1,\"c\":2}", ".b"),
    ];
    faults::<MapOf<Short, Truth>>(&rt, alloc, &rows)?;
    faults::<MapOf<AnyName, ListOf<Truth>>>(&rt, alloc, &[("{\"\":[],\"x.y\":[1]}", ".x.y.0")])?;
    Ok(())
}

fn prints<F: Prints>(
    rt: &impl Abort,
    alloc: Global,
    text: &str,
    wanted: &str,
) -> Result<(), TreeFault> {
    match F::read(alloc, &read(alloc, text.as_bytes())?) {
        Ok(value) => {
            let printed = print(alloc, &F::print(alloc, &value)?)?;
            assert_eq!(rt; printed.text(), wanted);
        }
        Err(_) => assert!(rt; false, "a fault at {text}"),
    }
    Ok(())
}

#[test]
fn reads_and_prints(rt: HostRuntime) -> Result<(), TreeFault> {
    let alloc = rt.alloc();
    prints::<Text>(&rt, alloc, "\"a\"", "\"a\"")?;
    prints::<TextOf<Itself>>(&rt, alloc, "\"b\"", "\"b\"")?;
    prints::<Truth>(&rt, alloc, "true", "true")?;
    prints::<Whole<1, 10>>(&rt, alloc, "1", "1")?;
    prints::<Whole<1, 10>>(&rt, alloc, "10", "10")?;
    prints::<Object>(&rt, alloc, "{\"b\":[],\"a\":1}", "{\"a\":1,\"b\":[]}")?;
    prints::<ListOf<Text>>(&rt, alloc, "[\"b\",\"a\"]", "[\"b\",\"a\"]")?;
    prints::<OneOrList<Text>>(&rt, alloc, "\"a\"", "[\"a\"]")?;
    prints::<OneOrList<Text>>(&rt, alloc, "[]", "[]")?;
    prints::<OneOrMore<Text>>(&rt, alloc, "\"a\"", "[\"a\"]")?;
    prints::<Any>(&rt, alloc, "[null,{}]", "[null,{}]")?;
    prints::<Nullable<Text>>(&rt, alloc, "null", "null")?;
    prints::<Nullable<Text>>(&rt, alloc, "\"a\"", "\"a\"")?;
    let text = "{\"b\":true,\"\":false}";
    prints::<MapOf<Short, Truth>>(&rt, alloc, text, "{\"\":false,\"b\":true}")?;
    Ok(())
}

#[test]
fn null_or_a_value(rt: HostRuntime) -> Result<(), TreeFault> {
    let alloc = rt.alloc();
    match Nullable::<Text>::read(alloc, &Tree::Null) {
        Ok(found) => assert!(rt; found.is_none()),
        Err(_) => assert!(rt; false, "a fault at null"),
    }
    let tree = read(alloc, b"\"a\"")?;
    match Nullable::<Text>::read(alloc, &tree) {
        Ok(found) => assert!(rt; found.is_some_and(|text| text.text() == "a")),
        Err(_) => assert!(rt; false, "a fault at a text"),
    }
    let tree = read(alloc, b"[]")?;
    match EmptyList::read(alloc, &tree) {
        Ok(_) => {}
        Err(_) => assert!(rt; false, "a fault at an empty list"),
    }
    Ok(())
}

#[test]
fn members_in_order(rt: HostRuntime) -> Result<(), TreeFault> {
    let alloc = rt.alloc();
    laws();
    let one = single(alloc, "a", Tree::Null)?;
    assert_eq!(rt; print(alloc, &one)?.text(), "{\"a\":null}");
    let tree = read(alloc, b"{\"ab\":1,\"c\":\"x\",\"d\":[2]}")?;
    match members_of(alloc, &tree) {
        Ok(members) => walks(&rt, alloc, members),
        Err(_) => assert!(rt; false, "no object"),
    }
    Ok(())
}

fn walks(rt: &impl Abort, alloc: Global, members: &[Member]) {
    fault_at(
        rt,
        optional::<Text>(alloc, "b", members),
        "ab before b",
        ".ab",
    );
    fault_at(rt, optional::<Text>(alloc, "ab", members), "no text", ".ab");
    fault_at(rt, ends(alloc, members), "members left", ".ab");
    match each::<NameLength>(alloc, members) {
        Ok(lengths) => {
            assert_eq!(rt; lengths.as_slice(), [2, 1, 1].as_slice());
            fault_at(rt, only(alloc, lengths), "three", "");
        }
        Err(_) => assert!(rt; false, "a fault"),
    }
    match next(alloc, "ab", members) {
        Ok((found, rest)) => {
            assert!(rt; matches!(found, Some(Tree::Int(1))));
            assert_eq!(rt; rest.len(), 2);
            match optional::<Text>(alloc, "bb", rest) {
                Ok((absent, same)) => {
                    assert!(rt; absent.is_none());
                    assert_eq!(rt; same.len(), 2);
                }
                Err(_) => assert!(rt; false, "a fault at bb"),
            }
        }
        Err(_) => assert!(rt; false, "a fault at ab"),
    }
}

#[test]
fn places_joined(rt: HostRuntime) -> Result<(), NoMemory> {
    let alloc = rt.alloc();
    for (place, inside, wanted) in [
        ("", "", ""),
        ("", "b", "b"),
        ("a", "", "a."),
        ("a.0", "b", "a.0.b"),
        ("", ".b", ".b"),
    ] {
        let fault: Result<(), BodyFault> = Err(at(alloc, inside));
        let fault = placed(alloc, place, fault);
        fault_at(&rt, fault, inside, wanted);
    }
    let fault: Result<(), BodyFault> = under_item(alloc, 12, Err(at(alloc, "x")));
    fault_at(&rt, under(alloc, "y", fault), "inside", ".y.12.x");
    let fault: Result<(), BodyFault> = placed(alloc, "q", Err(here(alloc)));
    fault_at(&rt, fault, "here", "q");
    assert!(rt; matches!(needed(alloc, Some(3)), Ok(3)));
    let absent: Option<u8> = None;
    fault_at(&rt, needed(alloc, absent), "absent", "");
    fault_at(&rt, if_holds(alloc, false, 3), "broken", "");
    let one = Seq::from_slice(alloc, &[7])?;
    assert!(rt; matches!(only(alloc, one), Ok(7)));
    assert_eq!(rt; or_empty::<u8>(alloc, None).len(), 0);
    Ok(())
}
