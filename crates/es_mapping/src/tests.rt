use super::*;
use es_base::{NoMemory, Str};
use es_grammar::Prints;
use es_tree::{TreeFault, print, read};
use std::alloc::Global;
use std::process::Abort;

// Names that begin alike, names with dots, and a field at the most pieces.
const ALIKE: &str =
    r#"{"properties":{"a":{"properties":{"b":{"properties":{"c":{"type":"long"}}},"bb":{"type":"date"},"c.d":{"type":"long"}}},"a-b":{"type":"long"},"a.b.d":{"type":"date"},"aa":{"type":"long"},"aab":{"properties":{"c":{"type":"long"}}}}}"#;

fn mapping_of(rt: &impl Abort, alloc: Global, text: &str) -> Result<Mapping, TreeFault> {
    let tree = read(alloc, text.as_bytes())?;
    match Mapping::read(alloc, &tree, "") {
        Ok(mapping) => Ok(mapping),
        Err(_) => {
            assert!(rt; false, "a fault at {text}");
            Ok(Mapping::empty(alloc))
        }
    }
}

fn name_of(kind: Option<FieldType>) -> &'static str {
    match kind {
        Some(FieldType::Keyword) => "keyword",
        Some(FieldType::Long) => "long",
        Some(FieldType::Date) => "date",
        None => "-",
    }
}

struct BeginsWith<'a>(&'a str);

impl PathTest for BeginsWith<'_> {
    ghost use Rattle.std.specs.Prelude.{nat_eq};
    ghost use Rattle.std.specs.List.{starts_with};

    ghost holds_of = { λ begins path. starts_with nat_eq path begins.0.now };

    fn holds(&self, path: &str) -> bool {
        path.as_bytes().starts_with(self.0.as_bytes())
    }
}

fn printed<F: Prints>(alloc: Global, value: &F::Out) -> Result<Str, NoMemory> {
    print(alloc, &F::print(alloc, value)?)
}

#[test]
fn some_fields_are_kept(rt: HostRuntime) -> Result<(), TreeFault> {
    let alloc = rt.alloc();
    let mapping = mapping_of(&rt, alloc, ALIKE)?;
    assert_eq!(rt; mapping.len(), 7);
    let kept = mapping.kept(alloc, &BeginsWith("a.b"))?;
    let text = printed::<MappingForm>(alloc, &kept)?;
    let wanted =
        r#"{"properties":{"a":{"properties":{"b":{"properties":{"c":{"type":"long"},"d":{"type":"date"}}},"bb":{"type":"date"}}}}}"#;
    assert_eq!(rt; text.text(), wanted);
    assert!(rt; kept.len() == 3);
    let field = kept.field(alloc, 1)?;
    assert_eq!(rt; field.name.text(), "a.b.d");
    assert_eq!(rt; name_of(Some(field.value)), "date");
    assert!(rt; mapping.kept(alloc, &BeginsWith("x"))?.is_empty());
    Ok(())
}
