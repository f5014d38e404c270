//! Sources that are texts.
ghost use Rattle.std.specs.Prelude.{◌≡◌, ◌++◌, IfOk, OnOk};
ghost use Rattle.std.specs.Option.{option_map};
ghost use Rattle.json.specs.Print.{quoted};
ghost use Rattle.es_grammar.specs.Reading.{Gives};
ghost use Rattle.es_grammar.specs.Values.{object_form};
ghost use Rattle.es_template.specs.Tags.{json_opening, json_closing};
ghost use Rattle.es_template.specs.Sources.{stands_after, stands_behind, tag_inside, kept_part, written_part, with_quoted_tags, source_object, IsWritten};

use crate::kinds::Standing;
use crate::marks::{cut, first_part};
use crate::tags::{JSON_CLOSING, JSON_OPENING, is_plain};
use es_base::{NoMemory, Str};
use es_grammar::here;
use es_tree::{BodyFault, Tree, TreeFault, print, read};
use std::alloc::Global;

// Where the next byte stands.
fn stands_after(standing: Standing, byte: u8) -> Standing
    ensures { result ≡ stands_after standing byte }
{
    match standing {
        Standing::Outside => match byte {
            b'"' => Standing::Inside,
            _ => Standing::Outside,
        },
        Standing::Inside => match byte {
            b'"' => Standing::Outside,
            b'\\' => Standing::Escaped,
            _ => Standing::Inside,
        },
        Standing::Escaped => Standing::Inside,
    }
}

// Where what follows the text stands.
fn stands_behind(standing: Standing, text: &str) -> Standing
    ensures { result ≡ stands_behind standing text.now }
{
    let mut after = standing;
    for byte in text.as_bytes() {
        after = stands_after(after, *byte);
    }
    after
}

// What is inside the toJson tag that begins right before this part, and what follows the tag.
#[tactic(auto, unfolding(crate::specs::Sources::tag_inside))]
fn tag_inside(part: &str) -> Option<(&str, &str)>
    ensures { option_map (λ found. (found.0.now, found.1.now)) result ≡ tag_inside part.now }
{
    match cut(JSON_CLOSING, part) {
        Some((inside, rest)) if is_plain(inside) => Some((inside, rest)),
        _ => None,
    }
}

// A part as it is, behind its mark, and where what follows it stands.
fn add_kept(out: &mut Str, standing: Standing, part: &str) -> Result<Standing, NoMemory>
    ensures { IfOk result (λ after. IsWritten out.old out.new after (kept_part standing part.now)) }
{
    out.push_str(JSON_OPENING)?;
    out.push_str(part)?;
    Ok(stands_behind(stands_behind(standing, JSON_OPENING), part))
}

// The JSON string of a toJson tag.
#[tactic(auto, using(crate::proofs::Quoting::text_of_Text))]
fn add_quoted(out: &mut Str, alloc: Global, inside: &str) -> Result<(), NoMemory>
    ensures { OnOk result (out.new ≡ out.old ++ quoted (json_opening ++ (inside.now ++ json_closing))) }
{
    let mut tag = Str::of(alloc, JSON_OPENING)?;
    tag.push_str(inside)?;
    tag.push_str(JSON_CLOSING)?;
    let text = print(alloc, &Tree::Text(tag))?;
    out.push_str(text.text())
}

// What is written for a part, and where what follows it stands.
fn add_part(
    out: &mut Str,
    alloc: Global,
    standing: Standing,
    part: &str,
) -> Result<Standing, NoMemory>
    ensures { IfOk result (λ after. IsWritten out.old out.new after (written_part standing part.now)) }
{
    match standing {
        Standing::Outside => match tag_inside(part) {
            Some((inside, rest)) => {
                add_quoted(out, alloc, inside)?;
                out.push_str(rest)?;
                Ok(stands_behind(Standing::Outside, rest))
            }
            None => add_kept(out, Standing::Outside, part),
        },
        Standing::Inside | Standing::Escaped => add_kept(out, standing, part),
    }
}

// The text with each toJson tag outside of JSON strings in quotes.
#[tactic(auto, unfolding(crate::specs::Sources::with_quoted_tags))]
fn with_quoted_tags(alloc: Global, text: &str) -> Result<Str, NoMemory>
    ensures { IfOk result (λ quoted. quoted ≡ with_quoted_tags text.now) }
{
    let (front, mut rest) = first_part(JSON_OPENING, text);
    let mut out = Str::of(alloc, front)?;
    let mut standing = stands_behind(Standing::Outside, front);
    while let Some(marked) = rest {
        let (part, next) = first_part(JSON_OPENING, marked);
        standing = add_part(&mut out, alloc, standing, part)?;
        rest = next;
    }
    Ok(out)
}

fn object(alloc: Global, tree: Tree) -> Result<Tree, BodyFault>
    ensures { Gives result (object_form tree) }
{
    match tree {
        Tree::Object(members) => Ok(Tree::Object(members)),
        _ => Err(here(alloc)),
    }
}

/// The object that a source text is, once each toJson tag outside of its strings is in quotes.
#[tactic(auto, unfolding(crate::specs::Sources::source_object))]
pub fn source_object(alloc: Global, text: &str) -> Result<Tree, BodyFault>
    ensures { Gives result (source_object text.now) }
{
    let quoted = with_quoted_tags(alloc, text)?;
    match read(alloc, quoted.text().as_bytes()) {
        Ok(tree) => object(alloc, tree),
        Err(fault) => match fault {
            TreeFault::NoMemory => Err(BodyFault::NoMemory),
            TreeFault::NotJson | TreeFault::TooDeep | TreeFault::NotWhole => Err(here(alloc)),
        },
    }
}
