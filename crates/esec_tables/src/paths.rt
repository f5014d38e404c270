//! What stands at a path of a tree.
ghost use Rattle.std.specs.Prelude.{List};
ghost use Rattle.es_path.specs.Texts.{text_at, is_long_text};

use es_base::{NoMemory, Str};
use es_path::{ScalarMap, ScalarTest, any_at, gather};
use es_tree::Tree;
use esec_cells::{Cells, Fault, truth};
use std::alloc::Global;

/// A text of more than one byte.
struct IsLongText;

impl ScalarTest for IsLongText {
    ghost holds_of = { λ _ scalar. is_long_text scalar };

    fn holds(&self, scalar: &Tree) -> bool {
        match scalar {
            Tree::Text(text) => text.len() > 1,
            _ => false,
        }
    }
}

struct Texts;

impl ScalarMap for Texts {
    type Out = Str;

    ghost given_by = { λ _ scalar. text_at scalar };

    fn give(&self, alloc: Global, scalar: &Tree) -> Result<Option<Str>, NoMemory> {
        match scalar {
            Tree::Text(text) => Ok(Some(text.copy(alloc)?)),
            _ => Ok(None),
        }
    }
}

/// TREE => PATH: whether a text of more than one byte stands there.
pub fn has_long_text(alloc: Global, cells: &Cells) -> Result<Str, Fault> {
    let tree = cells.tree(alloc, 0)?;
    truth(alloc, any_at(&tree, cells.text(1)?, &IsLongText))
}

/// TREE => PATH: the texts that stand there, each with a semicolon behind it.
pub fn texts_at(alloc: Global, cells: &Cells) -> Result<Str, Fault> {
    let tree = cells.tree(alloc, 0)?;
    let mut texts = Str::empty(alloc);
    for text in gather(alloc, &tree, cells.text(1)?, &Texts)?.as_slice() {
        texts.push_str(text.text())?;
        texts.push(';')?;
    }
    Ok(texts)
}
