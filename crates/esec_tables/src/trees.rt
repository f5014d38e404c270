//! Trees of JSON texts.
use es_base::{Copied, NoMemory, Str};
use es_tree::{TreeFault, leaves, print, read};
use esec_cells::{Cells, Fault, tree_of, truth};
use std::alloc::Global;

/// TEXT: what its tree prints, or why it is none.
pub fn tree(alloc: Global, cells: &Cells) -> Result<Str, Fault> {
    match read(alloc, cells.bytes(0)?) {
        Ok(tree) => {
            let printed = print(alloc, &tree)?;
            let again = tree_of(alloc, printed.text().as_bytes())?;
            if again.equals(&tree) {
                Ok(printed)
            } else {
                Ok(Str::of(alloc, "what is printed reads back as another tree")?)
            }
        }
        Err(TreeFault::NotJson) => Ok(Str::of(alloc, "not JSON")?),
        Err(TreeFault::NotWhole) => Ok(Str::of(alloc, "not whole")?),
        Err(TreeFault::TooDeep) => Ok(Str::of(alloc, "too deep")?),
        Err(TreeFault::NoMemory) => Err(Fault::NoMemory),
    }
}

/// TREE: its leaves as PATH=VALUE, each with a semicolon behind it.
pub fn leaf_list(alloc: Global, cells: &Cells) -> Result<Str, Fault> {
    let found = leaves(alloc, &cells.tree(alloc, 0)?)?;
    let mut texts = Str::empty(alloc);
    for leaf in found.as_slice() {
        texts.push_str(leaf.path.text())?;
        texts.push('=')?;
        texts.push_str(print(alloc, &leaf.value)?.text())?;
        texts.push(';')?;
    }
    Ok(texts)
}

/// TREE => NAME: the member with the name, or none.
pub fn member(alloc: Global, cells: &Cells) -> Result<Str, Fault> {
    let tree = cells.tree(alloc, 0)?;
    match tree.member(cells.text(1)?) {
        Some(member) => Ok(print(alloc, member)?),
        None => Ok(Str::of(alloc, "none")?),
    }
}

/// TREE => TREE: whether the first one and a copy of the second one are equal.
pub fn equal(alloc: Global, cells: &Cells) -> Result<Str, Fault> {
    let tree = cells.tree(alloc, 0)?;
    let copy = copied(alloc, &cells.tree(alloc, 1)?)?;
    truth(alloc, tree.equals(&copy))
}

fn copied<T: Copied>(alloc: Global, item: &T) -> Result<T, NoMemory> {
    item.copied(alloc)
}
