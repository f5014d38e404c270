//! How much the paths of a tree take.
use es_tree::{Members, Tree};

/// Paths may take this many times what the names take.
const MOST_TIMES: usize = 64;

/// And they may take this many bytes whatever the names take.
const ANYWAY: usize = 1 << 20;

/// How many bytes the paths of scalars take, each one whole, and how many bytes the names take, each one once.
#[derive(Clone, Copy)]
struct Sizes {
    paths: usize,
    names: usize,
}

/// Whether the paths of the scalars may each be kept whole: together they take at most a mebibyte, or at most 64 times
/// what the names in the tree do. It takes no memory.
pub(crate) fn is_kept_whole(tree: &Tree) -> bool {
    let sizes = sizes_within(tree, 0);
    sizes.paths <= ANYWAY || sizes.paths <= sizes.names.saturating_mul(MOST_TIMES)
}

#[cycle(measuring)]
fn sizes_within(tree: &Tree, above: usize) -> Sizes {
    match tree {
        Tree::Null | Tree::Bool(_) | Tree::Int(_) | Tree::Text(_) => Sizes {
            paths: above,
            names: 0,
        },
        Tree::List(items) => sizes_in_items(items.as_slice(), above),
        Tree::Object(members) => sizes_in_members(members, above),
    }
}

#[cycle(measuring)]
fn sizes_in_items(items: &[Tree], above: usize) -> Sizes {
    let mut sizes = Sizes { paths: 0, names: 0 };
    for item in items {
        sizes = together(sizes, sizes_within(item, above));
    }
    sizes
}

#[cycle(measuring)]
fn sizes_in_members(members: &Members, above: usize) -> Sizes {
    let mut sizes = Sizes { paths: 0, names: 0 };
    for member in members.as_slice() {
        let name = member.name.len().saturating_add(1);
        let below = sizes_within(&member.value, above.saturating_add(name));
        let named = Sizes {
            paths: 0,
            names: name,
        };
        sizes = together(together(sizes, named), below);
    }
    sizes
}

fn together(one: Sizes, other: Sizes) -> Sizes {
    Sizes {
        paths: one.paths.saturating_add(other.paths),
        names: one.names.saturating_add(other.names),
    }
}
