//! Descriptors and roles that cells say.
use es_base::{Seq, Shared, Str};
use es_compose::{Role, RolePart, check_descriptor};
use es_role::Descriptor;
use es_tree::{BodyFault, Tree};
use std::alloc::Global;

/// The descriptor that the tree is, checked.
pub fn checked(alloc: Global, tree: &Tree, place: &str) -> Result<Descriptor, BodyFault> {
    let descriptor = Descriptor::read(alloc, tree, place)?;
    check_descriptor(alloc, descriptor, place)
}

/// The role of a list of descriptors, each of which is checked.
pub fn role_of(alloc: Global, tree: &Tree) -> Result<Role, BodyFault> {
    let mut parts = Seq::empty(alloc);
    match tree {
        Tree::List(items) => {
            for item in items.as_slice() {
                let part = RolePart::of(alloc, checked(alloc, item, "")?)?;
                parts.push(Shared::new(alloc, part)?)?;
            }
        }
        _ => {
            let place = Str::of(alloc, "no list of descriptors")?;
            return Err(BodyFault::Bad { place });
        }
    }
    Ok(Role::of(parts))
}
