//! Descriptors of roles, and what roles grant.
use es_base::{Copied, Str};
use es_compose::{Descriptors, Role, compose};
use es_priv::{action_name, cluster_action_name};
use es_role::Descriptor;
use es_tree::print;
use esec_cells::{ACTIONS, CLUSTER_ACTIONS, Cells, Fault, add, fault, tree_of};
use std::alloc::Global;

/// PLACE => TREE: what the descriptor prints, or the place of its first fault.
pub fn descriptor(alloc: Global, cells: &Cells) -> Result<Str, Fault> {
    match Descriptor::read(alloc, &cells.tree(alloc, 1)?, cells.text(0)?) {
        Ok(descriptor) => {
            let copy = descriptor.copied(alloc)?;
            Ok(print(alloc, &copy.print(alloc)?)?)
        }
        Err(found) => fault(alloc, &found),
    }
}

/// DESCRIPTORS => INDEX: all actions that they grant on it.
pub fn granted(alloc: Global, cells: &Cells) -> Result<Str, Fault> {
    let role = role_of(alloc, cells.text(0)?)?;
    let index = cells.text(1)?;
    let mut text = Str::empty(alloc);
    for action in ACTIONS {
        if role.grants(action, index) {
            add(&mut text, action_name(action))?;
        }
    }
    Ok(text)
}

/// DESCRIPTORS: all actions that they grant on the cluster.
pub fn granted_on_cluster(alloc: Global, cells: &Cells) -> Result<Str, Fault> {
    let role = role_of(alloc, cells.text(0)?)?;
    let mut text = Str::empty(alloc);
    for action in CLUSTER_ACTIONS {
        if role.grants_cluster(action) {
            add(&mut text, cluster_action_name(action))?;
        }
    }
    Ok(text)
}

/// The role of descriptors with a line feed between each two.
fn role_of(alloc: Global, texts: &str) -> Result<Role, Fault> {
    let mut descriptors = Descriptors::empty(alloc);
    if !texts.is_empty() {
        for text in texts.split('\n') {
            match Descriptor::read(alloc, &tree_of(alloc, text.as_bytes())?, "") {
                Ok(descriptor) => descriptors.push(descriptor)?,
                Err(_) => return Err(Fault::Line),
            }
        }
    }
    Ok(compose(alloc, descriptors)?)
}
