//! Actions and privileges.
use es_base::Str;
use es_priv::{
    Action, ClusterAction, action_name, cluster_action_name, cluster_name, granting,
    granting_cluster, grants, grants_cluster, index_name, read_cluster, read_index,
};
use esec_cells::{ACTIONS, CLUSTER_ACTIONS, Cells, Fault, add};
use std::alloc::Global;

/// NAME: the index privilege with this name, and the name that it has, or none.
pub fn index_privilege(alloc: Global, cells: &Cells) -> Result<Str, Fault> {
    match read_index(cells.text(0)?) {
        Some(privilege) => {
            let name = index_name(privilege);
            Ok(Str::of(alloc, format!(in alloc; "{privilege:?} {name}")?.as_str())?)
        }
        None => Ok(Str::of(alloc, "none")?),
    }
}

/// NAME: the cluster privilege with this name, and the name that it has, or none.
pub fn cluster_privilege(alloc: Global, cells: &Cells) -> Result<Str, Fault> {
    match read_cluster(cells.text(0)?) {
        Some(privilege) => {
            let name = cluster_name(privilege);
            Ok(Str::of(alloc, format!(in alloc; "{privilege:?} {name}")?.as_str())?)
        }
        None => Ok(Str::of(alloc, "none")?),
    }
}

/// VARIANT: the name of the action, and the names of the privileges that grant it.
pub fn granting_names(alloc: Global, cells: &Cells) -> Result<Str, Fault> {
    let wanted = cells.text(0)?;
    for action in ACTIONS {
        if format!(in alloc; "{action:?}")?.as_str() == wanted {
            let mut text = Str::of(alloc, action_name(action))?;
            for privilege in granting(action) {
                add(&mut text, index_name(*privilege))?;
            }
            return Ok(text);
        }
    }
    for action in CLUSTER_ACTIONS {
        if format!(in alloc; "{action:?}")?.as_str() == wanted {
            let mut text = Str::of(alloc, cluster_action_name(action))?;
            for privilege in granting_cluster(action) {
                add(&mut text, cluster_name(*privilege))?;
            }
            return Ok(text);
        }
    }
    Err(Fault::Line)
}

/// PRIVILEGE: all actions on an index that it grants.
pub fn granted(alloc: Global, cells: &Cells) -> Result<Str, Fault> {
    let Some(privilege) = read_index(cells.text(0)?) else {
        return Err(Fault::Line);
    };
    let mut text = Str::empty(alloc);
    for action in ACTIONS {
        if grants(privilege, action) {
            add(&mut text, action_name(action))?;
        }
    }
    Ok(text)
}

/// PRIVILEGE: all actions on the cluster that it grants.
pub fn granted_on_cluster(alloc: Global, cells: &Cells) -> Result<Str, Fault> {
    let Some(privilege) = read_cluster(cells.text(0)?) else {
        return Err(Fault::Line);
    };
    let mut text = Str::empty(alloc);
    for action in CLUSTER_ACTIONS {
        if grants_cluster(privilege, action) {
            add(&mut text, cluster_action_name(action))?;
        }
    }
    Ok(text)
}
