//! Decisions over halves.
use crate::printing::permitted;
use crate::subjects::subject_of;
use crate::texts::cut_at_blank;
use es_base::{Shared, Str};
use es_compose::Role;
use es_decide::{Halves, decide, decide_cluster, permit, run_as};
use es_keys::{Subject, Target};
use es_tree::{BodyFault, Tree};
use esec_cells::{Cells, Fault, action_of, cluster_action_of, fault, role_of, truth};
use std::alloc::Global;

/// FIRST => LIMIT => TARGET => LENT => ASKED: what is decided, or the place of the first fault of a descriptor. FIRST,
/// LIMIT and LENT are lists of descriptors; LIMIT may be `none`, and LENT stands behind a target `as NAME` alone. The
/// caller is the user `cy`, and with a limit a key of his. ASKED is `run as`, `index ACTION INDEX`, `cluster ACTION` or
/// `permit ACTION INDEX`.
pub fn decision(alloc: Global, cells: &Cells) -> Result<Str, Fault> {
    let first = cells.tree(alloc, 0)?;
    let limits = match cells.text(1)? {
        "none" => None,
        _ => Some(cells.tree(alloc, 1)?),
    };
    let caller = if limits.is_some() {
        "key 12 cy"
    } else {
        "user cy"
    };
    let subject = subject_of(alloc, caller, cells.text(2)?)?;
    let lent = match &subject.target {
        Target::As(_) => Some(cells.tree(alloc, 3)?),
        _ => None,
    };
    let asked = cells.text(if lent.is_some() { 4 } else { 3 })?;
    match halves_of(alloc, &first, &limits, &lent) {
        Ok(parts) => decided(alloc, &subject, &parts, asked),
        Err(found) => fault(alloc, &found),
    }
}

fn halves_of(
    alloc: Global,
    first: &Tree,
    limits: &Option<Tree>,
    lent: &Option<Tree>,
) -> Result<Halves, BodyFault> {
    Ok(Halves {
        first: Shared::new(alloc, role_of(alloc, first)?)?,
        limit: role_if_given(alloc, limits)?,
        target: role_if_given(alloc, lent)?,
    })
}

fn role_if_given(alloc: Global, tree: &Option<Tree>) -> Result<Option<Shared<Role>>, BodyFault> {
    match tree {
        Some(tree) => {
            let role = role_of(alloc, tree)?;
            Ok(Some(Shared::new(alloc, role)?))
        }
        None => Ok(None),
    }
}

/// What is decided of `run as`, `index ACTION INDEX`, `cluster ACTION` or `permit ACTION INDEX`.
pub fn decided(
    alloc: Global,
    subject: &Subject,
    parts: &Halves,
    asked: &str,
) -> Result<Str, Fault> {
    let (what, rest) = cut_at_blank(asked);
    let (action, index) = cut_at_blank(rest);
    match what {
        "run" if rest == "as" => truth(alloc, run_as(subject, parts)),
        "index" => truth(alloc, decide(subject, parts, action_of(action)?, index)),
        "cluster" => {
            let action = cluster_action_of(action)?;
            truth(alloc, decide_cluster(subject, parts, action))
        }
        "permit" => {
            let action = action_of(action)?;
            permitted(alloc, &permit(alloc, subject, parts, action, index)?)
        }
        _ => Err(Fault::Line),
    }
}
