//! Roles with queries and rules over fields: checked descriptors, templates, projections and permissions.
use crate::mappings::mapping_in;
use crate::patterns::pattern_of;
use es_base::{Seq, Shared, Str};
use es_compose::limit;
use es_fields::{project, project_mapping};
use es_glob::{FieldClause, FieldPair, FieldRule, PatternSet};
use es_template::Template;
use es_tree::{Tree, print};
use esec_cells::{
    Cells, Fault, action_of, alone, both, checked, fault, person_of, role_of, texts_of, truth,
};
use std::alloc::Global;

/// PLACE => TREE: the place of the first fault of the descriptor when it is read and checked, or `none`.
pub fn descriptor_fault(alloc: Global, cells: &Cells) -> Result<Str, Fault> {
    match checked(alloc, &cells.tree(alloc, 1)?, cells.text(0)?) {
        Ok(_) => Ok(Str::of(alloc, "none")?),
        Err(found) => fault(alloc, &found),
    }
}

/// TREE: what the descriptor prints when it was read and checked, or the place of its first fault.
pub fn descriptor_print(alloc: Global, cells: &Cells) -> Result<Str, Fault> {
    match checked(alloc, &cells.tree(alloc, 0)?, "") {
        Ok(descriptor) => Ok(print(alloc, &descriptor.print(alloc)?)?),
        Err(found) => fault(alloc, &found),
    }
}

/// TREE: whether the descriptor grants nothing, or the place of its first fault.
pub fn grants_nothing(alloc: Global, cells: &Cells) -> Result<Str, Fault> {
    match checked(alloc, &cells.tree(alloc, 0)?, "") {
        Ok(descriptor) => truth(alloc, descriptor.grants_nothing()),
        Err(found) => fault(alloc, &found),
    }
}

/// PLACE => SOURCE: the tree that the template's source prints as, or the place of its first fault.
pub fn template(alloc: Global, cells: &Cells) -> Result<Str, Fault> {
    match Template::read(alloc, &cells.tree(alloc, 1)?, cells.text(0)?) {
        Ok(template) => Ok(print(alloc, &template.print(alloc)?)?),
        Err(found) => fault(alloc, &found),
    }
}

/// PERSON => SOURCE: the tree of the template, filled for the person, or the place of its first fault.
pub fn filled(alloc: Global, cells: &Cells) -> Result<Str, Fault> {
    let person = person_of(alloc, &cells.tree(alloc, 0)?)?;
    match Template::read(alloc, &cells.tree(alloc, 1)?, "") {
        Ok(template) => Ok(print(alloc, &template.render(alloc, &person)?)?),
        Err(found) => fault(alloc, &found),
    }
}

/// DOCUMENT => RULE: what the rule leaves of the document.
pub fn projection(alloc: Global, cells: &Cells) -> Result<Str, Fault> {
    let rule = rule_of(alloc, &cells.tree(alloc, 1)?)?;
    let left = project(alloc, &rule, &cells.tree(alloc, 0)?)?;
    Ok(print(alloc, &left)?)
}

/// MAPPING => RULE: what the rule leaves of the mapping.
pub fn mapping_projection(alloc: Global, cells: &Cells) -> Result<Str, Fault> {
    let rule = rule_of(alloc, &cells.tree(alloc, 1)?)?;
    let left = project_mapping(alloc, &rule, &mapping_in(alloc, cells, 0)?)?;
    Ok(print(alloc, &left.print(alloc)?)?)
}

/// A rule: a clause, or an object of two clauses as `first` and `second`.
fn rule_of(alloc: Global, tree: &Tree) -> Result<FieldRule, Fault> {
    match tree {
        Tree::Object(_) => Ok(FieldRule {
            first: clause_named(alloc, tree, "first")?,
            second: clause_named(alloc, tree, "second")?,
        }),
        _ => Ok(FieldRule {
            first: clause_of(alloc, tree)?,
            second: FieldClause::All,
        }),
    }
}

fn clause_named(alloc: Global, tree: &Tree, name: &str) -> Result<FieldClause, Fault> {
    match tree.member(name) {
        Some(clause) => clause_of(alloc, clause),
        None => Err(Fault::Line),
    }
}

/// A clause: the text `all`, or a list of pairs as `field_security` has them.
fn clause_of(alloc: Global, tree: &Tree) -> Result<FieldClause, Fault> {
    match tree {
        Tree::Text(text) if text.text() == "all" => Ok(FieldClause::All),
        Tree::List(items) => {
            let mut pairs = Seq::empty(alloc);
            for item in items.as_slice() {
                pairs.push(Shared::new(alloc, pair_of(alloc, item)?)?)?;
            }
            Ok(FieldClause::Any(pairs))
        }
        _ => Err(Fault::Line),
    }
}

fn pair_of(alloc: Global, tree: &Tree) -> Result<FieldPair, Fault> {
    let grant = match tree.member("grant") {
        Some(patterns) => patterns_of(alloc, patterns)?,
        None => every_field(alloc)?,
    };
    let except = match tree.member("except") {
        Some(patterns) => patterns_of(alloc, patterns)?,
        None => PatternSet::of(Seq::empty(alloc)),
    };
    Ok(FieldPair { grant, except })
}

fn every_field(alloc: Global) -> Result<PatternSet, Fault> {
    let mut patterns = Seq::empty(alloc);
    patterns.push(pattern_of(alloc, "*")?)?;
    Ok(PatternSet::of(patterns))
}

fn patterns_of(alloc: Global, tree: &Tree) -> Result<PatternSet, Fault> {
    let mut patterns = Seq::empty(alloc);
    for text in texts_of(alloc, tree)?.as_slice() {
        patterns.push(pattern_of(alloc, text.text())?)?;
    }
    Ok(PatternSet::of(patterns))
}

/// PERSON => DESCRIPTORS => ACTION => INDEX: what they permit the person, as `documents`, `fields` and `granted`, or
/// the place of the first fault of a descriptor.
pub fn permission(alloc: Global, cells: &Cells) -> Result<Str, Fault> {
    let person = person_of(alloc, &cells.tree(alloc, 0)?)?;
    let role = match role_of(alloc, &cells.tree(alloc, 1)?) {
        Ok(role) => role,
        Err(found) => return fault(alloc, &found),
    };
    let action = action_of(cells.text(2)?)?;
    alone(
        alloc,
        &role.permission(alloc, &person, action, cells.text(3)?)?,
    )
}

/// PERSON => DESCRIPTORS => LIMITS => ACTION => INDEX: what both permit the person, where `documents` and `fields` are
/// lists of the two clauses, or the place of the first fault of a descriptor.
pub fn limited(alloc: Global, cells: &Cells) -> Result<Str, Fault> {
    let person = person_of(alloc, &cells.tree(alloc, 0)?)?;
    let role = match role_of(alloc, &cells.tree(alloc, 1)?) {
        Ok(role) => role,
        Err(found) => return fault(alloc, &found),
    };
    let limiting = match role_of(alloc, &cells.tree(alloc, 2)?) {
        Ok(role) => role,
        Err(found) => return fault(alloc, &found),
    };
    let action = action_of(cells.text(3)?)?;
    let index = cells.text(4)?;
    let own = role.permission(alloc, &person, action, index)?;
    let limits = limiting.permission(alloc, &person, action, index)?;
    both(alloc, &limit(own, limits))
}

/// DESCRIPTORS => NAME: whether their holder may run as the user of this name, or the place of the first fault.
pub fn runs_as(alloc: Global, cells: &Cells) -> Result<Str, Fault> {
    match role_of(alloc, &cells.tree(alloc, 0)?) {
        Ok(role) => truth(alloc, role.runs_as(cells.text(1)?)),
        Err(found) => fault(alloc, &found),
    }
}
