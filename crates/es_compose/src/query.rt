//! Queries of roles: over which documents a member of `indices` grants.
ghost use Rattle.std.specs.Prelude.{◌≡◌, IfOk, true};
ghost use Rattle.es_tree.specs.Read.{read_of};
ghost use Rattle.es_grammar.specs.Reading.{Gives};
ghost use Rattle.es_query.specs.Queries.{query_form};
ghost use Rattle.es_template.specs.Filling.{filled};
ghost use Rattle.es_compose.specs.Checked.{template_form, role_clause_form, role_object_form, role_query_read, role_query_form, role_query_tree, role_query};
ghost use Rattle.es_compose.specs.Permissions.{query_or_nothing, filled_query};

use es_base::{NoMemory, Shared};
use es_grammar::{Form, MemberForm, each, ends, here, members_of, needed, only, optional, single};
use es_query::{Query, QueryClause, QueryForm};
use es_template::{SourceForm, Template};
use es_tree::{BodyFault, Person, Tree, TreeFault, read};
use std::alloc::Global;

/// The query of a member of `indices`.
#[derive(Drop)]
pub enum RoleQuery {
    /// The same query for everyone.
    Fixed(Shared<Query>),
    /// A template, whose query each person fills.
    Filled(Template),
}

// Templates by their source.
struct TemplateForm;

impl Form for TemplateForm {
    type Out = Template;

    ghost form = { template_form };

    ghost sound = { λ _. true };

    #[tactic(auto, unfolding(crate::specs::Checked::template_form))]
    fn read(alloc: Global, tree: &Tree) -> Result<Template, BodyFault> {
        let members = members_of(alloc, tree)?;
        let (source, members) = optional::<SourceForm>(alloc, "source", members)?;
        ends(alloc, members)?;
        needed(alloc, source)
    }
}

// The one member of a role's query.
struct RoleClause;

impl MemberForm for RoleClause {
    type Out = RoleQuery;

    ghost form = { role_clause_form };

    #[tactic(auto, unfolding(crate::specs::Checked::role_clause_form))]
    fn read(alloc: Global, name: &str, tree: &Tree) -> Result<RoleQuery, BodyFault> {
        match name {
            "template" => Ok(RoleQuery::Filled(TemplateForm::read(alloc, tree)?)),
            _ => {
                let query = QueryClause::read(alloc, name, tree)?;
                Ok(RoleQuery::Fixed(Shared::new(alloc, query)?))
            }
        }
    }
}

#[tactic(auto, unfolding(crate::specs::Checked::role_object_form))]
fn read_object(alloc: Global, tree: &Tree) -> Result<RoleQuery, BodyFault>
    ensures { Gives result (role_object_form tree.now) }
{
    let members = members_of(alloc, tree)?;
    let found = each::<RoleClause>(alloc, members)?;
    only(alloc, found)
}

fn read_text(alloc: Global, text: &str) -> Result<RoleQuery, BodyFault>
    ensures { Gives result (role_query_read (read_of text.now)) }
{
    match read(alloc, text.as_bytes()) {
        Ok(tree) => read_object(alloc, &tree),
        Err(fault) => match fault {
            TreeFault::NoMemory => Err(BodyFault::NoMemory),
            _ => Err(here(alloc)),
        },
    }
}

/// Queries of roles: objects, and texts that are read as such.
pub struct RoleQueryForm;

impl Form for RoleQueryForm {
    type Out = RoleQuery;

    ghost form = { role_query_form };

    ghost sound = { λ _. true };

    #[tactic(auto, unfolding(crate::specs::Checked::role_query_form))]
    fn read(alloc: Global, tree: &Tree) -> Result<RoleQuery, BodyFault> {
        match tree {
            Tree::Object(_) => read_object(alloc, tree),
            Tree::Text(text) => read_text(alloc, text.text()),
            _ => Err(here(alloc)),
        }
    }
}

/// The query that the tree of a checked member is. Nothing holds for a tree that isn't one.
#[tactic(auto, unfolding(crate::specs::Checked::role_query))]
pub(crate) fn role_query(alloc: Global, tree: &Tree) -> Result<RoleQuery, NoMemory>
    ensures { IfOk result (λ found. found ≡ role_query tree.now) }
{
    match RoleQueryForm::read(alloc, tree) {
        Ok(found) => Ok(found),
        Err(fault) => match fault {
            BodyFault::NoMemory => Err(NoMemory),
            BodyFault::Bad { .. } => Ok(RoleQuery::Fixed(Shared::new(alloc, Query::Nothing)?)),
        },
    }
}

// The query of a template that is filled for the person. Nothing holds where it gives none.
fn filled_by(alloc: Global, template: &Template, person: &Person) -> Result<Shared<Query>, NoMemory>
    ensures { IfOk result (λ query. query ≡ query_or_nothing (query_form (filled person.now template.now))) }
{
    let tree = template.render(alloc, person)?;
    match QueryForm::read(alloc, &tree) {
        Ok(query) => Shared::new(alloc, query),
        Err(fault) => match fault {
            BodyFault::NoMemory => Err(NoMemory),
            BodyFault::Bad { .. } => Shared::new(alloc, Query::Nothing),
        },
    }
}

impl RoleQuery {
    /// The tree that it prints as: the query in its canonical form, or the template with its source as a tree. What was
    /// read from a tree is read from this one too.
    pub fn print(&self, alloc: Global) -> Result<Tree, NoMemory>
        ensures { IfOk result (λ tree. tree ≡ role_query_tree self.now) }
    {
        match self {
            RoleQuery::Fixed(query) => query.get().print(alloc),
            RoleQuery::Filled(template) => {
                let source = template.print(alloc)?;
                let source = single(alloc, "source", source)?;
                single(alloc, "template", source)
            }
        }
    }

    /// The query for the person: one for everyone is shared, and a template is filled. Nothing holds where what it
    /// gives is no query.
    #[tactic(auto, unfolding(crate::specs::Permissions::filled_query))]
    pub fn filled(&self, alloc: Global, person: &Person) -> Result<Shared<Query>, NoMemory>
        ensures { IfOk result (λ query. query ≡ filled_query person.now self.now) }
    {
        match self {
            RoleQuery::Fixed(query) => query.share(),
            RoleQuery::Filled(template) => filled_by(alloc, template, person),
        }
    }
}
