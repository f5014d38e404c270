//! What the tables ask.
use crate::{
    actions, credentials, mappings, paths, patterns, queries, roles, security, trees, values,
};
use es_base::Str;
use esec_cells::{Cells, Fault, Tables};
use std::alloc::Global;

/// The tables of the leaf crates.
pub struct Leaves;

impl Tables for Leaves {
    fn answer(alloc: Global, table: &str, cells: &Cells) -> Result<Str, Fault> {
        answer(alloc, table, cells)
    }
}

/// The answer to the cells of a line of the table with this name.
fn answer(alloc: Global, table: &str, cells: &Cells) -> Result<Str, Fault> {
    match table {
        "text of a pattern" => patterns::text(alloc, cells),
        "pattern fits" => patterns::fits(alloc, cells),
        "texts of patterns" => patterns::texts(alloc, cells),
        "one of the patterns fits" => patterns::one_fits(alloc, cells),
        "field is granted" => patterns::grants(alloc, cells),
        "tree" => trees::tree(alloc, cells),
        "leaves" => trees::leaf_list(alloc, cells),
        "member" => trees::member(alloc, cells),
        "equal trees" => trees::equal(alloc, cells),
        "moment of a text" => values::moment(alloc, cells),
        "number of a text" => values::whole_number(alloc, cells),
        "keyword, long and date" => values::each_type(alloc, cells),
        "long text at a path" => paths::has_long_text(alloc, cells),
        "texts at a path" => paths::texts_at(alloc, cells),
        "whole value" => values::whole(alloc, cells),
        _ => answer_above(alloc, table, cells),
    }
}

fn answer_above(alloc: Global, table: &str, cells: &Cells) -> Result<Str, Fault> {
    match table {
        "index privilege" => actions::index_privilege(alloc, cells),
        "cluster privilege" => actions::cluster_privilege(alloc, cells),
        "granting" => actions::granting_names(alloc, cells),
        "granted" => actions::granted(alloc, cells),
        "granted on the cluster" => actions::granted_on_cluster(alloc, cells),
        "descriptor" => roles::descriptor(alloc, cells),
        "granted by roles" => roles::granted(alloc, cells),
        "granted by roles on the cluster" => roles::granted_on_cluster(alloc, cells),
        "mapping" => mappings::mapping(alloc, cells),
        "types" => mappings::types(alloc, cells),
        "document" => mappings::document(alloc, cells),
        "values at a path" => mappings::values_at(alloc, cells),
        "query" => queries::query(alloc, cells),
        "documents found" => queries::found(alloc, cells),
        "credentials" => credentials::credentials(alloc, cells),
        "digest" => credentials::digest_of(alloc, cells),
        "name" => credentials::name(alloc, cells),
        "secret" => credentials::secret(alloc, cells),
        "user" => credentials::user(alloc, cells),
        "digest of a user" => credentials::user_digest(alloc, cells),
        "user knows" => credentials::knows(alloc, cells),
        _ => answer_of_security(alloc, table, cells),
    }
}

fn answer_of_security(alloc: Global, table: &str, cells: &Cells) -> Result<Str, Fault> {
    match table {
        "fault of a descriptor" => security::descriptor_fault(alloc, cells),
        "print of a descriptor" => security::descriptor_print(alloc, cells),
        "grants nothing" => security::grants_nothing(alloc, cells),
        "template of a source" => security::template(alloc, cells),
        "filled template" => security::filled(alloc, cells),
        "projection of a document" => security::projection(alloc, cells),
        "projection of a mapping" => security::mapping_projection(alloc, cells),
        "permission" => security::permission(alloc, cells),
        "limited permission" => security::limited(alloc, cells),
        "runs as" => security::runs_as(alloc, cells),
        _ => Err(Fault::Line),
    }
}
