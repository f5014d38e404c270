//! The replies and their bodies.
#![tactic(auto)]

mod bounds;
mod denials;
mod documents;
mod heads;
mod indices;
mod keys;
mod names;
mod persons;
mod puts;
mod refusals;
#[cfg(test)]
mod tests;
mod texts;
mod trees;

pub use bounds::{journal_full_bytes, journal_full_entries, no_entropy};
pub use denials::{denied, denied_cluster, denied_run_as};
pub use documents::{
    absent, created, deleted, document_exists, document_refused, found, not_found, put_reply,
    updated,
};
pub use es_response::{Reply, error, fixed};
pub use heads::{
    bad_header, bad_parameter, bad_path, method_not_allowed, no_route, place_not_reached,
};
pub use indices::{acknowledged, index_created, index_exists, mapping_shown, no_such_index};
pub use keys::{key_created, keys_invalidated, keys_listed};
pub use names::{bad_document_id, bad_index_name, bad_role_name, bad_user_name};
pub use persons::{
    authenticated, gone, key_authenticated, nothing_shown, person_shown, role_shown,
};
pub use puts::{role_put, user_put};
pub use refusals::{bad_body, bad_json, derived_key, not_built, reserved, unauthorized};
pub use trees::tree_reply;
