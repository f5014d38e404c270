//! The scalars of a JSON tree that stand at a path, without a list of them.
#![tactic(auto)]

mod left;
#[cfg(test)]
mod tests;
mod walking;

pub use walking::{ScalarMap, ScalarTest, ScalarVisitor, any_at, gather, visit_at};
