//! What the tables ask.
use crate::{asking, bodies, decisions, dropping, keys, standing, subjects};
use es_base::Str;
use esec_cells::{Cells, Fault, Tables};
use std::alloc::Global;

/// The tables of keys, of decisions and of records.
pub struct KeyTables;

impl Tables for KeyTables {
    fn answer(alloc: Global, table: &str, cells: &Cells) -> Result<Str, Fault> {
        match table {
            "made key" => keys::made(alloc, cells),
            "key takes secret" => keys::takes_secret(alloc, cells),
            "key is expired" => keys::is_expired(alloc, cells),
            "subject text" => subjects::subject_told(alloc, cells),
            "halves" => subjects::half_names(alloc, cells),
            "decision" => decisions::decision(alloc, cells),
            _ => answer_above(alloc, table, cells),
        }
    }
}

fn answer_above(alloc: Global, table: &str, cells: &Cells) -> Result<Str, Fault> {
    match table {
        "body that asks for a key" => bodies::new_key(alloc, cells),
        "body of an invalidation" => bodies::invalidation(alloc, cells),
        "request" => asking::request(alloc, cells),
        "records" => standing::standing(alloc, cells),
        "drops" => dropping::dropped(alloc, cells),
        _ => Err(Fault::Line),
    }
}
