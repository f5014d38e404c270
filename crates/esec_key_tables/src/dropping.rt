//! Which halves of decisions a change drops from a cache.
use crate::changes::{change_of, records_after};
use crate::subjects::add_half;
use crate::texts::{cut_at_blank, names_of};
use es_base::{Shared, Str};
use es_keys::RoleKey;
use es_records::drops;
use esec_cells::{Cells, Fault};
use std::alloc::Global;

/// STEPS => CHANGE => HALVES: those halves that the change drops, which is one more step. HALVES have a semicolon and a blank
/// between each two.
pub fn dropped(alloc: Global, cells: &Cells) -> Result<Str, Fault> {
    let records = records_after(alloc, cells.text(0)?)?;
    let change = change_of(alloc, &records, cells.text(1)?)?;
    let mut text = Str::empty(alloc);
    for half in cells.text(2)?.split("; ") {
        let half = half_of(alloc, half)?;
        if drops(&change, &half) {
            add_separated(&mut text, &half)?;
        }
    }
    Ok(text)
}

fn add_separated(text: &mut Str, half: &RoleKey) -> Result<(), Fault> {
    if !text.is_empty() {
        text.push_str("; ")?;
    }
    add_half(text, half)
}

/// `names NAMES`, `assigned ID` or `limits ID`.
pub fn half_of(alloc: Global, text: &str) -> Result<RoleKey, Fault> {
    let (kind, rest) = cut_at_blank(text);
    match kind {
        "names" => Ok(RoleKey::Names(Shared::new(alloc, names_of(alloc, rest)?)?)),
        "assigned" => Ok(RoleKey::Assigned(Shared::new(alloc, Str::of(alloc, rest)?)?)),
        "limits" => Ok(RoleKey::Limits(Shared::new(alloc, Str::of(alloc, rest)?)?)),
        _ => Err(Fault::Line),
    }
}
