//! An ordered map from texts whose versions share their parts.
#![tactic(auto)]

mod cursor;
mod map;

pub use cursor::Cursor;
pub use es_base::{NoMemory, Str};
pub use map::Map;
