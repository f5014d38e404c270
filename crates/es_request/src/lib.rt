//! Requests as values: what is asked, what it needs, and who asks.
#![tactic(auto)]

mod bodies;
mod call;
mod commas;
mod durations;
mod keys;
pub mod kinds;
mod lawful;
mod names;
mod needs;
mod reading;
mod request;

pub use call::Call;
pub use commas::cut_at_commas;
pub use keys::Asked;
pub use kinds::RouteKind;
pub use lawful::laws;
pub use names::{is_document_id, is_index_name};
pub use needs::{Need, need_of};
pub use reading::read_body;
pub use request::Request;
