//! The versions of a vertex as parts: what each property, edge and tag became, and when.
//!
//! `Parts` keeps one list of items for presence, and one for each property, edge and tag. An item says what the thing
//! became and when. `add_update` adds the items of an update, `take_back` drops those of the newest one, and `collect`
//! drops what no state from a given update on has. `state_at` gives the state after an update, as if its operations and
//! those of all updates before it were done one after another.
#![tactic(auto)]

mod counts;
mod cut;
mod edge;
pub mod laws;
mod lists;
mod maps;
mod ops;
mod parts;
mod states;
mod time;
mod track;

pub use parts::Parts;
