//! Plain data that every layer holds: names, lists, maps under names, and equal values of them.
//!
//! Its lemmas on lists, on logs entry by entry and on steps that may fail are those that several crates cite.
//! `specs/Facts` is the notion of a clause that is judged place by place.
//! The numbers of the limits stand in `limits` for code, and in `specs/Limits` for contracts.
//!
//! Contracts see a name as the list of its bytes, a list as a list, and a map as the list of its pairs in rising order
//! of keys.
#![tactic(auto)]

mod change;
mod copied;
mod items;
mod letters;
mod limits;
mod name;
mod name_map;
mod places;

pub use change::Undo;
pub use copied::Copied;
pub use items::Items;
pub use limits::{
    MOST_BYTES, MOST_GATES, MOST_GETS, MOST_LETTERS, MOST_OPS, MOST_PROGRAMS, MOST_REQUESTS,
    MOST_SESSIONS, MOST_SHARDS,
};
pub use name::Name;
pub use name_map::{NameMap, are_rising};
