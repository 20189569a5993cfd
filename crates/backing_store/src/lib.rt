//! The backing store: it keeps the graph, judges each transaction by the stamp of the last update of the vertices that
//! it names, and logs what it judged (Weaver, PVLDB 9(11) 2016).
//!
//! `Store::commit` follows the rule over any judge of events. Contracts see the store as its log: the graph, the number
//! of commits and each verdict are what the replay of the log gives.
#![tactic(auto)]

mod asked;
mod deciding;
mod judge_calls;
mod lasts;
pub mod laws;
mod store;
mod trying;

pub use store::Store;
