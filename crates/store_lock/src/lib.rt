//! The backing store behind its lock.
//!
//! It keeps a note of each gatekeeper's lock and one of the oracle's. All that its judgements refer to was
//! seen by the notes: a fact of the type. A commit takes the oracle's lock inside the store's hold.
#![tactic(auto)]

mod bare;
mod judging;
pub mod laws;
mod lower_laws;
mod noted_store;

pub use bare::{BareStore, open_store};
pub use noted_store::NotedStore;
