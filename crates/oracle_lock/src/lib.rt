//! The timeline oracle behind its lock.
//!
//! It keeps a note of each gatekeeper's lock. All events of its entries were begun in the gatekeepers' logs as far as
//! the notes have seen them: a fact of the type. The oracle's lock is taken inside a hold of the store, which judges by
//! `NotedOracle::judge`, or of a shard, to which the oracle is lent. The laws say that it keeps that fact when it is
//! asked.
#![tactic(auto)]

mod bare;
pub mod laws;
mod meeting;
mod noted_oracle;

pub use bare::{BareOracle, open_oracle};
pub use meeting::meet_gates;
pub use noted_oracle::NotedOracle;
