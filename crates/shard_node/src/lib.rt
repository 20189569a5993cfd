//! Shards: they take messages in any order, process each channel in number order, give programs the state of a vertex
//! that they see, and drop old versions (Weaver, PVLDB 9(11) 2016).
//!
//! A `Shard` keeps a log, and contracts see nothing of it but that log, its number and the number of gatekeepers. What
//! waits, what was processed and the versions of each vertex are what the replay of the log gives.
#![tactic(auto)]

mod channels;
mod fault;
pub mod laws;
mod low_marks;
mod shard;
mod turns;
mod waiting;

pub use fault::{ApplyFault, VisitFault};
pub use shard::Shard;
pub use shard_queue::Arrival;
