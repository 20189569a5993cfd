//! A shard behind its lock, with notes of the logs to which its entries refer.
//!
//! A `BareShard` is what the lock begins with: the shard, and the names of the locks of which it will keep notes. A
//! `NotedShard` is in the lock while nobody is in: the shard with its notes. Its type keeps that all that its log
//! refers to was seen: in its own log, or by a note (`IsKept`).
//!
//! In a hold the notes first `meet` the passes of the other locks. Then each call asks that what the new entry refers
//! to was seen by the notes. A visit takes the oracle's lock inside the shard's hold.
#![tactic(auto)]

mod bare;
pub mod laws;
mod lower_laws;
mod noted_shard;
mod notes;
mod visiting;

pub use bare::BareShard;
pub use noted_shard::NotedShard;
pub use notes::ShardNotes;
