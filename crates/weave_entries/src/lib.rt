//! The entries of the five logs, as plain data: those of gatekeepers, the store, the oracle, shards and sessions.
//!
//! Each entry says who made it, by the author's number, and what was done. A request is named by its place in the
//! script, from 0.
#![tactic(auto)]

mod gate_log;
pub mod laws;
mod message;
mod oracle_log;
mod session_log;
mod shard_log;
mod store_log;
mod verdict;

pub use gate_log::{GateDeed, GateEntry};
pub use message::{Addressed, Message};
pub use oracle_log::{OracleDeed, OracleEntry};
pub use session_log::{SessionDeed, SessionEntry};
pub use shard_log::{ShardDeed, ShardEntry};
pub use store_log::{StoreDeed, StoreEntry};
pub use verdict::{Counted, Verdict};
