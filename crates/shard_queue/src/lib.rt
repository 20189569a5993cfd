//! Numbered channels from a gatekeeper to a shard.
//!
//! An `Outbox` is the sending end: the list of what was sent, numbered from 1, with rising stamps.
//! An `Inbox` is the receiving end: it takes messages in any order, and gives them in the order of their numbers.
#![tactic(auto)]

mod inbox;
pub mod laws;
mod outbox;

pub use inbox::{Arrival, Inbox};
pub use outbox::Outbox;
