//! The objects of a run behind locks, and the hands that work on them.
//!
//! A `Shared` has a lock for each gatekeeper, for the store, for the oracle and for each shard. A `Hand` has a pass of
//! each. Each call of `Shared` is one hold: it answers what the machine answers there, and adds at most one entry with
//! the hand's number. A hand keeps that it has seen all that its entries refer to (`IsHand`).
//!
//! The oracle's lock is taken only within a hold of the store or of a shard. No other two locks are held at once, so
//! hands never wait for each other in a circle.
#![tactic(auto)]

mod ask_laws;
mod bare;
mod closed_rows;
mod closing;
mod closing_laws;
mod dealing;
mod ends;
mod filling;
mod gate_calls;
mod gate_holds;
mod gate_laws;
mod hand;
mod hand_laws;
pub mod laws;
mod locks;
mod lower_laws;
mod machines;
mod noting;
mod noting_all;
mod opened_locks;
mod opening;
mod opening_all;
mod opening_laws;
mod preparing;
mod rooms;
mod shard_calls;
mod shard_holds;
mod shard_visits;
mod shared;
mod store_calls;
mod store_holds;
mod taking;

pub use closing::Closed;
pub use hand::Hand;
pub use shared::Shared;
