//! A phase of a script, run by workers on threads.
//!
//! The core is taken apart, its machines are put behind locks, and each session that has requests in the phase, each
//! gatekeeper and each shard gets a worker with a hand of its own. They run side by side, on as many threads as there
//! are workers. Then the locks are closed, and the parts are joined to a core again.
#![tactic(auto)]

mod lower_laws;
mod order;
mod phase;
mod rules;
mod running;
pub mod seats;
mod sessions;
mod slots;

pub use phase::run_phase;
