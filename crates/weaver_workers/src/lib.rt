//! What the workers of a phase do in a run on threads: clients, gatekeepers and shards, turn by turn.
//!
//! `Worker::go` does a worker's part of a phase. A client goes through its session's requests, one try of one request a
//! turn: a transaction is begun, judged and sent; a program is begun, reads vertex by vertex and is finished. It stops
//! if its gatekeeper was busy in 16 turns one after another, or if a shard was not ready after a nudge (`nudge`). A
//! gatekeeper's worker takes four turns for each request of the phase. In each it hears the other gatekeepers, and in
//! the first ones, four for each program of the phase, it sends an empty message to each shard (`turn_gate`). A shard's
//! worker takes the same number of turns. In each all that was sent to the shard is to arrive there and, if any is new
//! to the worker, to be processed as far as it can be (`turn_shard`).
//!
//! The contract gives the whole list of what a client's worker did to the logs and to its client, one thing after
//! another, each as the hand's call says it (`WorkerGoesOn`), and how it ended (`WorkerEndsAs`). The other workers only
//! carry (`Carries`): the entries that their hands make are clocks that gatekeepers heard, empty messages, and messages
//! that arrived at shards or were processed there. All of these are at the worker's own gatekeeper (`CarriesAtGate`) or
//! shard (`CarriesAtShard`). After a turn that answers Ok the gatekeeper has heard each other one, now or, if that
//! one's clock is still the same, before (`IsUpToDate`). After a nudge that answers Ok each gatekeeper but the
//! program's home has heard in it a clock of the home, not older than the worker had seen (`HaveHeardBelow`). That a
//! shard's turn brings and processes all there is, no clause says.
#![tactic(auto)]

mod bounds;
mod bringing;
mod changing;
mod client_work;
mod ended;
mod gate_work;
mod hearing;
mod keeping;
pub mod laws;
mod looking;
mod nudging;
mod pace;
mod reading;
mod tried;
mod worker;

pub use bounds::{end_of_phase, program_turns, start_of_phase, turns_of};
pub use bringing::{Brought, turn_shard};
pub use ended::Ended;
pub use gate_work::turn_gate;
pub use nudging::nudge;
pub use pace::{NoPace, Pace, WorkKind};
pub use worker::Worker;
