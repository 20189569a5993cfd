//! What hands do: the steps of a run, each made of holds of the objects behind locks.
//!
//! `transact` begins a transaction, has it judged and sends it. `start` begins a program, `visit` reads its next
//! vertex, and `finish` ends it. `pull` brings a message from a gatekeeper to a shard (`bring` also says whether it had
//! arrived there before), and `apply` processes it there.
//! `say_and_hear` tells a gatekeeper the clock of another, and `nop` sends an empty message. A call that answers Ok has
//! made the entries of the steps that it stands for, once each and with the hand's number, and no others. One that
//! answers otherwise has made none, except those of its earlier holds if it is out of memory.
//!
//! A program is running (`IsRunning`) from its `start` to its `finish`. Calls for others leave it as it is (`laws`).
#![tactic(auto)]

mod fault;
mod finishing;
pub mod laws;
mod lower_laws;
mod messages;
mod starting;
mod telling;
mod transacting;
mod visiting;

pub use fault::HandFault;
pub use finishing::finish;
pub use messages::{Pulled, apply, bring, pull};
pub use starting::start;
pub use telling::{nop, say_and_hear};
pub use transacting::transact;
pub use visiting::visit;
