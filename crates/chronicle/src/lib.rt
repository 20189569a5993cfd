//! A lock that keeps one history.
//!
//! A `Chronicle` is a lock around a machine that has a log. The holder of a `Pass` enters alone, adds entries with the
//! number of the pass, and leaves. Every change is an entry with its author, so the log is the history of the lock:
//! each holder finds that the log begins with all that it has seen, with its own entries as it left them, each once.
//! A `Note` keeps what a pass has seen, for others to compare. When all passes are back, `close` gives the machine.
//!
//! A machine may keep notes of other locks. Its frame then lists the names of those locks, and no holder can change
//! the frame. So that locks can name each other, a lock is made in two calls: `reserve`, which gives it its name, and
//! `open`.
//!
//! The log is the machine's own. What a pass has seen of it exists in the proofs alone, and takes no memory.
#![tactic(auto)]

mod bell;
mod chronicle;
mod close;
mod enter;
mod held;
pub mod laws;
mod machine;
mod note;
mod open;
mod pass;
mod rule;
mod rung;
mod state;
mod steps;
mod view;

pub use chronicle::Chronicle;
pub use held::Held;
pub use machine::Machine;
pub use note::Note;
pub use open::{Unopened, Vacant};
pub use pass::Pass;
