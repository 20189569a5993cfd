//! Sessions: which request comes next, and the stamp of the last one.
//!
//! The requests of a session begin in order, each after the reply to the one before. A `Session` is at the end of its
//! log if it is what the replay of the log gives (`session_of`). No call takes memory.
#![tactic(auto)]

pub mod laws;
mod session;

pub use session::{Early, Session};
