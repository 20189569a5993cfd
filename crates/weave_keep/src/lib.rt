//! The command `keep`: a script's transactions over a store whose commits are on a disk.
//!
//! `keep` reads a script, recovers the store from the disk, keeps the transactions that pass, one after another, and
//! writes their report. `weave_kept` is the program's top call: it has `keep` besides the commands of `weave`.
#![tactic(auto)]

mod answering;
mod keep_command;
mod keeping;
mod top_call;

pub use keep_command::keep;
pub use top_call::weave_kept;
