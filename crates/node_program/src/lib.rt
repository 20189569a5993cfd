//! Node programs: they read one vertex after the other, level by level, and answer from what they have read.
//!
//! A program is fed with the states of the vertices that it asks for, at any time and by any hand. What it has read is
//! a list of reads; its next vertex is the next visit after them, and its outcome is the plain answer over the states
//! read (`NodeProgram`).
#![tactic(auto)]

mod node;
mod show;

pub use node::NodeProgram;
pub use show::ShowProgram;
