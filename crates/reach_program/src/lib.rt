//! The programs `reach` and `around`: a search level by level, fed with one state after the other.
#![tactic(auto)]

mod reach;

pub use reach::{Goal, ReachProgram};
