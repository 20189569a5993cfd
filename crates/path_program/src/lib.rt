//! The program `path`, and any of the node programs: made from a program as plain data, fed with one state after the
//! other.
#![tactic(auto)]

mod any;
mod path;

pub use any::AnyProgram;
pub use path::PathProgram;
