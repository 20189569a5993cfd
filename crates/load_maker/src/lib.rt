//! Scripts of random requests and steps: the same seed and size give the same script.
//!
//! The script is exactly the one that the words of a seeded generator give by the definition, and it is valid.
#![tactic(auto)]

mod draws;
mod making;
mod names;
mod ops;
mod programs;
mod requests;
mod steps;

pub use making::make;
