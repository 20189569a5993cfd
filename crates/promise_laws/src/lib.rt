//! What the judge of `run_judge` decides, and what the headline of `run` says, are the same of a text.
#![tactic(auto)]

pub mod laws;
