//! What each atomic step of a core does, as plain functions of a script, the logs and the notices.
//!
//! The definitions say what a step answers, which entries it makes, and what a list of steps does: they have no
//! machine. A core's code has only to show that its answers and its logs are those of the definitions. The worked lists
//! of steps in `proofs/` are computed from them, answers and reports whole.
#![tactic(auto)]

pub mod laws;
mod lower_laws;
