//! Reports as values: what a run reports, and when a report is right for a script.
//!
//! The definitions are in `specs/`: the eight clauses of a right report, each a list of facts by place, precedence of
//! requests, replay, the printed order, meetings and phases, the run of transactions one after another. The laws tie
//! them together. How a report is written and read as a text is above.
#![tactic(auto)]

pub mod laws;
mod report;

pub use report::{Clause, Pair, Reply, ReplyState, Report, StepAnswer};
