//! The core of steps: the machines of one script, run step by step.
//!
//! Contracts see a `Core` as its script, its logs and its notices. Its logs are an account. A step answers what the
//! definition of steps answers, and leaves the logs that it leaves; the report is that of the account. A core splits
//! into its parts, and parts that fit together join to a core (`specs/Splitting.antt`).
#![tactic(auto)]

mod beginning;
mod client;
mod clocks;
mod finishing;
mod gates;
mod giving_replies;
mod judging;
mod machines;
mod marks;
mod messages;
mod open_requests;
mod outcome;
mod pairs;
mod replies;
mod restarting;
mod returning;
mod script_core;
mod sending;
mod sessions;
mod shards;
mod split;
mod staying;
mod stepping;
mod visiting;
mod walks;

pub use client::{Client, Standing};
pub use path_program::AnyProgram;
pub use script_core::Core;
pub use split::Split;
pub use walks::Running;
