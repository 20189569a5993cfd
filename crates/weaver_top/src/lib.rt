//! The top call: a command line, a source and a sink in, a status out.
//!
//! `execute` finds the command, reads the input whole, and writes one text: `run` reads a script from the input, runs
//! it and writes its report; `trace` reads a script, does its steps one after another, and writes their report; `check`
//! reads a script and a report after it, and writes whether the report is right for the script. It judges every script
//! and report that can be read. `load` reads nothing: it makes a script, does its steps, answers every request, and
//! writes a summary of the report.
//!
//! `weave` has a runtime. There `run` has workers on threads, and may wait; the other commands are those of `execute`,
//! which has no runtime and always returns. In `execute` itself `run` drives a core, without workers.
#![tactic(auto)]

mod answer;
mod check_command;
mod command;
mod delivering;
mod execution;
mod load_command;
mod load_laws;
mod lower_laws;
mod on_threads;
mod phases;
mod preparing;
mod run_command;
mod status;
mod summary;
mod top_call;
mod trace_command;
mod which_answer;

pub use answer::refusal_text;
pub use command::Command;
pub use execution::execute;
pub use status::Status;
pub use top_call::weave;
pub use weaver_workers::{NoPace, Pace, WorkKind};
