//! The closed logs of a run by hands are an account of the script.
//!
//! A hand that follows the script knows of its own requests alone. The definitions in `specs/` say what each hand owes,
//! and that no request is given to two hands. The laws say that then the logs of all machines at the end, together with
//! the sessions' logs, are an account of the script, and that this account goes on from the one at the start.
#![tactic(auto)]

pub mod laws;
mod lower_laws;
