//! The closed logs of hands that have several sessions each are an account of the script.
//!
//! A hand may be given many sessions, and make its calls for them in any order. The definitions in `specs/` say what
//! each call does for its session (`ServesSession`), and when all hands of a run did nothing else (`IsServedBy`). The
//! law says that the closed logs are then, together with the sessions' logs, an account of the script.
#![tactic(auto)]

pub mod laws;
mod lower_laws;
