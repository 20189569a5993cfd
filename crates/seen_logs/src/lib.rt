//! What a thread, and a machine behind a lock, has to have seen of the other logs of a run.
//!
//! An entry of a log refers to entries of other logs. The definitions in `specs/` say to which, by cases on entries, in
//! the words of the account. The laws say that what was seen stays seen, that an account refers to nothing but itself,
//! and that logs that refer to nothing but themselves are an account.
#![tactic(auto)]

pub mod laws;
mod lower_laws;
