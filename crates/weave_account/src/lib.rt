//! The account of a run: all its logs together, and the law that its report is right.
//!
//! The definitions are in `specs/`: when logs are an account, by eight clauses over single entries, what is before them
//! in their log, and precedence by all pairs of the oracle; and which report is that of an account.
#![tactic(auto)]

mod account;
pub mod laws;
mod lower_laws;

pub use account::Account;
