//! Every request of a script answered, by ordinary steps of a core.
//!
//! `drive` goes on from any core until each request below a bound has its reply. It begins no request at or above the
//! bound and raises no epoch; what the core's report said stays.
#![tactic(auto)]

mod answering;
mod applying;
mod delivering;
mod flights;
mod looking;
mod lower_laws;
mod readying;
mod stepping;

pub use answering::drive;
