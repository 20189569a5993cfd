//! Why no core is ever stuck, as laws over the logs of an account: what every way of working off requests may count on.
//!
//! A shard to which all was delivered has a head that can be applied, a shard can be made ready for each program, and a
//! program reads few vertices. There is no code but the laws: public functions with an empty body, whose contracts say
//! them.
#![tactic(auto)]

pub mod laws;
mod lower_laws;
