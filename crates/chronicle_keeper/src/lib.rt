//! An example of a user of `chronicle`, with the tests of that lock: a tally that threads share.
//!
//! Threads add numbers to one tally, each under the number of its own pass. What each of them added is in the tally's
//! log, once and in the order in which it added, and nobody else's entry has its number. Besides that: a note that
//! meets its pass, a hold inside a hold, and a machine that keeps a note of another lock.
#![tactic(auto)]

mod adding;
mod nested_holds;
mod noted;
mod tally;

pub use adding::{add, add_range, tallied, total};
pub use nested_holds::{Owner, add_to_both};
pub use noted::{Noted, five_noted, with_note};
pub use tally::{Refused, Tally};
