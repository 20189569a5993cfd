//! The judge of what `run` promises: of a right report, what it keeps of that which the headline of `run` says beside
//! the eight clauses.
//!
//! `judge_run` answers for each promise the first place at which it fails, or none exactly if it is kept: the order is
//! the printed order; of two requests that meet at a vertex one precedes the other; the phases are kept; every reply is
//! final; there are no answers of steps. The laws say that these clauses and those of a right report are together what
//! the headline says.
//!
//! What precedes each begun request is counted once: the requests are put into chains whose stamps rise, and along the
//! printed order each gets a row, which says of each chain how many of its first requests precede it. Meetings are
//! found in one walk over the order. At a vertex only the last transaction and the programs since then are compared
//! with the next request, since precedence is transitive: so it plays no part how many requests meet there.
#![tactic(auto)]

mod begun;
mod chains;
mod earlier_ends;
mod finals;
mod judge;
pub mod laws;
mod meetings;
mod outline;
mod peaks;
mod phase_numbers;
mod phases;
mod printed;
mod rows;
mod vertices;
mod visits;
mod ways;

pub use judge::{Meeting, PhaseFault, PhasePart, RunFaults, judge_run};
