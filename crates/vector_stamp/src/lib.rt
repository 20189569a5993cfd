//! Clocks and stamps (Weaver's refinable timestamps), precedence, and the interface of a judge of events.
//!
//! A gatekeeper's clock gives each event a stamp. Stamps are partially ordered. Precedence is what their order and a
//! judge's pairs imply together. No call on clocks and stamps takes memory. `laws` says what can be relied on.
#![tactic(auto)]

mod clock;
mod coherence;
mod judge;
pub mod laws;
mod stamped;

pub use clock::{COUNTS, Clock, EventId, Relation, Stamp};
pub use coherence::are_coherent;
pub use judge::{Judge, Refusal, Settled};
pub use stamped::Stamped;
