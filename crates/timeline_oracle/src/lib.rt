//! The timeline oracle: decides which of two events comes first, if their stamps leave it open, and logs what it
//! decided (Kronos, EuroSys 2014).
//!
//! It is a judge of events, exactly, all or none. Contracts see it as its log, which has its pairs. No pair is dropped
//! or reversed, and no event precedes itself. What it decides, and how it adds pairs without memory, are public: for an
//! oracle that is kept in another form.
#![tactic(auto)]

mod oracle;
mod settling;

pub use oracle::Oracle;
pub use settling::{first_refused, put_before, room_for};
