//! A gatekeeper behind its lock, with notes of the logs to which its entries refer.
//!
//! A `BareGate` is what the lock begins with: the gatekeeper, and the names of the locks of which it will keep notes. A
//! `NotedGate` is in the lock while nobody is in: the gatekeeper with its notes. Its type keeps that all that its log
//! refers to was seen: in its own log, or by a note (`IsKept`). So whoever has seen what the notes have can use what it
//! answers: its clock is known, and a message that is fetched is empty or made of a judgement.
//!
//! In a hold the notes first `meet` the passes of the other locks. Then each call asks that what the new entry refers
//! to was seen by the notes.
#![tactic(auto)]

mod bare;
mod copying;
mod hearing;
pub mod laws;
mod lower_laws;
mod noted_gate;
mod notes;
mod rows;

pub use bare::BareGate;
pub use noted_gate::NotedGate;
pub use notes::GateNotes;
