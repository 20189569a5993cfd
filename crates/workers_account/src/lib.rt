//! What the workers of a phase leave can be joined to a core again.
//!
//! A client's worker ensures the whole history of what it did (`Goes`). The laws here say what follows: it has followed
//! its session (`IsFollowed`); and if all hands of a phase only carried or followed a session of their own, the closed
//! logs are an account of the script that goes on from the one at the start (`IsPhaseEnd`), and say how far the phase
//! brought each session (`WasRunForSession`).
#![tactic(auto)]

mod in_step_laws;
pub mod laws;
mod phase_laws;
mod read_laws;
mod ready_laws;
pub mod session_laws;
mod turn_laws;
