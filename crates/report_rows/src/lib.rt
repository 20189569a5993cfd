//! Worked reports that a run never writes: requests that meet and that nothing orders, and phases that aren't kept.
//!
//! There is no code. The laws say of each report which part of the definitions it breaks, so a definition that was made
//! weaker is refused here.
#![tactic(auto)]

pub mod laws;
