//! Why `check` answers as it does, in words.
//!
//! `judged` asks the judge of reports, whose answer decides whether a report is explained as right or as wrong. `why`
//! writes the words for an input with a report, `why_script` those for a script alone.
#![tactic(auto)]

mod reasons_given;
mod verdict;

pub use reasons_given::{why, why_script};
pub use verdict::judged;
