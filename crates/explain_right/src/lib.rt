//! What a right report has, in words.
//!
//! `right_words` says how its requests ended, and asks the judge of what `run` promises beyond a right report: it says
//! of each of these whether it holds, and if not, where; and whether `run` or `trace` writes such a report.
#![tactic(auto)]

mod counts;
mod origin;
mod promises;
mod right;

pub use counts::script_words;
pub use right::right_words;
