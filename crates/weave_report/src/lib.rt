//! The text of reports: how a report is printed, and how it is read.
//!
//! What a report is, and when it is right, is said in the crate below, and given on from here.
#![tactic(auto)]

mod fault;
mod print;
mod read;
mod reading_laws;
mod text_laws;

pub use fault::{ReportCause, ReportFault};
pub use print::print_report;
pub use read::read_report;
pub use reading_laws::{
    printed_reports_come_back, printed_text_is_text, read_texts_are_texts, refusals_are_first,
    text_is_of_one_report,
};
pub use report_rules::{Clause, Pair, Reply, ReplyState, Report, StepAnswer, laws};
