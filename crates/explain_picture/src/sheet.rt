//! What is drawn.

use crate::drawn::Drawn;
use crate::marking::Verdict;
use crate::replied::Replies;
use program_defs::Script;
use report_rules::Report;

/// Which places of the order are drawn: so many, from this one on, from 1.
#[derive(Clone, Copy)]
pub struct Window {
    pub from: u64,
    pub count: u64,
}

/// A report that is drawn.
#[derive(Clone, Copy)]
pub(crate) struct Sheet<'a> {
    pub(crate) script: &'a Script,
    pub(crate) report: &'a Report,
    pub(crate) window: Window,
    pub(crate) verdict: Verdict<'a>,
    /// The report's lines of replies.
    pub(crate) lines: &'a [&'a [u8]],
    pub(crate) replies: Replies<'a>,
    pub(crate) drawn: &'a [Drawn],
}
