//! A reply as a report prints it.

use program_defs::Script;
use report_rules::{Reply, Report};
use std::alloc::{AllocError, Global};
use weave_data::Items;
use weave_report::print_report;
use weave_text::first_line;

/// The lines of a reply: its own, and those of its `get`s.
pub(crate) fn printed_reply(
    alloc: Global,
    script: &Script,
    reply: Reply,
) -> Result<Vec<u8>, AllocError> {
    let mut replies = Items::new(alloc);
    replies.push(reply)?;
    let report = Report {
        replies,
        pairs: Items::new(alloc),
        order: Items::new(alloc),
        answers: Items::new(alloc),
    };
    let text = print_report(alloc, script, &report)?;
    Vec::from_slice(alloc, between(text.as_slice()))
}

// What is after the first line of a report, up to the lines of its order and its end.
fn between(text: &[u8]) -> &[u8] {
    let Some((_, rest)) = first_line(text) else {
        return text;
    };
    rest.strip_suffix(b"order\nend\n").unwrap_or(rest)
}
