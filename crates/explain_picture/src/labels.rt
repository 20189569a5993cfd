//! What is written into boxes.

use crate::sheet::Sheet;
use program_defs::Script;
use report_rules::{ReplyState, Report};
use std::alloc::{AllocError, Global};
use weave_report::print_report;
use weave_text::{Pieces, is};

/// The lines of replies, as a report prints them, in their order.
pub(crate) fn reply_lines<'a>(alloc: Global, text: &'a [u8]) -> Result<Vec<&'a [u8]>, AllocError> {
    let mut lines = Vec::new(alloc);
    for line in Pieces::new(b'\n', text) {
        if line.starts_with(b"tx ") || line.starts_with(b"prog ") {
            lines.push(line)?;
        }
    }
    Ok(lines)
}

/// The text of a report.
pub(crate) fn report_text(
    alloc: Global,
    script: &Script,
    report: &Report,
) -> Result<Vec<u8>, AllocError> {
    print_report(alloc, script, report)
}

/// The texts in a box.
#[derive(Clone, Copy)]
pub(crate) struct Label<'a> {
    /// The whole reply line.
    pub(crate) line: &'a [u8],
    pub(crate) name: &'a [u8],
    pub(crate) stamp: &'a [u8],
    pub(crate) outcome: &'a [u8],
    /// A second word for a conflict's vertex or a refusal's reason.
    pub(crate) detail: &'a [u8],
}

/// The texts in the box of a request.
pub(crate) fn label_of<'a>(sheet: &Sheet<'a>, request: u32) -> Label<'a> {
    let line = line_of(sheet, request);
    let name = match sheet.script.requests.as_slice().get(request as usize) {
        Some(request) => request.name.bytes(),
        None => b"",
    };
    let outcome = after_words(line, 3);
    let (outcome, detail) = match sheet.replies.reply_of(request) {
        Some(reply) => shortened(&reply.state, outcome),
        None => (b"no reply".as_slice(), b"".as_slice()),
    };
    let word = Pieces::words(line).nth(2).unwrap_or(b"");
    let stamp: &[u8] = if is(word, b"unbegun") { b"" } else { word };
    Label {
        line,
        name,
        stamp,
        outcome,
        detail,
    }
}

// The report's line of a request's reply.
fn line_of<'a>(sheet: &Sheet<'a>, request: u32) -> &'a [u8] {
    match sheet.replies.place_of(request) {
        Some(place) => sheet.lines.get(place as usize).copied().unwrap_or(b""),
        None => b"",
    }
}

// What is left of a line after so many words.
fn after_words(line: &[u8], count: u64) -> &[u8] {
    let mut passed: u64 = 0;
    for (place, byte) in line.iter().enumerate() {
        if *byte == b' ' {
            passed = passed.saturating_add(1);
            if passed == count {
                return line.get(place.saturating_add(1)..).unwrap_or(b"");
            }
        }
    }
    b""
}

// The outcome in a word or two.
fn shortened<'a>(state: &'a ReplyState, words: &'a [u8]) -> (&'a [u8], &'a [u8]) {
    match state {
        ReplyState::Unbegun => (b"unbegun".as_slice(), b"".as_slice()),
        ReplyState::Begun | ReplyState::Committed { .. } => (words, b"".as_slice()),
        ReplyState::Conflict { vertex, .. } => (b"conflict".as_slice(), vertex.bytes()),
        ReplyState::Refused { .. } => {
            let reason = Pieces::words(words).nth(2).unwrap_or(b"");
            (b"refused".as_slice(), reason)
        }
        ReplyState::Finished(_) => (after_words(words, 1), b"".as_slice()),
    }
}

/// How many letters the longest text in these boxes has.
pub(crate) fn most_letters(sheet: &Sheet) -> u64 {
    let mut most: u64 = 0;
    for request in sheet.drawn {
        let label = label_of(sheet, request.request);
        most = most.max(letters_of(&label));
    }
    most
}

fn letters_of(label: &Label) -> u64 {
    let longest = label.name.len().max(label.stamp.len());
    longest.max(outcome_letters(label)) as u64
}

/// The most letters of an outcome in one text, as a program's answer, for which boxes are made wider.
const MOST_ANSWER: usize = 24;

// For how many letters of the outcome there is room, with its detail after a space.
fn outcome_letters(label: &Label) -> usize {
    if label.detail.is_empty() {
        return label.outcome.len().min(MOST_ANSWER);
    }
    label
        .outcome
        .len()
        .saturating_add(label.detail.len())
        .saturating_add(1)
}
