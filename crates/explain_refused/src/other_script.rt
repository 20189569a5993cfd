//! Whether a report is that of another script.

use crate::fields::counts_in;
use crate::refusal::Refusal;
use explain_lines::{Part, first_word, named, say_line, word_at};
use std::alloc::AllocError;
use weave_text::{Pieces, Text, is};

/// How many reply lines are looked at.
const MOST_LOOKED_AT: u64 = 200;

// What the reply lines of a report have of the script.
#[derive(Clone, Copy)]
struct Likeness {
    replies: u64,
    /// Of these, replies whose names are those of requests.
    known: u64,
    /// Stamps with another number of counts than the script has gatekeepers.
    other_counts: u64,
}

/// Says that a report seems to be of another script, if few of its names are those of requests or its stamps are of
/// another number of gatekeepers.
pub(crate) fn other_script_words(text: &mut Text, refusal: &Refusal) -> Result<(), AllocError> {
    let found = likeness_of(refusal);
    if found.replies == 0 {
        return Ok(());
    }
    let unknown = found.replies.saturating_sub(found.known);
    if unknown > 1 && unknown > found.known {
        return say_line(
            text,
            "The report is of another script, it seems: of its replies (the first %) this many name a request of this \
                script: %.",
            &[Part::Number(found.replies), Part::Number(found.known)],
        );
    }
    if found.other_counts > 1 && found.other_counts.saturating_mul(2) > found.replies {
        return say_line(
            text,
            "The report is of another script, it seems: of its stamps (the first %) this many have counts for another \
                number of gatekeepers: %.",
            &[
                Part::Number(found.replies),
                Part::Number(found.other_counts),
            ],
        );
    }
    Ok(())
}

fn likeness_of(refusal: &Refusal) -> Likeness {
    let mut found = Likeness {
        replies: 0,
        known: 0,
        other_counts: 0,
    };
    let Some(report) = refusal.spots.report else {
        return found;
    };
    let mut line: u32 = 0;
    for text in Pieces::new(b'\n', refusal.input) {
        line = line.saturating_add(1);
        if line > report.line && found.replies < MOST_LOOKED_AT {
            found = with_line(refusal, found, text);
        }
    }
    found
}

// With one more line of the report.
fn with_line(refusal: &Refusal, found: Likeness, line: &[u8]) -> Likeness {
    let word = first_word(line);
    if !(is(word, b"tx") || is(word, b"prog")) {
        return found;
    }
    let name = word_at(line, 1).unwrap_or(b"");
    let stamp = word_at(line, 2).unwrap_or(b"");
    let known = named(refusal.spots.requests.as_slice(), name).is_some();
    let counts = counts_in(stamp).unwrap_or(refusal.sizes.gates);
    Likeness {
        replies: found.replies.saturating_add(1),
        known: found.known.saturating_add(u64::from(known)),
        other_counts: found
            .other_counts
            .saturating_add(u64::from(counts != refusal.sizes.gates)),
    }
}
