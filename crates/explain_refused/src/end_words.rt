//! Inputs that end too early.

use crate::open_gots::{due_got, has_due_got};
use crate::refusal::Refusal;
use explain_lines::{Part, Place, say_line};
use std::alloc::AllocError;
use weave_text::Text;

/// Says what is missing at the end of the input.
pub(crate) fn end_words(text: &mut Text, refusal: &Refusal) -> Result<(), AllocError> {
    end_place(text, refusal)?;
    match refusal.spots.place {
        Place::Start => say_line(text, NO_SCRIPT, &[]),
        Place::Inside => no_end(text, refusal),
        Place::Between | Place::Steps => say_line(text, NO_REPORT, &[]),
        Place::Replies if has_due_got(refusal) => due_got(text, refusal),
        Place::Replies | Place::Pairs => say_line(text, NO_ORDER, &[]),
        Place::Answers => say_line(
            text,
            "The report has no `end`: put a line `end` at its end.",
            &[],
        ),
        Place::Ended => Ok(()),
    }
}

// Says after which line the input ends.
fn end_place(text: &mut Text, refusal: &Refusal) -> Result<(), AllocError> {
    let last = refusal.at.line.saturating_sub(1);
    if last == 0 {
        return say_line(text, "The input is empty.", &[]);
    }
    if refusal.spots.place == Place::Start {
        return say_line(
            text,
            "The input has no line but empty ones and comments.",
            &[],
        );
    }
    say_line(
        text,
        "The input ends too early, after its last line, %.",
        &[Part::Number(u64::from(last))],
    )
}

const NO_SCRIPT: &str =
    "A script begins with a line `weaver 1 2 3` (version 1, 2 gatekeepers, 3 shards).";

const NO_REPORT: &str =
    "No report follows the script: one is wanted after it, from its line `report 1` to its `end`, as \
    in: cat SCRIPT REPORT | ./explain. A script alone is explained by: ./explain script < SCRIPT";

const NO_ORDER: &str =
    "The report has no `order` line and no `end`. Its end is missing, or it was cut off.";

fn no_end(text: &mut Text, refusal: &Refusal) -> Result<(), AllocError> {
    let Some(open) = refusal.spots.requests.as_slice().last() else {
        return Ok(());
    };
    say_line(
        text,
        "Transaction `%` (line %) is still open: it has no `end`. Put a line `end` after its last operation.",
        &[Part::Word(open.name()), Part::Number(u64::from(open.line))],
    )
}
