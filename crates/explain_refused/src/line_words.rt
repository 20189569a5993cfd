//! Lines that have none of the forms that may be there.

use crate::answer_words::answer_words;
use crate::forms::{begins_a_form, form_of, forms_at};
use crate::header_words::header_words;
use crate::likeness::{is_like, nearest_word};
use crate::misformed::misformed;
use crate::misplaced::place_hint;
use crate::open_gots::{extra_got, has_due_got, last_reply, next_get};
use crate::refusal::Refusal;
use explain_lines::{Part, Place, Spot, first_word, named, say_line};
use std::alloc::AllocError;
use weave_text::{Pieces, Text, is};

/// What is wrong with a line that has none of the forms that may be there.
#[derive(Clone, Copy, PartialEq, Eq)]
pub(crate) enum Finding {
    /// It has the first line of a report at its end.
    Joined,
    /// It is no header.
    Header,
    /// Another request begins inside a transaction.
    Open,
    /// A `got` line is due.
    Due,
    /// It is a `got` line, and none is due.
    Extra,
    /// It is of a report, and a script alone is read.
    Alone,
    /// It follows the end of the report.
    Ended,
    /// It is of a report, and none has begun.
    Unreported,
    /// Its first word may be there.
    Misformed,
    /// Its first word may not be there.
    Misplaced,
}

/// Finds out what is wrong with the line.
pub(crate) fn finding_of(refusal: &Refusal) -> Finding {
    let word = first_word(refusal.at.text);
    if has_joined_report(refusal) {
        return Finding::Joined;
    }
    match refusal.spots.place {
        Place::Start => Finding::Header,
        Place::Inside if begins_a_form(Place::Between, word) || is(word, b"weaver") =>
            Finding::Open,
        Place::Replies if has_due_got(refusal) => Finding::Due,
        Place::Replies if is(word, b"got") => Finding::Extra,
        Place::Ended => Finding::Ended,
        Place::Between | Place::Steps if is_of_report(refusal, word) => finding_of_report(refusal),
        place if begins_a_form(place, word) => Finding::Misformed,
        _ => Finding::Misplaced,
    }
}

// Whether a line of a script is one of a report.
fn is_of_report(refusal: &Refusal, word: &[u8]) -> bool {
    (is(word, b"report") && !refusal.with_report)
        || form_of(Place::Replies, refusal.at.text).is_some()
}

fn finding_of_report(refusal: &Refusal) -> Finding {
    if refusal.with_report {
        Finding::Unreported
    } else {
        Finding::Alone
    }
}

/// Says what is wrong in a line that has none of the forms that may be there.
pub(crate) fn line_words(text: &mut Text, refusal: &Refusal) -> Result<(), AllocError> {
    match finding_of(refusal) {
        Finding::Joined => say_line(text, JOINED, &[]),
        Finding::Header => header_words(text, refusal),
        Finding::Open => no_end(text, refusal),
        Finding::Due => due_words(text, refusal),
        Finding::Extra => extra_got(text, refusal),
        Finding::Alone => say_line(text, ALONE, &[]),
        Finding::Ended => say_line(text, "Nothing may follow the report's `end`.", &[]),
        Finding::Unreported => unreported(text, refusal),
        Finding::Misformed => misformed(text, refusal),
        Finding::Misplaced => misplaced(text, refusal),
    }
}

const ALONE: &str =
    "It is a line of a report, and with the word `script` a script alone is read. Without that word a report has to \
    follow the script: ./explain < FILE";

const JOINED: &str =
    "The script's last line lacks its line feed, so the report's first line, `report 1`, was put behind \
    it on one line: end the script with a line feed (echo >> SCRIPT).";

// A line of a report with no report begun.
fn unreported(text: &mut Text, refusal: &Refusal) -> Result<(), AllocError> {
    let word = first_word(refusal.at.text);
    if let Some(line) = later_report(refusal) {
        return say_line(
            text,
            "`%` begins a line of a report, and the report begins later, on line %: put it there, or take it away.",
            &[Part::Shown(word), Part::Number(line)],
        );
    }
    say_line(
        text,
        "`%` begins a line of a report, and no line `report 1` was before it. Put a line `report 1` before line %.",
        &[Part::Shown(word), Part::Number(u64::from(refusal.at.line))],
    )
}

// The line on which a report begins after the refused one.
fn later_report(refusal: &Refusal) -> Option<u64> {
    let mut line: u32 = 0;
    for text in Pieces::new(b'\n', refusal.input) {
        line = line.saturating_add(1);
        if line > refusal.at.line && is(text, b"report 1") {
            return Some(u64::from(line));
        }
    }
    None
}

// Whether the first line of a report was put behind a script that doesn't end with a line feed.
fn has_joined_report(refusal: &Refusal) -> bool {
    refusal.with_report
        && refusal.spots.report.is_none()
        && refusal.at.text.ends_with(b"report 1")
        && !is(first_word(refusal.at.text), b"report")
}

// Another request begins inside a transaction.
fn no_end(text: &mut Text, refusal: &Refusal) -> Result<(), AllocError> {
    let Some(open) = refusal.spots.requests.as_slice().last() else {
        return Ok(());
    };
    let form = if is_twice(open, refusal.at) {
        DOUBLED
    } else {
        OPEN
    };
    say_line(
        text,
        form,
        &[
            Part::Word(open.name()),
            Part::Number(u64::from(open.line)),
            Part::Number(u64::from(refusal.at.line)),
        ],
    )
}

const OPEN: &str =
    "Transaction `%` (line %) is still open: it has no `end`. Put a line `end` after its last operation, before \
    line %.";

const DOUBLED: &str =
    "Transaction `%` (line %) is open, and line % is the same line once more: take one of the two away.";

// Whether a line is the one before it once more.
fn is_twice(open: &Spot, at: Spot) -> bool {
    is(open.text, at.text) && open.line.saturating_add(1) == at.line
}

// A `got` line is due, and isn't there or is none.
fn due_words(text: &mut Text, refusal: &Refusal) -> Result<(), AllocError> {
    if is(first_word(refusal.at.text), b"got") {
        return answer_words(text, refusal);
    }
    let (Some(get), Some(reply)) = (next_get(refusal), last_reply(refusal.spots)) else {
        return Ok(());
    };
    say_line(
        text,
        "The reply of `%` before it isn't complete: it has no line `got %`.",
        &[Part::Word(reply.name()), Part::Number(get.number)],
    )?;
    if is_like(first_word(refusal.at.text), b"got") {
        return say_line(text, "Did you mean `got`?", &[]);
    }
    if form_of(Place::Replies, refusal.at.text).is_some() {
        return say_line(
            text,
            "The line itself has a form that may come after that.",
            &[],
        );
    }
    Ok(())
}

// The first word may not be here.
fn misplaced(text: &mut Text, refusal: &Refusal) -> Result<(), AllocError> {
    let word = first_word(refusal.at.text);
    let place = refusal.spots.place;
    if let Some(form) = place_hint(refusal, word) {
        return say_line(text, form, &[Part::Shown(word)]);
    }
    if let Some(near) = nearest_word(forms_at(place), word) {
        return say_line(
            text,
            "No line begins with `%` here; did you mean `%`?",
            &[Part::Shown(word), Part::Word(near)],
        );
    }
    if named(refusal.spots.requests.as_slice(), word).is_some() {
        return say_line(
            text,
            "No line begins with `%`, which is the name of a request.",
            &[Part::Shown(word)],
        );
    }
    say_line(text, "No line begins with `%` here.", &[Part::Shown(word)])
}
