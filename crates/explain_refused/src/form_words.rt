//! What may be at a line that is refused.

use crate::forms::{begins_a_form, form_of, forms_at};
use crate::line_words::{Finding, finding_of};
use crate::mended::is_of_form;
use crate::open_gots::{due_got, has_due_got};
use crate::refusal::Refusal;
use explain_lines::{Part, Place, first_word, say_line};
use std::alloc::AllocError;
use weave_script::Cause;
use weave_text::{Text, is};

/// Says which forms may be at the line: those that begin with its first word, or else all.
pub(crate) fn form_words(text: &mut Text, refusal: &Refusal) -> Result<(), AllocError> {
    if is_all_said(refusal) {
        return Ok(());
    }
    if has_due_got(refusal) {
        return due_got(text, refusal);
    }
    let place = refusal.spots.place;
    if refusal.cause != Cause::Line && refusal.cause != Cause::Header {
        return own_form(text, refusal);
    }
    let word = first_word(refusal.at.text);
    if begins_a_form(place, word) && !is_out_of_place(refusal, word) {
        say_line(
            text,
            "A line that begins with `%` has one of these forms here:",
            &[Part::Word(word)],
        )?;
        return list(text, refusal, Some(word));
    }
    say_line(
        text,
        "Here may be %. The forms:",
        &[Part::Word(place_words(place, refusal.with_report))],
    )?;
    list(text, refusal, None)
}

// Says which form the line has, if a field of it is wrong.
fn own_form(text: &mut Text, refusal: &Refusal) -> Result<(), AllocError> {
    if !is_of_form(refusal.cause) {
        return Ok(());
    }
    match form_of(refusal.spots.place, refusal.at.text) {
        Some(form) => say_line(text, "Its form: %", &[Part::Word(form)]),
        None => Ok(()),
    }
}

// Whether what was said of the line says how to mend it, so that the forms say nothing more.
fn is_all_said(refusal: &Refusal) -> bool {
    if refusal.spots.place == Place::Ended {
        return true;
    }
    refusal.cause == Cause::Line
        && matches!(
            finding_of(refusal),
            Finding::Joined | Finding::Open | Finding::Alone | Finding::Unreported
        )
}

// Whether the word begins a form that may not be here after all.
fn is_out_of_place(refusal: &Refusal, word: &[u8]) -> bool {
    (refusal.spots.place == Place::Replies && is(word, b"got"))
        || (is(word, b"report") && !refusal.with_report)
}

// What may be at a place, in a script that a report may follow or not.
fn place_words(place: Place, with_report: bool) -> &'static [u8] {
    match place {
        Place::Start => b"the first line of a script",
        Place::Between if with_report => b"a request, a phase, the steps or the report",
        Place::Between => b"a request, a phase or the steps",
        Place::Inside => b"an operation of the open transaction, or its `end`",
        Place::Steps if with_report => b"a step or the report",
        Place::Steps => b"a step",
        Place::Replies => b"a reply, a pair or the order",
        Place::Pairs => b"a pair or the order",
        Place::Answers => b"a step's answer or the end of the report",
        Place::Ended => b"nothing",
    }
}

// The forms at the place of the line, or those of them that begin with a word.
fn list(text: &mut Text, refusal: &Refusal, word: Option<&[u8]>) -> Result<(), AllocError> {
    for form in forms_at(refusal.spots.place) {
        if is_shown(refusal, first_word(form), word) {
            say_line(text, "    %", &[Part::Word(*form)])?;
        }
    }
    Ok(())
}

// Whether a form that begins with a word is shown.
fn is_shown(refusal: &Refusal, first: &[u8], word: Option<&[u8]>) -> bool {
    match word {
        Some(word) => is(first, word),
        None => !is_out_of_place(refusal, first),
    }
}
