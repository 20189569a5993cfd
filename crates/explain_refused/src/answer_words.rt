//! What a request, a `get` or a step answered: lines whose last words don't have the form of an answer.

use crate::answer_parts::{Misfit, first_misfit};
use crate::refusal::Refusal;
use crate::state_words::state_words;
use explain_lines::{Part, first_word, named, say_line, word_at};
use std::alloc::AllocError;
use weave_text::{Text, is};

/// Says why the line's last words are no answer of the form that is wanted.
pub(crate) fn answer_words(text: &mut Text, refusal: &Refusal) -> Result<(), AllocError> {
    let line = refusal.at.text;
    let word = first_word(line);
    if is(word, b"got") {
        return got_words(text, line);
    }
    if is(word, b"did") {
        return say_line(text, DID, &[]);
    }
    if is(word, b"prog") {
        return program_words(text, refusal);
    }
    if is(word, b"tx") {
        return say_line(
            text,
            REASON,
            &[Part::Shown(word_at(line, 5).unwrap_or(b""))],
        );
    }
    Ok(())
}

const REASON: &str =
    "`%` isn't a reason for which an operation is refused. The reasons: exists, missing, no_key, \
    edge_exists, no_edge, full, no_target.";

const DID: &str =
    "An ANSWER of a step is one of: ok, twice, early, busy, idle, old, unknown, repeat, empty, \
    `waits VERTEX`, `again SHARD GATEKEEPER`.";

const STATE: &str = "A STATE is `absent`, or `record` and an item for each property and edge.";

fn got_words(text: &mut Text, line: &[u8]) -> Result<(), AllocError> {
    match word_at(line, 2) {
        Some(b"record") => state_words(text, line, 3),
        _ => say_line(text, STATE, &[]),
    }
}

/// Says what a finished program has to answer, and which word of the line isn't so.
pub(crate) fn program_words(text: &mut Text, refusal: &Refusal) -> Result<(), AllocError> {
    let line = refusal.at.text;
    let name = word_at(line, 1).unwrap_or(b"");
    let Some(request) = named(refusal.spots.requests.as_slice(), name) else {
        return Ok(());
    };
    let form = word_at(request.text, 4).unwrap_or(b"");
    say_line(
        text,
        "`%` is a program `%` (line %). %",
        &[
            Part::Word(name),
            Part::Word(form),
            Part::Number(u64::from(request.line)),
            Part::Word(form_of_answer(form)),
        ],
    )?;
    if is(form, b"show") && is(word_at(line, 4).unwrap_or(b""), b"record") {
        return state_words(text, line, 5);
    }
    match first_misfit(line) {
        Some(misfit) => misfit_words(text, misfit),
        None => Ok(()),
    }
}

fn misfit_words(text: &mut Text, misfit: Misfit) -> Result<(), AllocError> {
    match misfit {
        Misfit::Word(word) => say_line(text, "Its first wrong word is `%`.", &[Part::Shown(word)]),
        Misfit::Order { price, last } => say_line(
            text,
            "`%` has to come before `%`.",
            &[Part::Shown(price), Part::Shown(last)],
        ),
        Misfit::Twice { price, last } => say_line(
            text,
            "`%` is of the same vertex as `%` before it.",
            &[Part::Shown(price), Part::Shown(last)],
        ),
    }
}

// What a program of this word answers.
fn form_of_answer(word: &[u8]) -> &'static [u8] {
    match word {
        b"show" => b"Its ANSWER is `absent`, or `record` and an item for each property and edge.",
        b"reach" => b"Its ANSWER is `yes` or `no`.",
        b"around" =>
            b"Its ANSWER is `found` and the names of vertices (1 to 32 letters of a-z, 0-9 and _ each).",
        b"path" =>
            b"Its ANSWER is `path` and the names of vertices (1 to 32 letters of a-z, 0-9 and _ each), or `none`.",
        b"price" =>
            b"Its ANSWER is `price TOTAL`, the names of the walk, `;` and a word VERTEX=PRICE for each vertex \
            that is reached, in byte order, each once; or `price none ;` and these words. TOTAL and PRICE are \
            numbers in decimal digits without a leading zero.",
        _ => b"It is a transaction, and has no ANSWER.",
    }
}
