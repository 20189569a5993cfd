//! Fields that aren't what they have to be.

use crate::answer_words::program_words;
use crate::exchanged::exchanged_words;
use crate::fields::{BadField, Kind, count_of, counts_in, first_bad};
use crate::forms::form_of;
use crate::meanings::kind_words;
use crate::open_gots::next_get;
use crate::refusal::Refusal;
use crate::request_words::request_words;
use crate::state_words::state_words;
use explain_lines::{Part, first_word, named, say, say_line, word_at};
use std::alloc::AllocError;
use weave_script::Cause;
use weave_text::{Pieces, Text, is, is_skipped, number};

/// Says which field of the line isn't what it has to be, and what that is.
pub(crate) fn field_words(text: &mut Text, refusal: &Refusal) -> Result<(), AllocError> {
    match refusal.cause {
        Cause::Taken => taken_words(text, refusal),
        Cause::Request => request_words(text, refusal),
        _ => bad_field_words(text, refusal),
    }
}

fn taken_words(text: &mut Text, refusal: &Refusal) -> Result<(), AllocError> {
    let name = refusal.at.name();
    let line = match named(refusal.spots.requests.as_slice(), name) {
        Some(request) => u64::from(request.line),
        None => 0,
    };
    say_line(
        text,
        "A request has the name `%` already, on line %: each request has a name of its own.",
        &[Part::Word(name), Part::Number(line)],
    )
}

fn bad_field_words(text: &mut Text, refusal: &Refusal) -> Result<(), AllocError> {
    let place = refusal.spots.place;
    let Some(form) = form_of(place, refusal.at.text) else {
        return Ok(());
    };
    match first_bad(form, refusal.at.text, refusal.sizes) {
        Some(bad) => {
            say(
                text,
                "Its word %, `%`, has to be % (% in the form): ",
                &[
                    Part::Number(bad.place),
                    Part::Shown(bad.word),
                    Part::Word(kind_words(bad.kind)),
                    Part::Word(bad.wanted),
                ],
            )?;
            kind_details(text, refusal, bad)?;
            exchanged_words(text, refusal, form, bad)
        }
        None => number_in_turn(text, refusal),
    }
}

/// The most letters of a name.
const MOST_LETTERS: usize = 32;

fn kind_details(text: &mut Text, refusal: &Refusal, bad: BadField) -> Result<(), AllocError> {
    match bad.kind {
        Kind::Name | Kind::Request => name_details(text, refusal, bad.word),
        Kind::Number { least, most } if most == u64::MAX => say_line(
            text,
            "decimal digits without a leading zero, at least %, of at most 64 bits.",
            &[Part::Number(least)],
        ),
        Kind::Number { least, most } => say_line(
            text,
            "decimal digits without a leading zero, from % to %.%",
            &[
                Part::Number(least),
                Part::Number(most),
                Part::Word(limit_of(bad.wanted)),
            ],
        ),
        Kind::Stamp => stamp_words(text, refusal, bad.word),
        Kind::Other => text.end_line(),
    }
}

fn name_details(text: &mut Text, refusal: &Refusal, word: &[u8]) -> Result<(), AllocError> {
    if word.len() > MOST_LETTERS {
        say_line(
            text,
            "1 to 32 letters of a-z, 0-9 and _. It has % letters.",
            &[Part::Number(word.len() as u64)],
        )?;
    } else {
        say_line(
            text,
            "1 to 32 letters of a-z, 0-9 and _. Capital letters, -, . and # are none of these.",
            &[],
        )?;
    }
    let count = lines_with(refusal.input, word);
    if count > 1 {
        return say_line(
            text,
            "It is a word of % lines of the input: rename it on all of them.",
            &[Part::Number(count)],
        );
    }
    Ok(())
}

// How many lines, but for those that are skipped, have a word.
fn lines_with(input: &[u8], word: &[u8]) -> u64 {
    let mut count: u64 = 0;
    for line in Pieces::new(b'\n', input) {
        if !is_skipped(line) && has_word(line, word) {
            count = count.saturating_add(1);
        }
    }
    count
}

fn has_word(line: &[u8], word: &[u8]) -> bool {
    Pieces::words(line).any(|other| is(other, word))
}

// Why a number has this range.
fn limit_of(wanted: &[u8]) -> &'static [u8] {
    match wanted {
        b"GATEKEEPER" =>
            b" Gatekeepers are numbered from 0; the script's first line says how many there are.",
        b"SHARD" =>
            b" Shards are numbered from 0; the script's first line says how many there are.",
        _ => b"",
    }
}

fn stamp_words(text: &mut Text, refusal: &Refusal, word: &[u8]) -> Result<(), AllocError> {
    let gates = refusal.sizes.gates;
    say_line(
        text,
        "EPOCH:HOME:COUNTS, all numbers, HOME below %, and COUNTS one for each of % gatekeepers, with commas between.",
        &[Part::Number(gates), Part::Number(gates)],
    )?;
    match counts_in(word) {
        Some(counts) if counts != gates => say_line(
            text,
            "It has counts for this number of gatekeepers: %. The script's first line says that there are %.",
            &[Part::Number(counts), Part::Number(gates)],
        ),
        Some(_) => home_words(text, gates, word),
        None => say_line(
            text,
            "A stamp has two colons, and this word has %.",
            &[Part::Number(count_of(word, b':').saturating_sub(1))],
        ),
    }
}

// Its HOME is too high, or a number of it is none.
fn home_words(text: &mut Text, gates: u64, word: &[u8]) -> Result<(), AllocError> {
    let home = Pieces::new(b':', word).nth(1).unwrap_or(b"");
    match number(home) {
        Some(gate) if gate >= gates => say_line(
            text,
            "Its HOME is %, and gatekeepers are numbered from 0 to %.",
            &[Part::Number(gate), Part::Number(gates.saturating_sub(1))],
        ),
        _ => say_line(
            text,
            "One of its numbers isn't one: decimal digits without a leading zero, of 64 bits.",
            &[],
        ),
    }
}

// Each field by itself is what it has to be, or it is in what follows the form.
fn number_in_turn(text: &mut Text, refusal: &Refusal) -> Result<(), AllocError> {
    let line = refusal.at.text;
    let word = first_word(line);
    if is(word, b"got") && refusal.cause == Cause::Number {
        return got_number(text, refusal);
    }
    if is(word, b"did") && refusal.cause == Cause::Number {
        return did_number(text, refusal);
    }
    if is(word, b"got") {
        return state_words(text, line, 3);
    }
    if is(word, b"prog") {
        return program_words(text, refusal);
    }
    if refusal.cause == Cause::Number {
        return say_line(
            text,
            "One of its numbers is too large: an operation's number has 32 bits.",
            &[],
        );
    }
    say_line(
        text,
        "A word of it isn't a name: a name has 1 to 32 letters of a-z, 0-9 and _.",
        &[],
    )
}

fn got_number(text: &mut Text, refusal: &Refusal) -> Result<(), AllocError> {
    let Some(get) = next_get(refusal) else {
        return Ok(());
    };
    say_line(
        text,
        "Its second word is the number of the operation that it answers, which is % here: `%` on line %. Its lines \
            `got` come in the order of the transaction's `get`s.",
        &[
            Part::Number(get.number),
            Part::Shown(get.at.text),
            Part::Number(u64::from(get.at.line)),
        ],
    )
}

// Whether the second word of a line is this number.
fn is_numbered(line: &[u8], wanted: u64) -> bool {
    match word_at(line, 1) {
        Some(word) => number(word) == Some(wanted),
        None => false,
    }
}

fn did_number(text: &mut Text, refusal: &Refusal) -> Result<(), AllocError> {
    let next = u64::from(refusal.spots.dids).saturating_add(1);
    if is_numbered(refusal.at.text, next) {
        return say_line(
            text,
            "A number of its ANSWER is none: decimal digits without a leading zero, of at most 32 bits.",
            &[],
        );
    }
    say_line(
        text,
        if is_later(refusal.at.text, next) {
            DID_MISSING
        } else {
            DID_NUMBER
        },
        &[Part::Number(next)],
    )
}

const DID_MISSING: &str =
    "The answer of step % has to be here: the answers of steps are numbered from 1, and none is left out. So a line \
    is missing before this one, or the numbers from here on are wrong.";

const DID_NUMBER: &str =
    "Its second word has to be %: the answers of steps are numbered from 1, and none is left out.";

// Whether the second word of a line is a number after this one.
fn is_later(line: &[u8], wanted: u64) -> bool {
    match number(word_at(line, 1).unwrap_or(b"")) {
        Some(found) => wanted < found,
        None => false,
    }
}
