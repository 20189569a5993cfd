//! The first line of a script.

use crate::fields::count_of;
use crate::likeness::is_like;
use crate::refusal::Refusal;
use explain_lines::{Part, first_word, say_line, word_at};
use std::alloc::AllocError;
use weave_text::{Text, is, number};

/// Says why a line is no header.
pub(crate) fn header_words(text: &mut Text, refusal: &Refusal) -> Result<(), AllocError> {
    let line = refusal.at.text;
    let word = first_word(line);
    if is(word, b"report") {
        return say_line(
            text,
            "A report begins here, and the script that it belongs to has to come before it.",
            &[],
        );
    }
    if !is(word, b"weaver") {
        return no_header(text, word);
    }
    let count = count_of(line, b' ');
    if count != 4 {
        return say_line(
            text,
            "It has % words, and a script's first line has four: `weaver 1 2 3` is of a script in version 1 with 2 \
                gatekeepers and 3 shards.",
            &[Part::Number(count)],
        );
    }
    let version = word_at(line, 1).unwrap_or(b"");
    if !is(version, b"1") && !is(version, b"2") {
        return version_words(text, version);
    }
    say_line(
        text,
        "The last two words are the numbers of gatekeepers and of shards: decimal digits alone, without leading zeros. \
            `%` isn't one.",
        &[Part::Shown(bad_number(line))],
    )
}

fn version_words(text: &mut Text, version: &[u8]) -> Result<(), AllocError> {
    match version {
        b"v1" | b"V1" | b"01" | b"1.0" => say_line(
            text,
            VERSION_LIKE,
            &[Part::Word(version), Part::Word(b"1")],
        ),
        b"v2" | b"V2" | b"02" | b"2.0" => say_line(
            text,
            VERSION_LIKE,
            &[Part::Word(version), Part::Word(b"2")],
        ),
        _ => say_line(text, VERSION, &[Part::Shown(version)]),
    }
}

const VERSION_LIKE: &str = "The second word is the version, `1` or `2`, and not `%`: write `%`.";

const VERSION: &str =
    "The second word is the version, `1` or `2`, and not `%`. In version 2 the target of `link` has to be there; \
    otherwise the two are the same.";

fn no_header(text: &mut Text, word: &[u8]) -> Result<(), AllocError> {
    if is_like(word, b"weaver") {
        return say_line(
            text,
            "The first word has to be `weaver`; here it is `%`.",
            &[Part::Shown(word)],
        );
    }
    say_line(
        text,
        "A script begins with a line `weaver 1 2 3` (version 1, 2 gatekeepers, 3 shards), after empty lines and \
            comments alone.",
        &[],
    )
}

// The first of the last two words that is no number.
fn bad_number(line: &[u8]) -> &[u8] {
    let third = word_at(line, 2).unwrap_or(b"");
    if number(third).is_none() {
        return third;
    }
    word_at(line, 3).unwrap_or(b"")
}
