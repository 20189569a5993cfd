//! The forms of lines. A word in small letters is fixed; one in capitals stands for a field, and says of which kind.

use crate::fields::{Sizes, has_kind, kind_of};
use explain_lines::{Place, first_word};
use weave_text::{Pieces, is};

static HEADERS: [&[u8]; 1] = [b"weaver VERSION GATEKEEPERS SHARDS"];

static ITEMS: [&[u8]; 12] = [
    b"tx NAME SESSION GATEKEEPER",
    b"prog NAME SESSION GATEKEEPER show VERTEX",
    b"prog NAME SESSION GATEKEEPER reach VERTEX VERTEX",
    b"prog NAME SESSION GATEKEEPER reach VERTEX VERTEX where KEY VALUE",
    b"prog NAME SESSION GATEKEEPER around VERTEX BOUND",
    b"prog NAME SESSION GATEKEEPER around VERTEX BOUND where KEY VALUE",
    b"prog NAME SESSION GATEKEEPER path VERTEX VERTEX BOUND",
    b"prog NAME SESSION GATEKEEPER path VERTEX VERTEX BOUND where KEY VALUE",
    b"prog NAME SESSION GATEKEEPER price VERTEX VERTEX KEY",
    b"phase",
    b"steps",
    b"report 1",
];

static OPERATIONS: [&[u8]; 10] = [
    b"create VERTEX",
    b"delete VERTEX",
    b"set VERTEX KEY VALUE",
    b"unset VERTEX KEY",
    b"link VERTEX EDGE VERTEX",
    b"unlink VERTEX EDGE",
    b"tag VERTEX EDGE KEY VALUE",
    b"untag VERTEX EDGE KEY",
    b"get VERTEX",
    b"end",
];

static STEPS: [&[u8]; 14] = [
    b"begin REQUEST",
    b"judge GATEKEEPER",
    b"send GATEKEEPER",
    b"say GATEKEEPER",
    b"hear GATEKEEPER NUMBER",
    b"nop GATEKEEPER SHARD",
    b"deliver GATEKEEPER SHARD NUMBER",
    b"apply SHARD GATEKEEPER",
    b"visit REQUEST",
    b"reply REQUEST",
    b"collect SHARD",
    b"epoch GATEKEEPER EPOCH",
    b"restart GATEKEEPER EPOCH",
    b"report 1",
];

static REPLIES: [&[u8]; 11] = [
    b"tx REQUEST unbegun",
    b"tx REQUEST STAMP begun",
    b"tx REQUEST STAMP committed COUNT",
    b"tx REQUEST STAMP conflict VERTEX REQUEST",
    b"tx REQUEST STAMP refused COUNT REASON at COUNT",
    b"got COUNT STATE",
    b"prog REQUEST unbegun",
    b"prog REQUEST STAMP running",
    b"prog REQUEST STAMP done ANSWER",
    b"settled VERTEX REQUEST REQUEST",
    b"order REQUESTS",
];

static PAIRS: [&[u8]; 2] = [b"settled VERTEX REQUEST REQUEST", b"order REQUESTS"];

static ANSWERS: [&[u8]; 2] = [b"did COUNT ANSWER", b"end"];

static NONE: [&[u8]; 0] = [];

/// The forms of the lines that may be at a place. Of those of a reply's `got` lines whether one is due is said apart.
pub(crate) fn forms_at(place: Place) -> &'static [&'static [u8]] {
    match place {
        Place::Start => &HEADERS,
        Place::Between => &ITEMS,
        Place::Inside => &OPERATIONS,
        Place::Steps => &STEPS,
        Place::Replies => &REPLIES,
        Place::Pairs => &PAIRS,
        Place::Answers => &ANSWERS,
        Place::Ended => &NONE,
    }
}

/// Whether a form of the place begins with this word.
pub(crate) fn begins_a_form(place: Place, word: &[u8]) -> bool {
    forms_at(place)
        .iter()
        .any(|form| is(first_word(form), word))
}

/// The form of the place that has the words of a line: their number, and those that are fixed.
pub(crate) fn form_of(place: Place, line: &[u8]) -> Option<&'static [u8]> {
    for form in forms_at(place) {
        if has_form(line, form) {
            return Some(*form);
        }
    }
    None
}

// Whether a line has the words of a form.
fn has_form(line: &[u8], form: &[u8]) -> bool {
    let mut words = Pieces::words(line);
    for wanted in Pieces::words(form) {
        match words.next() {
            Some(word) if is(word, wanted) || !is_fixed(wanted) => {}
            _ => return false,
        }
        if is_open(wanted) {
            return true;
        }
    }
    words.is_empty()
}

/// Whether a word of a form is fixed.
pub(crate) fn is_fixed(word: &[u8]) -> bool {
    match word {
        [] => true,
        [first, ..] => !(b'A' <= *first && *first <= b'Z'),
    }
}

/// Whether any number of words may be in its place.
pub(crate) fn is_open(word: &[u8]) -> bool {
    is(word, b"ANSWER") || is(word, b"STATE") || is(word, b"REQUESTS")
}

/// The form of the place that most words of a line fit.
pub(crate) fn nearest_form(place: Place, line: &[u8], sizes: Sizes) -> Option<&'static [u8]> {
    let mut nearest = None;
    let mut most = 0;
    for form in forms_at(place) {
        let same = words_in_common(line, form, sizes);
        if same > most {
            most = same;
            nearest = Some(*form);
        }
    }
    nearest
}

// How well a line fits a form whose first word it has: four for each fixed word, two for each field, and one more if
// the line has no other words.
fn words_in_common(line: &[u8], form: &[u8], sizes: Sizes) -> u32 {
    if !is(first_word(line), first_word(form)) {
        return 0;
    }
    let mut words = Pieces::words(line);
    let mut same: u32 = 0;
    for wanted in Pieces::words(form) {
        match words.next() {
            Some(word) => same = same.saturating_add(fit_of(word, wanted, sizes)),
            None => return same,
        }
    }
    if words.is_empty() {
        same = same.saturating_add(1);
    }
    same
}

// How well a word fits one of a form.
fn fit_of(word: &[u8], wanted: &[u8], sizes: Sizes) -> u32 {
    if is_fixed(wanted) {
        return if is(word, wanted) { 4 } else { 0 };
    }
    if has_kind(kind_of(wanted, sizes), word, sizes) {
        2
    } else {
        0
    }
}
