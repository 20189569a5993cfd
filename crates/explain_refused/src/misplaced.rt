//! Where a line may be that is in another place.

use crate::forms::begins_a_form;
use crate::refusal::Refusal;
use explain_lines::Place;
use weave_text::is;

// A line of a report with no report begun.
const UNREPORTED: &str = "`%` begins a line of a report, and no line `report 1` was before it.";

/// Where a line that begins with the word may be, if it is a word of another place: a sentence whose `%` is the word.
pub(crate) fn place_hint(refusal: &Refusal, word: &[u8]) -> Option<&'static str> {
    match refusal.spots.place {
        Place::Between => hint_between(word),
        Place::Steps => hint_in_steps(word),
        Place::Replies | Place::Pairs | Place::Answers if begins_report_or_script(word) => {
            Some(hint_of_beginning(word))
        }
        Place::Replies if is_after_order(word) => Some(NO_ORDER),
        Place::Pairs if is_after_order(word) => Some(NO_ORDER),
        Place::Pairs if begins_a_form(Place::Replies, word) => Some(
            "`%` begins a line of a reply, and these come before the first `settled` line.",
        ),
        Place::Answers if begins_a_form(Place::Replies, word) => {
            Some("`%` may be only before the `order` line, of which there is one.")
        }
        Place::Replies | Place::Pairs | Place::Answers if begins_script_line(word) => {
            Some("`%` begins a line of a script, and here a report has begun.")
        }
        _ => None,
    }
}

const NO_ORDER: &str =
    "`%` may be only after the `order` line, which is missing: it is there even if it lists nothing.";

fn is_after_order(word: &[u8]) -> bool {
    is(word, b"did") || is(word, b"end")
}

fn begins_report_or_script(word: &[u8]) -> bool {
    is(word, b"report") || is(word, b"weaver")
}

fn hint_of_beginning(word: &[u8]) -> &'static str {
    if is(word, b"report") {
        "`%` begins a report, and one has begun already: an input has one report."
    } else {
        "`%` begins a script, and here a report has begun: an input has one script, and then a report."
    }
}

fn begins_script_line(word: &[u8]) -> bool {
    begins_a_form(Place::Between, word)
        || begins_a_form(Place::Inside, word)
        || begins_a_form(Place::Steps, word)
}

fn begins_report_line(word: &[u8]) -> bool {
    begins_a_form(Place::Replies, word) || begins_a_form(Place::Answers, word)
}

fn hint_between(word: &[u8]) -> Option<&'static str> {
    if is(word, b"end") {
        return Some("`%` ends a transaction, and none is open here.");
    }
    if begins_a_form(Place::Inside, word) {
        return Some(
            "`%` begins an operation, and no transaction is open here: an operation comes after a line `tx` and before \
            its `end`.",
        );
    }
    if begins_a_form(Place::Steps, word) {
        return Some("`%` begins a step, and steps come after a line `steps`.");
    }
    if begins_report_line(word) {
        return Some(UNREPORTED);
    }
    if is(word, b"weaver") {
        return Some("`%` begins a script, and one has begun already: an input has one script.");
    }
    None
}

fn hint_in_steps(word: &[u8]) -> Option<&'static str> {
    if is(word, b"steps") {
        return Some("`%` is there already: a script has one such line at most.");
    }
    if begins_a_form(Place::Between, word) {
        return Some("`%` may be only before the line `steps`: requests and phases come first.");
    }
    if begins_report_line(word) {
        return Some(UNREPORTED);
    }
    if begins_a_form(Place::Inside, word) {
        return Some(
            "`%` begins an operation: operations are between a line `tx` and its `end`, before the line `steps`.",
        );
    }
    if is(word, b"weaver") {
        return Some("`%` begins a script, and one has begun already: an input has one script.");
    }
    None
}
