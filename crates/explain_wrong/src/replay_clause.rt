//! The clause on replay, where it breaks.

use crate::listing_clause::order_place;
use crate::neighbours::neighbour_words;
use crate::printed_reply::printed_reply;
use crate::reasons::stopped_words;
use crate::replaying::{Outcome, graph_after, outcome_of};
use explain_case::{Case, item_at, number_in, quote, quote_reply};
use explain_lines::{Part, Spot, say, say_line, word_at};
use report_rules::{Reply, ReplyState};
use std::alloc::{AllocError, Global};
use weave_data::Items;
use weave_text::{Pieces, Text, is, is_skipped};

/// Says what the request at a place in the order has to answer there, and what its reply says.
pub(crate) fn replay_clause(
    alloc: Global,
    text: &mut Text,
    case: &Case,
    place: u64,
) -> Result<(), AllocError> {
    let Some(request) = item_at(case.order(), place) else {
        return Ok(());
    };
    order_place(text, case, place)?;
    let before = case
        .order()
        .get(..place.saturating_sub(1) as usize)
        .unwrap_or(&[]);
    let mut graph = graph_after(alloc, case, before)?;
    let outcome = outcome_of(alloc, &mut graph, case, *request)?;
    outcome_words(alloc, text, case, *request, outcome)?;
    neighbour_words(alloc, text, case, &graph, *request, place)
}

// What a request comes to at its place, beside its reply.
fn outcome_words(
    alloc: Global,
    text: &mut Text,
    case: &Case,
    request: u32,
    outcome: Outcome,
) -> Result<(), AllocError> {
    match outcome {
        Outcome::Stopped(op, reason) => {
            say_line(
                text,
                "After the requests listed before it, it is refused:",
                &[],
            )?;
            stopped_words(text, case, request, op, reason)?;
            say_line(text, "Its reply says something else:", &[])?;
            quote_reply(text, case, request)
        }
        Outcome::Passed(gots) => {
            let number = number_of(case, request);
            let answers = Items::from_vec(gots);
            compare(
                alloc,
                text,
                case,
                request,
                ReplyState::Committed { number, answers },
            )
        }
        Outcome::Answered(answer) => {
            compare(alloc, text, case, request, ReplyState::Finished(answer))
        }
        Outcome::Unknown => Ok(()),
    }
}

fn number_of(case: &Case, request: u32) -> u64 {
    match case.reply(request) {
        Some(reply) => number_in(&reply.state).unwrap_or(0),
        None => 0,
    }
}

// Puts the printed lines of a reply beside those of the state that the replay gives.
fn compare(
    alloc: Global,
    text: &mut Text,
    case: &Case,
    request: u32,
    state: ReplyState,
) -> Result<(), AllocError> {
    let wanted = Reply {
        request,
        stamp: case.stamp(request),
        state,
    };
    let lines = printed_reply(alloc, case.script, wanted)?;
    say_line(
        text,
        "The requests listed before it, done one after another, leave a graph on which it answers \
        otherwise:",
        &[],
    )?;
    compare_lines(text, case, request, lines.as_slice())
}

// Writes each line of a reply, its own and those of its `got`s, that isn't as expected.
fn compare_lines(
    text: &mut Text,
    case: &Case,
    request: u32,
    lines: &[u8],
) -> Result<(), AllocError> {
    let Some(first) = case.spots.replies.as_slice().get(request as usize) else {
        return Ok(());
    };
    let mut expected = Pieces::new(b'\n', lines);
    let mut line: u32 = 0;
    for found in Pieces::new(b'\n', case.input) {
        line = line.saturating_add(1);
        if line < first.line || is_skipped(found) {
            continue;
        }
        let wanted = expected.next().unwrap_or(b"");
        if wanted.is_empty() {
            return Ok(());
        }
        compare_line(text, case, Spot { line, text: found }, wanted)?;
    }
    Ok(())
}

fn compare_line(text: &mut Text, case: &Case, spot: Spot, wanted: &[u8]) -> Result<(), AllocError> {
    if spot.text == wanted {
        return Ok(());
    }
    difference(text, case, spot, wanted)
}

// A line of the report, and what it would have to be.
fn difference(text: &mut Text, case: &Case, spot: Spot, wanted: &[u8]) -> Result<(), AllocError> {
    say_line(text, "  found:", &[])?;
    quote(text, case, spot)?;
    say_line(text, "  expected:", &[])?;
    say_line(text, "    %", &[Part::Shown(wanted)])?;
    let place = first_difference(spot.text, wanted);
    match word_at(spot.text, place) {
        Some(word) => {
            found_word(text, place, word)?;
            expected_word(text, wanted, place)
        }
        None => next_word(text, wanted, place),
    }
}

// The place of the first word, from 0, at which a line isn't as expected.
fn first_difference(found: &[u8], wanted: &[u8]) -> usize {
    let mut others = Pieces::words(wanted);
    let mut place: usize = 0;
    for word in Pieces::words(found) {
        let same = match others.next() {
            Some(other) => is(word, other),
            None => false,
        };
        if !same {
            return place;
        }
        place = place.saturating_add(1);
    }
    place
}

fn found_word(text: &mut Text, place: usize, word: &[u8]) -> Result<(), AllocError> {
    say(
        text,
        "  They differ from word % on: `%` is found, and ",
        &[
            Part::Number((place as u64).saturating_add(1)),
            Part::Shown(word),
        ],
    )
}

fn expected_word(text: &mut Text, wanted: &[u8], place: usize) -> Result<(), AllocError> {
    match word_at(wanted, place) {
        Some(word) => say_line(text, "`%` expected.", &[Part::Shown(word)]),
        None => say_line(text, "`(nothing)` expected.", &[]),
    }
}

// The found line ends before the expected one.
fn next_word(text: &mut Text, wanted: &[u8], place: usize) -> Result<(), AllocError> {
    match word_at(wanted, place) {
        Some(word) => say_line(
            text,
            "  The expected line goes on with `%`.",
            &[Part::Shown(word)],
        ),
        None => Ok(()),
    }
}
