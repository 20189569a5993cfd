//! A pair of a chain that can't be right: its first request is no committed transaction.

use crate::listing_clause::state_words;
use crate::ordered_pairs::are_unordered;
use explain_case::Case;
use explain_lines::{Part, say, say_line};
use order_witness::{Link, link_between};
use program_defs::Work;
use report_rules::Pair;
use std::alloc::AllocError;
use weave_text::Text;

/// The first pair of a chain from a request on whose first request is no committed transaction.
pub(crate) fn turned_pair(case: &Case, first: u32, chain: &[usize]) -> Option<Pair> {
    let (from, to) = first_turned_step(case, first, chain)?;
    match link_between(case.script, case.report, from, to) {
        Some(Link::Joined(place)) => case.report.pairs.as_slice().get(place as usize).copied(),
        _ => None,
    }
}

// The first step of a chain that its stamps don't make, from a request that is no committed transaction.
fn first_turned_step(case: &Case, first: u32, chain: &[usize]) -> Option<(u32, u32)> {
    let mut from = first;
    for request in chain {
        let to = u32::try_from(*request).unwrap_or(u32::MAX);
        if case.number(from).is_none() && !is_stamped_before(case, from, to) {
            return Some((from, to));
        }
        from = to;
    }
    None
}

fn is_stamped_before(case: &Case, a: u32, b: u32) -> bool {
    match (case.stamp(a), case.stamp(b)) {
        (Some(first), Some(second)) => first.is_before(&second),
        _ => false,
    }
}

/// Says that the pair can't be right in this order, and whether it may be in the other one.
pub(crate) fn turned_words(text: &mut Text, case: &Case, pair: &Pair) -> Result<(), AllocError> {
    let vertex = Part::Word(pair.vertex.bytes());
    say(
        text,
        "The pair `settled % % %` can't be right: the first of its two requests has to be a committed transaction ",
        &[vertex, case.word(pair.earlier), case.word(pair.later)],
    )?;
    say_line(
        text,
        "(clause v), and `%` is %.",
        &[
            case.word(pair.earlier),
            Part::Word(kind_words(case, pair.earlier)),
        ],
    )?;
    if !may_be_turned(case, pair) {
        return say_line(
            text,
            "The other way round it can't be right either. So it doesn't belong here.",
            &[],
        );
    }
    say_line(
        text,
        "The other way round it may be right: `settled % % %`.",
        &[vertex, case.word(pair.later), case.word(pair.earlier)],
    )
}

// Whether the pair, whose first request is no committed transaction, may be right the other way round.
fn may_be_turned(case: &Case, pair: &Pair) -> bool {
    are_unordered(case, pair)
        && is_program(case, pair.earlier)
        && case.number(pair.later).is_some()
        && case.names(pair.later, pair.vertex)
}

// What a request is that is no committed transaction.
fn kind_words(case: &Case, request: u32) -> &'static [u8] {
    if is_program(case, request) {
        return b"a program";
    }
    state_words(case, request)
}

fn is_program(case: &Case, request: u32) -> bool {
    match case.request(request) {
        Some(request) => matches!(request.work, Work::Look(_)),
        None => false,
    }
}
