//! The clause on pairs, where it breaks.

use crate::listing_clause::{first_place, state_words};
use crate::ordered_pairs::{are_unordered, shared_end, shared_words};
use crate::replaying::{graph_after, visits_at};
use explain_case::{Case, is_unticked, item_at, quote, quote_reply, stamp_words, unticked_words};
use explain_lines::{Part, say, say_line};
use program_defs::{Program, Visits, Work};
use report_rules::Pair;
use std::alloc::{AllocError, Global};
use weave_data::Name;
use weave_text::Text;

/// Says which part of the clause a pair breaks.
pub(crate) fn pair_clause(
    alloc: Global,
    text: &mut Text,
    case: &Case,
    place: u64,
) -> Result<(), AllocError> {
    let Some(pair) = item_at(case.report.pairs.as_slice(), place) else {
        return Ok(());
    };
    say_line(text, "It breaks at pair %:", &[Part::Number(place)])?;
    if let Some(spot) = item_at(case.spots.pairs.as_slice(), place) {
        quote(text, case, *spot)?;
    }
    if !are_unordered(case, pair) {
        return ordered_words(text, case, pair, place);
    }
    if !is_commit_at(case, pair.earlier, pair.vertex) {
        return end_words(text, case, pair.earlier, pair.vertex);
    }
    match case.request(pair.later) {
        Some(request) => match &request.work {
            Work::Change(_) => end_words(text, case, pair.later, pair.vertex),
            Work::Look(program) => visit_words(alloc, text, case, pair, program),
        },
        None => Ok(()),
    }
}

fn is_commit_at(case: &Case, request: u32, vertex: Name) -> bool {
    case.number(request).is_some() && case.names(request, vertex)
}

// The stamps order the two requests already, or one of them has none.
fn ordered_words(text: &mut Text, case: &Case, pair: &Pair, place: u64) -> Result<(), AllocError> {
    say_line(
        text,
        "Its two stamps are ordered by themselves, as those of a pair may not be. The two replies:",
        &[],
    )?;
    quote_reply(text, case, pair.earlier)?;
    quote_reply(text, case, pair.later)?;
    if case.stamp(pair.earlier).is_none() || case.stamp(pair.later).is_none() {
        return say_line(
            text,
            "One of them has no stamp, since it hasn't begun.",
            &[],
        );
    }
    stamp_words(text, case, pair.earlier, pair.later)?;
    unticked_words(text, case, pair.earlier, pair.later, b"")?;
    let shared = shared_end(case, pair, place);
    if let Some(request) = shared {
        shared_words(text, case, request, place)?;
    }
    text.push(b"The oracle is asked only for requests that their stamps leave unordered. ")?;
    mending_words(text, case, pair, shared)
}

// What may be wrong: the likelier comes first.
fn mending_words(
    text: &mut Text,
    case: &Case,
    pair: &Pair,
    shared: Option<u32>,
) -> Result<(), AllocError> {
    if let Some(request) = unticked_end(case, pair) {
        return say_line(
            text,
            "So mend the stamp of `%` first; with another stamp the pair may be right.",
            &[case.word(request)],
        );
    }
    match shared {
        Some(request) => say_line(
            text,
            "So the stamp of `%` is likely wrong; if it isn't, none of these pairs belongs here.",
            &[case.word(request)],
        ),
        None => say_line(
            text,
            "So the pair doesn't belong here; or it does, and one of these two stamps is wrong.",
            &[],
        ),
    }
}

// The request of the pair whose stamp no run writes.
fn unticked_end(case: &Case, pair: &Pair) -> Option<u32> {
    if is_unticked(case, pair.earlier) {
        return Some(pair.earlier);
    }
    if is_unticked(case, pair.later) {
        return Some(pair.later);
    }
    None
}

// An end of the pair isn't a committed transaction that names the vertex.
fn end_words(text: &mut Text, case: &Case, request: u32, vertex: Name) -> Result<(), AllocError> {
    say_line(
        text,
        "`%` (line % of the script) has to be a committed transaction that names `%`. Its reply:",
        &[
            case.word(request),
            case.line(request),
            Part::Word(vertex.bytes()),
        ],
    )?;
    quote_reply(text, case, request)?;
    if case.number(request).is_none() {
        return say_line(text, "It isn't committed.", &[]);
    }
    say_line(
        text,
        "None of its operations names `%`.",
        &[Part::Word(vertex.bytes())],
    )
}

// The later end is a finished program that doesn't read the vertex.
fn visit_words(
    alloc: Global,
    text: &mut Text,
    case: &Case,
    pair: &Pair,
    program: &Program,
) -> Result<(), AllocError> {
    let place = first_place(case.order(), pair.later).unwrap_or(0);
    say(
        text,
        "`%` (line % of the script) is a program, ",
        &[case.word(pair.later), case.line(pair.later)],
    )?;
    say(
        text,
        "%, and doesn't read ",
        &[Part::Word(state_words(case, pair.later))],
    )?;
    place_words(text, pair.vertex, place)?;
    quote_reply(text, case, pair.later)?;
    read_words(alloc, text, case, program, place)
}

fn place_words(text: &mut Text, vertex: Name, place: u64) -> Result<(), AllocError> {
    say_line(
        text,
        "`%` at its place % in the order. Its reply:",
        &[Part::Word(vertex.bytes()), Part::Number(place)],
    )
}

/// The most vertices that are named.
const MOST_NAMED: usize = 20;

// Which vertices of the report's pairs the program does read.
fn read_words(
    alloc: Global,
    text: &mut Text,
    case: &Case,
    program: &Program,
    place: u64,
) -> Result<(), AllocError> {
    let before = case
        .order()
        .get(..place.saturating_sub(1) as usize)
        .unwrap_or(&[]);
    let graph = graph_after(alloc, case, before)?;
    let visits = visits_at(alloc, &graph, program)?;
    let read = vertices_read(alloc, case, &visits)?;
    if read.is_empty() {
        return say_line(
            text,
            "It reads none of the vertices in the `settled` lines.",
            &[],
        );
    }
    text.push(b"Of the vertices in the `settled` lines it reads:")?;
    for vertex in &read {
        text.word(vertex.bytes())?;
    }
    text.end_line()
}

// The vertices of pairs that are among these, each once, in the order of the pairs. At most so many.
fn vertices_read(alloc: Global, case: &Case, visits: &Visits) -> Result<Vec<Name>, AllocError> {
    let mut read: Vec<Name> = Vec::new(alloc);
    for pair in case.report.pairs.as_slice() {
        if visits.has(pair.vertex) && !read.as_slice().contains(&pair.vertex) {
            read.push(pair.vertex)?;
        }
        if read.len() == MOST_NAMED {
            return Ok(read);
        }
    }
    Ok(read)
}
