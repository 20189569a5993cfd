//! The clause on conflicts, where it breaks.
ghost use Rattle.weave_data.specs.Facts.{AllHold};
ghost use Rattle.report_rules.specs.RightReport.{replies_clause};

use crate::chain_words::{chain_of, chain_words};
use explain_case::{Case, item_at, number_in, quote, quote_reply, stamp_words, unticked_words};
use explain_lines::{Part, say_line};
use report_rules::{Reply, ReplyState};
use std::alloc::{AllocError, Global};
use weave_data::Name;
use weave_text::Text;

/// Says which part of the clause a conflict breaks.
pub(crate) fn conflict_clause(
    alloc: Global,
    text: &mut Text,
    case: &Case,
    place: u64,
) -> Result<(), AllocError>
    requires { AllHold (replies_clause case.now.script.now case.now.report.now) }
{
    say_line(text, "It breaks at reply line %:", &[Part::Number(place)])?;
    if let Some(spot) = item_at(case.spots.replies.as_slice(), place) {
        quote(text, case, *spot)?;
    }
    let Some(reply) = item_at(case.replies(), place) else {
        return Ok(());
    };
    match &reply.state {
        ReplyState::Conflict { vertex, newer } => {
            newer_words(alloc, text, case, reply.request, *vertex, *newer)
        }
        _ => Ok(()),
    }
}

fn newer_words(
    alloc: Global,
    text: &mut Text,
    case: &Case,
    request: u32,
    vertex: Name,
    newer: u32,
) -> Result<(), AllocError>
    requires { AllHold (replies_clause case.now.script.now case.now.report.now) }
{
    if case.number(newer).is_none() {
        say_line(
            text,
            "`%` has to be a committed transaction, and isn't:",
            &[case.word(newer)],
        )?;
        return quote_reply(text, case, newer);
    }
    if case.same_session(request, newer) {
        return say_line(
            text,
            "`%` is of session % too. A request waits for the reply of the one before it in its session, so these two \
                are never in conflict.",
            &[case.word(newer), Part::Number(case.session(newer))],
        );
    }
    if !case.names(newer, vertex) {
        return unnamed_words(text, case, newer, vertex);
    }
    if !case.names(request, vertex) {
        return unnamed_words(text, case, request, vertex);
    }
    unordered_words(alloc, text, case, request, vertex, newer)
}

fn unnamed_words(
    text: &mut Text,
    case: &Case,
    request: u32,
    vertex: Name,
) -> Result<(), AllocError> {
    say_line(
        text,
        "None of the operations of `%` (line % of the script) names `%`.",
        &[
            case.word(request),
            case.line(request),
            Part::Word(vertex.bytes()),
        ],
    )
}

// The transaction doesn't precede the newer one.
fn unordered_words(
    alloc: Global,
    text: &mut Text,
    case: &Case,
    request: u32,
    vertex: Name,
    newer: u32,
) -> Result<(), AllocError>
    requires { AllHold (replies_clause case.now.script.now case.now.report.now) }
{
    say_line(
        text,
        "`%` has to precede `%`, and no chain of stamps and pairs leads from it to that one. The reply of that one:",
        &[case.word(request), case.word(newer)],
    )?;
    quote_reply(text, case, newer)?;
    stamp_words(text, case, request, newer)?;
    unticked_words(text, case, request, newer, b"")?;
    reverse_words(alloc, text, case, request, newer)?;
    other_newer_words(text, case, request, vertex)
}

// Whether the newer one precedes the transaction instead.
fn reverse_words(
    alloc: Global,
    text: &mut Text,
    case: &Case,
    request: u32,
    newer: u32,
) -> Result<(), AllocError>
    requires { AllHold (replies_clause case.now.script.now case.now.report.now) }
{
    match chain_of(alloc, case.script, case.report, newer, request)? {
        Some(chain) => {
            say_line(text, "It is the other way round:", &[])?;
            chain_words(text, case, newer, chain.as_slice())
        }
        None => say_line(text, NEITHER, &[]),
    }
}

const NEITHER: &str =
    "Neither precedes the other: a `settled` line is missing, a stamp is wrong, or the newer request is \
    another one.";

// A committed transaction that names the vertex and has a later stamp, if there is one.
fn other_newer_words(
    text: &mut Text,
    case: &Case,
    request: u32,
    vertex: Name,
) -> Result<(), AllocError> {
    for reply in case.replies() {
        if is_newer(case, request, reply, vertex) {
            say_line(
                text,
                "`%` precedes this committed transaction that names `%`:",
                &[case.word(request), Part::Word(vertex.bytes())],
            )?;
            return quote_reply(text, case, reply.request);
        }
    }
    Ok(())
}

// Whether a reply is that of a committed transaction of another session that names the vertex and has a later stamp.
fn is_newer(case: &Case, request: u32, reply: &Reply, vertex: Name) -> bool {
    if number_in(&reply.state).is_none() || case.same_session(request, reply.request) {
        return false;
    }
    match (case.stamp(request), &reply.stamp) {
        (Some(first), Some(second)) => {
            first.is_before(second) && case.names(reply.request, vertex)
        }
        _ => false,
    }
}
