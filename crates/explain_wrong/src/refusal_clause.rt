//! The clause on refusals, where it breaks.

use crate::commit_order::{commit_fault, commit_fault_words, commits_by_number};
use crate::number_clause::{bad_number_words, commits, first_bad_number};
use crate::reasons::{quote_operation, stopped_words};
use crate::replaying::{Outcome, graph_after, outcome_of};
use explain_case::{Case, item_at, number_in, quote, quote_reply};
use explain_lines::{Part, say, say_line};
use graph_ops::Reason;
use report_rules::ReplyState;
use std::alloc::{AllocError, Global};
use weave_text::Text;

/// A refusal as it is printed.
#[derive(Clone, Copy)]
struct Refused {
    request: u32,
    op: u32,
    reason: Reason,
    at: u64,
}

/// Says which part of the clause a refusal breaks. Where the numbers of commits are wrong, they are named, and not the
/// refusal.
pub(crate) fn refusal_clause(
    alloc: Global,
    text: &mut Text,
    case: &Case,
    place: u64,
) -> Result<(), AllocError> {
    say_line(text, "It breaks at reply line %:", &[Part::Number(place)])?;
    if let Some(spot) = item_at(case.spots.replies.as_slice(), place) {
        quote(text, case, *spot)?;
    }
    if let Some(bad) = first_bad_number(alloc, case)? {
        say_line(text, ELSEWHERE, &[])?;
        return bad_number_words(alloc, text, case, bad);
    }
    let line = commits_by_number(alloc, case)?;
    if let Some(fault) = commit_fault(alloc, case, line.as_slice())? {
        say_line(text, ELSEWHERE, &[])?;
        return commit_fault_words(text, case, fault);
    }
    match refused_at(case, place) {
        Some(refused) => refused_words(alloc, text, case, refused, line.as_slice()),
        None => Ok(()),
    }
}

const ELSEWHERE: &str =
    "This reply may well be right: the numbers of the commits are wrong, and a refusal is judged by \
    the commits in the order of their numbers.";

fn refused_at(case: &Case, place: u64) -> Option<Refused> {
    let reply = item_at(case.replies(), place)?;
    match &reply.state {
        ReplyState::Refused { op, reason, at } => Some(Refused {
            request: reply.request,
            op: *op,
            reason: *reason,
            at: *at,
        }),
        _ => None,
    }
}

fn refused_words(
    alloc: Global,
    text: &mut Text,
    case: &Case,
    refused: Refused,
    line: &[u32],
) -> Result<(), AllocError> {
    let count = commits(case.replies());
    if refused.at > count {
        return say_line(
            text,
            "It says `at %`, and there are % commits.",
            &[Part::Number(refused.at), Part::Number(count)],
        );
    }
    if let Some(other) = out_of_session(case, refused) {
        return turn_words(text, case, refused, other);
    }
    let first = line.get(..refused.at as usize).unwrap_or(&[]);
    let mut graph = graph_after(alloc, case, first)?;
    let outcome = outcome_of(alloc, &mut graph, case, refused.request)?;
    outcome_words(text, case, refused, outcome)
}

// A commit of the session with a number that doesn't go with the refusal.
fn out_of_session(case: &Case, refused: Refused) -> Option<u32> {
    for reply in case.replies() {
        if !case.same_session(reply.request, refused.request) {
            continue;
        }
        match number_in(&reply.state) {
            Some(number) if (reply.request < refused.request) != (number <= refused.at) => {
                return Some(reply.request);
            }
            _ => {}
        }
    }
    None
}

fn turn_words(
    text: &mut Text,
    case: &Case,
    refused: Refused,
    other: u32,
) -> Result<(), AllocError> {
    at_words(text, refused.at)?;
    quote_reply(text, case, other)?;
    if other < refused.request {
        return say_line(
            text,
            "`%` comes before it in the session, so it was committed before: M has to be at least its number.",
            &[case.word(other)],
        );
    }
    say_line(
        text,
        "`%` comes after it in the session, so it was committed after: M has to be below its number.",
        &[case.word(other)],
    )
}

fn at_words(text: &mut Text, at: u64) -> Result<(), AllocError> {
    say_line(
        text,
        "It says `at %`, which doesn't go with a commit of its session:",
        &[Part::Number(at)],
    )
}

// What the transaction comes to after the commits that the refusal says.
fn outcome_words(
    text: &mut Text,
    case: &Case,
    refused: Refused,
    outcome: Outcome,
) -> Result<(), AllocError> {
    said_words(text, refused)?;
    quote_operation(text, case, refused.request, refused.op)?;
    say(text, graph_after_words(refused.at), &[])?;
    match outcome {
        Outcome::Stopped(op, reason) => {
            say_line(text, " it is so:", &[])?;
            stopped_words(text, case, refused.request, op, reason)
        }
        _ => say_line(
            text,
            " none of its operations is refused. So M (`at %`) is wrong, or the transaction wasn't refused.",
            &[Part::Number(refused.at)],
        ),
    }
}

// What the refusal says.
fn said_words(text: &mut Text, refused: Refused) -> Result<(), AllocError> {
    let op = Part::Number(u64::from(refused.op));
    if refused.at == 0 {
        return say_line(
            text,
            "It says that before the first commit its operation % is refused, which is:",
            &[op],
        );
    }
    say_line(
        text,
        "It says that after the commits 1 to % its operation % is refused, which is:",
        &[Part::Number(refused.at), op],
    )
}

// On which graph it is tried, as the start of a sentence.
fn graph_after_words(at: u64) -> &'static str {
    if at == 0 {
        "On the empty graph"
    } else {
        "After these commits, done in the order of their numbers,"
    }
}
