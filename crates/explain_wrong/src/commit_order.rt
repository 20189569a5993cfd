//! The commits in the order of their numbers.

use crate::reasons::stopped_words;
use crate::replaying::{Outcome, outcome_of};
use explain_case::{Case, number_in, quote_reply};
use explain_lines::{Part, say_line};
use graph_ops::{Got, Graph, Reason};
use report_rules::ReplyState;
use std::alloc::{AllocError, Global};
use weave_text::Text;

/// The committed requests in the order of their numbers.
pub(crate) fn commits_by_number(alloc: Global, case: &Case) -> Result<Vec<u32>, AllocError> {
    let mut numbered = Vec::new(alloc);
    for reply in case.replies() {
        if let Some(number) = number_in(&reply.state) {
            numbered.push((number, reply.request))?;
        }
    }
    numbered.as_mut_slice().sort_unstable();
    let mut line = Vec::new(alloc);
    for (_, request) in &numbered {
        line.push(*request)?;
    }
    Ok(line)
}

/// Why the commits can't have been done in the order of their numbers.
#[derive(Clone, Copy)]
pub(crate) enum CommitFault {
    /// A request is refused at this operation.
    Stopped(u32, u32, Reason),
    /// A `get` of a request reads something else.
    Reads(u32),
    /// The first of these comes after the second in their session, and has a lower number.
    Session(u32, u32),
}

/// The first commit that, in the order of numbers, is out of its session's order, is refused, or reads something else.
pub(crate) fn commit_fault(
    alloc: Global,
    case: &Case,
    line: &[u32],
) -> Result<Option<CommitFault>, AllocError> {
    let mut graph = Graph::new(alloc);
    let mut lasts = vec![in alloc; 0u32; SESSIONS]?;
    for request in line {
        let later = last_before(case, lasts.as_mut_slice(), *request);
        if later > *request {
            return Ok(Some(CommitFault::Session(later, *request)));
        }
        let outcome = outcome_of(alloc, &mut graph, case, *request)?;
        if let Some(fault) = fault_in(case, *request, &outcome) {
            return Ok(Some(fault));
        }
    }
    Ok(None)
}

// What is wrong if a commit comes to this.
fn fault_in(case: &Case, request: u32, outcome: &Outcome) -> Option<CommitFault> {
    match outcome {
        Outcome::Stopped(op, reason) => Some(CommitFault::Stopped(request, *op, *reason)),
        Outcome::Passed(gots) => {
            if are_printed(case, request, gots.as_slice()) {
                None
            } else {
                Some(CommitFault::Reads(request))
            }
        }
        _ => None,
    }
}

/// A script's sessions are numbered below this.
const SESSIONS: usize = 64;

// The last request of the session so far, in the script's order, or 0; from then on it is the later of the two.
fn last_before(case: &Case, lasts: &mut [u32], request: u32) -> u32 {
    match lasts.get_mut(case.session(request) as usize) {
        Some(last) => {
            let before = *last;
            *last = before.max(request);
            before
        }
        None => 0,
    }
}

// Whether a reply prints these answers.
fn are_printed(case: &Case, request: u32, gots: &[Got]) -> bool {
    match case.reply(request) {
        Some(reply) => match &reply.state {
            ReplyState::Committed { answers, .. } => same(answers.as_slice(), gots),
            _ => false,
        },
        None => false,
    }
}

fn same(answers: &[Got], others: &[Got]) -> bool {
    answers.len() == others.len()
        && answers
            .iter()
            .zip(others)
            .all(|(a, b)| a.op == b.op && a.state == b.state)
}

/// Says why the commits can't have been done in the order of their numbers.
pub(crate) fn commit_fault_words(
    text: &mut Text,
    case: &Case,
    fault: CommitFault,
) -> Result<(), AllocError> {
    match fault {
        CommitFault::Stopped(request, op, reason) => {
            say_line(
                text,
                STOPPED,
                &[
                    Part::Number(case.number(request).unwrap_or(0)),
                    case.word(request),
                ],
            )?;
            quote_reply(text, case, request)?;
            stopped_words(text, case, request, op, reason)
        }
        CommitFault::Reads(request) => {
            say_line(
                text,
                READS,
                &[
                    Part::Number(case.number(request).unwrap_or(0)),
                    case.word(request),
                ],
            )?;
            quote_reply(text, case, request)
        }
        CommitFault::Session(later, request) => {
            say_line(
                text,
                SESSION,
                &[
                    case.word(later),
                    case.word(request),
                    Part::Number(case.session(request)),
                ],
            )?;
            quote_reply(text, case, request)?;
            quote_reply(text, case, later)
        }
    }
}

const STOPPED: &str =
    "The commits, done in the order of their numbers, don't pass: commit %, `%`, is refused there. So \
    its number or one below it is wrong:";

const READS: &str =
    "The commits, done in the order of their numbers, don't read what is printed: the `got` lines of \
    commit %, `%`, don't hold there. So its number or one below it is wrong:";

const SESSION: &str =
    "`%` comes after `%` in session %, and has a lower commit number: a session's commits are numbered \
    in its order.";
