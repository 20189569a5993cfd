//! What depends on graphs: replay, pairs and refusals. Each graph is made from the start.

use crate::slow::lookups::{
    commit_count, commits_at, number, one_session, ops_of, program_of, reply_of, stamp_of,
};
use crate::slow::prices::is_priced;
use graph_ops::{Got, Graph, TxFault};
use program_defs::{Answer, Program, Script, ask, ask_with_visits, visits_of};
use report_rules::{ReplyState, Report};
use std::alloc::{AllocError, Global};
use weave_data::{Items, Name};

// Runs a request's transaction, if it is one: what it reads, or where it stops.
fn run(alloc: Global, script: &Script, graph: &mut Graph, r: u32) -> Result<Vec<Got>, TxFault> {
    match ops_of(script, r) {
        Some(ops) if ops.len() <= 1_000 => graph.run_tx(alloc, ops),
        _ => Err(TxFault::Memory),
    }
}

/// Whether the request at the place of the order reads what its reply says, after those before it.
pub fn is_replay_right(
    alloc: Global,
    script: &Script,
    report: &Report,
    place: usize,
) -> Result<bool, AllocError> {
    let Some(request) = report.order.as_slice().get(place) else {
        return Ok(true);
    };
    let Some(reply) = reply_of(report, *request) else {
        return Ok(false);
    };
    let mut graph = graph_before(alloc, script, report, place);
    match (program_of(script, *request), &reply.state) {
        (Some(program), state) => is_answer(alloc, &graph, program, state),
        (None, ReplyState::Committed { answers, .. }) => Ok(
            match run(alloc, script, &mut graph, *request) {
                Ok(gots) => are_same(gots.as_slice(), answers.as_slice()),
                Err(_) => false,
            },
        ),
        _ => Ok(false),
    }
}

// The graph that the first of the order leave.
fn graph_before(alloc: Global, script: &Script, report: &Report, place: usize) -> Graph {
    let mut graph = Graph::new(alloc);
    for earlier in report.order.as_slice().iter().take(place) {
        let _ = run(alloc, script, &mut graph, *earlier).is_ok();
    }
    graph
}

fn is_answer(
    alloc: Global,
    graph: &Graph,
    program: &Program,
    state: &ReplyState,
) -> Result<bool, AllocError> {
    let ReplyState::Finished(said) = state else {
        return Ok(false);
    };
    if program.is_price() {
        return is_priced(alloc, graph, program, said);
    }
    match ask(alloc, graph, program) {
        Ok(found) => Ok(is_same_answer(&found, said)),
        Err(error) => Err(error),
    }
}

fn is_same_answer(found: &Answer, said: &Answer) -> bool {
    match (found, said) {
        (Answer::Shown(a), Answer::Shown(b)) => *a == *b,
        (Answer::Reached(a), Answer::Reached(b)) => *a == *b,
        (Answer::Found(a), Answer::Found(b)) => a.as_slice() == b.as_slice(),
        (Answer::Walk(a), Answer::Walk(b)) => vertices(a) == vertices(b),
        _ => false,
    }
}

fn vertices(walk: &Option<Items<Name>>) -> Option<&[Name]> {
    match walk {
        Some(vertices) => Some(vertices.as_slice()),
        None => None,
    }
}

fn are_same(gots: &[Got], answers: &[Got]) -> bool {
    gots.len() == answers.len()
        && gots.iter().zip(answers).all(|(got, answer)| got.op == answer.op
            && got.state == answer.state)
}

/// Whether the pair at the place has unordered stamps, and both its ends were at its vertex.
pub fn is_pair_right(
    alloc: Global,
    script: &Script,
    report: &Report,
    place: usize,
) -> Result<bool, AllocError> {
    let Some(pair) = report.pairs.as_slice().get(place) else {
        return Ok(true);
    };
    let unordered = match (stamp_of(report, pair.earlier), stamp_of(report, pair.later)) {
        (Some(x), Some(y)) => !x.is_before(&y) && !y.is_before(&x),
        _ => false,
    };
    if !unordered || !commits_at(script, report, pair.earlier, pair.vertex) {
        return Ok(false);
    }
    if commits_at(script, report, pair.later, pair.vertex) {
        return Ok(true);
    }
    may_visit(alloc, script, report, pair.later, pair.vertex)
}

// Whether a program that is finished visits the vertex at its place; one that isn't may.
fn may_visit(
    alloc: Global,
    script: &Script,
    report: &Report,
    r: u32,
    v: Name,
) -> Result<bool, AllocError> {
    let (Some(program), Some(reply)) = (program_of(script, r), reply_of(report, r)) else {
        return Ok(false);
    };
    if !matches!(reply.state, ReplyState::Finished(_)) {
        return Ok(true);
    }
    let graph = graph_before(alloc, script, report, place_of(report, r));
    if program.is_price() {
        return match visits_of(alloc, &graph, program) {
            Ok(visits) => Ok(visits.has(v)),
            Err(error) => Err(error),
        };
    }
    match ask_with_visits(alloc, &graph, program) {
        Ok(asked) => Ok(asked.visits.has(v)),
        Err(error) => Err(error),
    }
}

// The place of a request in the order; that after all if it has none.
fn place_of(report: &Report, r: u32) -> usize {
    let order = report.order.as_slice();
    match order.iter().position(|listed| *listed == r) {
        Some(place) => place,
        None => order.len(),
    }
}

/// Whether the reply at the place, if it is a refusal, is what comes after its number of commits.
pub fn is_refusal_right(
    alloc: Global,
    script: &Script,
    report: &Report,
    place: usize,
) -> Result<bool, AllocError> {
    let Some(reply) = report.replies.as_slice().get(place) else {
        return Ok(true);
    };
    let ReplyState::Refused { op, reason, at } = &reply.state else {
        return Ok(true);
    };
    if *at > commit_count(report) || !fits_session(script, report, reply.request, *at) {
        return Ok(false);
    }
    let Some(mut graph) = graph_after(alloc, script, report, *at) else {
        return Ok(false);
    };
    Ok(match run(alloc, script, &mut graph, reply.request) {
        Err(
            TxFault::Refused {
                op: stopped,
                reason: cause,
            },
        ) => stopped == *op && cause == *reason,
        _ => false,
    })
}

// The graph after this number of commits, if each is there once and passes.
fn graph_after(alloc: Global, script: &Script, report: &Report, commits: u64) -> Option<Graph> {
    let mut graph = Graph::new(alloc);
    for done in 0..commits {
        let request = numbered(report, done.saturating_add(1))?;
        if run(alloc, script, &mut graph, request).is_err() {
            return None;
        }
    }
    Some(graph)
}

fn numbered(report: &Report, wanted: u64) -> Option<u32> {
    let mut found = None;
    for reply in report.replies.as_slice() {
        if number(reply) == Some(wanted) {
            if found.is_some() {
                return None;
            }
            found = Some(reply.request);
        }
    }
    found
}

fn fits_session(script: &Script, report: &Report, request: u32, at: u64) -> bool {
    report.replies.as_slice().iter().all(|other| match number(other) {
        Some(n) => {
            let fits = if other.request < request {
                n <= at
            } else {
                at < n
            };
            fits || !one_session(script, other.request, request)
        }
        None => true,
    })
}
