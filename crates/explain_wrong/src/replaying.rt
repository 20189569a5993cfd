//! Requests done again, one after another on one graph.
ghost use Rattle.std.specs.Prelude.{◌≤◌, length, IfOk, IfSome};
ghost use Rattle.weave_data.specs.Limits.{most_edges};

use explain_case::Case;
use graph_ops::{Got, Graph, MOST_EDGES, Op, Reason, Record, TxFault};
use node_program::NodeProgram;
use path_program::AnyProgram;
use program_defs::{Answer, Asked, Program, Visits, Work, ask, ask_with_visits, visits_of};
use std::alloc::{AllocError, Global};
use weave_data::{Copied, Name};

/// What a request comes to when it is done again.
#[derive(Drop)]
pub(crate) enum Outcome {
    /// A transaction that passes, and what its `get`s read.
    Passed(Vec<Got>),
    /// A transaction that is refused: the operation, from 1, and why.
    Stopped(u32, Reason),
    /// What a program answers.
    Answered(Answer),
    /// The script doesn't have it.
    Unknown,
}

/// Does a request on a graph.
pub(crate) fn outcome_of(
    alloc: Global,
    graph: &mut Graph,
    case: &Case,
    request: u32,
) -> Result<Outcome, AllocError> {
    match case.request(request) {
        Some(request) => outcome_of_work(alloc, graph, &request.work),
        None => Ok(Outcome::Unknown),
    }
}

fn outcome_of_work(alloc: Global, graph: &mut Graph, work: &Work) -> Result<Outcome, AllocError> {
    match work {
        Work::Change(ops) => change(alloc, graph, ops.as_slice()),
        Work::Look(program) => {
            let answer = answer_of(alloc, graph, program)?;
            Ok(Outcome::Answered(answer))
        }
    }
}

// A script's transaction has far fewer operations.
const MOST_OPERATIONS: usize = 1_000_000;

/// Does a transaction on a graph.
pub(crate) fn change(alloc: Global, graph: &mut Graph, ops: &[Op]) -> Result<Outcome, AllocError> {
    if ops.len() > MOST_OPERATIONS {
        return Ok(Outcome::Unknown);
    }
    match graph.run_tx(alloc, ops) {
        Ok(gots) => Ok(Outcome::Passed(gots)),
        Err(TxFault::Refused { op, reason }) => Ok(Outcome::Stopped(op, reason)),
        Err(TxFault::Memory) => Err(AllocError),
    }
}

/// The graph after these requests.
pub(crate) fn graph_after(
    alloc: Global,
    case: &Case,
    requests: &[u32],
) -> Result<Graph, AllocError> {
    let mut graph = Graph::new(alloc);
    for request in requests {
        if let Some(found) = case.request(*request) {
            if let Work::Change(ops) = &found.work {
                change(alloc, &mut graph, ops.as_slice())?;
            }
        }
    }
    Ok(graph)
}

// What a program answers on a graph. A `price` is fed the graph.
fn answer_of(alloc: Global, graph: &Graph, program: &Program) -> Result<Answer, AllocError> {
    if !program.is_price() {
        return ask(alloc, graph, program);
    }
    let mut walk = AnyProgram::new(alloc, program)?;
    feed(alloc, &mut walk, graph)?;
    walk.outcome(alloc)
}

/// The vertices that a program reads on a graph.
pub(crate) fn visits_at(
    alloc: Global,
    graph: &Graph,
    program: &Program,
) -> Result<Visits, AllocError> {
    if program.is_price() {
        return visits_of(alloc, graph, program);
    }
    let Asked { visits, .. } = ask_with_visits(alloc, graph, program)?;
    Ok(visits)
}

/// The most vertices that a program reads.
const MOST_READS: u32 = 10_000_000;

fn feed<P: NodeProgram>(alloc: Global, walk: &mut P, graph: &Graph) -> Result<(), AllocError> {
    for _ in 0..MOST_READS {
        let Some(v) = walk.next_vertex() else {
            break;
        };
        walk.ready()?;
        let state = state_of(alloc, graph, v)?;
        walk.see(state);
    }
    Ok(())
}

// The state of a vertex. None has more edges than it may have.
fn state_of(alloc: Global, graph: &Graph, v: Name) -> Result<Option<Record>, AllocError>
    ensures { IfOk result (λ state. IfSome state (λ found. length found.edges ≤ most_edges)) }
{
    let Some(found) = graph.find(v) else {
        return Ok(None);
    };
    if found.edges.len() > MOST_EDGES {
        return Ok(None);
    }
    let state = found.copy(alloc)?;
    Ok(Some(state))
}
