//! Meetings: the first place in the order at which a request meets an earlier one that doesn't precede it.
ghost use Rattle.std.specs.Prelude.{◌≡◌, ◌<◌, ◌^◌, IsTrue, IfOk, OnOk, length};
ghost use Rattle.weave_data.specs.declared.name.Name.{Name};
ghost use Rattle.weave_data.specs.Facts.{AllHold};
ghost use Rattle.graph_ops.specs.Graphs.{plain_of};
ghost use Rattle.graph_ops.specs.PlainGraph.{graph_left, transaction};
ghost use Rattle.program_defs.specs.Works.{is_change};
ghost use Rattle.report_rules.specs.Replay.{graph_after_work};
ghost use Rattle.report_rules.specs.RightReport as right;
ghost use Rattle.order_witness.specs.Judgement.{has_numbered_operations, is_numbered_work};
ghost use Rattle.run_judge.specs.Meetings.{IsFirstMeeting, MeetsRequest};
ghost use Rattle.run_judge.specs.Vertices.{IsComparison, IsNotedAt, IsOn};
ghost use Rattle.run_judge.specs.Ways.{TellsWays};

use crate::judge::Meeting;
use crate::vertices::{Unordered, Vertices, first_unordered, no_vertices, note};
use crate::visits::vertices_of;
use crate::ways::Ways;
use graph_ops::{Graph, Op, TxFault};
use program_defs::{Script, Work};
use report_rules::Report;
use std::alloc::{AllocError, Global};
use vector_stamp::laws::precedence_is_decided;

/// The first meeting without precedence.
pub fn first_fault(
    alloc: Global,
    script: &Script,
    report: &Report,
    ways: &Ways,
) -> Result<Option<Meeting>, AllocError>
    requires numbered { IsTrue (has_numbered_operations script.now) }
    requires listing { AllHold (right.listing_clause report.now) }
    requires order { AllHold (right.order_clause script.now report.now) }
    requires tells { TellsWays report.now ways.now }
    ensures { IfOk result (IsFirstMeeting script.now report.now) }
{
    precedence_is_decided();
    let order = report.order.as_slice();
    let mut graph = Graph::new(alloc);
    let mut vertices = no_vertices(alloc);
    for place in 0..order.len() {
        let found = meet(
            alloc,
            script,
            report,
            ways,
            &mut graph,
            &mut vertices,
            order[place],
        )?;
        if let Some(unordered) = found {
            return Ok(Some(Meeting {
                place: place as u64 + 1,
                earlier: unordered.earlier,
                vertex: unordered.vertex,
            }));
        }
    }
    Ok(None)
}

// Compares the next request with those that are kept of its vertices, notes it there, and replays it.
fn meet(
    alloc: Global,
    script: &Script,
    report: &Report,
    ways: &Ways,
    graph: &mut Graph,
    vertices: &mut Vertices,
    request: u32,
) -> Result<Option<Unordered>, AllocError>
    requires tells { TellsWays report.now ways.now }
    requires numbered { IsTrue (has_numbered_operations script.now) }
    ensures { IfOk result (MeetsRequest script.now report.now request (plain_of graph.old) (plain_of graph.new)
        vertices.old vertices.new) }
{
    match script.requests.as_slice().get(request as usize) {
        Some(its) => meet_work(alloc, report, ways, graph, vertices, request, &its.work),
        None => Ok(None),
    }
}

fn meet_work(
    alloc: Global,
    report: &Report,
    ways: &Ways,
    graph: &mut Graph,
    vertices: &mut Vertices,
    request: u32,
    work: &Work,
) -> Result<Option<Unordered>, AllocError>
    requires tells { TellsWays report.now ways.now }
    requires numbered { IsTrue (is_numbered_work work.now) }
    ensures compared { IfOk result (IsComparison report.now (plain_of graph.old) vertices.old work.now request) }
    ensures noted { OnOk result ((v : Name)
        → IsNotedAt vertices.old vertices.new v (IsOn (plain_of graph.old) v work.now) (is_change work.now) request) }
    ensures graph { OnOk result (plain_of graph.new ≡ graph_after_work (plain_of graph.old) work.now) }
{
    let changes = is_change(work);
    let storage = vertices_of(alloc, graph, work)?;
    let names = storage.as_slice();
    let found = first_unordered(report, ways, vertices, names, request, changes);
    note(alloc, vertices, names, request, changes)?;
    replay(alloc, graph, work)?;
    Ok(found)
}

fn is_change(work: &Work) -> bool
    ensures { result ≡ is_change work.now }
{
    match work {
        Work::Change(_) => true,
        Work::Look(_) => false,
    }
}

// Replays work on the graph.
fn replay(alloc: Global, graph: &mut Graph, work: &Work) -> Result<(), AllocError>
    requires { IsTrue (is_numbered_work work.now) }
    ensures { OnOk result (plain_of graph.new ≡ graph_after_work (plain_of graph.old) work.now) }
{
    match work {
        Work::Change(ops) => replay_ops(alloc, graph, ops.as_slice()),
        Work::Look(_) => Ok(()),
    }
}

fn replay_ops(alloc: Global, graph: &mut Graph, ops: &[Op]) -> Result<(), AllocError>
    requires { length ops.now < 2 ^ 32 }
    ensures { OnOk result (plain_of graph.new
        ≡ graph_left (plain_of graph.old) (transaction ops.now (plain_of graph.old))) }
{
    match graph.run_tx(alloc, ops) {
        Ok(_) => Ok(()),
        Err(TxFault::Refused { .. }) => Ok(()),
        Err(TxFault::Memory) => Err(AllocError),
    }
}
