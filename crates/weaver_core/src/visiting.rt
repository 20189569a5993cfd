//! `visit R`: a program reads its next vertex.
ghost use Rattle.std.specs.Prelude.{◌≡◌, ◌<◌, ◌≤◌, length, Some, IfOk, OnErr};
ghost use Rattle.weave_data.specs.declared.name.Name.{Name};
ghost use Rattle.weave_data.specs.Names.{shard_of};
ghost use Rattle.path_program.specs.AnyPrograms.{next_read};
ghost use Rattle.weaver_core.specs.ShardTable.{shard_log_at};
ghost use Rattle.weaver_core.specs.Visiting.{AreSameLogs, AsksForNextVisit, CanBeVisited, VisitsForProgram};

use crate::shards::Shards;
use crate::walks::Running;
use node_program::NodeProgram;
use path_program::AnyProgram;
use report_rules::StepAnswer;
use shard_node::VisitFault;
use std::alloc::{AllocError, Global};
use timeline_oracle::Oracle;
use weave_data::Name;

/// The program reads its next vertex, if it has one and the vertex's shard is ready. All memory of the program is taken
/// before the shard is visited. The one error is out of memory.
pub(crate) fn visit_next(
    alloc: Global,
    shards: &mut Shards,
    oracle: &mut Oracle,
    count: u32,
    running: &mut Running,
) -> Result<StepAnswer, AllocError>
    requires some { 1 ≤ count }
    requires many { length shards.old.logs ≡ count }
    requires ready { (v : Name) → next_read running.old.walk ≡ Some v
        → CanBeVisited oracle.old (shard_log_at shards.old (shard_of v count)) running.old.stamp v }
    ensures visits { IfOk result
        (VisitsForProgram count shards.old shards.new oracle.old oracle.new running.old running.new) }
    ensures refused { OnErr result (AreSameLogs shards.old shards.new oracle.old oracle.new running.old running.new) }
    ensures asks { AsksForNextVisit running.old.walk }
{
    let Some(vertex) = running.walk.next_vertex() else {
        return Ok(StepAnswer::Idle);
    };
    visit_vertex(alloc, shards, oracle, count, running, vertex)
}

// The program reads its next vertex, if the vertex's shard is ready.
fn visit_vertex(
    alloc: Global,
    shards: &mut Shards,
    oracle: &mut Oracle,
    count: u32,
    running: &mut Running,
    vertex: Name,
) -> Result<StepAnswer, AllocError>
    requires some { 1 ≤ count }
    requires there { shard_of vertex count < length shards.old.logs }
    requires next { next_read running.old.walk ≡ Some vertex }
    requires ready { CanBeVisited oracle.old (shard_log_at shards.old (shard_of vertex count))
        running.old.stamp vertex }
    ensures visits { IfOk result
        (VisitsForProgram count shards.old shards.new oracle.old oracle.new running.old running.new) }
    ensures refused { OnErr result (AreSameLogs shards.old shards.new oracle.old oracle.new running.old running.new) }
{
    running.walk.ready()?;
    let shard = vertex.shard(count);
    match shards.visit(alloc, shard, running.request, running.stamp, vertex, oracle) {
        Ok(state) => {
            running.walk.see(state);
            Ok(StepAnswer::Ok)
        }
        Err(VisitFault::Again { gate }) => Ok(StepAnswer::Again { shard, gate }),
        Err(VisitFault::Memory) => Err(AllocError),
    }
}
