//! A worker's calls at the store and at shards.
ghost use Rattle.std.specs.Prelude.{◌≡◌, ◌<◌, ◌≤◌, IfOk, length};
ghost use Rattle.weave_entries.specs.StoreRule.{ops_bound};
ghost use Rattle.seen_logs.specs.References.{ArrivesAsSeen};
ghost use Rattle.weaver_locks.specs.GateHolds.{MaySend};
ghost use Rattle.weaver_locks.specs.Hands.{hand_number, seen_by};
ghost use Rattle.weaver_locks.specs.Locks.{gate_count, shard_count};
ghost use Rattle.lock_tests.specs.Workers.{IsWorker, MayHaveJudged};

use crate::calls::workers_keep_their_laws;
use crate::worker::{Flight, Worker};
use graph_ops::{Op, Record};
use shard_node::{ApplyFault, VisitFault};
use shard_queue::Arrival;
use std::alloc::{AllocError, Global};
use std::process::Abort;
use std::sync::Wait;
use weave_entries::{Message, Verdict};
use weaver_locks::Shared;
use weaver_locks::laws::calls_follow_each_other;

/// Has a transaction judged that the hand began. It may wait.
pub fn commit<R: Wait>(
    rt: &R,
    alloc: Global,
    shared: &Shared,
    me: &mut Worker,
    flight: Flight,
    ops: &[Op],
) -> Result<Verdict, AllocError>
    requires worker { IsWorker shared.now me.old }
    requires flight { MayHaveJudged me.old.hand flight }
    requires few { length ops.now < ops_bound }
    ensures worker { IsWorker shared.now me.new }
    ensures number { hand_number me.new.hand ≡ hand_number me.old.hand }
    ensures send { IfOk result (λ verdict.
        MaySend (seen_by me.new.hand) (hand_number me.new.hand) flight.gate ops.now verdict) }
{
    workers_keep_their_laws();
    calls_follow_each_other();
    shared.commit(rt, alloc, &mut me.hand, flight.request, flight.stamp, ops)
}

/// Takes in a message at a shard. It may wait.
pub fn arrive<R: Wait>(
    rt: &R,
    alloc: Global,
    shared: &Shared,
    me: &mut Worker,
    shard: u32,
    gate: u32,
    number: u64,
    message: Message,
) -> Result<Arrival, AllocError>
    requires worker { IsWorker shared.now me.old }
    requires shard { shard < shard_count shared.now }
    requires gate { gate < gate_count shared.now }
    requires number { 1 ≤ number }
    requires seen { ArrivesAsSeen (seen_by me.old.hand) (shard_count shared.now) shard gate number message }
    ensures worker { IsWorker shared.now me.new }
    ensures number { hand_number me.new.hand ≡ hand_number me.old.hand }
{
    workers_keep_their_laws();
    shared.arrive(rt, alloc, &mut me.hand, shard, gate, number, message)
}

/// Processes the next message from a gatekeeper at a shard. It may wait.
pub fn apply<R: Wait>(
    rt: &R,
    alloc: Global,
    shared: &Shared,
    me: &mut Worker,
    shard: u32,
    gate: u32,
) -> Result<(), ApplyFault>
    requires worker { IsWorker shared.now me.old }
    requires shard { shard < shard_count shared.now }
    requires gate { gate < gate_count shared.now }
    ensures worker { IsWorker shared.now me.new }
    ensures number { hand_number me.new.hand ≡ hand_number me.old.hand }
{
    workers_keep_their_laws();
    shared.apply(rt, alloc, &mut me.hand, shard, gate)
}

/// Reads the vertex of the hand's program, at its shard. It may wait.
pub fn visit<R: Wait + Abort>(
    rt: &R,
    alloc: Global,
    shared: &Shared,
    me: &mut Worker,
) -> Result<Option<Record>, VisitFault>
    requires worker { IsWorker shared.now me.old }
    ensures worker { IsWorker shared.now me.new }
    ensures number { hand_number me.new.hand ≡ hand_number me.old.hand }
{
    workers_keep_their_laws();
    let Some(walk) = me.walk else {
        panic!(rt; "no program");
    };
    let shard = walk.vertex.shard(shared.shards());
    let read = match shared.visit(
        rt,
        alloc,
        &mut me.hand,
        shard,
        walk.request,
        walk.stamp,
        walk.vertex,
    ) {
        Ok(read) => read,
        Err(fault) => return Err(fault),
    };
    me.ended = Some(walk.request);
    Ok(read)
}
