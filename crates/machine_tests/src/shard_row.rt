//! Messages, and calls of a shard under their conditions.
ghost use Rattle.std.specs.Prelude.{◌≡◌, ◌≢◌, ◌-◌, ◌^◌, ◌≤◌, ◌<◌, Some, All, AllPairs, Contains, IsTrue};
ghost use Rattle.weave_data.specs.Limits.{most_gates};
ghost use Rattle.graph_ops.specs.VertexOps.{none_refused};
ghost use Rattle.vector_stamp.specs.declared.clock.Stamp.{Stamp};
ghost use Rattle.vector_stamp.specs.Order.{stamp_before};
ghost use Rattle.weave_entries.specs.ShardReplay.{head_of, state_of_updates, updates_of};
ghost use Rattle.weave_entries.specs.ShardRules.{IsKeptFor, IsTakable, PassesAt};
ghost use Rattle.machine_tests.specs.ArrivedStamps.{arrived_stamps};

use crate::passing::after_ops;
use crate::shard_log::{arrived, is_all_kept, stamps, state_of};
use crate::test_judge::{TestJudge, expect_coherent};
use crate::values::{list, name, stamp};
use graph_ops::{Name, Op, Part, Record};
use shard_node::{ApplyFault, Arrival, Shard, VisitFault};
use std::alloc::Global;
use std::marker::Model;
use std::process::Abort;
use vector_stamp::Stamp;
use weave_data::Items;
use weave_entries::{Message, ShardDeed, ShardEntry};

/// A shard, with the number of its gatekeepers.
#[derive(Drop)]
pub struct Row {
    gates: u32,
    pub shard: Shard,
}

impl Model for Row {
    ghost use Rattle.std.specs.Prelude.{◌≡◌};
    ghost use Rattle.shard_node.specs.Shards.{ShardView};

    ghost Value = { ShardView };

    ghost view = { λ r. r.shard };

    ghost invariant = { λ r. r.shard.gates ≡ r.gates };
}

/// A shard of this number, before anything arrived.
pub fn new_shard(rt: &impl Abort, alloc: Global, number: u32, gates: u32) -> Row
    requires some { 1 ≤ gates }
    requires few { gates ≤ most_gates }
{
    Row {
        gates,
        shard: Shard::new(alloc, number, gates).expect(rt, "memory"),
    }
}

/// An empty message.
pub fn nop(alloc: Global, stamp: Stamp) -> Message {
    Message {
        request: None,
        stamp,
        low: stamp.clock,
        parts: Items::new(alloc),
    }
}

/// An empty message with a low mark of its own: gatekeeper 0 has a program that began before.
pub fn nop_above(alloc: Global, stamp: Stamp, low: Stamp) -> Message {
    Message {
        request: None,
        stamp,
        low: low.clock,
        parts: Items::new(alloc),
    }
}

/// A message with one operation on one vertex. Its request has the number of the gatekeeper.
pub fn commit(rt: &impl Abort, alloc: Global, stamp: Stamp, before: u64, op: Op) -> Message {
    let part = part(rt, alloc, op.vertex(), before, &[op]);
    Message {
        request: Some(stamp.home),
        stamp,
        low: stamp.clock,
        parts: list(rt, alloc, [part]),
    }
}

/// A part of a message.
pub fn part(rt: &impl Abort, alloc: Global, vertex: Name, before: u64, ops: &[Op]) -> Part {
    let ops = Vec::from_slice(alloc, ops).expect(rt, "memory");
    Part {
        vertex,
        before,
        ops: Items::from_vec(ops),
    }
}

/// A message with two parts.
pub fn two_parts(
    rt: &impl Abort,
    alloc: Global,
    stamp: Stamp,
    first: Part,
    second: Part,
) -> Message {
    Message {
        request: Some(41),
        stamp,
        low: stamp.clock,
        parts: list(rt, alloc, [first, second]),
    }
}

// Whether none of the parts is of this vertex.
fn are_elsewhere(parts: &[Part], vertex: Name) -> bool
    ensures { IsTrue result → All (λ (part : Part). vertex ≢ part.vertex) parts.now }
{
    let Some((part, others)) = parts.split_first() else {
        return true;
    };
    if vertex == part.vertex {
        return false;
    }
    are_elsewhere(others, vertex)
}

// Whether the parts are of vertices of their own, with counts that a shard takes.
fn are_takable(parts: &[Part]) -> bool
    ensures apart { IsTrue result → AllPairs (λ (one other : Part). one.vertex ≢ other.vertex) parts.now }
    ensures small { IsTrue result → All (λ (part : Part). part.before < 2 ^ 64 - 1) parts.now }
{
    let Some((part, others)) = parts.split_first() else {
        return true;
    };
    if part.before == u64::MAX || !are_elsewhere(others, part.vertex) {
        return false;
    }
    are_takable(others)
}

// Whether a shard takes the message.
fn is_takable(message: &Message) -> bool
    ensures { IsTrue result → IsTakable message.now }
{
    are_takable(message.parts.as_slice())
}

/// Whether the last entry has this author.
pub fn is_last_by(log: &[ShardEntry], author: u32) -> bool {
    let Some(entry) = log.last() else {
        return false;
    };
    entry.author == author
}

/// A message arrives, under the conditions of `arrive`. Its gatekeeper is the author.
pub fn arrive(
    rt: &impl Abort,
    alloc: Global,
    row: &mut Row,
    gate: u32,
    number: u64,
    message: Message,
) -> Arrival {
    if gate >= row.gates || number == 0 || !is_takable(&message) {
        panic!(rt; "no message for this shard");
    }
    let arrival = row
        .shard
        .arrive(alloc, gate, gate, number, message)
        .expect(rt, "memory");
    if arrival == Arrival::Kept && !is_last_by(row.shard.log(), gate) {
        panic!(rt; "another author");
    }
    arrival
}

// The operations of each part of a message pass on the state of its vertex.
fn expect_passing(rt: &impl Abort, alloc: Global, log: &[ShardEntry], parts: &[Part])
    ensures { All (λ (part : Part).
        IsTrue (none_refused part.ops (state_of_updates (updates_of part.vertex log.now)))) parts.now }
{
    let Some((part, others)) = parts.split_first() else {
        return;
    };
    let state = state_of(rt, alloc, log, part.vertex);
    let _ = after_ops(rt, alloc, part.ops.as_slice(), state);
    expect_passing(rt, alloc, log, others)
}

// The operations of each part of the head of a channel pass, if there is a head.
fn expect_head_passing(rt: &impl Abort, alloc: Global, shard: &Shard, gate: u32)
    requires { gate < shard.now.gates }
    ensures { (head : Message) → head_of gate shard.now.log ≡ Some head → PassesAt shard.now.log head }
{
    let log = shard.log();
    let next = shard.next_number(gate);
    let Some(head) = arrived(log, gate, next) else {
        return;
    };
    expect_passing(rt, alloc, log, head.parts.as_slice())
}

/// A head is processed, under the conditions of `apply`. Its gatekeeper is the author.
pub fn apply(rt: &impl Abort, alloc: Global, row: &mut Row, gate: u32) -> Result<(), ApplyFault> {
    if gate >= row.gates {
        panic!(rt; "no such gatekeeper");
    }
    expect_head_passing(rt, alloc, &row.shard, gate);
    let applied = row.shard.apply(alloc, gate, gate);
    if applied.is_ok() && !is_last_by(row.shard.log(), gate) {
        panic!(rt; "another author");
    }
    applied
}

/// The number of the message that is processed next on a gatekeeper's channel.
pub fn next_number(rt: &impl Abort, row: &Row, gate: u32) -> u64 {
    if gate >= row.gates {
        panic!(rt; "no such gatekeeper");
    }
    row.shard.next_number(gate)
}

// Whether all these stamps are before a program's.
fn are_before(stamps: &[Stamp], program: &Stamp) -> bool
    ensures { IsTrue result → (one : Stamp) → Contains stamps.now one → IsTrue (stamp_before one program.now) }
{
    let Some((stamp, others)) = stamps.split_first() else {
        return true;
    };
    stamp.is_before(program) && are_before(others, program)
}

// What is kept of a vertex reaches back far enough for a program: nothing was dropped, or all updates that arrived are
// before the program.
fn expect_kept(rt: &impl Abort, shard: &Shard, updates: &[Stamp], program: &Stamp, vertex: Name)
    requires { updates.now ≡ arrived_stamps shard.now.log }
    ensures { IsKeptFor program.now vertex shard.now.log }
{
    if is_all_kept(shard.log()) {
        return;
    }
    if shard.kept(vertex) == 0 {
        panic!(rt; "nothing is kept");
    }
    if !are_before(updates, program) {
        panic!(rt; "what is kept doesn't reach back");
    }
}

/// A visit for a request, under the conditions of `visit`: the stamps of all updates that arrived, and those that the
/// judge knows, are coherent with the program's. The program's gatekeeper is the author.
pub fn visit_for(
    rt: &impl Abort,
    alloc: Global,
    row: &mut Row,
    request: u32,
    program: Stamp,
    vertex: Name,
    judge: &mut TestJudge,
) -> Result<Option<Record>, VisitFault> {
    let updates = stamps(rt, alloc, row.shard.log());
    expect_coherent(rt, alloc, program, updates.as_slice(), judge);
    expect_kept(rt, &row.shard, updates.as_slice(), &program, vertex);
    row.shard
        .visit(alloc, program.home, request, program, vertex, judge)
}

/// The same for request 5.
pub fn visit(
    rt: &impl Abort,
    alloc: Global,
    row: &mut Row,
    program: Stamp,
    vertex: Name,
    judge: &mut TestJudge,
) -> Result<Option<Record>, VisitFault> {
    visit_for(rt, alloc, row, 5, program, vertex, judge)
}

/// What a visit read.
#[derive(Clone, Copy, PartialEq, Eq)]
pub enum Reading {
    Nothing,
    Absent,
    // A record without edges, whose one property, if it has one, is `color` with this value.
    Colored(Option<Name>),
    Other,
}

pub fn read(rt: &impl Abort, visit: &Result<Option<Record>, VisitFault>) -> Reading {
    let Ok(state) = visit else {
        return Reading::Nothing;
    };
    let Some(found) = state else {
        return Reading::Absent;
    };
    let color = found.props.get(name(rt, "color"));
    if found.edges.len() != 0 || found.props.len() != color.iter().count() {
        return Reading::Other;
    }
    Reading::Colored(color.copied())
}

/// The author, the request, the number of updates and the mark of a visit's entry.
pub fn visited(log: &[ShardEntry], place: usize) -> Option<(u32, u32, u64, bool)> {
    let entry = log.get(place)?;
    match &entry.deed {
        ShardDeed::Visited {
            request,
            updates,
            settled,
            ..
        } => Some((entry.author, *request, *updates, *settled)),
        _ => None,
    }
}

/// The empty message of a number is delivered; `None` if only `sent` messages were sent.
pub fn deliver(
    rt: &impl Abort,
    alloc: Global,
    row: &mut Row,
    sent: u64,
    number: u64,
) -> Option<Arrival> {
    if number > sent {
        return None;
    }
    let message = nop(alloc, stamp(0, number, 0, 0));
    Some(arrive(rt, alloc, row, 0, number, message))
}
