//! `nop G S`, `deliver G S N` and `apply S G`: messages reach the shards.
ghost use Rattle.std.specs.Prelude.{◌≡◌, ◌<◌, ◌≤◌, length, None, IfOk, OnErr};
ghost use Rattle.std.specs.Option.{ForSome};
ghost use Rattle.shard_queue.specs.Outbox.{sent_as};
ghost use Rattle.shard_node.specs.declared.fault.ApplyFault.TheVariants.{Memory};
ghost use Rattle.weave_entries.specs.GateReplay.{channel_of};
ghost use Rattle.weave_entries.specs.ShardReplay.{head_of, waits_at};
ghost use Rattle.weave_entries.specs.ShardRules.{IsTakable, PassesAt};
ghost use Rattle.weaver_core.specs.GateTable as gate_table;
ghost use Rattle.weaver_core.specs.ShardTable as shard_table;
ghost use Rattle.weaver_core.specs.Messages.{AppliesAtShard, DeliversToShard, IsAnswerToFault, DoesNop};

use crate::gates::Gates;
use crate::shards::Shards;
use gatekeeper::GateFault;
use report_rules::StepAnswer;
use shard_node::ApplyFault;
use shard_queue::Arrival;
use std::alloc::{AllocError, Global};
use weave_data::Copied;

/// An empty message goes out, unless a transaction is in flight. The one error is out of memory.
pub(crate) fn nop_in(
    alloc: Global,
    gates: &mut Gates,
    gate: u32,
    shard: u32,
) -> Result<StepAnswer, AllocError>
    requires there { gate < length gates.old.logs }
    requires shard { shard < gates.old.shards }
    ensures sends { IfOk result (DoesNop gates.old gates.new gate shard) }
    ensures refused { OnErr result (gates.new ≡ gates.old) }
{
    match gates.nop(alloc, gate, shard) {
        Ok(()) => Ok(StepAnswer::Ok),
        Err(GateFault::Busy) => Ok(StepAnswer::Busy),
        Err(_) => Err(AllocError),
    }
}

/// The message of this number arrives as it was sent, if it was sent. It is copied once. The one error is out of
/// memory.
pub(crate) fn deliver_in(
    alloc: Global,
    gates: &Gates,
    shards: &mut Shards,
    gate: u32,
    shard: u32,
    number: u64,
) -> Result<StepAnswer, AllocError>
    requires there { gate < length gates.now.logs }
    requires shard { shard < length shards.old.logs }
    requires gate { gate < shards.old.gates }
    requires number { 1 ≤ number }
    requires takable { ForSome (sent_as number (channel_of shard (gate_table.gate_log_at gates.now gate))) IsTakable }
    ensures delivers { IfOk result (DeliversToShard gates.now shards.old shards.new gate shard number) }
    ensures refused { OnErr result (shards.new ≡ shards.old) }
{
    let Some(message) = gates.fetch(gate, shard, number) else {
        return Ok(StepAnswer::Unknown);
    };
    let copied = message.copy(alloc)?;
    match shards.arrive(alloc, shard, gate, number, copied) {
        Ok(Arrival::Kept) => Ok(StepAnswer::Ok),
        Ok(Arrival::Repeat) => Ok(StepAnswer::Repeat),
        Err(_) => Err(AllocError),
    }
}

/// The head of the gatekeeper's channel is processed, if it has arrived and does not wait. The one error is out of
/// memory.
pub(crate) fn apply_in(
    alloc: Global,
    shards: &mut Shards,
    shard: u32,
    gate: u32,
) -> Result<StepAnswer, AllocError>
    requires there { shard < length shards.old.logs }
    requires gate { gate < shards.old.gates }
    requires passes { ForSome (head_of gate (shard_table.shard_log_at shards.old shard)) (λ head.
        waits_at head (shard_table.shard_log_at shards.old shard) ≡ None
        → PassesAt (shard_table.shard_log_at shards.old shard) head) }
    ensures applies { IfOk result (AppliesAtShard shards.old shards.new shard gate) }
    ensures refused { OnErr result (shards.new ≡ shards.old) }
{
    match shards.apply(alloc, shard, gate) {
        Ok(()) => Ok(StepAnswer::Ok),
        Err(fault) => answer_to(&fault),
    }
}

// What is answered if a shard refuses to process a head.
fn answer_to(fault: &ApplyFault) -> Result<StepAnswer, AllocError>
    ensures answer { IfOk result (IsAnswerToFault fault.now) }
    ensures memory { OnErr result (fault.now ≡ Memory) }
{
    match fault {
        ApplyFault::Empty => Ok(StepAnswer::Empty),
        ApplyFault::Waits { vertex } => Ok(StepAnswer::Waits { vertex: *vertex }),
        ApplyFault::Memory => Err(AllocError),
    }
}
