//! A shard takes a message in.
ghost use Rattle.std.specs.Prelude.{◌≡◌, ◌≢◌, ◌<◌, ◌≤◌, ◌^◌, ◌-◌, is_some, nat_lt, AllPairs, IfOk, OnErr, if◌then◌else◌};
ghost use Rattle.std.specs.List.{list_all};
ghost use Rattle.graph_ops.specs.declared.part.Part.{Part};
ghost use Rattle.weave_entries.specs.ShardReplay.{arrived_at};
ghost use Rattle.shard_node.specs.Shards.{AddsEntry};
ghost use Rattle.seen_logs.specs.References.{ArrivesAsSeen};
ghost use Rattle.shard_lock.specs.Notes.{seen_of_shard};

use graph_ops::Part;
use shard_lock::NotedShard;
use shard_queue::Arrival;
use std::alloc::{AllocError, Global};
use weave_entries::{Message, ShardDeed};

// Whether no count is the greatest number of 64 bits.
fn are_small(parts: &[Part]) -> bool
    ensures { result ≡ list_all (λ (part : Part). nat_lt part.before (2 ^ 64 - 1)) parts.now }
{
    parts.iter().all(|part| part.before < u64::MAX)
}

/// Takes in a message from a gatekeeper, as the shard does. A count that a shard doesn't take, which no store reaches
/// either, is refused as out of memory.
pub(crate) fn take_in(
    shard: &mut NotedShard,
    alloc: Global,
    author: u32,
    gate: u32,
    number: u64,
    message: Message,
) -> Result<Arrival, AllocError>
    requires gate { gate < shard.old.shard.gates }
    requires number { 1 ≤ number }
    requires apart { AllPairs (λ (one other : Part). one.vertex ≢ other.vertex) message.parts }
    requires seen { ArrivesAsSeen (seen_of_shard shard.old.shard shard.old.notes) shard.old.shards
        shard.old.shard.number gate number message }
    ensures shards { shard.new.shards ≡ shard.old.shards }
    ensures notes { shard.new.notes ≡ shard.old.notes }
    ensures answer { IfOk result (λ arrival. arrival
        ≡ (if is_some (arrived_at gate number shard.old.shard.log) then Arrival.Repeat else Arrival.Kept)) }
    ensures kept { IfOk result (λ arrival. arrival ≡ Arrival.Kept
        → AddsEntry shard.old.shard shard.new.shard author (ShardDeed.Arrived gate number message)) }
    ensures repeat { IfOk result (λ arrival. arrival ≡ Arrival.Repeat → shard.new.shard ≡ shard.old.shard) }
    ensures refused { OnErr result (shard.new.shard ≡ shard.old.shard) }
{
    if !are_small(message.parts.as_slice()) {
        return Err(AllocError);
    }
    shard.arrive(alloc, author, gate, number, message)
}
