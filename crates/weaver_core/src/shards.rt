//! The shards of a core, by their numbers.
ghost use Rattle.std.specs.Prelude.{◌≡◌, ℕ, ◌+◌, ◌<◌, ◌≤◌, [], length, map, replicate, is_some, None, IfErr, IfOk, IsTrue, OnErr, OnOk};
ghost use Rattle.std.specs.Option.{ForSome};
ghost use Rattle.weave_data.specs.Limits.{most_gates};
ghost use Rattle.weave_entries.specs.ShardReplay.{arrived_at, bound_of, head_of, kept_of, processed_count, waits_at};
ghost use Rattle.weave_entries.specs.ShardRules.{IsTakable, PassesAt};
ghost use Rattle.weave_entries.specs.declared.shard_log.ShardDeed.TheVariants as deed;
ghost use Rattle.shard_node.specs.Shards.{IsRightlyUnapplied};
ghost use Rattle.weaver_core.specs.Marks.{AddsVisits, all_visits};
ghost use Rattle.weaver_core.specs.Messages.{AppliesHead, ArrivesAtShard};
ghost use Rattle.weaver_core.specs.ShardTable.{AddsToShard, AreFirstShards, AreShardsInOrder, shard_log_at, log_of_shard};
ghost use Rattle.weaver_core.specs.Visiting.{CanBeVisited, Reads};
ghost use Rattle.shard_node.specs.Shards.{IsRightlyUnread};

use crate::marks::{VisitTable, visits_in};
use graph_ops::Record;
use shard_node::{ApplyFault, Shard, VisitFault};
use shard_queue::Arrival;
use std::alloc::{AllocError, Global};
use std::marker::Model;
use timeline_oracle::Oracle;
use vector_stamp::Stamp;
use weave_data::Name;
use weave_entries::Message;
use weave_entries::laws::{kept_updates_are_read_like_all, oracle_entries_are_a_judges};

/// The shards, in the order of their numbers. Contracts see the number of gatekeepers and the logs.
#[derive(Drop)]
pub(crate) struct Shards {
    gates: u32,
    shards: Vec<Shard>,
}

impl Model for Shards {
    ghost use Rattle.std.specs.Prelude.{map};
    ghost use Rattle.weaver_core.specs.ShardTable.{ShardTable, AreShardsInOrder, log_of_shard};

    ghost Value = { ShardTable };

    ghost view = { λ s. record {
      gates = s.gates;
      logs = map log_of_shard s.shards.items;
    } };

    ghost invariant = { λ s. AreShardsInOrder s.gates s.shards.items };
}

impl Shards {
    /// The shards of a script, before anything arrived.
    pub(crate) fn new(alloc: Global, shards: u32, gates: u32) -> Result<Shards, AllocError>
        requires some { 1 ≤ gates }
        requires few { gates ≤ most_gates }
        ensures { IfOk result (λ made. made ≡ record { gates = gates; logs = replicate shards [] }) }
    {
        let made = first_shards(alloc, shards, gates)?;
        Ok(Shards {
            gates,
            shards: made,
        })
    }

    /// These shards, which are made for this number of gatekeepers and are in order. It takes no memory.
    pub(crate) fn of(gates: u32, shards: Vec<Shard>) -> Shards
        requires { AreShardsInOrder gates shards.items }
        ensures { result ≡ record { gates = gates; logs = map log_of_shard shards.items } }
    {
        Shards { gates, shards }
    }

    /// The shards, in order. It takes no memory.
    pub(crate) fn into_shards(self) -> Vec<Shard>
        ensures order { AreShardsInOrder self.gates result.items }
        ensures logs { map log_of_shard result.items ≡ self.logs }
    {
        self.shards
    }

    /// A shard takes in the message of this number from a gatekeeper, unless that number arrived before.
    pub(crate) fn arrive(
        &mut self,
        alloc: Global,
        shard: u32,
        gate: u32,
        number: u64,
        message: Message,
    ) -> Result<Arrival, AllocError>
        requires there { shard < length self.old.logs }
        requires gate { gate < self.old.gates }
        requires number { 1 ≤ number }
        requires takable { IsTakable message }
        ensures arrives { IfOk result (λ arrival. ArrivesAtShard self.old self.new shard gate number message arrival) }
        ensures refused { OnErr result (self.new ≡ self.old) }
    {
        let shard = &mut self.shards[shard as usize];
        shard.arrive(alloc, 0, gate, number, message)
    }

    /// The number of the message that a shard processes next on a gatekeeper's channel. Those before it have arrived.
    pub(crate) fn next_number(&self, shard: u32, gate: u32) -> u64
        requires there { shard < length self.now.logs }
        requires gate { gate < self.now.gates }
        ensures number { result ≡ processed_count gate (shard_log_at self.now shard) + 1 }
        ensures arrived { (n : ℕ) → 1 ≤ n → n < result
            → IsTrue (is_some (arrived_at gate n (shard_log_at self.now shard))) }
    {
        self.shards[shard as usize].next_number(gate)
    }

    /// How many versions of a vertex a shard keeps.
    pub(crate) fn kept(&self, shard: u32, v: Name) -> usize
        requires { shard < length self.now.logs }
        ensures { result ≡ kept_of v (shard_log_at self.now shard) }
    {
        self.shards[shard as usize].kept(v)
    }

    /// The visits of all shards that asked the oracle. It looks once at each entry. The one error is out of memory.
    pub(crate) fn visits_that_asked(&self, alloc: Global) -> Result<VisitTable, AllocError>
        ensures { IfOk result (λ visits. AddsVisits [] visits.entries (all_visits self.now.logs)) }
    {
        visits_in(alloc, self.shards.as_slice())
    }

    /// A shard processes the head of a gatekeeper's channel, if it does not wait.
    pub(crate) fn apply(&mut self, alloc: Global, shard: u32, gate: u32) -> Result<(), ApplyFault>
        requires there { shard < length self.old.logs }
        requires gate { gate < self.old.gates }
        requires passes { ForSome (head_of gate (shard_log_at self.old shard)) (λ head.
            waits_at head (shard_log_at self.old shard) ≡ None → PassesAt (shard_log_at self.old shard) head) }
        ensures applied { OnOk result (AppliesHead self.old self.new shard gate) }
        ensures unapplied { IfErr result (λ fault. IsRightlyUnapplied gate (shard_log_at self.old shard) fault) }
        ensures refused { OnErr result (self.new ≡ self.old) }
    {
        let shard = &mut self.shards[shard as usize];
        shard.apply(alloc, 0, gate)
    }

    /// A shard drops the versions that are older than its bound, if it has one. The one error is out of memory.
    pub(crate) fn collect(&mut self, shard: u32) -> Result<(), AllocError>
        requires { shard < length self.old.logs }
        ensures collected { OnOk result (AddsToShard self.old self.new shard
            (deed.Collected (bound_of self.old.gates (shard_log_at self.old shard)))) }
        ensures refused { OnErr result (self.new ≡ self.old) }
    {
        let shard = &mut self.shards[shard as usize];
        shard.collect(0)
    }

    /// A shard reads a vertex for a program: the state that the program sees. The oracle is asked in the same call.
    pub(crate) fn visit(
        &mut self,
        alloc: Global,
        shard: u32,
        request: u32,
        stamp: Stamp,
        vertex: Name,
        oracle: &mut Oracle,
    ) -> Result<Option<Record>, VisitFault>
        requires there { shard < length self.old.logs }
        requires ready { CanBeVisited oracle.old (shard_log_at self.old shard) stamp vertex }
        ensures reads { IfOk result (Reads self.old self.new oracle.old oracle.new shard request stamp vertex) }
        ensures unread { IfErr result (λ fault.
            IsRightlyUnread self.old.gates stamp (shard_log_at self.old shard) fault) }
        ensures refused { OnErr result (self.new ≡ self.old) }
        ensures not_asked { OnErr result (oracle.new ≡ oracle.old) }
    {
        kept_updates_are_read_like_all();
        oracle_entries_are_a_judges();
        let shard = &mut self.shards[shard as usize];
        shard.visit(alloc, 0, request, stamp, vertex, oracle)
    }
}

// The first shards, before anything arrived.
fn first_shards(alloc: Global, shards: u32, gates: u32) -> Result<Vec<Shard>, AllocError>
    requires some { 1 ≤ gates }
    requires few { gates ≤ most_gates }
    ensures { IfOk result (λ made. AreFirstShards shards gates made.items) }
{
    let mut made = Vec::new(alloc);
    for number in 0..shards {
        made.push(Shard::new(alloc, number, gates)?)?;
    }
    Ok(made)
}
