//! A shard.
ghost use Rattle.std.specs.Prelude.{◌≡◌, ◌≢◌, ℕ, ◌+◌, ◌<◌, ◌≤◌, ◌∷◌, ◌++◌, ◌⊎◌, [], take, length, is_some, false, All, Contains, IsTrue, IsSome, Some, None, IfOk, IfErr, OnOk, OnErr, if◌then◌else◌};
ghost use Rattle.std.specs.Option.{ForSome};
ghost use Rattle.weave_data.specs.declared.name.Name.{Name};
ghost use Rattle.weave_data.specs.Limits.{most_gates};
ghost use Rattle.vector_stamp.specs.declared.clock.Stamp.{Stamp};
ghost use Rattle.vector_stamp.specs.Order.{id_of};
ghost use Rattle.vector_stamp.specs.Coherence.{AreCoherent};
ghost use Rattle.vector_stamp.specs.Settling.{pairs_of};
ghost use Rattle.version_chain.specs.Chains.{stamps_of_versions};
ghost use Rattle.version_graph.specs.Graphs.{chain_of, chain_or_new};
ghost use Rattle.version_chain.specs.Views.{has_unordered, view_of, put_before, entries_for, ReachesBack};
ghost use Rattle.weave_entries.specs.ShardReplay.{arrived_at, processed_count, head_of, updates_of, waits_at, state_of_updates, first_unready, bound_of, kept_of};
ghost use Rattle.weave_entries.specs.ShardRules.{kept_stamps, updates_read, is_settled_by, pairs_after_visit, entries_of_visit, is_judge_asked_by_visit, IsKeptFor, IsTakable, PassesAt, IsShardLog};
ghost use Rattle.shard_node.specs.Keeping.{collected_if};
ghost use Rattle.shard_node.specs.Shards.{AddsEntry, CanApplyHead, IsRightlyUnapplied, IsRightlyUnread};

use crate::channels::{empty_channels, first_unready, pass_head};
use crate::fault::{ApplyFault, VisitFault};
use crate::low_marks::{meet_of_all, no_low_marks};
use crate::turns::first_waiting;
use crate::waiting::{Waiting, head_message};
use graph_ops::Record;
use shard_queue::laws::each_number_waits_by_itself;
use shard_queue::{Arrival, Inbox};
use std::alloc::{AllocError, Global};
use std::marker::Model;
use vector_stamp::laws::the_last_update_read_is_seen;
use vector_stamp::{Clock, Judge, Stamp};
use version_chain::View;
use version_graph::{VersionGraph, collect_all};
use weave_data::Name;
use weave_entries::{Message, ShardDeed, ShardEntry};

/// A shard. Contracts see its number, the number of gatekeepers, and its log.
#[derive(Drop)]
pub struct Shard {
    number: u32,
    pub(crate) gates: u32,
    pub(crate) channels: Vec<Inbox<Waiting>>,
    // The low mark of the last message that was processed on each channel.
    lows: Vec<Option<Clock>>,
    pub(crate) graph: VersionGraph,
    pub(crate) log: Vec<ShardEntry>,
}

impl Model for Shard {
    ghost use Rattle.shard_node.specs.Shards.{ShardView};
    ghost use Rattle.shard_node.specs.Keeping.{AreLowMarks, IsShardReplay};

    ghost Value = { ShardView };

    ghost view = { λ s. record { number = s.number; gates = s.gates; log = s.log.items } };

    ghost invariant = { λ s. IsShardReplay s.gates s.channels.items s.graph s.log.items
        × AreLowMarks s.gates s.lows.items s.log.items };
}

impl Shard {
    /// The shard of this number, before anything arrived. The one error is out of memory.
    pub fn new(alloc: Global, number: u32, gates: u32) -> Result<Shard, AllocError>
        requires some { 1 ≤ gates }
        requires few { gates ≤ most_gates }
        ensures { IfOk result (λ shard. shard ≡ record { number = number; gates = gates; log = [] }) }
    {
        Ok(Shard {
            number,
            gates,
            channels: empty_channels(alloc, gates)?,
            lows: no_low_marks(alloc, gates)?,
            graph: VersionGraph::new(alloc),
            log: Vec::new(alloc),
        })
    }

    /// Takes in the message of this number from a gatekeeper, unless that number arrived before.
    pub fn arrive(
        &mut self,
        alloc: Global,
        author: u32,
        gate: u32,
        number: u64,
        message: Message,
    ) -> Result<Arrival, AllocError>
        requires gate { gate < self.old.gates }
        requires number { 1 ≤ number }
        requires message { IsTakable message }
        ensures answer { IfOk result (λ arrival.
            arrival ≡ (if is_some (arrived_at gate number self.old.log) then Arrival.Repeat else Arrival.Kept)) }
        ensures kept { IfOk result (λ arrival. arrival ≡ Arrival.Kept
            → AddsEntry self.old self.new author (ShardDeed.Arrived gate number message)) }
        ensures repeat { IfOk result (λ arrival. arrival ≡ Arrival.Repeat → self.new ≡ self.old) }
        ensures refused { OnErr result (self.new ≡ self.old) }
    {
        each_number_waits_by_itself::<Waiting>();
        let channel = &mut self.channels[gate as usize];
        if channel.has(number) {
            return Ok(Arrival::Repeat);
        }
        self.log.reserve(1)?;
        let waiting = Waiting {
            place: self.log.len(),
            stamp: message.stamp,
        };
        channel.arrive(alloc, number, waiting)?;
        let deed = ShardDeed::Arrived {
            gate,
            number,
            message,
        };
        self.log.push_reserved(ShardEntry { author, deed });
        Ok(Arrival::Kept)
    }

    /// The number of the message that is processed next on a gatekeeper's channel. Those before it have arrived.
    pub fn next_number(&self, gate: u32) -> u64
        requires { gate < self.now.gates }
        ensures number { result ≡ processed_count gate self.now.log + 1 }
        ensures arrived { (n : ℕ) → 1 ≤ n → n < result → IsTrue (is_some (arrived_at gate n self.now.log)) }
    {
        self.channels[gate as usize].next()
    }

    /// Processes the head of a gatekeeper's channel, if each of its counts is the number of updates applied to that
    /// vertex here.
    pub fn apply(&mut self, alloc: Global, author: u32, gate: u32) -> Result<(), ApplyFault>
        requires gate { gate < self.old.gates }
        requires passes { ForSome (head_of gate self.old.log) (λ head.
            waits_at head self.old.log ≡ None → PassesAt self.old.log head) }
        ensures next { OnOk result (CanApplyHead gate self.old.log) }
        ensures entry { OnOk result (AddsEntry self.old self.new author
            (ShardDeed.Applied gate (processed_count gate self.old.log + 1))) }
        ensures refused { IfErr result (λ fault. IsRightlyUnapplied gate self.old.log fault) }
        ensures unchanged { OnErr result (self.new ≡ self.old) }
    {
        each_number_waits_by_itself::<Waiting>();
        let channel = &mut self.channels[gate as usize];
        self.log.reserve(1)?;
        let Some(head) = head_message(channel, self.log.as_slice()) else {
            return Err(ApplyFault::Empty);
        };
        if let Some(vertex) = first_waiting(&self.graph, head.parts.as_slice()) {
            return Err(ApplyFault::Waits { vertex });
        }
        self.graph
            .apply_parts(alloc, head.stamp, head.parts.as_slice())?;
        self.lows[gate as usize] = Some(head.low);
        let number = pass_head(channel);
        let deed = ShardDeed::Applied { gate, number };
        self.log.push_reserved(ShardEntry { author, deed });
        Ok(())
    }

    /// Reads a vertex for a program: the state that the program sees, by the rule of visits. The judge's entry, if it
    /// makes one, is made in the same call.
    pub fn visit<J: Judge>(
        &mut self,
        alloc: Global,
        author: u32,
        request: u32,
        stamp: Stamp,
        vertex: Name,
        judge: &mut J,
    ) -> Result<Option<Record>, VisitFault>
        requires other_ids { All (λ update. id_of update ≢ id_of stamp) (kept_stamps vertex self.old.log) }
        requires coherent { AreCoherent (stamp ∷ kept_stamps vertex self.old.log ++ J.known judge.old) }
        requires base { IsKeptFor stamp vertex self.old.log }
        ensures ready { OnOk result (first_unready self.old.gates stamp self.old.log ≡ None) }
        ensures state { IfOk result (λ state. state ≡ state_of_updates
            (take (updates_read (J.pairs judge.old) stamp vertex self.old.log) (updates_of vertex self.old.log))) }
        ensures entry { OnOk result (AddsEntry self.old self.new author (ShardDeed.Visited request stamp vertex
            (updates_read (J.pairs judge.old) stamp vertex self.old.log)
            (is_settled_by (J.pairs judge.old) stamp vertex self.old.log))) }
        ensures pairs { OnOk result (J.pairs judge.new
            ≡ pairs_after_visit (J.pairs judge.old) stamp vertex self.old.log) }
        ensures no_pair { OnErr result (J.pairs judge.new ≡ J.pairs judge.old) }
        ensures known { (event : Stamp) → Contains (J.known judge.new) event
            → Contains (J.known judge.old) event ⊎ Contains (stamp ∷ kept_stamps vertex self.old.log) event }
        ensures stay_known { (event : Stamp) → Contains (J.known judge.old) event → Contains (J.known judge.new) event }
        ensures logged { OnOk result (IsTrue J.keeps_log → J.log_of judge.new
            ≡ J.log_of judge.old ++ entries_of_visit (J.pairs judge.old) author stamp vertex self.old.log) }
        ensures not_logged { OnErr result (IsTrue J.keeps_log → J.log_of judge.new ≡ J.log_of judge.old) }
        ensures not_ready { IsSome (first_unready self.old.gates stamp self.old.log) → judge.new ≡ judge.old }
        ensures not_asked { is_judge_asked_by_visit stamp vertex self.old.log ≡ false → judge.new ≡ judge.old }
        ensures refused { IfErr result (λ fault. IsRightlyUnread self.old.gates stamp self.old.log fault) }
        ensures unchanged { OnErr result (self.new ≡ self.old) }
    {
        the_last_update_read_is_seen();
        if let Some(gate) = first_unready(self.channels.as_slice(), &stamp) {
            return Err(VisitFault::Again { gate });
        }
        self.log.reserve(1)?;
        let view = see(alloc, author, stamp, &self.graph, vertex, judge)?;
        let deed = ShardDeed::Visited {
            request,
            stamp,
            vertex,
            updates: view.updates,
            settled: view.settled,
        };
        self.log.push_reserved(ShardEntry { author, deed });
        Ok(view.state)
    }

    /// Drops old versions: of each vertex, those older than the newest one whose clock is before the shard's bound.
    /// The bound is the meet of the low marks of the last processed messages of all gatekeepers.
    /// If nothing of a gatekeeper was processed, there is no bound, and nothing is dropped.
    pub fn collect(&mut self, author: u32) -> Result<(), AllocError>
        ensures entry { OnOk result (AddsEntry self.old self.new author
            (ShardDeed.Collected (bound_of self.old.gates self.old.log))) }
        ensures unchanged { OnErr result (self.new ≡ self.old) }
    {
        self.log.reserve(1)?;
        let bound = meet_of_all(self.lows.as_slice());
        collect_if(&mut self.graph, &bound);
        let deed = ShardDeed::Collected { bound };
        self.log.push_reserved(ShardEntry { author, deed });
        Ok(())
    }

    /// How many versions of a vertex are kept.
    pub fn kept(&self, v: Name) -> usize
        ensures { result ≡ kept_of v self.now.log }
    {
        let Some(chain) = self.graph.chain(v) else {
            return 0;
        };
        chain.kept()
    }

    /// The log: all that was done, in order.
    pub fn log(&self) -> &[ShardEntry]
        ensures log { result.now ≡ self.now.log }
        ensures rules { IsShardLog self.now.gates self.now.log }
    {
        self.log.as_slice()
    }
}

// Drops old versions by a bound, if there is one.
fn collect_if(graph: &mut VersionGraph, bound: &Option<Clock>)
    ensures { (v : Name) → chain_of graph.new v ≡ collected_if bound.now (chain_of graph.old v) }
{
    if let Some(bound) = bound {
        collect_all(graph, bound);
    }
}

// What a program sees of a vertex; absence if it has no updates.
fn see<J: Judge>(
    alloc: Global,
    author: u32,
    stamp: Stamp,
    graph: &VersionGraph,
    vertex: Name,
    judge: &mut J,
) -> Result<View, AllocError>
    requires other_ids { All (λ update. id_of update ≢ id_of stamp)
        (stamps_of_versions (chain_or_new (chain_of graph.now vertex)).kept) }
    requires coherent { AreCoherent (stamp
        ∷ stamps_of_versions (chain_or_new (chain_of graph.now vertex)).kept ++ J.known judge.old) }
    requires base { ReachesBack stamp (chain_or_new (chain_of graph.now vertex)) }
    ensures view { IfOk result (λ view. view
        ≡ view_of (J.pairs judge.old) stamp (chain_or_new (chain_of graph.now vertex))) }
    ensures pairs { OnOk result (J.pairs judge.new ≡ J.pairs judge.old
        ++ pairs_of (put_before (J.pairs judge.old) stamp (chain_or_new (chain_of graph.now vertex))) stamp) }
    ensures no_pair { OnErr result (J.pairs judge.new ≡ J.pairs judge.old) }
    ensures known { (event : Stamp) → Contains (J.known judge.new) event → Contains (J.known judge.old) event
        ⊎ Contains (stamp ∷ stamps_of_versions (chain_or_new (chain_of graph.now vertex)).kept) event }
    ensures stay_known { (event : Stamp) → Contains (J.known judge.old) event → Contains (J.known judge.new) event }
    ensures logged { OnOk result (IsTrue J.keeps_log → J.log_of judge.new ≡ J.log_of judge.old
        ++ entries_for (J.pairs judge.old) author stamp (chain_or_new (chain_of graph.now vertex))) }
    ensures not_logged { OnErr result (IsTrue J.keeps_log → J.log_of judge.new ≡ J.log_of judge.old) }
    ensures not_asked { has_unordered stamp (stamps_of_versions (chain_or_new (chain_of graph.now vertex)).kept) ≡ false
        → judge.new ≡ judge.old }
{
    let Some(chain) = graph.chain(vertex) else {
        return Ok(View {
            state: None,
            updates: 0,
            settled: false,
        });
    };
    chain.view_at(alloc, author, stamp, judge)
}
