//! Calls of one hold of a shard.
ghost use Rattle.std.specs.Prelude.{◌≡◌, ◌<◌, ◌≤◌, ◌+◌, List, [], is_some, IfErr, IfOk, OnOk, if◌then◌else◌};
ghost use Rattle.weave_entries.specs.declared.shard_log.ShardEntry.{ShardEntry};
ghost use Rattle.weave_entries.specs.ShardReplay.{arrived_at, processed_count};
ghost use Rattle.shard_node.specs.Shards.{CanApplyHead, IsRightlyUnapplied};
ghost use Rattle.seen_logs.specs.References.{ArrivesAsSeen};
ghost use Rattle.weaver_locks.specs.Hands.{seen_by, IsHand};
ghost use Rattle.weaver_locks.specs.Locks.{gate_count, shard_count};
ghost use Rattle.weaver_locks.specs.ShardHolds.{arrival_entries, shard_entries_of, WasAtShard};

use crate::hand::Hand;
use crate::lower_laws::the_crates_below_keep_their_laws;
use crate::shared::Shared;
use crate::taking::take_in;
use shard_node::ApplyFault;
use shard_queue::Arrival;
use std::alloc::{AllocError, Global};
use std::sync::Wait;
use weave_account::laws::{messages_can_be_taken, store_logs_have_passed};
use weave_entries::{Message, ShardDeed};

impl Shared {
    /// Takes in a message from a gatekeeper at a shard, as the shard does. The hand has seen its sending, and the
    /// judgement of which it was made. It may wait.
    pub fn arrive<R: Wait>(
        &self,
        rt: &R,
        alloc: Global,
        hand: &mut Hand,
        shard: u32,
        gate: u32,
        number: u64,
        message: Message,
    ) -> Result<Arrival, AllocError>
        requires hand { IsHand self.now hand.old }
        requires shard { shard < shard_count self.now }
        requires gate { gate < gate_count self.now }
        requires number { 1 ≤ number }
        requires seen { ArrivesAsSeen (seen_by hand.old) (shard_count self.now) shard gate number message }
        ensures hand { IsHand self.now hand.new }
        ensures hold { (before : List ShardEntry)
            × WasAtShard (shard_count self.now) hand.old hand.new shard before
            (arrival_entries hand.old (ShardDeed.Arrived gate number message) result) []
            × IfOk result (λ arrival. arrival
            ≡ (if is_some (arrived_at gate number before) then Arrival.Repeat else Arrival.Kept)) }
    {
        messages_can_be_taken();
        store_logs_have_passed();
        the_crates_below_keep_their_laws();
        let author = hand.number();
        let mut held = self.enter_shard(rt, hand, shard);
        let state = held.state();
        let arrived = take_in(state, alloc, author, gate, number, message);
        state.shows_what_it_keeps();
        self.leave_shard(held, hand, shard);
        arrived
    }

    /// Processes the head of a gatekeeper's channel at a shard, as the shard does. It may wait.
    pub fn apply<R: Wait>(
        &self,
        rt: &R,
        alloc: Global,
        hand: &mut Hand,
        shard: u32,
        gate: u32,
    ) -> Result<(), ApplyFault>
        requires hand { IsHand self.now hand.old }
        requires shard { shard < shard_count self.now }
        requires gate { gate < gate_count self.now }
        ensures hand { IsHand self.now hand.new }
        ensures hold { (before : List ShardEntry)
            × WasAtShard (shard_count self.now) hand.old hand.new shard before
            (shard_entries_of hand.old (ShardDeed.Applied gate (processed_count gate before + 1)) result) []
            × OnOk result (CanApplyHead gate before)
            × IfErr result (λ fault. IsRightlyUnapplied gate before fault) }
    {
        let author = hand.number();
        let mut held = self.enter_shard(rt, hand, shard);
        let state = held.state();
        let applied = state.apply(alloc, author, gate);
        state.shows_what_it_keeps();
        self.leave_shard(held, hand, shard);
        applied
    }
}
