//! How a hand enters the lock of a shard, and leaves it.
ghost use Rattle.std.specs.Prelude.{◌≡◌, ◌<◌, List, length, slice_index_or};
ghost use Rattle.weave_entries.specs.declared.oracle_log.OracleEntry.{OracleEntry};
ghost use Rattle.weave_entries.specs.declared.shard_log.ShardEntry.{ShardEntry};
ghost use Rattle.seen_logs.specs.Entries.{shard_pairs};
ghost use Rattle.chronicle.specs.Holds.{lock_in, log_at_entry, machine_of, WentInWith};
ghost use Rattle.chronicle.specs.Locks.{lock_of};
ghost use Rattle.chronicle.specs.Logs.{Follows};
ghost use Rattle.chronicle.specs.Passes.{number_of};
ghost use Rattle.shard_lock.specs.Notes.{frame_of_shard};
ghost use Rattle.weaver_locks.specs.declared.hand.Hand.{Hand};
ghost use Rattle.weaver_locks.specs.Hands.{hand_number, IsHand};
ghost use Rattle.weaver_locks.specs.InShard.{IsDoneInShard, IsInShard};
ghost use Rattle.weaver_locks.specs.Locks.{shard_count};
ghost use Rattle.weaver_locks.specs.ShardHolds.{WasAtShard};

use crate::hand::Hand;
use crate::lower_laws::the_crates_below_keep_their_laws;
use crate::shared::Shared;
use chronicle::Held;
use shard_lock::NotedShard;
use std::sync::Wait;

impl Shared {
    /// Enters the lock of a shard, where its notes meet the hand's other passes. It may wait.
    pub(crate) fn enter_shard<R: Wait>(
        &self,
        rt: &R,
        hand: &mut Hand,
        shard: u32,
    ) -> Held<'_, NotedShard>
        requires hand { IsHand self.now hand.old }
        requires shard { shard < shard_count self.now }
        ensures { IsInShard self.now hand.old hand.new shard result }
    {
        let mut held = self.shards[shard as usize].enter(rt, &mut hand.shards[shard as usize]);
        let state = held.state();
        state.meet(
            self.gates.as_slice(),
            hand.gates.as_mut_slice(),
            &self.store,
            &mut hand.store,
            &self.oracle,
            &mut hand.oracle,
        );
        held
    }

    /// Leaves the lock of a shard.
    pub(crate) fn leave_shard(&self, held: Held<'_, NotedShard>, hand: &mut Hand, shard: u32)
        requires shard { shard < shard_count self.now }
        requires shards { length hand.old.shards.items ≡ shard_count self.now }
        requires lock { (c : _) → lock_in held ≡ lock_of (slice_index_or self.now.shards.items shard c) }
        requires pass { (p : _) → WentInWith (slice_index_or hand.old.shards.items shard p) held }
        requires frame { frame_of_shard (machine_of held).shard (machine_of held).shards (machine_of held).notes
            ≡ (lock_in held).frame }
        requires log { (p : _) → Follows (number_of (slice_index_or hand.old.shards.items shard p))
            (log_at_entry held) (shard_pairs (machine_of held).shard.log) }
        ensures gates { hand.new.gates ≡ hand.old.gates }
        ensures oracle { hand.new.oracle ≡ hand.old.oracle }
        ensures done { (before : Hand) (found added : List ShardEntry) (asked : List OracleEntry)
            → IsDoneInShard self.now before hand.old shard (machine_of held.entry).shard.log found added asked
            → IsHand self.now hand.new
            × WasAtShard (shard_count self.now) before hand.new shard found added asked }
    {
        the_crates_below_keep_their_laws();
        held.leave(&mut hand.shards[shard as usize]);
    }
}
