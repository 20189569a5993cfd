//! The call of one hold of a shard, with the oracle's within it.
ghost use Rattle.std.specs.Prelude.{◌≡◌, ◌<◌, ℕ, Contains};
ghost use Rattle.weave_data.specs.Names.{shard_of};
ghost use Rattle.weave_entries.specs.GateReplay.{running_of};
ghost use Rattle.weave_account.specs.Account.{gate_log};
ghost use Rattle.weaver_locks.specs.Hands.{hand_number, seen_by, IsHand};
ghost use Rattle.weaver_locks.specs.Locks.{gate_count, shard_count};
ghost use Rattle.weaver_locks.specs.ShardHolds.{VisitsIn};

use crate::ask_laws::visits_keep_their_laws;
use crate::hand::Hand;
use crate::lower_laws::the_crates_below_keep_their_laws;
use crate::shared::Shared;
use graph_ops::Record;
use shard_node::VisitFault;
use std::alloc::Global;
use std::sync::Wait;
use vector_stamp::Stamp;
use weave_data::Name;

impl Shared {
    /// Reads a vertex at its shard for a program of the hand that is running, as the shard does, over the oracle in a
    /// hold within the shard's. It may wait.
    pub fn visit<R: Wait>(
        &self,
        rt: &R,
        alloc: Global,
        hand: &mut Hand,
        shard: u32,
        request: u32,
        stamp: Stamp,
        vertex: Name,
    ) -> Result<Option<Record>, VisitFault>
        requires hand { IsHand self.now hand.old }
        requires shard { shard < shard_count self.now }
        requires vertex { shard_of vertex (shard_count self.now) ≡ shard }
        requires running { (home : ℕ) × Contains (running_of (gate_log (seen_by hand.old) home))
            (record { author = hand_number hand.old; request = request; stamp = stamp }) }
        ensures hand { IsHand self.now hand.new }
        ensures hold { VisitsIn (gate_count self.now) (shard_count self.now) hand.old hand.new shard
            request stamp vertex result }
    {
        the_crates_below_keep_their_laws();
        visits_keep_their_laws();
        let mut held = self.enter_shard(rt, hand, shard);
        let state = held.state();
        state.shows_what_it_keeps();
        let read = state.visit(
            rt,
            alloc,
            self.gates.as_slice(),
            &self.oracle,
            hand.gates.as_mut_slice(),
            &mut hand.oracle,
            request,
            stamp,
            vertex,
        );
        state.shows_what_it_keeps();
        self.leave_shard(held, hand, shard);
        read
    }
}
