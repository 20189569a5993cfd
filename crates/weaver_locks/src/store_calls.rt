//! The call of one hold of the store, with the oracle's within it.
ghost use Rattle.std.specs.Prelude.{◌≡◌, ◌≢◌, ◌<◌, ℕ, length, All, Contains};
ghost use Rattle.vector_stamp.specs.declared.clock.Stamp.{Stamp};
ghost use Rattle.vector_stamp.specs.Order.{id_of};
ghost use Rattle.weave_entries.specs.GateReplay.{txs_of};
ghost use Rattle.weave_entries.specs.StoreRule.{ops_bound};
ghost use Rattle.backing_store.specs.Commits.{stamps_judged};
ghost use Rattle.weave_account.specs.Account.{gate_log};
ghost use Rattle.weaver_locks.specs.Hands.{hand_number, made_by, seen_by, IsHand};
ghost use Rattle.weaver_locks.specs.StoreHolds.{JudgesIn};

use crate::hand::Hand;
use crate::lower_laws::the_crates_below_keep_their_laws;
use crate::shared::Shared;
use graph_ops::Op;
use std::alloc::{AllocError, Global};
use std::sync::Wait;
use vector_stamp::Stamp;
use weave_account::laws::begun_stamps_are_coherent;
use weave_entries::Verdict;

impl Shared {
    /// Judges a transaction, as the store does, over the oracle in a hold within the store's. The hand began it, and
    /// has not had it judged: none of its own judgements has that stamp. It may wait.
    pub fn commit<R: Wait>(
        &self,
        rt: &R,
        alloc: Global,
        hand: &mut Hand,
        request: u32,
        stamp: Stamp,
        ops: &[Op],
    ) -> Result<Verdict, AllocError>
        requires hand { IsHand self.now hand.old }
        requires few { length ops.now < ops_bound }
        requires begun { (home : ℕ) × Contains (txs_of (gate_log (seen_by hand.old) home))
            (record { author = hand_number hand.old; request = request; stamp = stamp }) }
        requires new { All (λ (judged : Stamp). id_of judged ≢ id_of stamp) (stamps_judged (made_by hand.old).store) }
        ensures hand { IsHand self.now hand.new }
        ensures hold { JudgesIn hand.old hand.new request stamp ops.now result }
    {
        begun_stamps_are_coherent();
        the_crates_below_keep_their_laws();
        let mut held = self.enter_store(rt, hand);
        let state = held.state();
        let judged = state.commit(
            rt,
            alloc,
            self.gates.as_slice(),
            &self.oracle,
            hand.gates.as_mut_slice(),
            &mut hand.oracle,
            request,
            stamp,
            ops,
        );
        state.shows_what_it_keeps();
        self.leave_store(held, hand);
        judged
    }
}
