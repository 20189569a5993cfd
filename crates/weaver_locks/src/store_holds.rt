//! How a hand enters the lock of the store, and leaves it.
ghost use Rattle.std.specs.Prelude.{◌≡◌, List};
ghost use Rattle.weave_entries.specs.declared.oracle_log.OracleEntry.{OracleEntry};
ghost use Rattle.weave_entries.specs.declared.store_log.StoreEntry.{StoreEntry};
ghost use Rattle.seen_logs.specs.Entries.{store_pairs};
ghost use Rattle.chronicle.specs.Holds.{lock_in, log_at_entry, machine_of, WentInWith};
ghost use Rattle.chronicle.specs.Locks.{lock_of};
ghost use Rattle.chronicle.specs.Logs.{Follows};
ghost use Rattle.weaver_locks.specs.declared.hand.Hand.{Hand};
ghost use Rattle.weaver_locks.specs.Hands.{hand_number, IsHand};
ghost use Rattle.weaver_locks.specs.InStore.{store_frame_of, IsDoneInStore, IsInStore};
ghost use Rattle.weaver_locks.specs.StoreHolds.{WasAtStore};

use crate::hand::Hand;
use crate::lower_laws::the_crates_below_keep_their_laws;
use crate::shared::Shared;
use chronicle::Held;
use std::sync::Wait;
use store_lock::NotedStore;

impl Shared {
    /// Enters the lock of the store, where its notes meet the hand's passes of gatekeepers' locks. It may wait.
    pub(crate) fn enter_store<R: Wait>(&self, rt: &R, hand: &mut Hand) -> Held<'_, NotedStore>
        requires hand { IsHand self.now hand.old }
        ensures { IsInStore self.now hand.old hand.new result }
    {
        let mut held = self.store.enter(rt, &mut hand.store);
        let state = held.state();
        state.meet(self.gates.as_slice(), hand.gates.as_mut_slice());
        state.shows_what_it_keeps();
        held
    }

    /// Leaves the lock of the store.
    pub(crate) fn leave_store(&self, held: Held<'_, NotedStore>, hand: &mut Hand)
        requires lock { lock_in held ≡ lock_of self.now.store }
        requires pass { WentInWith hand.old.store held }
        requires frame { store_frame_of (machine_of held) ≡ (lock_in held).frame }
        requires log { Follows (hand_number hand.old) (log_at_entry held) (store_pairs (machine_of held).store) }
        ensures { (before : Hand) (found added : List StoreEntry) (settled asked : List OracleEntry)
            → IsDoneInStore self.now before hand.old (machine_of held.entry).store found added settled asked
            → IsHand self.now hand.new × WasAtStore before hand.new found added settled asked }
    {
        the_crates_below_keep_their_laws();
        held.leave(&mut hand.store);
    }
}
