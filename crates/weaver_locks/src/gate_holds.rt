//! The way into the lock of a gatekeeper, and out of it.
ghost use Rattle.std.specs.Prelude.{◌≡◌, ◌<◌, List, []};
ghost use Rattle.weave_entries.specs.declared.gate_log.GateEntry.{GateEntry};
ghost use Rattle.seen_logs.specs.Seen.{IsWithin};
ghost use Rattle.chronicle.specs.Holds.{machine_of};
ghost use Rattle.gate_lock.specs.Notes.{GateIsKept, seen_of_gate};
ghost use Rattle.weaver_locks.specs.declared.hand.Hand.{Hand};
ghost use Rattle.weaver_locks.specs.GateHolds.{WasAtGate};
ghost use Rattle.weaver_locks.specs.Hands.{seen_by, IsHand};
ghost use Rattle.weaver_locks.specs.InGate.{without_oracle, IsInGate};
ghost use Rattle.weaver_locks.specs.Locks.{gate_count, shard_count};

use crate::gate_laws::gates_keep_their_laws;
use crate::hand::Hand;
use crate::hand_laws::hands_keep_their_laws;
use crate::shared::Shared;
use chronicle::Held;
use gate_lock::NotedGate;
use std::sync::Wait;

impl Shared {
    // Enters the lock of a gatekeeper, whose notes then meet the hand's other passes. It may wait.
    pub(crate) fn enter_gate<R: Wait>(
        &self,
        rt: &R,
        hand: &mut Hand,
        gate: u32,
    ) -> Held<'_, NotedGate>
        requires hand { IsHand self.now hand.old }
        requires gate { gate < gate_count self.now }
        ensures inside { IsInGate self.now hand.old hand.new gate (machine_of result).gate.log [] result }
        ensures kept { GateIsKept (machine_of result).gate (machine_of result).notes }
        ensures within { IsWithin (without_oracle (seen_by hand.old))
            (seen_of_gate (machine_of result).gate (machine_of result).notes) }
    {
        hands_keep_their_laws();
        let locks = self.gates.as_slice();
        let passes = hand.gates.as_mut_slice();
        let mut held = locks[gate as usize].enter(rt, &mut passes[gate as usize]);
        let state = held.state();
        state.meet(
            locks,
            passes,
            &self.store,
            &mut hand.store,
            self.shards.as_slice(),
            hand.shards.as_mut_slice(),
            gate,
        );
        state.shows_what_it_keeps();
        held
    }

    // Leaves the lock of a gatekeeper, with what the hand has added to the log there.
    pub(crate) fn leave_gate(&self, mut held: Held<'_, NotedGate>, hand: &mut Hand, gate: u32)
        requires gate { gate < gate_count self.now }
        requires inside { (old : Hand) × (before : List GateEntry) × (added : List GateEntry)
            × IsHand self.now old × IsInGate self.now old hand.old gate before added held }
        ensures hand { (old : Hand) (before added : List GateEntry) → IsHand self.now old
            → IsInGate self.now old hand.old gate before added held.entry → IsHand self.now hand.new }
        ensures was { (old : Hand) (before added : List GateEntry) → IsHand self.now old
            → IsInGate self.now old hand.old gate before added held.entry
            → WasAtGate (shard_count self.now) old hand.new gate before added }
        ensures seen { (old : Hand) (before added : List GateEntry) → IsHand self.now old
            → IsInGate self.now old hand.old gate before added held.entry
            → seen_of_gate (machine_of held.entry).gate (machine_of held.entry).notes
            ≡ without_oracle (seen_by hand.new) }
    {
        hands_keep_their_laws();
        gates_keep_their_laws();
        held.state().shows_what_it_keeps();
        let passes = hand.gates.as_mut_slice();
        held.leave(&mut passes[gate as usize]);
    }
}
