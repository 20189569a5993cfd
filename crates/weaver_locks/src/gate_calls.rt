//! Calls of one hold of a gatekeeper.
ghost use Rattle.std.specs.Prelude.{◌≡◌, ◌<◌, List, [], not, is_some, IsTrue, IfOk};
ghost use Rattle.std.specs.List.{list_any};
ghost use Rattle.std.specs.Option.{ForSome};
ghost use Rattle.vector_stamp.specs.Clocks.{counts_no_more};
ghost use Rattle.vector_stamp.specs.Order.{has_64_bits, stamp_before};
ghost use Rattle.shard_queue.specs.Outbox.{sent_as};
ghost use Rattle.weave_entries.specs.declared.gate_log.GateEntry.{GateEntry};
ghost use Rattle.weave_entries.specs.GateReplay.{begun_stamp, channel_of, clock_of, flight_of, is_begun, low_mark, next_number, next_stamp, running_of};
ghost use Rattle.weave_entries.specs.Sending.{messages_of};
ghost use Rattle.gatekeeper.specs.Answers.{IsRefusedWhere};
ghost use Rattle.weave_account.specs.Clocks.{IsKnown};
ghost use Rattle.seen_logs.specs.References.{ArrivesAsSeen, EndsAsSeen};
ghost use Rattle.weaver_locks.specs.Hands.{hand_number, seen_by, IsHand};
ghost use Rattle.weaver_locks.specs.GateHolds.{gate_entries_of, MaySend, SendsIn, WasAtGate};
ghost use Rattle.weaver_locks.specs.Locks.{gate_count, shard_count};

use crate::gate_laws::gates_keep_their_laws;
use crate::hand::Hand;
use crate::hand_laws::hands_keep_their_laws;
use crate::shared::Shared;
use gatekeeper::GateFault;
use graph_ops::Op;
use std::alloc::{AllocError, Global};
use std::sync::Wait;
use vector_stamp::{Clock, Stamp};
use weave_entries::{GateDeed, Message, Verdict};

impl Shared {
    /// Begins a transaction at a gatekeeper, as it does. What the last stamp of its session counts was seen. It may
    /// wait.
    pub fn begin_tx<R: Wait>(
        &self,
        rt: &R,
        alloc: Global,
        hand: &mut Hand,
        gate: u32,
        request: u32,
        last: Option<Stamp>,
    ) -> Result<Stamp, GateFault>
        requires hand { IsHand self.now hand.old }
        requires gate { gate < gate_count self.now }
        requires last { ForSome last (λ heard. IsKnown (seen_by hand.old) heard.clock) }
        ensures hand { IsHand self.now hand.new }
        ensures hold { (before : List GateEntry)
            × WasAtGate (shard_count self.now) hand.old hand.new gate before
            (gate_entries_of hand.old (λ stamp. GateDeed.BeganTx request stamp) result)
            × IfOk result (λ stamp. stamp ≡ begun_stamp gate (clock_of gate before) last)
            × IsRefusedWhere GateFault.Busy (is_some (flight_of before)) result
            × ForSome last (λ heard. IsTrue (counts_no_more gate (clock_of gate before) heard.clock)) }
        ensures after { IfOk result (λ stamp. ForSome last (λ heard. IsTrue (stamp_before heard stamp))) }
        ensures known { IfOk result (λ stamp. IsKnown (seen_by hand.new) stamp.clock) }
        ensures bits { IfOk result (λ stamp. IsTrue (has_64_bits stamp.clock)) }
    {
        gates_keep_their_laws();
        let author = hand.number();
        let mut held = self.enter_gate(rt, hand, gate);
        let begun = held.state().begin_tx(alloc, author, request, last);
        self.leave_gate(held, hand, gate);
        begun
    }

    /// Begins a program at a gatekeeper, as it does. What the last stamp of its session counts was seen. It may wait.
    pub fn begin_program<R: Wait>(
        &self,
        rt: &R,
        alloc: Global,
        hand: &mut Hand,
        gate: u32,
        request: u32,
        last: Option<Stamp>,
    ) -> Result<Stamp, AllocError>
        requires hand { IsHand self.now hand.old }
        requires gate { gate < gate_count self.now }
        requires last { ForSome last (λ heard. IsKnown (seen_by hand.old) heard.clock) }
        ensures hand { IsHand self.now hand.new }
        ensures hold { (before : List GateEntry)
            × WasAtGate (shard_count self.now) hand.old hand.new gate before
            (gate_entries_of hand.old (λ stamp. GateDeed.BeganProgram request stamp) result)
            × IfOk result (λ stamp. stamp ≡ begun_stamp gate (clock_of gate before) last)
            × ForSome last (λ heard. IsTrue (counts_no_more gate (clock_of gate before) heard.clock)) }
        ensures after { IfOk result (λ stamp. ForSome last (λ heard. IsTrue (stamp_before heard stamp))) }
        ensures known { IfOk result (λ stamp. IsKnown (seen_by hand.new) stamp.clock) }
        ensures bits { IfOk result (λ stamp. IsTrue (has_64_bits stamp.clock)) }
    {
        gates_keep_their_laws();
        let author = hand.number();
        let mut held = self.enter_gate(rt, hand, gate);
        let begun = held.state().begin_program(alloc, author, request, last);
        self.leave_gate(held, hand, gate);
        begun
    }

    /// Sends the messages of the hand's transaction that is in flight at a gatekeeper, by its judgement, which the hand
    /// has seen. It may wait.
    pub fn send<R: Wait>(
        &self,
        rt: &R,
        alloc: Global,
        hand: &mut Hand,
        gate: u32,
        ops: &[Op],
        verdict: &Verdict,
    ) -> Result<(), GateFault>
        requires hand { IsHand self.now hand.old }
        requires gate { gate < gate_count self.now }
        requires judged { MaySend (seen_by hand.old) (hand_number hand.old) gate ops.now verdict.now }
        ensures hand { IsHand self.now hand.new }
        ensures hold { (before : List GateEntry)
            × SendsIn (shard_count self.now) hand.old hand.new gate before ops.now verdict.now result }
    {
        hands_keep_their_laws();
        gates_keep_their_laws();
        let author = hand.number();
        let mut held = self.enter_gate(rt, hand, gate);
        let sent = held.state().send(alloc, author, ops, verdict);
        self.leave_gate(held, hand, gate);
        sent
    }

    /// Finishes a program of the hand at a gatekeeper, as it does. Its visits were seen. It may wait.
    pub fn finish<R: Wait>(
        &self,
        rt: &R,
        alloc: Global,
        hand: &mut Hand,
        gate: u32,
        request: u32,
    ) -> Result<(), GateFault>
        requires hand { IsHand self.now hand.old }
        requires gate { gate < gate_count self.now }
        requires visits { EndsAsSeen (seen_by hand.old) request }
        ensures hand { IsHand self.now hand.new }
        ensures hold { (before : List GateEntry)
            × WasAtGate (shard_count self.now) hand.old hand.new gate before
            (gate_entries_of hand.old (λ _. GateDeed.Finished request) result)
            × IsRefusedWhere GateFault.Idle
            (not (list_any (is_begun (hand_number hand.old) request) (running_of before))) result }
    {
        gates_keep_their_laws();
        let author = hand.number();
        let mut held = self.enter_gate(rt, hand, gate);
        let finished = held.state().finish(alloc, author, request);
        self.leave_gate(held, hand, gate);
        finished
    }

    /// Sends an empty message from a gatekeeper to a shard, and answers its number. It may wait.
    pub fn nop<R: Wait>(
        &self,
        rt: &R,
        alloc: Global,
        hand: &mut Hand,
        gate: u32,
        shard: u32,
    ) -> Result<u64, GateFault>
        requires hand { IsHand self.now hand.old }
        requires gate { gate < gate_count self.now }
        requires shard { shard < shard_count self.now }
        ensures hand { IsHand self.now hand.new }
        ensures hold { (before : List GateEntry)
            × (let stamp = next_stamp gate (clock_of gate before) in
            WasAtGate (shard_count self.now) hand.old hand.new gate before
            (gate_entries_of hand.old (λ number. GateDeed.Nop shard number stamp
            (low_mark stamp (running_of before))) result))
            × IfOk result (λ number. number ≡ next_number shard before)
            × IsRefusedWhere GateFault.Busy (is_some (flight_of before)) result }
    {
        let author = hand.number();
        let mut held = self.enter_gate(rt, hand, gate);
        let sent = held.state().nop(alloc, author, shard);
        self.leave_gate(held, hand, gate);
        sent
    }

    /// A gatekeeper's clock. It is known by what the hand has seen then. It may wait.
    pub fn say<R: Wait>(&self, rt: &R, hand: &mut Hand, gate: u32) -> Clock
        requires hand { IsHand self.now hand.old }
        requires gate { gate < gate_count self.now }
        ensures hand { IsHand self.now hand.new }
        ensures hold { (before : List GateEntry)
            × WasAtGate (shard_count self.now) hand.old hand.new gate before []
            × (result ≡ clock_of gate before) }
        ensures known { IsKnown (seen_by hand.new) result }
    {
        let mut held = self.enter_gate(rt, hand, gate);
        let clock = held.state().say();
        self.leave_gate(held, hand, gate);
        clock
    }

    /// A gatekeeper hears a clock that is known by what the hand has seen. It takes its room first. It may wait.
    pub fn hear<R: Wait>(
        &self,
        rt: &R,
        alloc: Global,
        hand: &mut Hand,
        gate: u32,
        clock: &Clock,
    ) -> Result<(), AllocError>
        requires hand { IsHand self.now hand.old }
        requires gate { gate < gate_count self.now }
        requires clock { IsKnown (seen_by hand.old) clock.now }
        ensures hand { IsHand self.now hand.new }
        ensures hold { (before : List GateEntry)
            × WasAtGate (shard_count self.now) hand.old hand.new gate before
            (gate_entries_of hand.old (λ _. GateDeed.Heard clock.now) result) }
    {
        gates_keep_their_laws();
        let author = hand.number();
        let mut held = self.enter_gate(rt, hand, gate);
        let heard = held.state().hear(alloc, author, clock);
        self.leave_gate(held, hand, gate);
        heard
    }

    /// A copy of the message of this number from a gatekeeper to a shard, or `None` if it was not sent. The hand has
    /// then seen its sending, and the judgement of which it was made. It may wait.
    pub fn fetch<R: Wait>(
        &self,
        rt: &R,
        alloc: Global,
        hand: &mut Hand,
        gate: u32,
        shard: u32,
        number: u64,
    ) -> Result<Option<Message>, AllocError>
        requires hand { IsHand self.now hand.old }
        requires gate { gate < gate_count self.now }
        ensures hand { IsHand self.now hand.new }
        ensures hold { (before : List GateEntry)
            × WasAtGate (shard_count self.now) hand.old hand.new gate before []
            × IfOk result (λ found. found ≡ sent_as number (channel_of shard before)) }
        ensures seen { IfOk result (λ found. ForSome found (λ message.
            ArrivesAsSeen (seen_by hand.new) (shard_count self.now) shard gate number message)) }
    {
        let mut held = self.enter_gate(rt, hand, gate);
        let found = held.state().fetch(alloc, shard, number);
        self.leave_gate(held, hand, gate);
        found
    }
}
