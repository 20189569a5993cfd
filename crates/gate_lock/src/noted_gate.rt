//! A gatekeeper with its notes.
ghost use Rattle.std.specs.Prelude.{◌≡◌, ◌<◌, List, [], not, is_none, is_some, Contains, IsTrue, IfOk, OnOk, OnErr, length, slice_index_or};
ghost use Rattle.std.specs.List.{list_any};
ghost use Rattle.std.specs.Option.{ForSome};
ghost use Rattle.weave_data.specs.Limits.{most_gates};
ghost use Rattle.vector_stamp.specs.Order.{has_64_bits, stamp_before};
ghost use Rattle.shard_queue.specs.Outbox.{sent_as};
ghost use Rattle.weave_entries.specs.declared.gate_log.GateEntry.{GateEntry};
ghost use Rattle.weave_entries.specs.GateReplay.{is_begun, addressed_to, begun_stamp, next_stamp, next_number, clock_of, flight_of, running_of, channel_of, low_mark};
ghost use Rattle.weave_entries.specs.GateRules.{IsGateLog};
ghost use Rattle.weave_entries.specs.Sending.{IsCountsOf};
ghost use Rattle.gatekeeper.specs.Answers.{IsRefusedWhere};
ghost use Rattle.gatekeeper.specs.Gates.{Adds, SendsFlight};
ghost use Rattle.weave_account.specs.Clocks.{IsKnown};
ghost use Rattle.weave_account.specs.GoesOn.{IsBeginningOf};
ghost use Rattle.weave_account.specs.Seen.{IsMade};
ghost use Rattle.seen_logs.specs.References.{EndsAsSeen};
ghost use Rattle.seen_logs.specs.Seen.{AreLegal, IsWithin};
ghost use Rattle.chronicle.specs.Locks.{lock_of, name_of};
ghost use Rattle.chronicle.specs.Passes.{IsReady};
ghost use Rattle.lock_row.specs.Rows.{names_of, AreReady};
ghost use Rattle.lock_row.specs.Meetings.{AllMet, HaveMet};
ghost use Rattle.gate_lock.specs.Frames.{gate_frame, AreReadyBut};
ghost use Rattle.gate_lock.specs.Notes.{frame_of_gate, seen_of_gate, seen_by_gate_passes, HasJudged, GateIsKept};

use crate::copying::copy_of;
use crate::hearing::hear_with_room;
use crate::lower_laws::the_crates_below_keep_their_laws;
use crate::notes::GateNotes;
use chronicle::{Chronicle, Machine, Pass};
use gatekeeper::{Gate, GateFault};
use graph_ops::Op;
use std::alloc::{AllocError, Global};
use std::marker::Model;
use vector_stamp::{Clock, Stamp};
use weave_entries::{GateDeed, Message, ShardDeed, StoreDeed, Verdict};

/// A gatekeeper with its notes. All that its log refers to was seen: in that log, or by a note.
#[derive(Drop)]
pub struct NotedGate {
    gate: Gate,
    notes: GateNotes,
}

impl Model for NotedGate {
    ghost use Rattle.gate_lock.specs.Notes.{NotedGateView, GateIsKept};

    ghost Value = { NotedGateView };

    ghost view = { λ n. record { gate = n.gate; notes = n.notes } };

    ghost invariant = { λ n. GateIsKept n.gate n.notes };
}

impl Machine for NotedGate {
    type Entry = GateDeed;

    ghost use Rattle.std.specs.Prelude.{map};
    ghost use Rattle.seen_logs.specs.Entries.{gate_pair};
    ghost use Rattle.gate_lock.specs.Notes.{frame_of_gate};

    ghost frame = { λ n. frame_of_gate n.gate n.notes };

    ghost log = { λ n. map gate_pair n.gate.log };
}

impl NotedGate {
    /// A gatekeeper with these notes, which have seen all that its log refers to.
    pub fn new(gate: Gate, notes: GateNotes) -> NotedGate
        requires { GateIsKept gate notes }
        ensures gate { result.gate ≡ gate }
        ensures notes { result.notes ≡ notes }
    {
        NotedGate { gate, notes }
    }

    /// The gatekeeper, without its notes.
    pub fn into_gate(self) -> Gate
        ensures { result ≡ self.gate }
    {
        let NotedGate { gate, .. } = self;
        gate
    }

    /// What it keeps: all that its log refers to was seen, and each list that was seen is legal.
    pub fn shows_what_it_keeps(&self)
        ensures { GateIsKept self.now.gate self.now.notes }
    {
        let _gate = &self.gate;
    }

    /// The notes meet passes of their locks, except the one of the gatekeeper's own lock, whose pass is in the hold.
    /// The notes have then seen what the passes have, and no less than both had.
    pub fn meet<G, S, H>(
        &mut self,
        gate_locks: &[Chronicle<G>],
        gates: &mut [Pass<GateDeed>],
        store_lock: &Chronicle<S>,
        store: &mut Pass<StoreDeed>,
        shard_locks: &[Chronicle<H>],
        shards: &mut [Pass<ShardDeed>],
        home: u32,
    )
    where
        G: Machine<Entry = GateDeed>,
        S: Machine<Entry = StoreDeed>,
        H: Machine<Entry = ShardDeed>,
        requires frame { frame_of_gate self.old.gate self.old.notes ≡ gate_frame home (length gate_locks.now)
            (length shard_locks.now) (names_of gate_locks.now) (name_of (lock_of store_lock.now))
            (names_of shard_locks.now) }
        requires gate_passes { length gates.old ≡ length gate_locks.now }
        requires gates { AreReadyBut home gate_locks.now gates.old }
        requires store { IsReady (lock_of store_lock.now) store.old }
        requires shard_passes { length shards.old ≡ length shard_locks.now }
        requires shards { AreReady shard_locks.now shards.old }
        requires legal { AreLegal (length gate_locks.now) (length shard_locks.now)
            (seen_by_gate_passes home [] gates.old store.old shards.old) }
        ensures gate { self.new.gate ≡ self.old.gate }
        ensures frame { frame_of_gate self.new.gate self.new.notes
            ≡ frame_of_gate self.old.gate self.old.notes }
        ensures gates { AllMet gate_locks.now gates.old gates.new self.old.notes.gates.items
            self.new.notes.gates.items home }
        ensures store { HaveMet (lock_of store_lock.now) store.old store.new self.old.notes.store
            self.new.notes.store }
        ensures shards { AllMet shard_locks.now shards.old shards.new self.old.notes.shards.items
            self.new.notes.shards.items (length shard_locks.now) }
        ensures gate_passes { length gates.new ≡ length gates.old }
        ensures shard_passes { length shards.new ≡ length shards.old }
        ensures pass { (d : _) → slice_index_or gates.new home d ≡ slice_index_or gates.old home d }
        ensures same { seen_of_gate self.new.gate self.new.notes
            ≡ seen_by_gate_passes home self.new.gate.log gates.new store.new shards.new }
        ensures before { IsWithin (seen_of_gate self.old.gate self.old.notes)
            (seen_of_gate self.new.gate self.new.notes) }
        ensures passes_before { (own : List GateEntry) → IsBeginningOf own self.new.gate.log
            → IsWithin (seen_by_gate_passes home own gates.old store.old shards.old)
            (seen_of_gate self.new.gate self.new.notes) }
    {
        the_crates_below_keep_their_laws();
        self.notes.meet(
            gate_locks,
            gates,
            store_lock,
            store,
            shard_locks,
            shards,
            home,
        );
    }

    /// Begins a transaction, as the gatekeeper does. What the last stamp of its session counts was seen.
    pub fn begin_tx(
        &mut self,
        alloc: Global,
        author: u32,
        request: u32,
        last: Option<Stamp>,
    ) -> Result<Stamp, GateFault>
        requires { ForSome last (λ heard. IsKnown (seen_of_gate self.old.gate self.old.notes) heard.clock) }
        ensures notes { self.new.notes ≡ self.old.notes }
        ensures stamp { IfOk result (λ stamp. stamp
            ≡ begun_stamp self.old.gate.home (clock_of self.old.gate.home self.old.gate.log) last) }
        ensures entry { IfOk result (λ stamp.
            Adds self.old.gate self.new.gate author (GateDeed.BeganTx request stamp)) }
        ensures known { IfOk result (λ stamp. IsKnown (seen_of_gate self.new.gate self.new.notes) stamp.clock) }
        ensures after { IfOk result (λ stamp. ForSome last (λ heard. IsTrue (stamp_before heard stamp))) }
        ensures bits { IfOk result (λ stamp. IsTrue (has_64_bits stamp.clock)) }
        ensures busy { IsRefusedWhere GateFault.Busy (is_some (flight_of self.old.gate.log)) result }
        ensures refused { OnErr result (self.new.gate ≡ self.old.gate) }
    {
        the_crates_below_keep_their_laws();
        shows_rules(&self.gate);
        let begun = self.gate.begin_tx(alloc, author, request, last);
        shows_rules(&self.gate);
        begun
    }

    /// Begins a program, as the gatekeeper does. What the last stamp of its session counts was seen.
    pub fn begin_program(
        &mut self,
        alloc: Global,
        author: u32,
        request: u32,
        last: Option<Stamp>,
    ) -> Result<Stamp, AllocError>
        requires { ForSome last (λ heard. IsKnown (seen_of_gate self.old.gate self.old.notes) heard.clock) }
        ensures notes { self.new.notes ≡ self.old.notes }
        ensures stamp { IfOk result (λ stamp. stamp
            ≡ begun_stamp self.old.gate.home (clock_of self.old.gate.home self.old.gate.log) last) }
        ensures entry { IfOk result (λ stamp.
            Adds self.old.gate self.new.gate author (GateDeed.BeganProgram request stamp)) }
        ensures known { IfOk result (λ stamp. IsKnown (seen_of_gate self.new.gate self.new.notes) stamp.clock) }
        ensures after { IfOk result (λ stamp. ForSome last (λ heard. IsTrue (stamp_before heard stamp))) }
        ensures bits { IfOk result (λ stamp. IsTrue (has_64_bits stamp.clock)) }
        ensures refused { OnErr result (self.new.gate ≡ self.old.gate) }
    {
        the_crates_below_keep_their_laws();
        shows_rules(&self.gate);
        let begun = self.gate.begin_program(alloc, author, request, last);
        shows_rules(&self.gate);
        begun
    }

    /// Sends the messages of the transaction in flight, as the gatekeeper does. Its judgement was seen.
    pub fn send(
        &mut self,
        alloc: Global,
        author: u32,
        ops: &[Op],
        verdict: &Verdict,
    ) -> Result<(), GateFault>
        requires author { ForSome (flight_of self.old.gate.log) (λ flight. flight.author ≡ author) }
        requires counts { ForSome (flight_of self.old.gate.log) (λ _. IsCountsOf ops.now verdict.now) }
        requires judged { ForSome (flight_of self.old.gate.log)
            (λ flight. HasJudged (seen_of_gate self.old.gate self.old.notes) flight ops.now verdict.now) }
        ensures notes { self.new.notes ≡ self.old.notes }
        ensures entry { OnOk result (SendsFlight self.old.gate self.new.gate author ops.now verdict.now) }
        ensures idle { IsRefusedWhere GateFault.Idle (is_none (flight_of self.old.gate.log)) result }
        ensures refused { OnErr result (self.new.gate ≡ self.old.gate) }
    {
        the_crates_below_keep_their_laws();
        let sent = self.gate.send(alloc, author, ops, verdict);
        shows_rules(&self.gate);
        sent
    }

    /// Finishes a program, as the gatekeeper does. Its visits were seen.
    pub fn finish(&mut self, alloc: Global, author: u32, request: u32) -> Result<(), GateFault>
        requires { EndsAsSeen (seen_of_gate self.old.gate self.old.notes) request }
        ensures notes { self.new.notes ≡ self.old.notes }
        ensures entry { OnOk result (Adds self.old.gate self.new.gate author (GateDeed.Finished request)) }
        ensures idle { IsRefusedWhere GateFault.Idle
            (not (list_any (is_begun author request) (running_of self.old.gate.log))) result }
        ensures refused { OnErr result (self.new.gate ≡ self.old.gate) }
    {
        the_crates_below_keep_their_laws();
        let finished = self.gate.finish(alloc, author, request);
        shows_rules(&self.gate);
        finished
    }

    /// Sends an empty message to a shard, as the gatekeeper does, and answers its number.
    pub fn nop(&mut self, alloc: Global, author: u32, shard: u32) -> Result<u64, GateFault>
        requires { shard < self.old.gate.shards }
        ensures notes { self.new.notes ≡ self.old.notes }
        ensures number { IfOk result (λ number. number ≡ next_number shard self.old.gate.log) }
        ensures entry { IfOk result (λ number.
            let stamp = next_stamp self.old.gate.home
            (clock_of self.old.gate.home self.old.gate.log) in
            Adds self.old.gate self.new.gate author
            (GateDeed.Nop shard number stamp (low_mark stamp (running_of self.old.gate.log)))) }
        ensures busy { IsRefusedWhere GateFault.Busy (is_some (flight_of self.old.gate.log)) result }
        ensures refused { OnErr result (self.new.gate ≡ self.old.gate) }
    {
        the_crates_below_keep_their_laws();
        shows_rules(&self.gate);
        let sent = self.gate.nop(alloc, author, shard);
        shows_rules(&self.gate);
        sent
    }

    /// The clock, of which all that it counts was seen.
    pub fn say(&self) -> Clock
        ensures clock { result ≡ clock_of self.now.gate.home self.now.gate.log }
        ensures known { IsKnown (seen_of_gate self.now.gate self.now.notes) result }
    {
        the_crates_below_keep_their_laws();
        shows_rules(&self.gate);
        self.gate.say()
    }

    /// Hears a clock, of which all that it counts was seen. It takes its room first: the one error is out of memory.
    pub fn hear(&mut self, alloc: Global, author: u32, clock: &Clock) -> Result<(), AllocError>
        requires { IsKnown (seen_of_gate self.old.gate self.old.notes) clock.now }
        ensures notes { self.new.notes ≡ self.old.notes }
        ensures entry { OnOk result (Adds self.old.gate self.new.gate author (GateDeed.Heard clock.now)) }
        ensures refused { OnErr result (self.new.gate ≡ self.old.gate) }
    {
        the_crates_below_keep_their_laws();
        shows_rules(&self.gate);
        let heard = hear_with_room(&mut self.gate, alloc, author, clock);
        shows_rules(&self.gate);
        heard
    }

    /// A copy of the message of this number to a shard, or `None` if it was not sent. A message that was sent is empty,
    /// or made of a judgement that was seen. The one error is out of memory.
    pub fn fetch(
        &self,
        alloc: Global,
        shard: u32,
        number: u64,
    ) -> Result<Option<Message>, AllocError>
        ensures message { IfOk result (λ message. message
            ≡ sent_as number (channel_of shard self.now.gate.log)) }
        ensures sent { IfOk result (λ message. ForSome message (λ one.
            Contains (addressed_to shard self.now.gate.log)
            (record { shard = shard; number = number; message = one }))) }
        ensures made { IfOk result (λ message. ForSome message (λ one.
            IsMade self.now.gate.shards (seen_of_gate self.now.gate self.now.notes).store shard one)) }
    {
        the_crates_below_keep_their_laws();
        shows_rules(&self.gate);
        copy_of(alloc, self.gate.fetch(shard, number))
    }
}

// The gatekeeper's log keeps the rules.
fn shows_rules(gate: &Gate)
    ensures rules { IsGateLog gate.now.home gate.now.shards gate.now.log }
    ensures home { gate.now.home < most_gates }
{
    let _log = gate.log();
}
