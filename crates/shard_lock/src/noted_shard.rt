//! A shard with its notes.
ghost use Rattle.std.specs.Prelude.{◌≡◌, ℕ, ◌+◌, ◌<◌, ◌≤◌, List, [], ◌∷◌, is_some, Contains, IfOk, IfErr, OnOk, OnErr, length, if◌then◌else◌};
ghost use Rattle.weave_data.specs.Names.{shard_of};
ghost use Rattle.weave_data.specs.Limits.{most_gates};
ghost use Rattle.weave_entries.specs.declared.gate_log.GateDeed.{GateDeed};
ghost use Rattle.weave_entries.specs.declared.oracle_log.OracleEntry.{OracleEntry};
ghost use Rattle.weave_entries.specs.declared.shard_log.ShardEntry.{ShardEntry};
ghost use Rattle.weave_entries.specs.GateReplay.{running_of};
ghost use Rattle.weave_entries.specs.ShardReplay.{arrived_at, bound_of, processed_count};
ghost use Rattle.weave_entries.specs.ShardRules.{IsShardLog, IsTakable};
ghost use Rattle.shard_node.specs.Shards.{AddsEntry, CanApplyHead, IsRightlyUnapplied};
ghost use Rattle.weave_account.specs.Account.{gate_log};
ghost use Rattle.weave_account.specs.GoesOn.{IsBeginningOf};
ghost use Rattle.seen_logs.specs.References.{ArrivesAsSeen};
ghost use Rattle.seen_logs.specs.Seen.{AreLegal, GatesGoOn, IsWithin};
ghost use Rattle.chronicle.specs.declared.note.Note.{Note};
ghost use Rattle.chronicle.specs.Locks.{lock_of, name_of};
ghost use Rattle.chronicle.specs.Passes.{IsReady, IsNote, number_of, seen_by_pass, own_entries, seen_by_note, lock_noted};
ghost use Rattle.lock_row.specs.Rows.{names_of, AreReady};
ghost use Rattle.lock_row.specs.Meetings.{AllMet, HaveMet};
ghost use Rattle.seen_logs.specs.Entries.{oracle_entries};
ghost use Rattle.oracle_lock.specs.Seen.{gates_noted, gates_seen, of_gates, AreGateLogs, OracleIsKept};
ghost use Rattle.shard_lock.specs.Frames.{shard_frame};
ghost use Rattle.shard_lock.specs.Notes.{frame_of_shard, seen_of_shard, seen_by_shard_passes, ShardIsKept};
ghost use Rattle.shard_lock.specs.Visited.{VisitsOver};

use crate::lower_laws::{the_crates_below_keep_their_laws, visits_are_right};
use crate::notes::ShardNotes;
use crate::visiting::visit_over;
use chronicle::{Chronicle, Machine, Pass};
use graph_ops::Record;
use oracle_lock::NotedOracle;
use seen_logs::laws::references_go_on;
use shard_node::{ApplyFault, Shard, VisitFault};
use shard_queue::Arrival;
use std::alloc::{AllocError, Global};
use std::marker::Model;
use std::sync::Wait;
use vector_stamp::Stamp;
use weave_data::Name;
use weave_entries::{GateDeed, Message, OracleDeed, ShardDeed, StoreDeed};

/// A shard with its notes. All that its log refers to was seen: in that log, or by a note.
#[derive(Drop)]
pub struct NotedShard {
    shard: Shard,
    // The number of shards.
    shards: u32,
    notes: ShardNotes,
}

impl Model for NotedShard {
    ghost use Rattle.shard_lock.specs.Notes.{NotedShardView, ShardIsKept};

    ghost Value = { NotedShardView };

    ghost view = { λ n. record { shard = n.shard; shards = n.shards; notes = n.notes } };

    ghost invariant = { λ n. ShardIsKept n.shard n.shards n.notes };
}

impl Machine for NotedShard {
    type Entry = ShardDeed;

    ghost use Rattle.std.specs.Prelude.{map};
    ghost use Rattle.seen_logs.specs.Entries.{shard_pair};
    ghost use Rattle.shard_lock.specs.Notes.{frame_of_shard};

    ghost frame = { λ n. frame_of_shard n.shard n.shards n.notes };

    ghost log = { λ n. map shard_pair n.shard.log };
}

impl NotedShard {
    /// A shard, one of this many, with these notes, which have seen all that its log refers to.
    pub fn new(shard: Shard, shards: u32, notes: ShardNotes) -> NotedShard
        requires { ShardIsKept shard shards notes }
        ensures shard { result.shard ≡ shard }
        ensures shards { result.shards ≡ shards }
        ensures notes { result.notes ≡ notes }
    {
        NotedShard {
            shard,
            shards,
            notes,
        }
    }

    /// The shard, without its notes.
    pub fn into_shard(self) -> Shard
        ensures { result ≡ self.shard }
    {
        let NotedShard { shard, .. } = self;
        shard
    }

    /// What it keeps: all that its log refers to was seen, and each list that was seen is legal.
    pub fn shows_what_it_keeps(&self)
        ensures { ShardIsKept self.now.shard self.now.shards self.now.notes }
    {
        let _shard = &self.shard;
    }

    /// The notes meet passes of their locks. They have then seen what the passes have, and no less than both had.
    pub fn meet<G, S, O>(
        &mut self,
        gate_locks: &[Chronicle<G>],
        gates: &mut [Pass<GateDeed>],
        store_lock: &Chronicle<S>,
        store: &mut Pass<StoreDeed>,
        oracle_lock: &Chronicle<O>,
        oracle: &mut Pass<OracleDeed>,
    )
    where
        G: Machine<Entry = GateDeed>,
        S: Machine<Entry = StoreDeed>,
        O: Machine<Entry = OracleDeed>,
        requires frame { frame_of_shard self.old.shard self.old.shards self.old.notes
            ≡ shard_frame self.old.shard.number self.old.shard.gates self.old.shards
            (name_of (lock_of store_lock.now)) (name_of (lock_of oracle_lock.now)) (names_of gate_locks.now) }
        requires gate_passes { length gates.old ≡ length gate_locks.now }
        requires gates { AreReady gate_locks.now gates.old }
        requires store { IsReady (lock_of store_lock.now) store.old }
        requires oracle { IsReady (lock_of oracle_lock.now) oracle.old }
        requires legal { AreLegal self.old.shard.gates self.old.shards
            (seen_by_shard_passes self.old.shard.number [] gates.old store.old oracle.old) }
        ensures shard { self.new.shard ≡ self.old.shard }
        ensures shards { self.new.shards ≡ self.old.shards }
        ensures frame { frame_of_shard self.new.shard self.new.shards self.new.notes
            ≡ frame_of_shard self.old.shard self.old.shards self.old.notes }
        ensures gates { AllMet gate_locks.now gates.old gates.new self.old.notes.gates.items
            self.new.notes.gates.items (length gate_locks.now) }
        ensures store { HaveMet (lock_of store_lock.now) store.old store.new self.old.notes.store
            self.new.notes.store }
        ensures oracle { HaveMet (lock_of oracle_lock.now) oracle.old oracle.new self.old.notes.oracle
            self.new.notes.oracle }
        ensures gate_passes { length gates.new ≡ length gates.old }
        ensures same { seen_of_shard self.new.shard self.new.notes
            ≡ seen_by_shard_passes self.new.shard.number self.new.shard.log gates.new store.new oracle.new }
        ensures before { IsWithin (seen_of_shard self.old.shard self.old.notes)
            (seen_of_shard self.new.shard self.new.notes) }
        ensures passes_before { (own : List ShardEntry) → IsBeginningOf own self.new.shard.log
            → IsWithin (seen_by_shard_passes self.new.shard.number own gates.old store.old oracle.old)
            (seen_of_shard self.new.shard self.new.notes) }
    {
        the_crates_below_keep_their_laws();
        self.notes
            .meet(gate_locks, gates, store_lock, store, oracle_lock, oracle);
    }

    /// Takes in a message from a gatekeeper, as the shard does. Its sending was seen, and the judgement of which it was
    /// made.
    pub fn arrive(
        &mut self,
        alloc: Global,
        author: u32,
        gate: u32,
        number: u64,
        message: Message,
    ) -> Result<Arrival, AllocError>
        requires gate { gate < self.old.shard.gates }
        requires number { 1 ≤ number }
        requires message { IsTakable message }
        requires seen { ArrivesAsSeen (seen_of_shard self.old.shard self.old.notes) self.old.shards
            self.old.shard.number gate number message }
        ensures shards { self.new.shards ≡ self.old.shards }
        ensures notes { self.new.notes ≡ self.old.notes }
        ensures answer { IfOk result (λ arrival. arrival
            ≡ (if is_some (arrived_at gate number self.old.shard.log) then Arrival.Repeat else Arrival.Kept)) }
        ensures kept { IfOk result (λ arrival. arrival ≡ Arrival.Kept
            → AddsEntry self.old.shard self.new.shard author (ShardDeed.Arrived gate number message)) }
        ensures repeat { IfOk result (λ arrival. arrival ≡ Arrival.Repeat → self.new.shard ≡ self.old.shard) }
        ensures refused { OnErr result (self.new.shard ≡ self.old.shard) }
    {
        the_crates_below_keep_their_laws();
        let arrived = self.shard.arrive(alloc, author, gate, number, message);
        shows_rules(&self.shard);
        arrived
    }

    /// Processes the head of a gatekeeper's channel, as the shard does. Its operations pass, since what was seen has
    /// the judgement of which it was made.
    pub fn apply(&mut self, alloc: Global, author: u32, gate: u32) -> Result<(), ApplyFault>
        requires { gate < self.old.shard.gates }
        ensures shards { self.new.shards ≡ self.old.shards }
        ensures notes { self.new.notes ≡ self.old.notes }
        ensures next { OnOk result (CanApplyHead gate self.old.shard.log) }
        ensures entry { OnOk result (AddsEntry self.old.shard self.new.shard author
            (ShardDeed.Applied gate (processed_count gate self.old.shard.log + 1))) }
        ensures refused { IfErr result (λ fault. IsRightlyUnapplied gate self.old.shard.log fault) }
        ensures unchanged { OnErr result (self.new.shard ≡ self.old.shard) }
    {
        the_crates_below_keep_their_laws();
        let applied = self.shard.apply(alloc, author, gate);
        shows_rules(&self.shard);
        applied
    }

    /// Reads a vertex for a program in this hold, over the oracle in one hold of its lock. The passes have seen what
    /// the notes have, in which the program is running. Then they have seen all to which the oracle's entries refer. It
    /// may wait.
    pub fn visit<R: Wait, G: Machine<Entry = GateDeed>>(
        &mut self,
        rt: &R,
        alloc: Global,
        gates: &[Chronicle<G>],
        oracle: &Chronicle<NotedOracle>,
        passes: &mut [Pass<GateDeed>],
        pass: &mut Pass<OracleDeed>,
        request: u32,
        stamp: Stamp,
        vertex: Name,
    ) -> Result<Option<Record>, VisitFault>
        requires frame { (lock_of oracle.now).frame ≡ (self.old.shards ∷ []) ∷ names_of gates.now }
        requires note { IsNote (lock_of oracle.now) self.old.notes.oracle }
        requires pass { IsReady (lock_of oracle.now) pass.old }
        requires passes { length passes.old ≡ length gates.now }
        requires all_ready { AreReady gates.now passes.old }
        requires legal { AreGateLogs self.old.shards (gates_seen passes.old) }
        requires met { GatesGoOn (of_gates (gates_noted self.old.notes.gates.items))
            (of_gates (gates_seen passes.old)) }
        requires gates { self.old.shard.gates ≡ length gates.now }
        requires few { length gates.now ≤ most_gates }
        requires kept_here { shard_of vertex self.old.shards ≡ self.old.shard.number }
        requires running { (home : ℕ) × (by : ℕ)
            × Contains (running_of (gate_log (seen_of_shard self.old.shard self.old.notes) home))
            (record { author = by; request = request; stamp = stamp }) }
        ensures shards { self.new.shards ≡ self.old.shards }
        ensures frame { frame_of_shard self.new.shard self.new.shards self.new.notes
            ≡ frame_of_shard self.old.shard self.old.shards self.old.notes }
        ensures gates { self.new.notes.gates ≡ self.old.notes.gates }
        ensures store { self.new.notes.store ≡ self.old.notes.store }
        ensures note { lock_noted self.new.notes.oracle ≡ lock_noted self.old.notes.oracle }
        ensures one { seen_by_note self.new.notes.oracle ≡ seen_by_pass pass.new }
        ensures ready { IsReady (lock_of oracle.now) pass.new }
        ensures number { number_of pass.new ≡ number_of pass.old }
        ensures passes { length passes.new ≡ length passes.old }
        ensures all_ready { AreReady gates.now passes.new }
        ensures passes_on { GatesGoOn (of_gates (gates_seen passes.old)) (of_gates (gates_seen passes.new)) }
        ensures legal { AreGateLogs self.old.shards (gates_seen passes.new) }
        ensures oracle_kept { OracleIsKept self.old.shards (gates_seen passes.new)
            (oracle_entries (seen_by_pass pass.new)) }
        ensures met { (notes : List (Note GateDeed)) × (later : List (Note GateDeed))
            × (length notes ≡ length gates.now)
            × AllMet gates.now passes.old passes.new notes later (length gates.now) }
        ensures answer { (before : List OracleEntry) × VisitsOver (number_of pass.old) request stamp vertex
            self.old.shard self.new.shard (seen_by_pass pass.old) (own_entries pass.old)
            (seen_by_pass pass.new) before result }
    {
        the_crates_below_keep_their_laws();
        visits_are_right();
        references_go_on();
        oracle.meet(pass, &mut self.notes.oracle);
        let read = visit_over(
            rt,
            alloc,
            &mut self.shard,
            self.shards,
            gates,
            oracle,
            passes,
            pass,
            request,
            stamp,
            vertex,
        );
        self.notes.oracle = oracle.note(pass);
        shows_rules(&self.shard);
        read
    }

    /// Drops old versions, as the shard does.
    pub fn collect(&mut self, author: u32) -> Result<(), AllocError>
        ensures shards { self.new.shards ≡ self.old.shards }
        ensures notes { self.new.notes ≡ self.old.notes }
        ensures entry { OnOk result (AddsEntry self.old.shard self.new.shard author
            (ShardDeed.Collected (bound_of self.old.shard.gates self.old.shard.log))) }
        ensures unchanged { OnErr result (self.new.shard ≡ self.old.shard) }
    {
        the_crates_below_keep_their_laws();
        let collected = self.shard.collect(author);
        shows_rules(&self.shard);
        collected
    }
}

// The shard's log keeps the rules.
fn shows_rules(shard: &Shard)
    ensures { IsShardLog shard.now.gates shard.now.log }
{
    let _log = shard.log();
}
