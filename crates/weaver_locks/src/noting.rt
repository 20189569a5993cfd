//! Machines get their notes, of what a new hand has seen.
ghost use Rattle.std.specs.Prelude.{◌≡◌, IfOk, OnOk, All, length, map};
ghost use Rattle.chronicle.specs.Locks.{lock_of};
ghost use Rattle.chronicle.specs.Passes.{lock_noted, seen_by_note};
ghost use Rattle.lock_row.specs.Hands.{AreDealt};
ghost use Rattle.lock_row.specs.Rows.{names_of};
ghost use Rattle.gate_lock.specs.declared.notes.GateNotes.{GateNotes};
ghost use Rattle.gate_lock.specs.Notes as gate;
ghost use Rattle.shard_lock.specs.declared.notes.ShardNotes.{ShardNotes};
ghost use Rattle.shard_lock.specs.Notes as shard;
ghost use Rattle.weaver_locks.specs.Noted.{GateNotesStart, NoteStarts, ShardNotesStart};
ghost use Rattle.weaver_locks.specs.Opened.{IsNewHand};

use crate::hand::Hand;
use crate::locks::Locks;
use chronicle::{Chronicle, Machine, Note, Pass};
use gate_lock::{BareGate, GateNotes, NotedGate};
use lock_row::note_row;
use oracle_lock::NotedOracle;
use shard_lock::{BareShard, NotedShard, ShardNotes};
use std::alloc::{AllocError, Global};
use store_lock::NotedStore;

// A note of each lock of a row, of what the first passes have seen, which is the log at the start.
pub(crate) fn note_starts<M: Machine>(
    alloc: Global,
    locks: &Vec<Chronicle<M>>,
    passes: &mut Vec<Pass<M::Entry>>,
) -> Result<Vec<Note<M::Entry>>, AllocError>
    requires count { length passes.old.items ≡ length locks.now.items }
    requires first { AreDealt 0 locks.now.items passes.old.items }
    ensures count { OnOk result (length passes.new.items ≡ length locks.now.items) }
    ensures first { OnOk result (AreDealt 0 locks.now.items passes.new.items) }
    ensures notes { IfOk result (λ r. NoteStarts locks.now.items r.items) }
{
    let notes = note_row(alloc, locks, passes.as_mut_slice())?;
    Ok(notes)
}

// A gatekeeper with its notes.
fn note_gate(
    alloc: Global,
    bare: BareGate<NotedStore, NotedShard>,
    locks: &Locks,
    hand: &mut Hand,
) -> Result<NotedGate, AllocError>
    requires hand { IsNewHand locks.now 0 hand.old }
    requires kept { (notes : GateNotes) → GateNotesStart locks.now notes → gate.GateIsKept bare.gate notes }
    ensures hand { OnOk result (IsNewHand locks.now 0 hand.new) }
    ensures gate { IfOk result (λ n. n.gate ≡ bare.gate) }
    ensures notes { IfOk result (λ n. GateNotesStart locks.now n.notes) }
{
    let gates = note_starts(alloc, &locks.gates, &mut hand.gates)?;
    let store = locks.store.note(&mut hand.store);
    let shards = note_starts(alloc, &locks.shards, &mut hand.shards)?;
    let notes = GateNotes::new(gates, store, shards);
    Ok(NotedGate::new(bare.into_gate(), notes))
}

// All gatekeepers with their notes.
pub(crate) fn note_gates(
    alloc: Global,
    bare: Vec<BareGate<NotedStore, NotedShard>>,
    locks: &Locks,
    hand: &mut Hand,
) -> Result<Vec<NotedGate>, AllocError>
    requires hand { IsNewHand locks.now 0 hand.old }
    requires kept { All (λ b. (notes : GateNotes) → GateNotesStart locks.now notes → gate.GateIsKept b.gate notes)
        bare.items }
    ensures hand { OnOk result (IsNewHand locks.now 0 hand.new) }
    ensures gates { IfOk result (λ r. map (λ n. n.gate) r.items ≡ map (λ b. b.gate) bare.items) }
    ensures notes { IfOk result (λ r. All (λ n. GateNotesStart locks.now n.notes) r.items) }
{
    let mut noted = Vec::with_capacity(alloc, bare.len())?;
    for gate in bare {
        let one = note_gate(alloc, gate, locks, hand)?;
        noted.push_reserved(one);
    }
    Ok(noted)
}

// A shard with its notes.
fn note_shard(
    alloc: Global,
    bare: BareShard<NotedGate, NotedStore, NotedOracle>,
    count: u32,
    locks: &Locks,
    hand: &mut Hand,
) -> Result<NotedShard, AllocError>
    requires hand { IsNewHand locks.now 0 hand.old }
    requires kept { (notes : ShardNotes) → ShardNotesStart locks.now notes → shard.ShardIsKept bare.shard count notes }
    ensures hand { OnOk result (IsNewHand locks.now 0 hand.new) }
    ensures shard { IfOk result (λ n. n.shard ≡ bare.shard) }
    ensures count { IfOk result (λ n. n.shards ≡ count) }
    ensures notes { IfOk result (λ n. ShardNotesStart locks.now n.notes) }
{
    let gates = note_starts(alloc, &locks.gates, &mut hand.gates)?;
    let store = locks.store.note(&mut hand.store);
    let oracle = locks.oracle.note(&mut hand.oracle);
    let notes = ShardNotes::new(gates, store, oracle);
    Ok(NotedShard::new(bare.into_shard(), count, notes))
}

// All shards with their notes.
pub(crate) fn note_shards(
    alloc: Global,
    bare: Vec<BareShard<NotedGate, NotedStore, NotedOracle>>,
    count: u32,
    locks: &Locks,
    hand: &mut Hand,
) -> Result<Vec<NotedShard>, AllocError>
    requires hand { IsNewHand locks.now 0 hand.old }
    requires kept { All (λ b. (notes : ShardNotes) → ShardNotesStart locks.now notes
        → shard.ShardIsKept b.shard count notes) bare.items }
    ensures hand { OnOk result (IsNewHand locks.now 0 hand.new) }
    ensures shards { IfOk result (λ r. map (λ n. n.shard) r.items ≡ map (λ b. b.shard) bare.items) }
    ensures count { IfOk result (λ r. All (λ n. n.shards ≡ count) r.items) }
    ensures notes { IfOk result (λ r. All (λ n. ShardNotesStart locks.now n.notes) r.items) }
{
    let mut noted = Vec::with_capacity(alloc, bare.len())?;
    for shard in bare {
        let one = note_shard(alloc, shard, count, locks, hand)?;
        noted.push_reserved(one);
    }
    Ok(noted)
}
