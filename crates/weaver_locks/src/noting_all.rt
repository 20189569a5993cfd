//! All machines get their notes, and are put in.
ghost use Rattle.std.specs.Prelude.{◌≡◌, [], ◌∷◌, IfOk, OnOk, All, length, map, vec_len};
ghost use Rattle.seen_logs.specs.Entries.{gate_entries, oracle_pair, store_pair, oracle_entries};
ghost use Rattle.chronicle.specs.Locks.{lock_of, name_of, IsFilled};
ghost use Rattle.chronicle.specs.Passes.{lock_noted};
ghost use Rattle.lock_row.specs.Openings.{AllFit};
ghost use Rattle.lock_row.specs.Rows.{names_of};
ghost use Rattle.gate_lock.specs.declared.notes.GateNotes.{GateNotes};
ghost use Rattle.gate_lock.specs.Notes as gate;
ghost use Rattle.oracle_lock.specs.Seen.{OracleIsKept};
ghost use Rattle.store_lock.specs.Seen.{StoreIsKept};
ghost use Rattle.shard_lock.specs.declared.notes.ShardNotes.{ShardNotes};
ghost use Rattle.shard_lock.specs.Notes as shard;
ghost use Rattle.weaver_locks.specs.Noted.{gates_start, AreFilled, FitLocks, GateNotesStart, ShardNotesStart};
ghost use Rattle.weaver_locks.specs.Opened.{frame_for_oracle, frame_for_store, AreEmpty, IsNewHand};

use crate::hand::Hand;
use crate::locks::{Locks, Places};
use crate::machines::Machines;
use crate::noting::{note_gates, note_shards, note_starts};
use backing_store::Store;
use gate_lock::{BareGate, NotedGate};
use lock_row::fill_row;
use oracle_lock::NotedOracle;
use shard_lock::{BareShard, NotedShard};
use std::alloc::{AllocError, Global};
use store_lock::NotedStore;
use timeline_oracle::Oracle;

// The store with its notes.
fn note_store(
    alloc: Global,
    store: Store,
    count: u32,
    locks: &Locks,
    hand: &mut Hand,
) -> Result<NotedStore, AllocError>
    requires hand { IsNewHand locks.now 0 hand.old }
    requires kept { StoreIsKept count (gates_start locks.now) (oracle_entries (lock_of locks.now.oracle).start) store }
    ensures hand { OnOk result (IsNewHand locks.now 0 hand.new) }
    ensures store { IfOk result (λ n. n.store ≡ store) }
    ensures shards { IfOk result (λ n. n.shards ≡ count) }
    ensures gates { IfOk result (λ n. map lock_noted n.gates ≡ names_of locks.now.gates.items) }
    ensures oracle { IfOk result (λ n. lock_noted n.oracle ≡ name_of (lock_of locks.now.oracle)) }
{
    let gates = note_starts(alloc, &locks.gates, &mut hand.gates)?;
    let oracle = locks.oracle.note(&mut hand.oracle);
    Ok(NotedStore::new(store, count, gates, oracle))
}

// The oracle with its notes.
fn note_oracle(
    alloc: Global,
    oracle: Oracle,
    count: u32,
    locks: &Locks,
    hand: &mut Hand,
) -> Result<NotedOracle, AllocError>
    requires hand { IsNewHand locks.now 0 hand.old }
    requires kept { OracleIsKept count (gates_start locks.now) oracle }
    ensures hand { OnOk result (IsNewHand locks.now 0 hand.new) }
    ensures oracle { IfOk result (λ n. n.oracle ≡ oracle) }
    ensures shards { IfOk result (λ n. n.shards ≡ count) }
    ensures gates { IfOk result (λ n. map lock_noted n.gates ≡ names_of locks.now.gates.items) }
{
    let gates = note_starts(alloc, &locks.gates, &mut hand.gates)?;
    Ok(NotedOracle::new(oracle, count, gates))
}

// All machines with their notes, of what the first hand has seen.
pub(crate) fn note_all(
    alloc: Global,
    gates: Vec<BareGate<NotedStore, NotedShard>>,
    store: Store,
    oracle: Oracle,
    shards: Vec<BareShard<NotedGate, NotedStore, NotedOracle>>,
    count: u32,
    locks: &Locks,
    hand: &mut Hand,
) -> Result<Machines, AllocError>
    requires hand { IsNewHand locks.now 0 hand.old }
    requires gates { All (λ b. (notes : GateNotes) → GateNotesStart locks.now notes → gate.GateIsKept b.gate notes)
        gates.items }
    requires store { StoreIsKept count (gates_start locks.now) (oracle_entries (lock_of locks.now.oracle).start) store }
    requires oracle { OracleIsKept count (gates_start locks.now) oracle }
    requires shards { All (λ b. (notes : ShardNotes) → ShardNotesStart locks.now notes
        → shard.ShardIsKept b.shard count notes) shards.items }
    ensures hand { OnOk result (IsNewHand locks.now 0 hand.new) }
    ensures gates { IfOk result (λ m. map (λ n. n.gate) m.gates.items ≡ map (λ b. b.gate) gates.items) }
    ensures gate_notes { IfOk result (λ m. All (λ n. GateNotesStart locks.now n.notes) m.gates.items) }
    ensures store { IfOk result (λ m. m.store.store ≡ store) }
    ensures store_frame { IfOk result (λ m.
        (m.store.shards ∷ []) ∷ lock_noted m.store.oracle ∷ map lock_noted m.store.gates
        ≡ frame_for_store locks.now count) }
    ensures oracle { IfOk result (λ m. m.oracle.oracle ≡ oracle) }
    ensures oracle_frame { IfOk result (λ m. (m.oracle.shards ∷ []) ∷ map lock_noted m.oracle.gates
        ≡ frame_for_oracle locks.now count) }
    ensures shards { IfOk result (λ m. map (λ n. n.shard) m.shards.items ≡ map (λ b. b.shard) shards.items) }
    ensures shard_counts { IfOk result (λ m. All (λ n. n.shards ≡ count) m.shards.items) }
    ensures shard_notes { IfOk result (λ m. All (λ n. ShardNotesStart locks.now n.notes) m.shards.items) }
{
    let gates = note_gates(alloc, gates, locks, hand)?;
    let store = note_store(alloc, store, count, locks, hand)?;
    let oracle = note_oracle(alloc, oracle, count, locks, hand)?;
    let shards = note_shards(alloc, shards, count, locks, hand)?;
    Ok(Machines {
        gates,
        store,
        oracle,
        shards,
    })
}

// Puts the machines into their locks. From then on the passes can enter.
pub(crate) fn fill_all(locks: &mut Locks, places: Places, machines: Machines)
    requires places { AreEmpty locks.old places }
    requires machines { FitLocks locks.old machines }
    ensures { AreFilled locks.old locks.new }
{
    let Places {
        gates: gate_places,
        store: store_place,
        oracle: oracle_place,
        shards: shard_places,
    } = places;
    let Machines {
        gates,
        store,
        oracle,
        shards,
    } = machines;
    fill_row(&mut locks.gates, gate_places, gates);
    locks.store.fill(store_place, store);
    locks.oracle.fill(oracle_place, oracle);
    fill_row(&mut locks.shards, shard_places, shards);
}
