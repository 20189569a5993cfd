//! The notes of a gatekeeper.
ghost use Rattle.std.specs.Prelude.{◌≡◌, length, map, slice_index_or};
ghost use Rattle.chronicle.specs.Locks.{lock_of};
ghost use Rattle.chronicle.specs.Passes.{IsReady, IsNote, lock_noted};
ghost use Rattle.lock_row.specs.Meetings.{CanMeet, AllMet, HaveMet};

use crate::rows::meet_row;
use chronicle::{Chronicle, Machine, Note, Pass};
use weave_entries::{GateDeed, ShardDeed, StoreDeed};

/// A note of each gatekeeper's lock, of the store's, and of each shard's, in their order. The note of the gatekeeper's
/// own lock is never met.
#[derive(Drop)]
pub struct GateNotes {
    pub(crate) gates: Vec<Note<GateDeed>>,
    pub(crate) store: Note<StoreDeed>,
    pub(crate) shards: Vec<Note<ShardDeed>>,
}

impl GateNotes {
    /// These notes.
    pub fn new(
        gates: Vec<Note<GateDeed>>,
        store: Note<StoreDeed>,
        shards: Vec<Note<ShardDeed>>,
    ) -> GateNotes
        ensures gates { result.gates ≡ gates }
        ensures store { result.store ≡ store }
        ensures shards { result.shards ≡ shards }
    {
        GateNotes {
            gates,
            store,
            shards,
        }
    }

    // The notes meet passes of their locks, except the one of the gatekeeper's own.
    pub(crate) fn meet<G, S, H>(
        &mut self,
        gate_locks: &[Chronicle<G>],
        gates: &mut [Pass<GateDeed>],
        store_lock: &Chronicle<S>,
        store: &mut Pass<StoreDeed>,
        shard_locks: &[Chronicle<H>],
        shards: &mut [Pass<ShardDeed>],
        home: u32,
    )
    where
        G: Machine<Entry = GateDeed>,
        S: Machine<Entry = StoreDeed>,
        H: Machine<Entry = ShardDeed>,
        requires gate_passes { length gates.old ≡ length gate_locks.now }
        requires gate_notes { length self.old.gates.items ≡ length gate_locks.now }
        requires gates { CanMeet gate_locks.now gates.old self.old.gates.items home }
        requires store { IsReady (lock_of store_lock.now) store.old }
        requires store_note { IsNote (lock_of store_lock.now) self.old.store }
        requires shard_passes { length shards.old ≡ length shard_locks.now }
        requires shard_notes { length self.old.shards.items ≡ length shard_locks.now }
        requires shards { CanMeet shard_locks.now shards.old self.old.shards.items (length shard_locks.now) }
        ensures gate_names { map lock_noted self.new.gates.items ≡ map lock_noted self.old.gates.items }
        ensures shard_names { map lock_noted self.new.shards.items ≡ map lock_noted self.old.shards.items }
        ensures gates { AllMet gate_locks.now gates.old gates.new self.old.gates.items self.new.gates.items home }
        ensures store { HaveMet (lock_of store_lock.now) store.old store.new self.old.store self.new.store }
        ensures shards { AllMet shard_locks.now shards.old shards.new self.old.shards.items self.new.shards.items
            (length shard_locks.now) }
        ensures gate_passes { length gates.new ≡ length gates.old }
        ensures gate_notes { length self.new.gates.items ≡ length self.old.gates.items }
        ensures shard_passes { length shards.new ≡ length shards.old }
        ensures shard_notes { length self.new.shards.items ≡ length self.old.shards.items }
        ensures pass { (d : _) → slice_index_or gates.new home d ≡ slice_index_or gates.old home d }
    {
        meet_row(gate_locks, gates, &mut self.gates, home as usize);
        store_lock.meet(store, &mut self.store);
        meet_row(shard_locks, shards, &mut self.shards, shard_locks.len());
    }
}
