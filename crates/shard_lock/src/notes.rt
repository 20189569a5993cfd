//! The notes of a shard.
ghost use Rattle.std.specs.Prelude.{◌≡◌, ℕ, length, map};
ghost use Rattle.chronicle.specs.Locks.{lock_of};
ghost use Rattle.chronicle.specs.Passes.{IsReady, IsNote, lock_noted};
ghost use Rattle.lock_row.specs.Rows.{names_of, AreReady};
ghost use Rattle.lock_row.specs.Meetings.{AllMet, HaveMet};
ghost use Rattle.seen_logs.specs.Seen.{GatesGoOn};
ghost use Rattle.oracle_lock.specs.Seen.{gates_noted, gates_seen, of_gates, AreGateLogs};

use chronicle::{Chronicle, Machine, Note, Pass};
use oracle_lock::meet_gates;
use weave_entries::{GateDeed, OracleDeed, StoreDeed};

/// A note of each gatekeeper's lock, in their order, of the store's and of the oracle's.
#[derive(Drop)]
pub struct ShardNotes {
    pub(crate) gates: Vec<Note<GateDeed>>,
    pub(crate) store: Note<StoreDeed>,
    pub(crate) oracle: Note<OracleDeed>,
}

impl ShardNotes {
    /// These notes.
    pub fn new(
        gates: Vec<Note<GateDeed>>,
        store: Note<StoreDeed>,
        oracle: Note<OracleDeed>,
    ) -> ShardNotes
        ensures gates { result.gates ≡ gates }
        ensures store { result.store ≡ store }
        ensures oracle { result.oracle ≡ oracle }
    {
        ShardNotes {
            gates,
            store,
            oracle,
        }
    }

    // The notes meet passes of their locks.
    pub(crate) fn meet<G, S, O>(
        &mut self,
        gate_locks: &[Chronicle<G>],
        gates: &mut [Pass<GateDeed>],
        store_lock: &Chronicle<S>,
        store: &mut Pass<StoreDeed>,
        oracle_lock: &Chronicle<O>,
        oracle: &mut Pass<OracleDeed>,
    )
    where
        G: Machine<Entry = GateDeed>,
        S: Machine<Entry = StoreDeed>,
        O: Machine<Entry = OracleDeed>,
        requires gate_passes { length gates.old ≡ length gate_locks.now }
        requires gate_names { map lock_noted self.old.gates.items ≡ names_of gate_locks.now }
        requires gates { AreReady gate_locks.now gates.old }
        requires store { IsReady (lock_of store_lock.now) store.old }
        requires store_note { IsNote (lock_of store_lock.now) self.old.store }
        requires oracle { IsReady (lock_of oracle_lock.now) oracle.old }
        requires oracle_note { IsNote (lock_of oracle_lock.now) self.old.oracle }
        ensures gate_passes { length gates.new ≡ length gates.old }
        ensures gate_names { map lock_noted self.new.gates.items ≡ map lock_noted self.old.gates.items }
        ensures gates { AllMet gate_locks.now gates.old gates.new self.old.gates.items self.new.gates.items
            (length gate_locks.now) }
        ensures one { gates_noted self.new.gates.items ≡ gates_seen gates.new }
        ensures notes_on { GatesGoOn (of_gates (gates_noted self.old.gates.items))
            (of_gates (gates_noted self.new.gates.items)) }
        ensures passes_on { GatesGoOn (of_gates (gates_seen gates.old)) (of_gates (gates_seen gates.new)) }
        ensures legal { (shards : ℕ) → AreGateLogs shards (gates_noted self.old.gates.items)
            → AreGateLogs shards (gates_seen gates.old) → AreGateLogs shards (gates_seen gates.new) }
        ensures store { HaveMet (lock_of store_lock.now) store.old store.new self.old.store self.new.store }
        ensures oracle { HaveMet (lock_of oracle_lock.now) oracle.old oracle.new self.old.oracle self.new.oracle }
    {
        meet_gates(gate_locks, gates, &mut self.gates);
        store_lock.meet(store, &mut self.store);
        oracle_lock.meet(oracle, &mut self.oracle);
    }
}
