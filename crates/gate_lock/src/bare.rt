//! What a gatekeeper's lock begins with.
ghost use Rattle.std.specs.Prelude.{◌≡◌};

use chronicle::{Chronicle, Machine};
use gatekeeper::Gate;
use lock_row::Bare;
use std::snapshot::Snapshot;
use weave_entries::{GateDeed, ShardDeed, StoreDeed};

/// A gatekeeper without its notes, and the names of the store's lock and of the shards' locks, which take no memory.
/// The row of the gatekeepers' locks has the other names.
#[derive(Drop)]
pub struct BareGate<S: Machine, H: Machine> {
    gate: Gate,
    store: Snapshot<Chronicle<S>>,
    shards: Snapshot<Vec<Chronicle<H>>>,
}

impl<S: Machine, H: Machine> Bare for BareGate<S, H> {
    type Entry = GateDeed;

    type Context = ();

    ghost use Rattle.std.specs.Prelude.{map};
    ghost use Rattle.chronicle.specs.Locks.{lock_of, name_of};
    ghost use Rattle.lock_row.specs.Rows.{names_of};
    ghost use Rattle.seen_logs.specs.Entries.{gate_pair};
    ghost use Rattle.gate_lock.specs.Frames.{gate_frame};

    ghost frame = { λ b _ names. gate_frame b.gate.home b.gate.gates b.gate.shards names
        (name_of (lock_of b.store.value)) (names_of b.shards.value.items) };

    ghost log = { λ b. map gate_pair b.gate.log };
}

impl<S: Machine<Entry = StoreDeed>, H: Machine<Entry = ShardDeed>> BareGate<S, H> {
    /// A gatekeeper with these locks.
    pub fn new(gate: Gate, store: &Chronicle<S>, shards: &Vec<Chronicle<H>>) -> BareGate<S, H>
        ensures gate { result.gate ≡ gate }
        ensures store { result.store.value ≡ store.now }
        ensures shards { result.shards.value ≡ shards.now }
    {
        BareGate {
            gate,
            store: Snapshot::of(store),
            shards: Snapshot::of(shards),
        }
    }

    /// The gatekeeper.
    pub fn into_gate(self) -> Gate
        ensures { result ≡ self.gate }
    {
        let BareGate { gate, .. } = self;
        gate
    }
}
