//! All locks of a run are opened.
ghost use Rattle.std.specs.Prelude.{◌≡◌, ◌≤◌, length, map, All, IfOk, OnOk};
ghost use Rattle.weave_data.specs.Limits.{most_shards};
ghost use Rattle.chronicle.specs.Locks.{lock_of, name_of};
ghost use Rattle.lock_row.specs.Rows.{names_of};
ghost use Rattle.weaver_locks.specs.Opened.{passes_of, AreEmpty, AreOpened, AreReserved, AreSameLocks, HaveFirst};

use crate::locks::{Locks, Parts, Places};
use crate::rooms::Rooms;
use backing_store::Store;
use gate_lock::{BareGate, NotedGate};
use lock_row::open_row;
use oracle_lock::{NotedOracle, open_oracle};
use shard_lock::{BareShard, NotedShard};
use std::alloc::{AllocError, Global};
use std::snapshot::Snapshot;
use store_lock::{NotedStore, open_store};
use timeline_oracle::Oracle;

// Opens all locks for these machines. It gives the passes of each lock, and the empty place of each machine.
pub(crate) fn open_all(
    alloc: Global,
    locks: &mut Locks,
    parts: Parts,
    gates: &[BareGate<NotedStore, NotedShard>],
    store: &Store,
    oracle: &Oracle,
    shards: &[BareShard<NotedGate, NotedStore, NotedOracle>],
) -> Result<(Rooms, Places), AllocError>
    requires reserved { AreReserved locks.old parts }
    requires few { length shards.now ≤ most_shards }
    requires gate_count { length gates.now ≡ length locks.old.gates.items }
    requires gates { All (λ b. (name_of (lock_of b.store.value) ≡ name_of (lock_of locks.old.store))
        × (names_of b.shards.value.items ≡ names_of locks.old.shards.items)) gates.now }
    requires shard_count { length shards.now ≡ length locks.old.shards.items }
    requires shards { All (λ b. (b.shards ≡ length shards.now)
        × (names_of b.gates.value.items ≡ names_of locks.old.gates.items)
        × (name_of (lock_of b.store.value) ≡ name_of (lock_of locks.old.store))
        × (name_of (lock_of b.oracle.value) ≡ name_of (lock_of locks.old.oracle))) shards.now }
    ensures same { OnOk result (AreSameLocks locks.old locks.new) }
    ensures count { OnOk result (passes_of locks.new ≡ passes_of locks.old) }
    ensures opened { OnOk result (AreOpened locks.new (map (λ b. b.gate) gates.now) store.now oracle.now
        (map (λ b. b.shard) shards.now)) }
    ensures passes { IfOk result (λ r. HaveFirst (passes_of locks.new) locks.new r.0) }
    ensures places { IfOk result (λ r. AreEmpty locks.new r.1) }
{
    let count = shards.len() as u32;
    let (gate_passes, gate_places) = open_row(alloc, &mut locks.gates, parts.gates, gates, &())?;
    let (shard_passes, shard_places) = open_row(
        alloc,
        &mut locks.shards,
        parts.shards,
        shards,
        &(),
    )?;
    let row = Snapshot::of(&locks.gates);
    let (oracle_passes, oracle_place) = open_oracle(
        &mut locks.oracle,
        parts.oracle,
        oracle,
        count,
        row,
    );
    let same_row = Snapshot::of(&locks.gates);
    let beside = Snapshot::of(&locks.oracle);
    let (store_passes, store_place) = open_store(
        &mut locks.store,
        parts.store,
        store,
        count,
        same_row,
        beside,
    );
    let passes = Rooms {
        gates: gate_passes,
        store: store_passes,
        oracle: oracle_passes,
        shards: shard_passes,
    };
    let places = Places {
        gates: gate_places,
        store: store_place,
        oracle: oracle_place,
        shards: shard_places,
    };
    Ok((passes, places))
}
