//! Locks are opened for the machines of a run, which have no notes yet.
ghost use Rattle.std.specs.Prelude.{◌≡◌, ◌≤◌, IfOk, length, map};
ghost use Rattle.weave_data.specs.Limits.{most_gates, most_shards};
ghost use Rattle.weaver_locks.specs.OpenedFor.{IsOpenedFor};

use crate::bare::{bare_gates, bare_shards};
use crate::locks::{Locks, Places, reserve_all};
use crate::opening_all::open_all;
use crate::rooms::Rooms;
use backing_store::Store;
use gate_lock::{BareGate, NotedGate};
use gatekeeper::Gate;
use oracle_lock::NotedOracle;
use shard_lock::{BareShard, NotedShard};
use shard_node::Shard;
use std::alloc::{AllocError, Global};
use store_lock::NotedStore;
use timeline_oracle::Oracle;

/// Opened locks with their passes and empty places, and the gatekeepers and shards before they have their notes.
#[derive(Drop)]
pub(crate) struct OpenedLocks {
    pub(crate) locks: Locks,
    pub(crate) passes: Rooms,
    pub(crate) places: Places,
    pub(crate) gates: Vec<BareGate<NotedStore, NotedShard>>,
    pub(crate) shards: Vec<BareShard<NotedGate, NotedStore, NotedOracle>>,
}

/// Makes locks with a pass for each hand, and opens them for these machines.
pub(crate) fn open_locks(
    alloc: Global,
    gates: Vec<Gate>,
    store: &Store,
    oracle: &Oracle,
    shards: Vec<Shard>,
    hands: u32,
) -> Result<OpenedLocks, AllocError>
    requires hands { 1 ≤ hands }
    requires few_gates { length gates.items ≤ most_gates }
    requires few_shards { length shards.items ≤ most_shards }
    ensures gates { IfOk result (λ o. map (λ b. b.gate) o.gates.items ≡ gates.items) }
    ensures shards { IfOk result (λ o. map (λ b. b.shard) o.shards.items ≡ shards.items) }
    ensures opened { IfOk result (IsOpenedFor store.now oracle.now hands) }
{
    let gate_len = gates.len();
    let shard_len = shards.len();
    let gate_locks = gate_len as u32;
    let count = shard_len as u32;
    let (mut locks, parts) = reserve_all(alloc, gate_locks, count, hands)?;
    let bare = bare_gates(alloc, gates, &locks)?;
    let bare_shards = bare_shards(alloc, shards, count, &locks)?;
    let (passes, places) = open_all(alloc, &mut locks, parts, &bare, store, oracle, &bare_shards)?;
    Ok(OpenedLocks {
        locks,
        passes,
        places,
        gates: bare,
        shards: bare_shards,
    })
}
