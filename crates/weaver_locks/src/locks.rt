//! The locks of a run while they are made.
ghost use Rattle.std.specs.Prelude.{◌≡◌, ◌<◌, IfOk, length};
ghost use Rattle.chronicle.specs.Locks.{lock_of};
ghost use Rattle.weaver_locks.specs.Opened.{AreReserved};

use chronicle::{Chronicle, Unopened, Vacant};
use gate_lock::NotedGate;
use lock_row::reserve_row;
use oracle_lock::NotedOracle;
use shard_lock::NotedShard;
use std::alloc::{AllocError, Global};
use store_lock::NotedStore;

/// A lock for each machine.
#[derive(Drop)]
pub(crate) struct Locks {
    pub(crate) gates: Vec<Chronicle<NotedGate>>,
    pub(crate) store: Chronicle<NotedStore>,
    pub(crate) oracle: Chronicle<NotedOracle>,
    pub(crate) shards: Vec<Chronicle<NotedShard>>,
}

/// What the opening of each lock needs.
#[derive(Drop)]
pub(crate) struct Parts {
    pub(crate) gates: Vec<Unopened<NotedGate>>,
    pub(crate) store: Unopened<NotedStore>,
    pub(crate) oracle: Unopened<NotedOracle>,
    pub(crate) shards: Vec<Unopened<NotedShard>>,
}

/// The empty place of each machine.
#[derive(Drop)]
pub(crate) struct Places {
    pub(crate) gates: Vec<Vacant<NotedGate>>,
    pub(crate) store: Vacant<NotedStore>,
    pub(crate) oracle: Vacant<NotedOracle>,
    pub(crate) shards: Vec<Vacant<NotedShard>>,
}

// Locks for these numbers of gatekeepers and shards, each with this many passes. They are still to be opened.
pub(crate) fn reserve_all(
    alloc: Global,
    gates: u32,
    shards: u32,
    passes: u32,
) -> Result<(Locks, Parts), AllocError>
    requires { 0 < passes }
    ensures gates { IfOk result (λ r. length r.0.gates.items ≡ gates) }
    ensures shards { IfOk result (λ r. length r.0.shards.items ≡ shards) }
    ensures passes { IfOk result (λ r. (lock_of r.0.store).passes ≡ passes) }
    ensures reserved { IfOk result (λ r. AreReserved r.0 r.1) }
{
    let (gate_locks, gate_parts) = reserve_row::<NotedGate>(alloc, gates, passes)?;
    let (store, store_part) = Chronicle::<NotedStore>::reserve(alloc, passes)?;
    let (oracle, oracle_part) = Chronicle::<NotedOracle>::reserve(alloc, passes)?;
    let (shard_locks, shard_parts) = reserve_row::<NotedShard>(alloc, shards, passes)?;
    let locks = Locks {
        gates: gate_locks,
        store,
        oracle,
        shards: shard_locks,
    };
    let parts = Parts {
        gates: gate_parts,
        store: store_part,
        oracle: oracle_part,
        shards: shard_parts,
    };
    Ok((locks, parts))
}
