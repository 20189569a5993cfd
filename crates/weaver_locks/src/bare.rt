//! Machines before they have their notes.
ghost use Rattle.std.specs.Prelude.{◌≡◌, IfOk, All, map};

use crate::locks::Locks;
use gate_lock::{BareGate, NotedGate};
use gatekeeper::Gate;
use oracle_lock::NotedOracle;
use shard_lock::{BareShard, NotedShard};
use shard_node::Shard;
use std::alloc::{AllocError, Global};
use store_lock::NotedStore;

// The gatekeepers with the locks of which they will keep notes.
pub(crate) fn bare_gates(
    alloc: Global,
    gates: Vec<Gate>,
    locks: &Locks,
) -> Result<Vec<BareGate<NotedStore, NotedShard>>, AllocError>
    ensures gates { IfOk result (λ r. map (λ b. b.gate) r.items ≡ gates.items) }
    ensures store { IfOk result (λ r. All (λ b. b.store.value ≡ locks.now.store) r.items) }
    ensures shards { IfOk result (λ r. All (λ b. b.shards.value ≡ locks.now.shards) r.items) }
{
    let mut bare = Vec::with_capacity(alloc, gates.len())?;
    for gate in gates {
        bare.push_reserved(BareGate::new(gate, &locks.store, &locks.shards));
    }
    Ok(bare)
}

// The shards, of which there are that many, with the locks of which they will keep notes.
pub(crate) fn bare_shards(
    alloc: Global,
    shards: Vec<Shard>,
    count: u32,
    locks: &Locks,
) -> Result<Vec<BareShard<NotedGate, NotedStore, NotedOracle>>, AllocError>
    ensures shards { IfOk result (λ r. map (λ b. b.shard) r.items ≡ shards.items) }
    ensures count { IfOk result (λ r. All (λ b. b.shards ≡ count) r.items) }
    ensures gates { IfOk result (λ r. All (λ b. b.gates.value ≡ locks.now.gates) r.items) }
    ensures store { IfOk result (λ r. All (λ b. b.store.value ≡ locks.now.store) r.items) }
    ensures oracle { IfOk result (λ r. All (λ b. b.oracle.value ≡ locks.now.oracle) r.items) }
{
    let mut bare = Vec::with_capacity(alloc, shards.len())?;
    for shard in shards {
        bare.push_reserved(BareShard::new(shard, count, &locks.gates, &locks.store, &locks.oracle));
    }
    Ok(bare)
}
