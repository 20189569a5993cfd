//! New machines behind locks, and the hands that come with them.
ghost use Rattle.std.specs.Prelude.{◌≡◌, ◌≤◌, ◌<◌, ℕ, slice_index_or, vec_len};
ghost use Rattle.weave_data.specs.Limits.{most_gates, most_shards};
ghost use Rattle.gatekeeper.specs.Gates.{GateView, IsNew};
ghost use Rattle.shard_node.specs.Shards.{ShardView};
ghost use Rattle.weaver_locks.specs.Closing.{IsNewShard};
ghost use Rattle.weaver_locks.specs.Locks.{gate_count, hands_of, shard_count};
ghost use Rattle.lock_tests.specs.UnusedHands.{AreUnusedHands};

use backing_store::Store;
use gatekeeper::Gate;
use shard_node::Shard;
use std::alloc::Global;
use std::process::Abort;
use timeline_oracle::Oracle;
use weaver_locks::laws::new_machines_may_start;
use weaver_locks::{Hand, Shared};

fn new_gates(rt: &impl Abort, alloc: Global, gates: u32, shards: u32) -> Vec<Gate>
    requires gates { gates ≤ most_gates }
    requires some_shard { 1 ≤ shards }
    requires few_shards { shards ≤ most_shards }
    ensures count { vec_len result ≡ gates }
    ensures new { (k : ℕ) (g : GateView) → k < gates → IsNew k gates shards (slice_index_or result.items k g) }
{
    let mut made = Vec::new(alloc);
    for home in 0..gates {
        let gate = Gate::new(alloc, home, gates, shards).expect(rt, "memory");
        made.push(gate).expect(rt, "memory");
    }
    made
}

fn new_shards(rt: &impl Abort, alloc: Global, gates: u32, shards: u32) -> Vec<Shard>
    requires some { 1 ≤ gates }
    requires few { gates ≤ most_gates }
    ensures count { vec_len result ≡ shards }
    ensures new { (k : ℕ) (s : ShardView) → k < shards → IsNewShard k gates (slice_index_or result.items k s) }
{
    let mut made = Vec::new(alloc);
    for number in 0..shards {
        let shard = Shard::new(alloc, number, gates).expect(rt, "memory");
        made.push(shard).expect(rt, "memory");
    }
    made
}

/// New machines behind locks, and this many hands.
pub fn new_locks(
    rt: &impl Abort,
    alloc: Global,
    gates: u32,
    shards: u32,
    hands: u32,
) -> (Shared, Vec<Hand>)
    requires some_gate { 1 ≤ gates }
    requires few_gates { gates ≤ most_gates }
    requires some_shard { 1 ≤ shards }
    requires few_shards { shards ≤ most_shards }
    requires hands { 1 ≤ hands }
    ensures gates { gate_count result.0 ≡ gates }
    ensures shards { shard_count result.0 ≡ shards }
    ensures hands { AreUnusedHands result.0 result.1.items }
    ensures count { vec_len result.1 ≡ hands_of result.0 }
{
    new_machines_may_start();
    let made = Shared::new(
        alloc,
        new_gates(rt, alloc, gates, shards),
        Store::new(alloc),
        Oracle::new(alloc),
        new_shards(rt, alloc, gates, shards),
        hands,
    );
    made.expect(rt, "memory")
}
