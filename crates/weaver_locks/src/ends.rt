//! Space for the machines that come out when the locks are closed.
ghost use Rattle.std.specs.Prelude.{◌≡◌, map, vec_len};
ghost use Rattle.weaver_locks.specs.Rooms.{IsRoom};

use gate_lock::NotedGate;
use gatekeeper::Gate;
use shard_lock::NotedShard;
use shard_node::Shard;

/// Empty lists with space for all gatekeepers and shards, with their notes and without them.
#[derive(Drop)]
pub(crate) struct Ends {
    pub(crate) noted_gates: Vec<NotedGate>,
    pub(crate) gates: Vec<Gate>,
    pub(crate) noted_shards: Vec<NotedShard>,
    pub(crate) shards: Vec<Shard>,
}

// The gatekeepers without their notes.
pub(crate) fn gates_without_notes(noted: Vec<NotedGate>, mut gates: Vec<Gate>) -> Vec<Gate>
    requires { IsRoom (vec_len noted) gates }
    ensures { result.items ≡ map (λ n. n.gate) noted.items }
{
    for gate in noted {
        gates.push_reserved(gate.into_gate());
    }
    gates
}

// The shards without their notes.
pub(crate) fn shards_without_notes(noted: Vec<NotedShard>, mut shards: Vec<Shard>) -> Vec<Shard>
    requires { IsRoom (vec_len noted) shards }
    ensures { result.items ≡ map (λ n. n.shard) noted.items }
{
    for shard in noted {
        shards.push_reserved(shard.into_shard());
    }
    shards
}
