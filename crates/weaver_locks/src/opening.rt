//! Machines are put behind locks.
ghost use Rattle.std.specs.Prelude.{◌≡◌, ◌≤◌, ◌<◌, ℕ, IfOk, slice_index_or, vec_len};
ghost use Rattle.weaver_locks.specs.Closing.{logs_of, MayStart};
ghost use Rattle.weaver_locks.specs.Hands.{hand_number, seen_by, IsHand};
ghost use Rattle.weaver_locks.specs.Locks.{gate_count, hands_of, shard_count, start_of};

use crate::filling::fill_locks;
use crate::hand::Hand;
use crate::opened_locks::open_locks;
use crate::opening_laws::new_locks_keep_their_laws;
use crate::preparing::{make_ends, make_rooms};
use crate::shared::Shared;
use backing_store::Store;
use gatekeeper::Gate;
use shard_node::Shard;
use std::alloc::{AllocError, Global};
use timeline_oracle::Oracle;

impl Shared {
    /// These machines behind locks, and hands with the numbers from 0. The one error is out of memory.
    pub fn new(
        alloc: Global,
        gates: Vec<Gate>,
        store: Store,
        oracle: Oracle,
        shards: Vec<Shard>,
        hands: u32,
    ) -> Result<(Shared, Vec<Hand>), AllocError>
        requires hands { 1 ≤ hands }
        requires start { MayStart gates.items store oracle shards.items }
        ensures gates { IfOk result (λ r. gate_count r.0 ≡ vec_len gates) }
        ensures shards { IfOk result (λ r. shard_count r.0 ≡ vec_len shards) }
        ensures hand_count { IfOk result (λ r. hands_of r.0 ≡ hands) }
        ensures start { IfOk result (λ r. start_of r.0 ≡ logs_of gates.items store oracle shards.items) }
        ensures count { IfOk result (λ r. vec_len r.1 ≡ hands) }
        ensures hands { IfOk result (λ r. (k : ℕ) (h : _) → k < hands
            → IsHand r.0 (slice_index_or r.1.items k h) × (hand_number (slice_index_or r.1.items k h) ≡ k)
            × (seen_by (slice_index_or r.1.items k h) ≡ logs_of gates.items store oracle shards.items)) }
    {
        new_locks_keep_their_laws();
        let gate_len = gates.len();
        let shard_len = shards.len();
        let opened = open_locks(alloc, gates, &store, &oracle, shards, hands)?;
        let (locks, dealt) = fill_locks(alloc, opened, store, oracle, hands)?;
        let rooms = make_rooms(alloc, gate_len as u32, shard_len as u32, hands)?;
        let ends = make_ends(alloc, gate_len as u32, shard_len as u32)?;
        let shared = Shared {
            gates: locks.gates,
            store: locks.store,
            oracle: locks.oracle,
            shards: locks.shards,
            rooms,
            ends,
        };
        Ok((shared, dealt))
    }
}
