//! The locks of a run.
ghost use Rattle.std.specs.Prelude.{◌≡◌, length, All};
ghost use Rattle.chronicle.specs.Locks.{lock_of, IsFilled};
ghost use Rattle.weaver_locks.specs.Framed.{AreFramed};
ghost use Rattle.weaver_locks.specs.Kept.{HasEnds, HasRooms};

use crate::ends::Ends;
use crate::rooms::Rooms;
use chronicle::Chronicle;
use gate_lock::NotedGate;
use oracle_lock::NotedOracle;
use shard_lock::NotedShard;
use store_lock::NotedStore;

/// Gatekeepers, store, oracle and shards, each behind a lock of its own with notes of the others.
#[derive(Drop)]
pub struct Shared {
    pub(crate) gates: Vec<Chronicle<NotedGate>>,
    pub(crate) store: Chronicle<NotedStore>,
    pub(crate) oracle: Chronicle<NotedOracle>,
    pub(crate) shards: Vec<Chronicle<NotedShard>>,
    // What `close` needs, so that it takes no memory.
    pub(crate) rooms: Rooms,
    pub(crate) ends: Ends,
    ghost framed: { AreFramed gates.items store oracle shards.items },
    ghost gates_filled: { All IsFilled gates.items },
    ghost store_filled: { IsFilled store },
    ghost oracle_filled: { IsFilled oracle },
    ghost shards_filled: { All IsFilled shards.items },
    ghost roomy: { HasRooms (length gates.items) (length shards.items) (lock_of store).passes rooms },
    ghost spacious: { HasEnds (length gates.items) (length shards.items) ends },
}

impl Shared {
    ghost use Rattle.weaver_locks.specs.Locks.{shard_count};

    /// The number of shards. It takes no lock.
    pub fn shards(&self) -> u32
        ensures { result ≡ shard_count self.now }
    {
        self.shards.len() as u32
    }
}
