//! The machines of a run with their notes.
use gate_lock::NotedGate;
use oracle_lock::NotedOracle;
use shard_lock::NotedShard;
use store_lock::NotedStore;

/// A machine for each lock, with its notes.
#[derive(Drop)]
pub(crate) struct Machines {
    pub(crate) gates: Vec<NotedGate>,
    pub(crate) store: NotedStore,
    pub(crate) oracle: NotedOracle,
    pub(crate) shards: Vec<NotedShard>,
}
