//! The logs of a run, all together.

use std::alloc::{AllocError, Global};
use weave_data::{Copied, Items};
use weave_entries::{GateEntry, OracleEntry, SessionEntry, ShardEntry, StoreEntry};

/// The logs of gatekeepers, store, oracle, shards and sessions. Gatekeepers, shards and sessions are named by their
/// places in the lists, from 0.
#[derive(Drop)]
pub struct Account {
    pub gates: Items<Items<GateEntry>>,
    pub store: Items<StoreEntry>,
    pub oracle: Items<OracleEntry>,
    pub shards: Items<Items<ShardEntry>>,
    pub sessions: Items<Items<SessionEntry>>,
}

impl Copied for Account {
    fn copy(&self, alloc: Global) -> Result<Self, AllocError> {
        Ok(Account {
            gates: self.gates.copy(alloc)?,
            store: self.store.copy(alloc)?,
            oracle: self.oracle.copy(alloc)?,
            shards: self.shards.copy(alloc)?,
            sessions: self.sessions.copy(alloc)?,
        })
    }
}
