//! The log of the store.

use crate::verdict::Verdict;
use graph_ops::Op;
use std::alloc::{AllocError, Global};
use vector_stamp::Stamp;
use weave_data::{Copied, Items, Name};

/// An entry of the store's log.
#[derive(Drop)]
pub struct StoreEntry {
    pub author: u32,
    pub deed: StoreDeed,
}

/// What was done at the store.
#[derive(Drop)]
pub enum StoreDeed {
    /// A transaction was judged.
    Judged {
        request: u32,
        stamp: Stamp,
        /// The operations that were judged.
        ops: Items<Op>,
        /// The named vertices whose last committed transaction's stamp was unordered with this one, in order of naming.
        asked: Items<Name>,
        verdict: Verdict,
    },
}

impl Copied for StoreEntry {
    fn copy(&self, alloc: Global) -> Result<Self, AllocError> {
        Ok(StoreEntry {
            author: self.author,
            deed: self.deed.copy(alloc)?,
        })
    }
}

impl Copied for StoreDeed {
    fn copy(&self, alloc: Global) -> Result<Self, AllocError> {
        let StoreDeed::Judged {
            request,
            stamp,
            ops,
            asked,
            verdict,
        } = self;
        Ok(StoreDeed::Judged {
            request: *request,
            stamp: *stamp,
            ops: ops.copy(alloc)?,
            asked: asked.copy(alloc)?,
            verdict: verdict.copy(alloc)?,
        })
    }
}
