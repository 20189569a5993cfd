//! The log of the oracle.

use std::alloc::{AllocError, Global};
use vector_stamp::Stamp;
use weave_data::{Copied, Items};

/// An entry of the oracle's log.
#[derive(Drop)]
pub struct OracleEntry {
    pub author: u32,
    pub deed: OracleDeed,
}

/// What was done at the oracle.
#[derive(Drop)]
pub enum OracleDeed {
    /// Earlier events were put before a later one, and at least one pair was added.
    Settled {
        earlier: Items<Stamp>,
        later: Stamp,
        /// The places of the earlier events for which a pair was added, counted from 0.
        places: Items<u32>,
    },
}

impl Copied for OracleEntry {
    fn copy(&self, alloc: Global) -> Result<Self, AllocError> {
        Ok(OracleEntry {
            author: self.author,
            deed: self.deed.copy(alloc)?,
        })
    }
}

impl Copied for OracleDeed {
    fn copy(&self, alloc: Global) -> Result<Self, AllocError> {
        let OracleDeed::Settled {
            earlier,
            later,
            places,
        } = self;
        Ok(OracleDeed::Settled {
            earlier: earlier.copy(alloc)?,
            later: *later,
            places: places.copy(alloc)?,
        })
    }
}
