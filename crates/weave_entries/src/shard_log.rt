//! The log of a shard.

use crate::message::Message;
use std::alloc::{AllocError, Global};
use vector_stamp::{Clock, Stamp};
use weave_data::{Copied, Name};

/// An entry of a shard's log.
#[derive(Drop)]
pub struct ShardEntry {
    pub author: u32,
    pub deed: ShardDeed,
}

/// What was done at a shard.
#[derive(Drop)]
pub enum ShardDeed {
    /// The message of this number came from a gatekeeper, for the first time.
    Arrived {
        gate: u32,
        number: u64,
        message: Message,
    },
    /// The message of this number was processed.
    Applied {
        gate: u32,
        number: u64,
    },
    /// A program read a vertex.
    Visited {
        request: u32,
        stamp: Stamp,
        vertex: Name,
        /// It read the state after this many of the vertex's updates.
        updates: u64,
        /// Whether the oracle added a pair for it.
        settled: bool,
    },
    /// Old versions were dropped, up to the bound; `None` if nothing may go.
    Collected {
        bound: Option<Clock>,
    },
}

impl Copied for ShardEntry {
    fn copy(&self, alloc: Global) -> Result<Self, AllocError> {
        Ok(ShardEntry {
            author: self.author,
            deed: self.deed.copy(alloc)?,
        })
    }
}

impl Copied for ShardDeed {
    fn copy(&self, alloc: Global) -> Result<Self, AllocError> {
        match self {
            ShardDeed::Arrived {
                gate,
                number,
                message,
            } => Ok(ShardDeed::Arrived {
                gate: *gate,
                number: *number,
                message: message.copy(alloc)?,
            }),
            ShardDeed::Applied { gate, number } => Ok(ShardDeed::Applied {
                gate: *gate,
                number: *number,
            }),
            ShardDeed::Visited {
                request,
                stamp,
                vertex,
                updates,
                settled,
            } => Ok(ShardDeed::Visited {
                request: *request,
                stamp: *stamp,
                vertex: *vertex,
                updates: *updates,
                settled: *settled,
            }),
            ShardDeed::Collected { bound } => Ok(ShardDeed::Collected { bound: *bound }),
        }
    }
}
