//! Messages from gatekeepers to shards.

use graph_ops::Part;
use std::alloc::{AllocError, Global};
use vector_stamp::{Clock, Stamp, Stamped};
use weave_data::{Copied, Items};

/// What a gatekeeper sends to a shard: a committed transaction's operations there, or nothing but a stamp.
#[derive(Drop)]
pub struct Message {
    /// The transaction, or `None` for an empty message.
    pub request: Option<u32>,
    pub stamp: Stamp,
    /// The low mark: the meet of the stamp and those of the programs that were running at the gatekeeper.
    pub low: Clock,
    /// One for each vertex of the shard that the transaction names, in order of first mention; none in an empty
    /// message.
    pub parts: Items<Part>,
}

/// A message with its shard, and its number on the channel to that shard, from 1.
#[derive(Drop)]
pub struct Addressed {
    pub shard: u32,
    pub number: u64,
    pub message: Message,
}

impl Stamped for Message {
    ghost stamp_of = { λ message. message.stamp };

    fn stamp(&self) -> Stamp {
        self.stamp
    }
}

impl Copied for Message {
    fn copy(&self, alloc: Global) -> Result<Self, AllocError> {
        Ok(Message {
            request: self.request,
            stamp: self.stamp,
            low: self.low,
            parts: self.parts.copy(alloc)?,
        })
    }
}

impl Copied for Addressed {
    fn copy(&self, alloc: Global) -> Result<Self, AllocError> {
        Ok(Addressed {
            shard: self.shard,
            number: self.number,
            message: self.message.copy(alloc)?,
        })
    }
}
