//! The log of a gatekeeper.

use crate::message::Addressed;
use std::alloc::{AllocError, Global};
use vector_stamp::{Clock, Stamp};
use weave_data::{Copied, Items};

/// An entry of a gatekeeper's log.
#[derive(Drop)]
pub struct GateEntry {
    pub author: u32,
    pub deed: GateDeed,
}

/// What was done at a gatekeeper.
#[derive(Drop)]
pub enum GateDeed {
    /// A transaction got its stamp and is in flight.
    BeganTx {
        request: u32,
        stamp: Stamp,
    },
    /// A program got its stamp and is running.
    BeganProgram {
        request: u32,
        stamp: Stamp,
    },
    /// The transaction in flight was sent. An aborted one has no messages.
    Sent {
        request: u32,
        messages: Items<Addressed>,
    },
    /// An empty message was sent, with this number on the channel to the shard and this low mark.
    Nop {
        shard: u32,
        number: u64,
        stamp: Stamp,
        low: Clock,
    },
    /// The gatekeeper heard a clock.
    Heard {
        clock: Clock,
    },
    /// The gatekeeper's epoch was raised to this one.
    Raised {
        epoch: u64,
    },
    /// A program is no longer running.
    Finished {
        request: u32,
    },
}

impl Copied for GateEntry {
    fn copy(&self, alloc: Global) -> Result<Self, AllocError> {
        Ok(GateEntry {
            author: self.author,
            deed: self.deed.copy(alloc)?,
        })
    }
}

impl Copied for GateDeed {
    fn copy(&self, alloc: Global) -> Result<Self, AllocError> {
        match self {
            GateDeed::BeganTx { request, stamp } => Ok(GateDeed::BeganTx {
                request: *request,
                stamp: *stamp,
            }),
            GateDeed::BeganProgram { request, stamp } => Ok(GateDeed::BeganProgram {
                request: *request,
                stamp: *stamp,
            }),
            GateDeed::Sent { request, messages } => Ok(GateDeed::Sent {
                request: *request,
                messages: messages.copy(alloc)?,
            }),
            GateDeed::Nop {
                shard,
                number,
                stamp,
                low,
            } => Ok(GateDeed::Nop {
                shard: *shard,
                number: *number,
                stamp: *stamp,
                low: *low,
            }),
            GateDeed::Heard { clock } => Ok(GateDeed::Heard { clock: *clock }),
            GateDeed::Raised { epoch } => Ok(GateDeed::Raised { epoch: *epoch }),
            GateDeed::Finished { request } => Ok(GateDeed::Finished { request: *request }),
        }
    }
}
