//! Scripts: requests of several sessions, phases, and atomic steps.

use crate::program::Program;
use graph_ops::Op;
use std::alloc::{AllocError, Global};
use weave_data::{Copied, Items, Name};

/// What a request asks for.
#[derive(Drop)]
pub enum Work {
    /// A transaction: its operations in order, at most 64.
    Change(Items<Op>),
    /// A node program.
    Look(Program),
}

/// A request of a session at a gatekeeper.
#[derive(Drop)]
pub struct Request {
    pub name: Name,
    /// 0 to 63.
    pub session: u32,
    /// Below the number of gatekeepers.
    pub gate: u32,
    pub work: Work,
}

/// An atomic step. A request is named by its place in the script, from 0; gatekeepers and shards are numbered from 0,
/// notices and messages from 1, at most 100,000.
#[derive(Clone, Copy, PartialEq, Eq, Debug)]
pub enum Step {
    /// The request is stamped at its gatekeeper.
    Begin { request: u32 },
    /// The store judges the transaction in flight at the gatekeeper.
    Judge { gate: u32 },
    /// The messages of the transaction in flight go out.
    Send { gate: u32 },
    /// The gatekeeper announces its clock, which is the next notice.
    Say { gate: u32 },
    /// The gatekeeper hears a notice.
    Hear { gate: u32, notice: u64 },
    /// The gatekeeper sends the shard a message without vertices.
    Nop { gate: u32, shard: u32 },
    /// The gatekeeper's message of this number arrives at the shard.
    Deliver { gate: u32, shard: u32, number: u64 },
    /// The shard processes the gatekeeper's next message.
    Apply { shard: u32, gate: u32 },
    /// The program visits its next vertex.
    Visit { request: u32 },
    /// The session has the reply; a program is finished.
    Reply { request: u32 },
    /// The shard drops old versions.
    Collect { shard: u32 },
    /// The gatekeeper goes over to an epoch, 1 to 1,000,000.
    Epoch { gate: u32, epoch: u64 },
    /// The gatekeeper stops, and returns in an epoch, 1 to 1,000,000.
    Restart { gate: u32, epoch: u64 },
}

/// A script.
#[derive(Drop)]
pub struct Script {
    /// The number of gatekeepers, 1 to 8.
    pub gates: u32,
    /// The number of shards, 1 to 16.
    pub shards: u32,
    pub requests: Items<Request>,
    /// For each `phase` line, how many requests are before it.
    pub phases: Items<u32>,
    /// The atomic steps, if the script has a line `steps`.
    pub steps: Option<Items<Step>>,
}

impl Copied for Work {
    fn copy(&self, alloc: Global) -> Result<Self, AllocError> {
        match self {
            Work::Change(ops) => Ok(Work::Change(ops.copy(alloc)?)),
            Work::Look(program) => Ok(Work::Look(*program)),
        }
    }
}

impl Copied for Request {
    fn copy(&self, alloc: Global) -> Result<Self, AllocError> {
        Ok(Request {
            name: self.name,
            session: self.session,
            gate: self.gate,
            work: self.work.copy(alloc)?,
        })
    }
}

impl Copied for Step {
    fn copy(&self, _alloc: Global) -> Result<Self, AllocError> {
        Ok(*self)
    }
}

impl Copied for Script {
    fn copy(&self, alloc: Global) -> Result<Self, AllocError> {
        Ok(Script {
            gates: self.gates,
            shards: self.shards,
            requests: self.requests.copy(alloc)?,
            phases: self.phases.copy(alloc)?,
            steps: self.steps.copy(alloc)?,
        })
    }
}
