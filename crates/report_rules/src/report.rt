//! What a run reports.

use graph_ops::{Got, Reason};
use program_defs::Answer;
use std::alloc::{AllocError, Global};
use vector_stamp::Stamp;
use weave_data::{Copied, Items, Name};

/// The state of a request.
#[derive(Drop)]
pub enum ReplyState {
    /// It has no stamp yet.
    Unbegun,
    /// It has a stamp: a transaction without its verdict, or a program that is running.
    Begun,
    /// The transaction is the commit of this number, from 1, and its `get`s read these states.
    Committed { number: u64, answers: Items<Got> },
    /// The transaction is aborted: the newer request, a committed transaction, names the vertex.
    Conflict { vertex: Name, newer: u32 },
    /// The transaction is aborted: after the first `at` commits this operation, from 1, is refused.
    Refused { op: u32, reason: Reason, at: u64 },
    /// The program has answered.
    Finished(Answer),
}

/// The state of one request, and its stamp. A request is named by its place in the script, from 0.
#[derive(Drop)]
pub struct Reply {
    pub request: u32,
    /// A request is begun if it has a stamp.
    pub stamp: Option<Stamp>,
    pub state: ReplyState,
}

/// The oracle put one request before another, for a vertex.
#[derive(Clone, Copy)]
pub struct Pair {
    pub vertex: Name,
    pub earlier: u32,
    pub later: u32,
}

/// What an atomic step answered.
#[derive(Clone, Copy)]
pub enum StepAnswer {
    /// The step was done.
    Ok,
    /// The request has begun before.
    Twice,
    /// An earlier request of its session has no reply.
    Early,
    /// A transaction is in flight at the gatekeeper.
    Busy,
    /// There is nothing that the step could be done on.
    Idle,
    /// The epoch isn't above the gatekeeper's.
    Old,
    /// There is no such notice or message yet.
    Unknown,
    /// The message arrived before.
    Repeat,
    /// The gatekeeper's next message has not arrived.
    Empty,
    /// Earlier updates of this vertex have to be applied first.
    Waits { vertex: Name },
    /// The shard isn't ready for the program: this gatekeeper may still send something before it.
    Again { shard: u32, gate: u32 },
}

/// What a run reports.
#[derive(Drop)]
pub struct Report {
    pub replies: Items<Reply>,
    /// In the order in which the oracle added them.
    pub pairs: Items<Pair>,
    /// The requests that are committed or finished, in one total order.
    pub order: Items<u32>,
    /// What each atomic step answered.
    pub answers: Items<StepAnswer>,
}

/// The clauses of a right report, in the order in which they are judged.
#[derive(Clone, Copy, PartialEq, Eq, Debug)]
pub enum Clause {
    /// Replies.
    I,
    /// Listing.
    Ii,
    /// Order.
    Iii,
    /// Replay.
    Iv,
    /// Pairs.
    V,
    /// Conflicts.
    Vi,
    /// Refusals.
    Vii,
    /// Numbers.
    Viii,
}

impl Copied for ReplyState {
    fn copy(&self, alloc: Global) -> Result<Self, AllocError> {
        match self {
            ReplyState::Unbegun => Ok(ReplyState::Unbegun),
            ReplyState::Begun => Ok(ReplyState::Begun),
            ReplyState::Committed { number, answers } => Ok(ReplyState::Committed {
                number: *number,
                answers: answers.copy(alloc)?,
            }),
            ReplyState::Conflict { vertex, newer } => Ok(ReplyState::Conflict {
                vertex: *vertex,
                newer: *newer,
            }),
            ReplyState::Refused { op, reason, at } => Ok(ReplyState::Refused {
                op: *op,
                reason: *reason,
                at: *at,
            }),
            ReplyState::Finished(answer) => Ok(ReplyState::Finished(answer.copy(alloc)?)),
        }
    }
}

impl Copied for Reply {
    fn copy(&self, alloc: Global) -> Result<Self, AllocError> {
        Ok(Reply {
            request: self.request,
            stamp: self.stamp,
            state: self.state.copy(alloc)?,
        })
    }
}

impl Copied for Pair {
    fn copy(&self, _alloc: Global) -> Result<Self, AllocError> {
        Ok(*self)
    }
}

impl Copied for StepAnswer {
    fn copy(&self, _alloc: Global) -> Result<Self, AllocError> {
        Ok(*self)
    }
}

impl Copied for Report {
    fn copy(&self, alloc: Global) -> Result<Self, AllocError> {
        Ok(Report {
            replies: self.replies.copy(alloc)?,
            pairs: self.pairs.copy(alloc)?,
            order: self.order.copy(alloc)?,
            answers: self.answers.copy(alloc)?,
        })
    }
}
