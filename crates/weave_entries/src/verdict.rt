//! What the store says to a transaction.

use graph_ops::{Got, Reason};
use std::alloc::{AllocError, Global};
use weave_data::{Copied, Items, Name};

/// A vertex that a transaction names.
#[derive(Clone, Copy)]
pub struct Counted {
    pub vertex: Name,
    /// The number of committed transactions that named it before.
    pub before: u64,
}

/// What the store says to a transaction.
#[derive(Drop)]
pub enum Verdict {
    /// It is the commit of this number, from 1, and its `get`s read these states.
    Committed {
        number: u64,
        answers: Items<Got>,
        /// The vertices that it names, in order of first mention.
        counts: Items<Counted>,
    },
    /// It is aborted: it precedes the newer request, the last committed transaction that names the vertex.
    Conflict {
        vertex: Name,
        newer: u32,
    },
    /// It is aborted: after the first `at` commits this operation, from 1, is refused.
    Refused {
        op: u32,
        reason: Reason,
        at: u64,
    },
}

impl Copied for Counted {
    ghost use Rattle.std.specs.Prelude.{◌≡◌, IfOk};

    fn copy(&self, _alloc: Global) -> Result<Self, AllocError>
        ensures copied { IfOk result (λ copied. copied ≡ self.now) }
        ensures ok { result ≡ Ok self.now }
    {
        Ok(*self)
    }
}

impl Copied for Verdict {
    fn copy(&self, alloc: Global) -> Result<Self, AllocError> {
        match self {
            Verdict::Committed {
                number,
                answers,
                counts,
            } => Ok(Verdict::Committed {
                number: *number,
                answers: answers.copy(alloc)?,
                counts: counts.copy(alloc)?,
            }),
            Verdict::Conflict { vertex, newer } => Ok(Verdict::Conflict {
                vertex: *vertex,
                newer: *newer,
            }),
            Verdict::Refused { op, reason, at } => Ok(Verdict::Refused {
                op: *op,
                reason: *reason,
                at: *at,
            }),
        }
    }
}
