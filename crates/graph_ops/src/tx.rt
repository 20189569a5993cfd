//! What a transaction answers.

use crate::op::Reason;
use crate::record::Record;
use std::alloc::{AllocError, Global};
use weave_data::Copied;

/// What the `get` of a transaction read.
#[derive(Drop)]
pub struct Got {
    /// The number of the operation, from 1.
    pub op: u32,
    pub state: Option<Record>,
}

impl Copied for Got {
    fn copy(&self, alloc: Global) -> Result<Self, AllocError> {
        Ok(Got {
            op: self.op,
            state: self.state.copy(alloc)?,
        })
    }
}

/// Why a transaction was not done.
#[derive(Clone, Copy, PartialEq, Eq, Debug)]
pub enum TxFault {
    /// The first refused operation, from 1.
    Refused { op: u32, reason: Reason },
    /// Out of memory.
    Memory,
}

impl From<AllocError> for TxFault {
    ghost use Rattle.std.specs.Prelude.{◌≡◌};
    ghost use Rattle.graph_ops.specs.declared.tx.TxFault.TheVariants.{Memory};

    ghost from_gives = { λ _ fault. fault ≡ Memory };

    fn from(_error: AllocError) -> TxFault {
        TxFault::Memory
    }
}
