//! What a message holds for one vertex.

use crate::op::Op;
use std::alloc::{AllocError, Global};
use weave_data::{Copied, Items, Name};

/// The operations of a committed transaction on one vertex: none where it only named the vertex.
#[derive(Drop)]
pub struct Part {
    pub vertex: Name,
    /// The number of committed transactions that named the vertex before.
    pub before: u64,
    pub ops: Items<Op>,
}

impl Copied for Part {
    fn copy(&self, alloc: Global) -> Result<Self, AllocError> {
        Ok(Part {
            vertex: self.vertex,
            before: self.before,
            ops: self.ops.copy(alloc)?,
        })
    }
}
