//! A version of a vertex.

use graph_ops::Record;
use std::alloc::{AllocError, Global};
use vector_stamp::Stamp;
use weave_data::Copied;

/// The state of a vertex after an update, with the stamp of the update's transaction. Contracts see a chain's versions;
/// no chain keeps whole states.
#[derive(Drop)]
pub struct Version {
    pub stamp: Stamp,
    pub state: Option<Record>,
}

impl Copied for Version {
    fn copy(&self, alloc: Global) -> Result<Self, AllocError> {
        Ok(Version {
            stamp: self.stamp,
            state: self.state.copy(alloc)?,
        })
    }
}
