//! The record of a vertex.
ghost use Rattle.std.specs.Prelude.{◌≡◌, []};

use std::alloc::{AllocError, Global};
use weave_data::{Copied, Name, NameMap};

/// The most properties of a record.
pub const MOST_PROPS: usize = 64;

/// The most edges of a record.
pub const MOST_EDGES: usize = 1000;

/// The most tags of an edge.
pub const MOST_TAGS: usize = 8;

/// An edge, which lies at its name in the record of the vertex where it begins.
#[derive(Drop, PartialEq)]
pub struct Edge {
    pub target: Name,
    pub tags: NameMap<Name>,
}

/// What a vertex has.
#[derive(Drop, PartialEq)]
pub struct Record {
    pub props: NameMap<Name>,
    pub edges: NameMap<Edge>,
}

impl Edge {
    /// An edge without tags. It takes no memory.
    pub(crate) fn bare(alloc: Global, target: Name) -> Edge
        ensures { result ≡ record { target = target; tags = [] } }
    {
        Edge {
            target,
            tags: NameMap::new(alloc),
        }
    }
}

impl Copied for Edge {
    fn copy(&self, alloc: Global) -> Result<Self, AllocError> {
        Ok(Edge {
            target: self.target,
            tags: self.tags.copy(alloc)?,
        })
    }
}

impl Copied for Record {
    fn copy(&self, alloc: Global) -> Result<Self, AllocError> {
        Ok(Record {
            props: self.props.copy(alloc)?,
            edges: self.edges.copy(alloc)?,
        })
    }
}
