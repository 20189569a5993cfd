//! Node programs, which only read, and their answers.
ghost use Rattle.std.specs.Prelude.{◌≡◌};
ghost use Rattle.program_defs.specs.PlainAnswer.{is_price};

use graph_ops::Record;
use std::alloc::{AllocError, Global};
use weave_data::{Copied, Items, Name};

/// Lets an edge pass if its tag at the key has the value.
#[derive(Clone, Copy)]
pub struct Filter {
    pub key: Name,
    pub value: Name,
}

/// A node program. Without a filter every edge passes.
#[derive(Clone, Copy)]
pub enum Program {
    /// Asks for the state of a vertex.
    Show {
        v: Name,
    },
    /// Asks whether a walk leads from one vertex to another.
    Reach {
        from: Name,
        to: Name,
        pass: Option<Filter>,
    },
    /// Asks for the vertices within a number of edges, 0 to 1,000.
    Around {
        from: Name,
        bound: u32,
        pass: Option<Filter>,
    },
    /// Asks for the least walk of at most a number of edges, 0 to 1,000.
    Path {
        from: Name,
        to: Name,
        bound: u32,
        pass: Option<Filter>,
    },
    /// Asks for a walk of least price. An edge passes if its tag at the key says a price.
    Price {
        from: Name,
        to: Name,
        key: Name,
    },
}

impl Program {
    /// Whether it asks for a walk of least price.
    pub fn is_price(&self) -> bool
        ensures { result ≡ is_price self.now }
    {
        matches!(self, Program::Price { .. })
    }
}

/// A vertex with the least price of a walk to it.
#[derive(Clone, Copy, PartialEq, Eq)]
pub struct Bound {
    pub vertex: Name,
    pub price: u128,
}

/// What a program answers.
#[derive(Drop)]
pub enum Answer {
    /// To `show`: the state.
    Shown(Option<Record>),
    /// To `reach`: whether there is a walk.
    Reached(bool),
    /// To `around`: the vertices in byte order.
    Found(Items<Name>),
    /// To `path`: the walk, or none.
    Walk(Option<Items<Name>>),
    /// To `price`.
    Priced {
        /// The walk, or none.
        walk: Option<Items<Name>>,
        /// The price of the walk, 0 if there is none.
        total: u128,
        /// Each vertex to which a walk leads, in byte order, with the least price of such a walk.
        bounds: Items<Bound>,
    },
}

impl Copied for Bound {
    fn copy(&self, _alloc: Global) -> Result<Self, AllocError> {
        Ok(*self)
    }
}

impl Copied for Answer {
    fn copy(&self, alloc: Global) -> Result<Self, AllocError> {
        match self {
            Answer::Shown(state) => Ok(Answer::Shown(state.copy(alloc)?)),
            Answer::Reached(reached) => Ok(Answer::Reached(*reached)),
            Answer::Found(vertices) => Ok(Answer::Found(vertices.copy(alloc)?)),
            Answer::Walk(walk) => Ok(Answer::Walk(walk.copy(alloc)?)),
            Answer::Priced {
                walk,
                total,
                bounds,
            } => Ok(Answer::Priced {
                walk: walk.copy(alloc)?,
                total: *total,
                bounds: bounds.copy(alloc)?,
            }),
        }
    }
}
