//! Operations on one vertex.
ghost use Rattle.std.specs.Prelude.{◌≡◌};
ghost use Rattle.graph_ops.specs.Fields.{names_of_fields};
ghost use Rattle.graph_ops.specs.Operations.{is_get, needed_by, op_fields, op_word, target_of, vertex_of};

use crate::record::Record;
use std::alloc::{AllocError, Global};
use weave_data::{Copied, Name};

/// An operation of a transaction, on the vertex `v`.
#[derive(Clone, Copy)]
pub enum Op {
    /// Makes an empty record.
    Create {
        v: Name,
    },
    /// Makes the vertex absent. Edges to it stay.
    Delete {
        v: Name,
    },
    /// Gives a property a value.
    Set {
        v: Name,
        key: Name,
        value: Name,
    },
    /// Takes a property away.
    Unset {
        v: Name,
        key: Name,
    },
    /// Adds an edge without tags. The target need not exist: `link` in version 1 of a script.
    Link {
        v: Name,
        edge: Name,
        target: Name,
    },
    /// Adds an edge without tags to a vertex that has to be there: `link` in version 2 of a script. Only a transaction
    /// looks at the target.
    Join {
        v: Name,
        edge: Name,
        target: Name,
    },
    /// Takes an edge away.
    Unlink {
        v: Name,
        edge: Name,
    },
    /// Gives a tag of an edge a value.
    Tag {
        v: Name,
        edge: Name,
        key: Name,
        value: Name,
    },
    /// Takes a tag of an edge away.
    Untag {
        v: Name,
        edge: Name,
        key: Name,
    },
    /// Answers the state.
    Get {
        v: Name,
    },
}

/// Why an operation was refused.
#[derive(Clone, Copy, PartialEq, Eq, Debug)]
pub enum Reason {
    /// `create` of a vertex that is there.
    Exists,
    /// Any other change of a vertex that is absent.
    Missing,
    /// There is no such property or tag.
    NoKey,
    /// There is an edge of that name.
    EdgeExists,
    /// There is no edge of that name.
    NoEdge,
    /// One property, edge or tag too many.
    Full,
    /// An edge to a vertex that has to be there, and is absent.
    NoTarget,
}

/// Why an operation was not done.
#[derive(Clone, Copy, PartialEq, Eq, Debug)]
pub enum OpFault {
    /// The operation was refused, for this reason.
    Refused(Reason),
    /// Out of memory.
    Memory,
}

/// What an operation answers.
#[derive(Drop)]
pub enum Answered {
    /// The change was made.
    Done,
    /// The state that `get` read.
    Got(Option<Record>),
}

/// The names that an operation takes.
#[derive(Clone, Copy)]
pub enum Fields {
    /// Its vertex alone.
    One([Name; 1]),
    /// Its vertex and another name.
    Two([Name; 2]),
    /// Its vertex and two more names.
    Three([Name; 3]),
    /// Its vertex and three more names.
    Four([Name; 4]),
}

impl Copied for Op {
    fn copy(&self, _alloc: Global) -> Result<Self, AllocError> {
        Ok(*self)
    }
}

impl Copied for Answered {
    fn copy(&self, alloc: Global) -> Result<Self, AllocError> {
        match self {
            Answered::Done => Ok(Answered::Done),
            Answered::Got(state) => Ok(Answered::Got(state.copy(alloc)?)),
        }
    }
}

impl From<AllocError> for OpFault {
    ghost use Rattle.std.specs.Prelude.{◌≡◌};
    ghost use Rattle.graph_ops.specs.declared.op.OpFault.TheVariants.{Memory};

    ghost from_gives = { λ _ fault. fault ≡ Memory };

    fn from(_error: AllocError) -> OpFault {
        OpFault::Memory
    }
}

impl Op {
    /// The vertex that it is on.
    pub fn vertex(&self) -> Name
        ensures { result ≡ vertex_of self.now }
    {
        match *self {
            Op::Create { v }
            | Op::Delete { v }
            | Op::Set { v, .. }
            | Op::Unset { v, .. }
            | Op::Link { v, .. }
            | Op::Join { v, .. }
            | Op::Unlink { v, .. }
            | Op::Tag { v, .. }
            | Op::Untag { v, .. }
            | Op::Get { v } => v,
        }
    }

    /// Its word in a script.
    pub fn word(&self) -> &'static [u8]
        ensures { result.now ≡ op_word self.now }
    {
        match *self {
            Op::Create { .. } => b"create",
            Op::Delete { .. } => b"delete",
            Op::Set { .. } => b"set",
            Op::Unset { .. } => b"unset",
            Op::Link { .. } => b"link",
            Op::Join { .. } => b"link",
            Op::Unlink { .. } => b"unlink",
            Op::Tag { .. } => b"tag",
            Op::Untag { .. } => b"untag",
            Op::Get { .. } => b"get",
        }
    }

    /// The names that it takes, in the order of a script.
    pub fn fields(&self) -> Fields
        ensures { names_of_fields result ≡ op_fields self.now }
    {
        match *self {
            Op::Create { v } | Op::Delete { v } | Op::Get { v } => Fields::One([v]),
            Op::Unset { v, key } => Fields::Two([v, key]),
            Op::Unlink { v, edge } => Fields::Two([v, edge]),
            Op::Set { v, key, value } => Fields::Three([v, key, value]),
            Op::Link { v, edge, target } => Fields::Three([v, edge, target]),
            Op::Join { v, edge, target } => Fields::Three([v, edge, target]),
            Op::Untag { v, edge, key } => Fields::Three([v, edge, key]),
            Op::Tag {
                v,
                edge,
                key,
                value,
            } => Fields::Four([v, edge, key, value]),
        }
    }

    /// Whether it only reads.
    pub fn is_get(&self) -> bool
        ensures { result ≡ is_get self.now }
    {
        matches!(*self, Op::Get { .. })
    }

    /// The vertex to which it makes an edge.
    pub fn target(&self) -> Option<Name>
        ensures { result ≡ target_of self.now }
    {
        match *self {
            Op::Link { target, .. } | Op::Join { target, .. } => Some(target),
            _ => None,
        }
    }

    /// The vertex that has to be there for it, and that it names too: the target of a join.
    pub fn needs(&self) -> Option<Name>
        ensures { result ≡ needed_by self.now }
    {
        match *self {
            Op::Join { target, .. } => Some(target),
            _ => None,
        }
    }
}

impl Fields {
    /// The names.
    pub fn as_slice(&self) -> &[Name]
        ensures { result.now ≡ names_of_fields self.now }
    {
        match self {
            Fields::One(names) => names,
            Fields::Two(names) => names,
            Fields::Three(names) => names,
            Fields::Four(names) => names,
        }
    }
}
