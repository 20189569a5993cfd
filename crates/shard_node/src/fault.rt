//! Why a head was not applied, or a vertex not read.
use std::alloc::AllocError;
use weave_data::Name;

/// Why a head was not applied.
#[derive(Clone, Copy, PartialEq, Eq)]
pub enum ApplyFault {
    /// The next message has not arrived.
    Empty,
    /// The message's count for this vertex, the first such in order of naming, is not the number of updates applied to
    /// it here.
    Waits { vertex: Name },
    /// Out of memory.
    Memory,
}

/// Why a vertex was not read.
#[derive(Clone, Copy, PartialEq, Eq, Debug)]
pub enum VisitFault {
    /// Neither the last processed message of this gatekeeper nor the head has a stamp after the program's. It is the
    /// least such gatekeeper.
    Again { gate: u32 },
    /// Out of memory.
    Memory,
}

impl From<AllocError> for ApplyFault {
    ghost use Rattle.std.specs.Prelude.{◌≡◌};
    ghost use Rattle.shard_node.specs.declared.fault.ApplyFault.TheVariants.{Memory};

    ghost from_gives = { λ _ fault. fault ≡ Memory };

    fn from(_error: AllocError) -> ApplyFault {
        ApplyFault::Memory
    }
}

impl From<AllocError> for VisitFault {
    ghost use Rattle.std.specs.Prelude.{◌≡◌};
    ghost use Rattle.shard_node.specs.declared.fault.VisitFault.TheVariants.{Memory};

    ghost from_gives = { λ _ fault. fault ≡ Memory };

    fn from(_error: AllocError) -> VisitFault {
        VisitFault::Memory
    }
}
