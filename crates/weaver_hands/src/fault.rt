//! Why a hand's call is refused.
ghost use Rattle.std.specs.Prelude.{◌≡◌};
ghost use Rattle.weaver_hands.specs.Faults.{apply_fault, gate_fault, visit_fault};

use gatekeeper::GateFault;
use shard_node::{ApplyFault, VisitFault};
use std::alloc::AllocError;
use weave_data::Name;

/// Why a call was refused. It made no entry, except those of its earlier holds if it is out of memory.
#[derive(Clone, Copy, PartialEq, Eq)]
pub enum HandFault {
    /// A transaction is in flight at the gatekeeper.
    Busy,
    /// The shard is not ready for the program, as far as this gatekeeper is concerned.
    NotYet { shard: u32, gate: u32 },
    /// The next message has not arrived at the shard.
    Empty,
    /// The message's count for this vertex is not the number of updates applied to it at the shard.
    Waits { vertex: Name },
    /// Out of memory.
    Memory,
}

impl From<AllocError> for HandFault {
    ghost use Rattle.std.specs.Prelude.{◌≡◌};
    ghost use Rattle.weaver_hands.specs.declared.fault.HandFault.TheVariants.{Memory};

    ghost from_gives = { λ _ fault. fault ≡ Memory };

    fn from(_error: AllocError) -> HandFault {
        HandFault::Memory
    }
}

/// A gatekeeper's refusal of a begin or of an empty message: it is busy, or out of memory.
pub(crate) fn of_gate(fault: GateFault) -> HandFault
    ensures { result ≡ gate_fault fault }
{
    match fault {
        GateFault::Busy => HandFault::Busy,
        GateFault::Idle | GateFault::Old | GateFault::Memory => HandFault::Memory,
    }
}

/// A gatekeeper's refusal of what is not refused there unless it is out of memory.
pub(crate) fn out_of_memory(fault: GateFault) -> HandFault
    requires { fault ≡ GateFault.Memory }
    ensures { result ≡ HandFault.Memory }
{
    of_gate(fault)
}

/// A shard's refusal to process a head.
pub(crate) fn of_shard(fault: &ApplyFault) -> HandFault
    ensures { result ≡ apply_fault fault.now }
{
    match fault {
        ApplyFault::Empty => HandFault::Empty,
        ApplyFault::Waits { vertex } => HandFault::Waits { vertex: *vertex },
        ApplyFault::Memory => HandFault::Memory,
    }
}

/// A shard's refusal to read a vertex.
pub(crate) fn of_visit(shard: u32, fault: VisitFault) -> HandFault
    ensures { result ≡ visit_fault shard fault }
{
    match fault {
        VisitFault::Again { gate } => HandFault::NotYet { shard, gate },
        VisitFault::Memory => HandFault::Memory,
    }
}
