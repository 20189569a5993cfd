//! What came of a try of one request.
ghost use Rattle.std.specs.Prelude.{◌≡◌, Some, IfOk, OnErr};
ghost use Rattle.weaver_hands.specs.declared.fault.HandFault.TheVariants.{Memory};
ghost use Rattle.weaver_workers.specs.Turning.{tried_at, RefusesTransaction};

use std::alloc::AllocError;
use weaver_hands::HandFault;

/// What came of a try of one request.
#[derive(Clone, Copy, PartialEq, Eq)]
pub(crate) enum Tried {
    /// It has its reply.
    Replied,
    /// A transaction was in flight at its gatekeeper.
    Busy { gate: u32 },
    /// The shard of its next vertex was not ready, after one nudge.
    NotYet { shard: u32, gate: u32 },
}

/// What came of a transaction that was refused so at this gatekeeper. The one error is out of memory.
pub(crate) fn tried_in_vain(fault: HandFault, gate: u32) -> Result<Tried, AllocError>
    requires { RefusesTransaction fault }
    ensures tried { IfOk result (λ tried. tried_at gate fault ≡ Some tried) }
    ensures memory { OnErr result (fault ≡ Memory) }
{
    match fault {
        HandFault::Busy => Ok(Tried::Busy { gate }),
        HandFault::NotYet { .. } | HandFault::Empty | HandFault::Waits { .. } | HandFault::Memory =>
            Err(AllocError),
    }
}
