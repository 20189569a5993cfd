//! Why a gatekeeper refuses.

use std::alloc::AllocError;

/// Why a call was refused. The gatekeeper is as before.
#[derive(Clone, Copy, PartialEq, Eq, Debug)]
pub enum GateFault {
    /// A transaction is in flight.
    Busy,
    /// No transaction is in flight, or that program isn't running.
    Idle,
    /// The epoch is not above the gatekeeper's own.
    Old,
    /// Out of memory.
    Memory,
}

impl From<AllocError> for GateFault {
    ghost use Rattle.std.specs.Prelude.{◌≡◌};
    ghost use Rattle.gatekeeper.specs.declared.fault.GateFault.TheVariants.{Memory};

    ghost from_gives = { λ _ fault. fault ≡ Memory };

    fn from(_error: AllocError) -> GateFault {
        GateFault::Memory
    }
}
