//! A clock is heard, with its room.
ghost use Rattle.std.specs.Prelude.{◌≡◌, OnOk, OnErr};
ghost use Rattle.gatekeeper.specs.Gates.{Adds};

use gatekeeper::Gate;
use std::alloc::{AllocError, Global};
use vector_stamp::Clock;
use weave_entries::GateDeed;

/// A gatekeeper hears a clock, and takes the room for it first.
pub(crate) fn hear_with_room(
    gate: &mut Gate,
    alloc: Global,
    author: u32,
    clock: &Clock,
) -> Result<(), AllocError>
    ensures entry { OnOk result (Adds gate.old gate.new author (GateDeed.Heard clock.now)) }
    ensures refused { OnErr result (gate.new ≡ gate.old) }
{
    gate.reserve(alloc, 1)?;
    gate.hear(author, clock);
    Ok(())
}
