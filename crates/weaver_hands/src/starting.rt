//! The begin of a program.
ghost use Rattle.std.specs.Prelude.{◌<◌};
ghost use Rattle.std.specs.Option.{ForSome};
ghost use Rattle.weaver_locks.specs.Following.{HasNotBegun, MayHear};
ghost use Rattle.weaver_locks.specs.Hands.{IsHand};
ghost use Rattle.weaver_locks.specs.Locks.{gate_count, shard_count};
ghost use Rattle.weaver_hands.specs.Transactions.{StartsAs};

use crate::fault::HandFault;
use std::alloc::Global;
use std::sync::Wait;
use vector_stamp::Stamp;
use weaver_locks::laws::begun_stamps_may_be_heard;
use weaver_locks::{Hand, Shared};

/// Begins a program at a gatekeeper after its session's last stamp. It may wait.
pub fn start<R: Wait>(
    rt: &R,
    alloc: Global,
    hand: &mut Hand,
    shared: &Shared,
    request: u32,
    gate: u32,
    last: Option<Stamp>,
) -> Result<Stamp, HandFault>
    requires hand { IsHand shared.now hand.old }
    requires gate { gate < gate_count shared.now }
    requires new { HasNotBegun hand.old request }
    requires last { ForSome last (λ heard. MayHear shared.now hand.old heard) }
    ensures hand { IsHand shared.now hand.new }
    ensures done { StartsAs (shard_count shared.now) hand.old hand.new gate request last result }
{
    begun_stamps_may_be_heard();
    let stamp = shared.begin_program(rt, alloc, hand, gate, request, last)?;
    Ok(stamp)
}
