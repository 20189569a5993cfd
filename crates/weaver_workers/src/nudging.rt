//! Gatekeepers hear of each other, and send empty messages.
ghost use Rattle.std.specs.Prelude.{◌≢◌, ◌<◌, ◌≤◌, OnOk};
ghost use Rattle.weaver_locks.specs.Hands.{IsHand};
ghost use Rattle.weaver_locks.specs.Locks.{gate_count, shard_count};
ghost use Rattle.weaver_workers.specs.Carrying.{Carries, CarriesAtGate, HasHeard, HaveHeardBelow, IsAtNoOtherShard};

use crate::bringing::{Brought, turn_shard};
use std::alloc::{AllocError, Global};
use std::sync::Wait;
use weaver_hands::{HandFault, nop, say_and_hear};
use weaver_locks::{Hand, Shared};

/// A gatekeeper hears another one's clock, as it is now. It doesn't hear its own.
pub(crate) fn tell<R: Wait>(
    rt: &R,
    alloc: Global,
    hand: &mut Hand,
    shared: &Shared,
    from: u32,
    to: u32,
) -> Result<(), AllocError>
    requires hand { IsHand shared.now hand.old }
    requires from { from < gate_count shared.now }
    requires to { to < gate_count shared.now }
    ensures there { CarriesAtGate shared.now to hand.old hand.new }
    ensures heard { OnOk result (from ≢ to → HasHeard hand.old hand.new to from) }
{
    if from == to {
        return Ok(());
    }
    match say_and_hear(rt, alloc, hand, shared, from, to) {
        Ok(()) => Ok(()),
        Err(_) => Err(AllocError),
    }
}

/// A gatekeeper sends an empty message to a shard, unless a transaction is in flight at it.
pub(crate) fn send_empty<R: Wait>(
    rt: &R,
    alloc: Global,
    hand: &mut Hand,
    shared: &Shared,
    gate: u32,
    shard: u32,
) -> Result<(), AllocError>
    requires hand { IsHand shared.now hand.old }
    requires gate { gate < gate_count shared.now }
    requires shard { shard < shard_count shared.now }
    ensures { CarriesAtGate shared.now gate hand.old hand.new }
{
    match nop(rt, alloc, hand, shared, gate, shard) {
        Ok(()) => Ok(()),
        Err(HandFault::Memory) => Err(AllocError),
        Err(_) => Ok(()),
    }
}

// A gatekeeper hears a program's home, unless it is its home, and sends an empty message to a shard.
fn nudge_gate<R: Wait>(
    rt: &R,
    alloc: Global,
    hand: &mut Hand,
    shared: &Shared,
    home: u32,
    gate: u32,
    shard: u32,
) -> Result<(), AllocError>
    requires hand { IsHand shared.now hand.old }
    requires home { home < gate_count shared.now }
    requires gate { gate < gate_count shared.now }
    requires shard { shard < shard_count shared.now }
    ensures there { CarriesAtGate shared.now gate hand.old hand.new }
    ensures heard { OnOk result (home ≢ gate → HasHeard hand.old hand.new gate home) }
{
    tell(rt, alloc, hand, shared, home, gate)?;
    send_empty(rt, alloc, hand, shared, gate, shard)
}

/// Each gatekeeper, but not a program's home, hears the home's clock, as it is now. Each sends an empty message to the
/// shard, unless a transaction is in flight at it. Then the shard takes a turn. It may wait. The one error is out of
/// memory.
pub fn nudge<R: Wait>(
    rt: &R,
    alloc: Global,
    hand: &mut Hand,
    shared: &Shared,
    gates: u32,
    home: u32,
    shard: u32,
    brought: &mut Brought,
) -> Result<(), AllocError>
    requires hand { IsHand shared.now hand.old }
    requires gates { gates ≤ gate_count shared.now }
    requires home { home < gate_count shared.now }
    requires shard { shard < shard_count shared.now }
    ensures carries { Carries shared.now hand.old hand.new }
    ensures there { IsAtNoOtherShard shard hand.old hand.new }
    ensures heard { OnOk result (HaveHeardBelow gates home hand.old hand.new) }
{
    for gate in 0..gates {
        nudge_gate(rt, alloc, hand, shared, home, gate, shard)?;
    }
    turn_shard(rt, alloc, hand, shared, gates, shard, brought)
}
