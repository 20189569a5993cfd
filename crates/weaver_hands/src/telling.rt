//! Clocks and empty messages.
ghost use Rattle.std.specs.Prelude.{◌<◌};
ghost use Rattle.weaver_locks.specs.Hands.{IsHand};
ghost use Rattle.weaver_locks.specs.Locks.{gate_count, shard_count};
ghost use Rattle.weaver_hands.specs.Telling.{NopsAs, TellsAs};

use crate::fault::{HandFault, of_gate};
use seen_logs::laws::more_is_seen;
use std::alloc::Global;
use std::sync::Wait;
use weaver_locks::{Hand, Shared};

/// A gatekeeper hears the clock of another, as that one says it now. It may wait.
pub fn say_and_hear<R: Wait>(
    rt: &R,
    alloc: Global,
    hand: &mut Hand,
    shared: &Shared,
    from: u32,
    to: u32,
) -> Result<(), HandFault>
    requires hand { IsHand shared.now hand.old }
    requires from { from < gate_count shared.now }
    requires to { to < gate_count shared.now }
    ensures hand { IsHand shared.now hand.new }
    ensures told { TellsAs (shard_count shared.now) hand.old hand.new from to result }
{
    more_is_seen();
    let clock = shared.say(rt, hand, from);
    shared.hear(rt, alloc, hand, to, &clock)?;
    Ok(())
}

/// A gatekeeper sends an empty message to a shard. It may wait.
pub fn nop<R: Wait>(
    rt: &R,
    alloc: Global,
    hand: &mut Hand,
    shared: &Shared,
    gate: u32,
    shard: u32,
) -> Result<(), HandFault>
    requires hand { IsHand shared.now hand.old }
    requires gate { gate < gate_count shared.now }
    requires shard { shard < shard_count shared.now }
    ensures hand { IsHand shared.now hand.new }
    ensures sent { NopsAs (shard_count shared.now) hand.old hand.new gate shard result }
{
    match shared.nop(rt, alloc, hand, gate, shard) {
        Ok(_) => Ok(()),
        Err(fault) => Err(of_gate(fault)),
    }
}
