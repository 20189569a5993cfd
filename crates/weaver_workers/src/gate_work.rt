//! A gatekeeper's turn.
ghost use Rattle.std.specs.Prelude.{◌<◌, ◌≤◌, OnOk};
ghost use Rattle.weaver_locks.specs.Hands.{IsHand};
ghost use Rattle.weaver_locks.specs.Locks.{gate_count, shard_count};
ghost use Rattle.weaver_workers.specs.Carrying.{AreTold, CarriesAtGate, IsUpToDateBelow};

use crate::hearing::hear_news;
use crate::nudging::send_empty;
use std::alloc::{AllocError, Global};
use std::sync::Wait;
use vector_stamp::Clock;
use weaver_locks::{Hand, Shared};

/// A turn of a gatekeeper: it hears the other gatekeepers, and sends an empty message to each shard if it is to. A
/// clock that it has from this worker is not heard again: `last` has the clock of each other one that it heard last. A
/// shard is left out while a transaction is in flight at the gatekeeper. It may wait. The one error is out of memory.
pub fn turn_gate<R: Wait>(
    rt: &R,
    alloc: Global,
    hand: &mut Hand,
    shared: &Shared,
    gates: u32,
    shards: u32,
    gate: u32,
    sends: bool,
    last: &mut Vec<Option<Clock>>,
) -> Result<(), AllocError>
    requires hand { IsHand shared.now hand.old }
    requires gates { gates ≤ gate_count shared.now }
    requires shards { shards ≤ shard_count shared.now }
    requires gate { gate < gate_count shared.now }
    requires told { AreTold hand.old gate last.old.items }
    ensures there { CarriesAtGate shared.now gate hand.old hand.new }
    ensures told { OnOk result (AreTold hand.new gate last.new.items) }
    ensures heard { OnOk result (IsUpToDateBelow gates gate hand.old hand.new) }
{
    hear_others(rt, alloc, hand, shared, gates, gate, last)?;
    if sends {
        return send_to_all(rt, alloc, hand, shared, shards, gate);
    }
    Ok(())
}

// The gatekeeper hears each other one, unless it has just that clock.
fn hear_others<R: Wait>(
    rt: &R,
    alloc: Global,
    hand: &mut Hand,
    shared: &Shared,
    gates: u32,
    gate: u32,
    last: &mut Vec<Option<Clock>>,
) -> Result<(), AllocError>
    requires hand { IsHand shared.now hand.old }
    requires gates { gates ≤ gate_count shared.now }
    requires gate { gate < gate_count shared.now }
    requires told { AreTold hand.old gate last.old.items }
    ensures there { CarriesAtGate shared.now gate hand.old hand.new }
    ensures told { OnOk result (AreTold hand.new gate last.new.items) }
    ensures heard { OnOk result (IsUpToDateBelow gates gate hand.old hand.new) }
{
    for other in 0..gates {
        hear_news(rt, alloc, hand, shared, other, gate, last)?;
    }
    Ok(())
}

// The gatekeeper sends an empty message to each shard.
fn send_to_all<R: Wait>(
    rt: &R,
    alloc: Global,
    hand: &mut Hand,
    shared: &Shared,
    shards: u32,
    gate: u32,
) -> Result<(), AllocError>
    requires hand { IsHand shared.now hand.old }
    requires shards { shards ≤ shard_count shared.now }
    requires gate { gate < gate_count shared.now }
    ensures { CarriesAtGate shared.now gate hand.old hand.new }
{
    for shard in 0..shards {
        send_empty(rt, alloc, hand, shared, gate, shard)?;
    }
    Ok(())
}
