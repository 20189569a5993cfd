//! Messages: pulled from a gatekeeper to a shard, and processed there.
ghost use Rattle.std.specs.Prelude.{◌≡◌, ◌<◌, ◌≤◌};
ghost use Rattle.weaver_locks.specs.Hands.{IsHand};
ghost use Rattle.weaver_locks.specs.Locks.{gate_count, shard_count};
ghost use Rattle.weaver_hands.specs.Messages.{is_sent, pulled_by, AppliesAs, BringsAs, PullsAs};

use crate::fault::{HandFault, of_shard};
use crate::lower_laws::arrivals_keep_their_laws;
use seen_logs::laws::more_is_seen;
use shard_queue::Arrival;
use std::alloc::Global;
use std::sync::Wait;
use weaver_locks::{Hand, Shared};

/// What came of a message that was to be brought from a gatekeeper to a shard.
#[derive(Clone, Copy, PartialEq, Eq, Debug)]
pub enum Pulled {
    /// The gatekeeper had not sent it.
    Unsent,
    /// It had arrived at the shard before.
    Known,
    /// It arrived by this call.
    New,
}

/// Brings the message of this number from a gatekeeper to a shard, and answers whether it was sent, and whether it had
/// arrived before. It may wait.
pub fn bring<R: Wait>(
    rt: &R,
    alloc: Global,
    hand: &mut Hand,
    shared: &Shared,
    gate: u32,
    shard: u32,
    number: u64,
) -> Result<Pulled, HandFault>
    requires hand { IsHand shared.now hand.old }
    requires gate { gate < gate_count shared.now }
    requires shard { shard < shard_count shared.now }
    requires number { 1 ≤ number }
    ensures hand { IsHand shared.now hand.new }
    ensures brought { BringsAs (shard_count shared.now) hand.old hand.new gate shard number result }
{
    arrivals_keep_their_laws();
    more_is_seen();
    let Some(message) = shared.fetch(rt, alloc, hand, gate, shard, number)? else {
        return Ok(Pulled::Unsent);
    };
    let arrival = shared.arrive(rt, alloc, hand, shard, gate, number, message)?;
    Ok(of_arrival(arrival))
}

/// Brings the message of this number from a gatekeeper to a shard, and answers whether it was sent. It may have arrived
/// before. It may wait.
pub fn pull<R: Wait>(
    rt: &R,
    alloc: Global,
    hand: &mut Hand,
    shared: &Shared,
    gate: u32,
    shard: u32,
    number: u64,
) -> Result<bool, HandFault>
    requires hand { IsHand shared.now hand.old }
    requires gate { gate < gate_count shared.now }
    requires shard { shard < shard_count shared.now }
    requires number { 1 ≤ number }
    ensures hand { IsHand shared.now hand.new }
    ensures pulled { PullsAs (shard_count shared.now) hand.old hand.new gate shard number result }
{
    match bring(rt, alloc, hand, shared, gate, shard, number) {
        Ok(pulled) => Ok(was_sent(pulled)),
        Err(fault) => Err(fault),
    }
}

// Whether the message was sent.
fn was_sent(pulled: Pulled) -> bool
    ensures { result ≡ is_sent pulled }
{
    match pulled {
        Pulled::Unsent => false,
        Pulled::Known => true,
        Pulled::New => true,
    }
}

// What came of a message that the shard took in so.
fn of_arrival(arrival: Arrival) -> Pulled
    ensures { result ≡ pulled_by arrival }
{
    match arrival {
        Arrival::Kept => Pulled::New,
        Arrival::Repeat => Pulled::Known,
    }
}

/// Processes the head of a gatekeeper's channel at a shard. It may wait.
pub fn apply<R: Wait>(
    rt: &R,
    alloc: Global,
    hand: &mut Hand,
    shared: &Shared,
    shard: u32,
    gate: u32,
) -> Result<(), HandFault>
    requires hand { IsHand shared.now hand.old }
    requires shard { shard < shard_count shared.now }
    requires gate { gate < gate_count shared.now }
    ensures hand { IsHand shared.now hand.new }
    ensures applied { AppliesAs (shard_count shared.now) hand.old hand.new shard gate result }
{
    match shared.apply(rt, alloc, hand, shard, gate) {
        Ok(()) => Ok(()),
        Err(fault) => Err(of_shard(&fault)),
    }
}
