//! A transaction: begun, judged and sent.
ghost use Rattle.std.specs.Prelude.{◌<◌, length};
ghost use Rattle.std.specs.Option.{ForSome};
ghost use Rattle.weave_entries.specs.StoreRule.{ops_bound};
ghost use Rattle.weaver_locks.specs.Following.{HasNotBegun, MayHear};
ghost use Rattle.weaver_locks.specs.Hands.{IsHand};
ghost use Rattle.weaver_locks.specs.Locks.{gate_count, shard_count};
ghost use Rattle.weaver_hands.specs.Transactions.{TransactsAs};

use crate::fault::{HandFault, of_gate, out_of_memory};
use graph_ops::Op;
use std::alloc::Global;
use std::sync::Wait;
use vector_stamp::Stamp;
use weave_entries::Verdict;
use weaver_locks::laws::{
    begun_stamps_may_be_heard, calls_follow_each_other, own_entries_are_those_seen,
    what_was_begun_goes_on,
};
use weaver_locks::{Hand, Shared};

/// Begins a transaction at a gatekeeper after its session's last stamp, has it judged, and sends it. It may wait.
pub fn transact<R: Wait>(
    rt: &R,
    alloc: Global,
    hand: &mut Hand,
    shared: &Shared,
    request: u32,
    gate: u32,
    ops: &[Op],
    last: Option<Stamp>,
) -> Result<(Stamp, Verdict), HandFault>
    requires hand { IsHand shared.now hand.old }
    requires gate { gate < gate_count shared.now }
    requires new { HasNotBegun hand.old request }
    requires few { length ops.now < ops_bound }
    requires last { ForSome last (λ heard. MayHear shared.now hand.old heard) }
    ensures hand { IsHand shared.now hand.new }
    ensures done { TransactsAs (shard_count shared.now) hand.old hand.new gate request ops.now last result }
{
    begun_stamps_may_be_heard();
    calls_follow_each_other();
    own_entries_are_those_seen();
    what_was_begun_goes_on();
    let stamp = match shared.begin_tx(rt, alloc, hand, gate, request, last) {
        Ok(stamp) => stamp,
        Err(fault) => return Err(of_gate(fault)),
    };
    let verdict = shared.commit(rt, alloc, hand, request, stamp, ops)?;
    match shared.send(rt, alloc, hand, gate, ops, &verdict) {
        Ok(()) => Ok((stamp, verdict)),
        Err(fault) => Err(out_of_memory(fault)),
    }
}
