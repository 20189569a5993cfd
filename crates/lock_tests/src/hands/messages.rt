//! A worker's calls that begin nothing: on clocks and messages.
ghost use Rattle.std.specs.Prelude.{◌≡◌, ◌<◌, ◌≤◌};
ghost use Rattle.weaver_locks.specs.Hands.{hand_number};
ghost use Rattle.weaver_locks.specs.Locks.{gate_count, shard_count};
ghost use Rattle.lock_tests.specs.ReadyWorkers.{IsReadyWorker};

use crate::hands::calls::workers_keep_their_laws;
use crate::hands::worker::Worker;
use std::alloc::Global;
use std::sync::Wait;
use weaver_hands::HandFault;
use weaver_hands::laws::calls_leave_others_alone;
use weaver_locks::Shared;

/// Brings a message to a shard. It may wait.
pub fn pull<R: Wait>(
    rt: &R,
    alloc: Global,
    shared: &Shared,
    me: &mut Worker,
    gate: u32,
    shard: u32,
    number: u64,
) -> Result<bool, HandFault>
    requires worker { IsReadyWorker shared.now me.old }
    requires gate { gate < gate_count shared.now }
    requires shard { shard < shard_count shared.now }
    requires number { 1 ≤ number }
    ensures worker { IsReadyWorker shared.now me.new }
    ensures number { hand_number me.new.hand ≡ hand_number me.old.hand }
{
    calls_leave_others_alone();
    workers_keep_their_laws();
    weaver_hands::pull(rt, alloc, &mut me.hand, shared, gate, shard, number)
}

/// Processes the next message from a gatekeeper at a shard. It may wait.
pub fn apply<R: Wait>(
    rt: &R,
    alloc: Global,
    shared: &Shared,
    me: &mut Worker,
    shard: u32,
    gate: u32,
) -> Result<(), HandFault>
    requires worker { IsReadyWorker shared.now me.old }
    requires shard { shard < shard_count shared.now }
    requires gate { gate < gate_count shared.now }
    ensures worker { IsReadyWorker shared.now me.new }
    ensures number { hand_number me.new.hand ≡ hand_number me.old.hand }
{
    calls_leave_others_alone();
    workers_keep_their_laws();
    weaver_hands::apply(rt, alloc, &mut me.hand, shared, shard, gate)
}

/// A gatekeeper hears another. It may wait.
pub fn say_and_hear<R: Wait>(
    rt: &R,
    alloc: Global,
    shared: &Shared,
    me: &mut Worker,
    from: u32,
    to: u32,
) -> Result<(), HandFault>
    requires worker { IsReadyWorker shared.now me.old }
    requires from { from < gate_count shared.now }
    requires to { to < gate_count shared.now }
    ensures worker { IsReadyWorker shared.now me.new }
    ensures number { hand_number me.new.hand ≡ hand_number me.old.hand }
{
    calls_leave_others_alone();
    workers_keep_their_laws();
    weaver_hands::say_and_hear(rt, alloc, &mut me.hand, shared, from, to)
}

/// Sends an empty message. It may wait.
pub fn nop<R: Wait>(
    rt: &R,
    alloc: Global,
    shared: &Shared,
    me: &mut Worker,
    gate: u32,
    shard: u32,
) -> Result<(), HandFault>
    requires worker { IsReadyWorker shared.now me.old }
    requires gate { gate < gate_count shared.now }
    requires shard { shard < shard_count shared.now }
    ensures worker { IsReadyWorker shared.now me.new }
    ensures number { hand_number me.new.hand ≡ hand_number me.old.hand }
{
    calls_leave_others_alone();
    workers_keep_their_laws();
    weaver_hands::nop(rt, alloc, &mut me.hand, shared, gate, shard)
}
