//! A worker's transactions.
ghost use Rattle.std.specs.Prelude.{◌≡◌, ◌<◌, ◌≤◌, Some, length};
ghost use Rattle.std.specs.Option.{ForSome};
ghost use Rattle.weave_entries.specs.StoreRule.{ops_bound};
ghost use Rattle.weaver_locks.specs.Hands.{hand_number};
ghost use Rattle.weaver_locks.specs.Locks.{gate_count};
ghost use Rattle.lock_tests.specs.ReadyWorkers.{IsReadyWorker};

use crate::hands::calls::{only_busy, workers_keep_their_laws};
use crate::hands::worker::Worker;
use graph_ops::Op;
use std::alloc::Global;
use std::process::Abort;
use std::sync::Wait;
use vector_stamp::Stamp;
use weave_entries::Verdict;
use weaver_hands::laws::calls_leave_others_alone;
use weaver_locks::Shared;

/// Does a transaction that the worker has not begun, unless its gatekeeper is busy. It may wait.
pub fn transact<R: Wait + Abort>(
    rt: &R,
    alloc: Global,
    shared: &Shared,
    me: &mut Worker,
    request: u32,
    gate: u32,
    ops: &[Op],
    last: Option<Stamp>,
) -> Option<(Stamp, Verdict)>
    requires worker { IsReadyWorker shared.now me.old }
    requires gate { gate < gate_count shared.now }
    requires request { me.old.next ≤ request }
    requires few { length ops.now < ops_bound }
    requires last { ForSome last (λ stamp. me.old.last ≡ Some stamp) }
    ensures worker { IsReadyWorker shared.now me.new }
    ensures number { hand_number me.new.hand ≡ hand_number me.old.hand }
{
    calls_leave_others_alone();
    workers_keep_their_laws();
    match weaver_hands::transact(rt, alloc, &mut me.hand, shared, request, gate, ops, last) {
        Ok(done) => {
            me.next = u64::from(request) + 1;
            me.last = Some(done.0);
            Some(done)
        }
        Err(fault) => {
            only_busy(rt, fault);
            None
        }
    }
}

/// Begins a transaction that the worker has not begun, and leaves it in flight. The worker gives up its program. It may
/// wait.
pub fn begin<R: Wait>(
    rt: &R,
    alloc: Global,
    shared: &Shared,
    me: &mut Worker,
    request: u32,
    gate: u32,
) -> Option<Stamp>
    requires worker { IsReadyWorker shared.now me.old }
    requires gate { gate < gate_count shared.now }
    requires request { me.old.next ≤ request }
    ensures worker { IsReadyWorker shared.now me.new }
    ensures number { hand_number me.new.hand ≡ hand_number me.old.hand }
{
    workers_keep_their_laws();
    me.walk = None;
    match shared.begin_tx(rt, alloc, &mut me.hand, gate, request, None) {
        Ok(stamp) => {
            me.next = u64::from(request) + 1;
            me.last = Some(stamp);
            Some(stamp)
        }
        Err(_) => None,
    }
}
