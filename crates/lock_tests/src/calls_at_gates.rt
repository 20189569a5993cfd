//! A worker's calls at gatekeepers.
ghost use Rattle.std.specs.Prelude.{◌≡◌, ◌<◌, ◌≤◌, Some, IfOk};
ghost use Rattle.std.specs.Option.{ForSome};
ghost use Rattle.seen_logs.specs.References.{ArrivesAsSeen};
ghost use Rattle.weaver_locks.specs.GateHolds.{MaySend};
ghost use Rattle.weaver_locks.specs.Following.{IsInFlight, MayJudge};
ghost use Rattle.weaver_locks.specs.Hands.{hand_number, seen_by};
ghost use Rattle.weaver_locks.specs.Locks.{gate_count, shard_count};
ghost use Rattle.lock_tests.specs.Workers.{IsWorker};

use crate::calls::workers_keep_their_laws;
use crate::worker::{Walk, Worker};
use gatekeeper::GateFault;
use graph_ops::Op;
use std::alloc::{AllocError, Global};
use std::process::Abort;
use std::sync::Wait;
use vector_stamp::{Clock, Stamp};
use weave_data::Name;
use weave_entries::{Message, Verdict};
use weaver_locks::Shared;
use weaver_locks::laws::calls_follow_each_other;

/// Begins a transaction that the hand has not begun. It may wait.
pub fn begin_tx<R: Wait>(
    rt: &R,
    alloc: Global,
    shared: &Shared,
    me: &mut Worker,
    gate: u32,
    request: u32,
    last: Option<Stamp>,
) -> Result<Stamp, GateFault>
    requires worker { IsWorker shared.now me.old }
    requires gate { gate < gate_count shared.now }
    requires request { me.old.next ≤ request }
    requires last { ForSome last (λ stamp. me.old.last ≡ Some stamp) }
    ensures worker { IsWorker shared.now me.new }
    ensures number { hand_number me.new.hand ≡ hand_number me.old.hand }
    ensures judge { IfOk result (λ stamp. MayJudge me.new.hand request stamp) }
    ensures flies { IfOk result (λ stamp. IsInFlight me.new.hand gate request stamp) }
{
    workers_keep_their_laws();
    calls_follow_each_other();
    let stamp = match shared.begin_tx(rt, alloc, &mut me.hand, gate, request, last) {
        Ok(stamp) => stamp,
        Err(fault) => return Err(fault),
    };
    me.next = u64::from(request) + 1;
    me.last = Some(stamp);
    Ok(stamp)
}

/// Begins a program that shows a vertex, and that the hand has not begun. It may wait.
pub fn begin_program<R: Wait>(
    rt: &R,
    alloc: Global,
    shared: &Shared,
    me: &mut Worker,
    gate: u32,
    request: u32,
    last: Option<Stamp>,
    vertex: Name,
) -> Result<Stamp, AllocError>
    requires worker { IsWorker shared.now me.old }
    requires gate { gate < gate_count shared.now }
    requires request { me.old.next ≤ request }
    requires last { ForSome last (λ stamp. me.old.last ≡ Some stamp) }
    ensures worker { IsWorker shared.now me.new }
    ensures number { hand_number me.new.hand ≡ hand_number me.old.hand }
{
    workers_keep_their_laws();
    let stamp = match shared.begin_program(rt, alloc, &mut me.hand, gate, request, last) {
        Ok(stamp) => stamp,
        Err(fault) => return Err(fault),
    };
    me.next = u64::from(request) + 1;
    me.last = Some(stamp);
    me.walk = Some(Walk {
        home: gate,
        request,
        stamp,
        vertex,
    });
    Ok(stamp)
}

/// Sends what was judged. It may wait.
pub fn send<R: Wait>(
    rt: &R,
    alloc: Global,
    shared: &Shared,
    me: &mut Worker,
    gate: u32,
    ops: &[Op],
    verdict: &Verdict,
) -> Result<(), GateFault>
    requires worker { IsWorker shared.now me.old }
    requires gate { gate < gate_count shared.now }
    requires judged { MaySend (seen_by me.old.hand) (hand_number me.old.hand) gate ops.now verdict.now }
    ensures worker { IsWorker shared.now me.new }
    ensures number { hand_number me.new.hand ≡ hand_number me.old.hand }
{
    workers_keep_their_laws();
    shared.send(rt, alloc, &mut me.hand, gate, ops, verdict)
}

// The request is one of those below this number.
fn begun_before(rt: &impl Abort, request: u32, next: u64)
    ensures { request < next }
{
    if u64::from(request) >= next {
        panic!(rt; "it was not begun");
    }
}

/// Finishes the program that has read all that it reads. It may wait.
pub fn finish<R: Wait + Abort>(
    rt: &R,
    alloc: Global,
    shared: &Shared,
    me: &mut Worker,
    gate: u32,
) -> Result<(), GateFault>
    requires worker { IsWorker shared.now me.old }
    requires gate { gate < gate_count shared.now }
    ensures worker { IsWorker shared.now me.new }
    ensures number { hand_number me.new.hand ≡ hand_number me.old.hand }
{
    workers_keep_their_laws();
    let Some(request) = me.ended else {
        panic!(rt; "no program has read");
    };
    begun_before(rt, request, me.next);
    me.walk = None;
    shared.finish(rt, alloc, &mut me.hand, gate, request)
}

/// Sends an empty message. It may wait.
pub fn nop<R: Wait>(
    rt: &R,
    alloc: Global,
    shared: &Shared,
    me: &mut Worker,
    gate: u32,
    shard: u32,
) -> Result<u64, GateFault>
    requires worker { IsWorker shared.now me.old }
    requires gate { gate < gate_count shared.now }
    requires shard { shard < shard_count shared.now }
    ensures worker { IsWorker shared.now me.new }
    ensures number { hand_number me.new.hand ≡ hand_number me.old.hand }
{
    workers_keep_their_laws();
    shared.nop(rt, alloc, &mut me.hand, gate, shard)
}

/// Asks a gatekeeper for its clock, and keeps it. It may wait.
pub fn say<R: Wait>(rt: &R, shared: &Shared, me: &mut Worker, gate: u32) -> Clock
    requires worker { IsWorker shared.now me.old }
    requires gate { gate < gate_count shared.now }
    ensures worker { IsWorker shared.now me.new }
    ensures number { hand_number me.new.hand ≡ hand_number me.old.hand }
{
    workers_keep_their_laws();
    let clock = shared.say(rt, &mut me.hand, gate);
    me.said = Some(clock);
    clock
}

/// A gatekeeper hears the clock that was said last. It may wait.
pub fn hear<R: Wait + Abort>(
    rt: &R,
    alloc: Global,
    shared: &Shared,
    me: &mut Worker,
    gate: u32,
) -> Result<(), AllocError>
    requires worker { IsWorker shared.now me.old }
    requires gate { gate < gate_count shared.now }
    ensures worker { IsWorker shared.now me.new }
    ensures number { hand_number me.new.hand ≡ hand_number me.old.hand }
{
    workers_keep_their_laws();
    let Some(clock) = me.said else {
        panic!(rt; "nothing was said");
    };
    shared.hear(rt, alloc, &mut me.hand, gate, &clock)
}

/// A copy of a message. It may wait.
pub fn fetch<R: Wait>(
    rt: &R,
    alloc: Global,
    shared: &Shared,
    me: &mut Worker,
    gate: u32,
    shard: u32,
    number: u64,
) -> Result<Option<Message>, AllocError>
    requires worker { IsWorker shared.now me.old }
    requires gate { gate < gate_count shared.now }
    ensures worker { IsWorker shared.now me.new }
    ensures number { hand_number me.new.hand ≡ hand_number me.old.hand }
    ensures seen { IfOk result (λ found. ForSome found (λ message.
        ArrivesAsSeen (seen_by me.new.hand) (shard_count shared.now) shard gate number message)) }
{
    workers_keep_their_laws();
    shared.fetch(rt, alloc, &mut me.hand, gate, shard, number)
}
