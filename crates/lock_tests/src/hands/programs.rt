//! A worker's programs.
ghost use Rattle.std.specs.Prelude.{◌≡◌, ◌<◌, ◌≤◌, Some};
ghost use Rattle.std.specs.Option.{ForSome};
ghost use Rattle.weaver_locks.specs.Hands.{hand_number};
ghost use Rattle.weaver_locks.specs.Locks.{gate_count};
ghost use Rattle.lock_tests.specs.ReadyWorkers.{IsReadyWorker};

use crate::hands::calls::workers_keep_their_laws;
use crate::hands::worker::{Ended, Worker};
use node_program::NodeProgram;
use program_defs::Program;
use std::alloc::Global;
use std::mem;
use std::process::Abort;
use std::sync::Wait;
use vector_stamp::Stamp;
use weaver_core::{AnyProgram, Running};
use weaver_hands::HandFault;
use weaver_hands::laws::calls_leave_others_alone;
use weaver_locks::Shared;

/// Begins a program that the worker has not begun. It may wait.
pub fn start<R: Wait + Abort>(
    rt: &R,
    alloc: Global,
    shared: &Shared,
    me: &mut Worker,
    request: u32,
    gate: u32,
    program: &Program,
    last: Option<Stamp>,
) -> Stamp
    requires worker { IsReadyWorker shared.now me.old }
    requires gate { gate < gate_count shared.now }
    requires request { me.old.next ≤ request }
    requires last { ForSome last (λ stamp. me.old.last ≡ Some stamp) }
    ensures worker { IsReadyWorker shared.now me.new }
    ensures number { hand_number me.new.hand ≡ hand_number me.old.hand }
{
    calls_leave_others_alone();
    workers_keep_their_laws();
    let walk = AnyProgram::new(alloc, program).expect(rt, "memory");
    match weaver_hands::start(rt, alloc, &mut me.hand, shared, request, gate, last) {
        Ok(stamp) => {
            me.next = u64::from(request) + 1;
            me.last = Some(stamp);
            me.walk = Some(Running {
                request,
                stamp,
                walk,
            });
            stamp
        }
        Err(_) => panic!(rt; "memory"),
    }
}

/// The worker's program reads its next vertex. It may wait.
pub fn visit<R: Wait + Abort>(
    rt: &R,
    alloc: Global,
    shared: &Shared,
    me: &mut Worker,
) -> Result<(), HandFault>
    requires worker { IsReadyWorker shared.now me.old }
    ensures worker { IsReadyWorker shared.now me.new }
    ensures number { hand_number me.new.hand ≡ hand_number me.old.hand }
{
    calls_leave_others_alone();
    workers_keep_their_laws();
    let Some(mut running) = mem::replace(&mut me.walk, None) else {
        panic!(rt; "no program");
    };
    let Some(_) = running.walk.next_vertex() else {
        panic!(rt; "it has read all");
    };
    let read = weaver_hands::visit(rt, alloc, &mut me.hand, shared, &mut running);
    me.walk = Some(running);
    read
}

/// Whether the worker's program has a vertex to read.
pub fn reads_more(rt: &impl Abort, me: &Worker) -> bool {
    match &me.walk {
        Some(running) => running.walk.next_vertex().is_some(),
        None => panic!(rt; "no program"),
    }
}

/// Finishes the worker's program, and keeps its answer. It may wait.
pub fn finish<R: Wait + Abort>(rt: &R, alloc: Global, shared: &Shared, me: &mut Worker)
    requires worker { IsReadyWorker shared.now me.old }
    ensures worker { IsReadyWorker shared.now me.new }
    ensures number { hand_number me.new.hand ≡ hand_number me.old.hand }
{
    calls_leave_others_alone();
    workers_keep_their_laws();
    let Some(running) = mem::replace(&mut me.walk, None) else {
        panic!(rt; "no program");
    };
    if let Some(_) = running.walk.next_vertex() {
        panic!(rt; "it reads more");
    }
    match weaver_hands::finish(rt, alloc, &mut me.hand, shared, &running) {
        Ok(answer) => {
            let ended = Ended {
                request: running.request,
                answer,
            };
            me.ended.push(ended).expect(rt, "memory");
        }
        Err(_) => panic!(rt; "memory"),
    }
}
