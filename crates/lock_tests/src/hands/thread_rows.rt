//! Four hands on threads: whatever the schedule was, the report of the closed logs is right.
ghost use Rattle.std.specs.Prelude.{◌<◌};

use crate::hands::bench::{close, open};
use crate::hands::many::{REQUESTS, many_requests};
use crate::hands::right_report::{answers_of, right_report, script_of};
use crate::hands::threads::work_all;
use program_defs::Script;
use std::alloc::Global;
use std::process::Abort;
use std::sync::Wait;
use std::thread::Threads;
use weaver_locks::Closed;

// Each transaction was judged, and each program was finished.
fn check_counts(rt: &impl Abort, closed: &Closed, finished: usize) {
    let programs = (REQUESTS / 11) as usize;
    let transactions = (REQUESTS as usize).saturating_sub(programs);
    assert!(rt; finished == programs, "{finished} programs");
    let judged = closed.store.log().len();
    assert!(rt; judged == transactions, "{judged} transactions");
}

// Four hands work through the script, and the report of their logs is right.
fn four_hands<R: Threads + Wait + Sync + Abort>(
    rt: &R,
    alloc: Global,
    script: &Script,
    threads: usize,
)
    requires { 0 < threads }
{
    let (shared, mut workers) = open(rt, alloc, 2, 2, 4);
    work_all(rt, alloc, &shared, script, &mut workers, threads, REQUESTS);
    let ended = answers_of(rt, alloc, workers.as_slice());
    let closed = close(rt, alloc, shared, workers);
    check_counts(rt, &closed, ended.len());
    right_report(rt, alloc, script, &closed, ended.as_slice());
}

// So it is each time.
fn four_hands_often<R: Threads + Wait + Sync + Abort>(
    rt: &R,
    alloc: Global,
    threads: usize,
    times: u32,
)
    requires { 0 < threads }
{
    let text = many_requests(rt, alloc);
    let script = script_of(rt, alloc, text.as_slice());
    for _ in 0..times {
        four_hands(rt, alloc, &script, threads);
    }
}

#[test]
fn four_hands_on_two_threads(rt: HostRuntime) {
    four_hands_often(&rt, rt.alloc(), 2, 5);
}

#[test]
fn four_hands_on_four_threads(rt: HostRuntime) {
    four_hands_often(&rt, rt.alloc(), 4, 20);
}
