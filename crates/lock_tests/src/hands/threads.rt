//! Hands on threads, each with the requests of a session of its own, on vertices in common. No schedule is assumed, and
//! no time is measured.
ghost use Rattle.std.specs.Prelude.{◌≡◌, ◌<◌, ◌≤◌, ℕ, All, length, slice_index_or, vec_len};
ghost use Rattle.weaver_locks.specs.Hands.{hand_number};
ghost use Rattle.weaver_locks.specs.Locks.{gate_count, shard_count};
ghost use Rattle.lock_tests.specs.ReadyWorkers.{AreWorkers, IsReadyWorker};

use crate::calls::{gate_of, shard_of};
use crate::hands::calls::not_begun;
use crate::hands::messages::{apply, nop, pull, say_and_hear};
use crate::hands::play::{ops_of, program_of, request_of};
use crate::hands::programs::{finish, reads_more, start, visit};
use crate::hands::transactions::transact;
use crate::hands::worker::Worker;
use program_defs::{Program, Request, Script, Work};
use std::alloc::Global;
use std::process::Abort;
use std::sync::Wait;
use std::thread;
use std::thread::{Threads, yield_now};
use weaver_hands::HandFault;
use weaver_locks::Shared;

// How often a call is tried again before a test gives up.
const TRIES: u32 = 50_000_000;

// The number of the message that the hand brings next on each channel: two gatekeepers at the first shard, and two at
// the second.
#[derive(Drop)]
struct Channels {
    next: [u64; 4],
}

impl Channels {
    fn at(&self, gate: u32, shard: u32) -> u64
        ensures { 1 ≤ result }
    {
        let place = shard.wrapping_mul(2).wrapping_add(gate) as usize;
        match self.next.get(place) {
            Some(number) => (*number).max(1),
            None => 1,
        }
    }

    fn brought(&mut self, gate: u32, shard: u32) {
        let place = shard.wrapping_mul(2).wrapping_add(gate) as usize;
        if let Some(number) = self.next.get_mut(place) {
            *number = number.saturating_add(1);
        }
    }
}

// Does a transaction once its gatekeeper is free.
fn transact_when_free<R: Wait + Abort>(
    rt: &R,
    alloc: Global,
    shared: &Shared,
    me: &mut Worker,
    request: u32,
    asked: &Request,
)
    requires gates { gate_count shared.now ≡ 2 }
    requires worker { IsReadyWorker shared.now me.old }
    ensures worker { IsReadyWorker shared.now me.new }
    ensures number { hand_number me.new.hand ≡ hand_number me.old.hand }
{
    let ops = ops_of(rt, asked);
    let gate = gate_of(rt, asked.gate);
    for _ in 0..TRIES {
        let request = not_begun(rt, me, request);
        let last = me.last;
        if let Some(_) = transact(rt, alloc, shared, me, request, gate, ops, last) {
            return;
        }
        yield_now();
    }
    panic!(rt; "its gatekeeper is never free");
}

// Brings all that the gatekeeper has sent to the shard.
fn bring<R: Wait + Abort>(
    rt: &R,
    alloc: Global,
    shared: &Shared,
    me: &mut Worker,
    channels: &mut Channels,
    gate: u32,
    shard: u32,
)
    requires gate { gate < gate_count shared.now }
    requires shard { shard < shard_count shared.now }
    requires worker { IsReadyWorker shared.now me.old }
    ensures worker { IsReadyWorker shared.now me.new }
    ensures number { hand_number me.new.hand ≡ hand_number me.old.hand }
{
    for _ in 0..TRIES {
        let number = channels.at(gate, shard);
        match pull(rt, alloc, shared, me, gate, shard, number) {
            Ok(true) => channels.brought(gate, shard),
            Ok(false) => return,
            Err(_) => panic!(rt; "memory"),
        }
    }
    panic!(rt; "its messages never end");
}

// Processes what the gatekeeper sent as far as can be.
fn process<R: Wait + Abort>(
    rt: &R,
    alloc: Global,
    shared: &Shared,
    me: &mut Worker,
    gate: u32,
    shard: u32,
)
    requires gate { gate < gate_count shared.now }
    requires shard { shard < shard_count shared.now }
    requires worker { IsReadyWorker shared.now me.old }
    ensures worker { IsReadyWorker shared.now me.new }
    ensures number { hand_number me.new.hand ≡ hand_number me.old.hand }
{
    for _ in 0..TRIES {
        match apply(rt, alloc, shared, me, shard, gate) {
            Ok(()) => {}
            Err(HandFault::Memory) => panic!(rt; "memory"),
            Err(_) => return,
        }
    }
    panic!(rt; "its messages never end");
}

// The gatekeeper hears the home of the hand's program and sends an empty message to the shard, unless it is busy. Then
// what both gatekeepers sent is brought and processed.
fn nudge<R: Wait + Abort>(
    rt: &R,
    alloc: Global,
    shared: &Shared,
    me: &mut Worker,
    channels: &mut Channels,
    home: u32,
    gate: u32,
    shard: u32,
)
    requires gates { gate_count shared.now ≡ 2 }
    requires home { home < 2 }
    requires gate { gate < 2 }
    requires shard { shard < shard_count shared.now }
    requires worker { IsReadyWorker shared.now me.old }
    ensures worker { IsReadyWorker shared.now me.new }
    ensures number { hand_number me.new.hand ≡ hand_number me.old.hand }
{
    let told = say_and_hear(rt, alloc, shared, me, home, gate);
    only_done(rt, told);
    if let Err(HandFault::Busy) = nop(rt, alloc, shared, me, gate, shard) {
        yield_now();
    }
    for from in 0..2u32 {
        bring(rt, alloc, shared, me, channels, gate_of(rt, from), shard);
    }
    for from in 0..4u32 {
        process(rt, alloc, shared, me, from % 2, shard);
    }
}

fn only_done(rt: &impl Abort, done: Result<(), HandFault>) {
    if let Err(_) = done {
        panic!(rt; "memory");
    }
}

// The program reads all that it visits, each vertex once its shard is ready, and is finished.
fn walk<R: Wait + Abort>(
    rt: &R,
    alloc: Global,
    shared: &Shared,
    me: &mut Worker,
    channels: &mut Channels,
    home: u32,
)
    requires gates { gate_count shared.now ≡ 2 }
    requires home { home < 2 }
    requires worker { IsReadyWorker shared.now me.old }
    ensures worker { IsReadyWorker shared.now me.new }
    ensures number { hand_number me.new.hand ≡ hand_number me.old.hand }
{
    for _ in 0..TRIES {
        if !reads_more(rt, me) {
            finish(rt, alloc, shared, me);
            return;
        }
        match visit(rt, alloc, shared, me) {
            Ok(()) => {}
            Err(fault) => {
                let (shard, gate) = not_yet(rt, &fault);
                let shard = shard_of(rt, shared, shard);
                let gate = gate_of(rt, gate);
                nudge(rt, alloc, shared, me, channels, home, gate, shard);
            }
        }
    }
    panic!(rt; "its shards are never ready");
}

// The shard and the gatekeeper of a visit that was refused.
fn not_yet(rt: &impl Abort, fault: &HandFault) -> (u32, u32) {
    match fault {
        HandFault::NotYet { shard, gate } => (*shard, *gate),
        _ => panic!(rt; "memory"),
    }
}

// A program from its begin to its end.
fn run_program<R: Wait + Abort>(
    rt: &R,
    alloc: Global,
    shared: &Shared,
    me: &mut Worker,
    channels: &mut Channels,
    request: u32,
    gate: u32,
    program: &Program,
)
    requires gates { gate_count shared.now ≡ 2 }
    requires worker { IsReadyWorker shared.now me.old }
    ensures worker { IsReadyWorker shared.now me.new }
    ensures number { hand_number me.new.hand ≡ hand_number me.old.hand }
{
    let home = gate_of(rt, gate);
    let request = not_begun(rt, me, request);
    let last = me.last;
    start(rt, alloc, shared, me, request, home, program, last);
    walk(rt, alloc, shared, me, channels, home);
}

// A request from its begin to its end. After some of the transactions one gatekeeper hears the other.
fn serve<R: Wait + Abort>(
    rt: &R,
    alloc: Global,
    shared: &Shared,
    script: &Script,
    me: &mut Worker,
    channels: &mut Channels,
    request: u32,
)
    requires gates { gate_count shared.now ≡ 2 }
    requires worker { IsReadyWorker shared.now me.old }
    ensures worker { IsReadyWorker shared.now me.new }
    ensures number { hand_number me.new.hand ≡ hand_number me.old.hand }
{
    let asked = request_of(rt, script, request);
    match &asked.work {
        Work::Change(_) => {
            transact_when_free(rt, alloc, shared, me, request, asked);
            if request % 9 == 0 {
                let told = say_and_hear(rt, alloc, shared, me, request % 2, request / 4 % 2);
                only_done(rt, told);
            }
        }
        Work::Look(program) => run_program(
            rt, alloc, shared, me, channels, request, asked.gate, program,
        ),
    }
}

// The requests of a hand: its number, and each fourth number from there.
fn work<R: Wait + Abort>(
    rt: &R,
    alloc: Global,
    shared: &Shared,
    script: &Script,
    me: &mut Worker,
    number: u32,
    requests: u32,
)
    requires gates { gate_count shared.now ≡ 2 }
    requires worker { IsReadyWorker shared.now me.old }
    ensures worker { IsReadyWorker shared.now me.new }
    ensures number { hand_number me.new.hand ≡ hand_number me.old.hand }
{
    let mut channels = Channels { next: [1, 1, 1, 1] };
    for request in 0..requests {
        if request % 4 == number {
            serve(rt, alloc, shared, script, me, &mut channels, request);
        }
    }
}

/// Each hand works, on this many threads, or on fewer if no more can be made.
pub fn work_side_by_side<R: Threads + Wait + Sync + Abort>(
    rt: &R,
    alloc: Global,
    shared: &Shared,
    script: &Script,
    workers: &mut [Worker],
    threads: usize,
    requests: u32,
)
    requires threads { 0 < threads }
    requires gates { gate_count shared.now ≡ 2 }
    requires workers { All (IsReadyWorker shared.now) workers.old }
    ensures ready { All (IsReadyWorker shared.now) workers.new }
    ensures numbers { (k : ℕ) (w : _) → k < length workers.old
        → hand_number (slice_index_or workers.new k w).hand
        ≡ hand_number (slice_index_or workers.old k w).hand }
{
    thread::for_each_mut(
        rt,
        workers,
        threads,
        &|place, worker: &mut Worker|
            requires { (gate_count shared.now ≡ 2) × IsReadyWorker shared.now worker.old }
            ensures { IsReadyWorker shared.entry.now worker.new
                × (hand_number worker.new.hand ≡ hand_number worker.old.hand) }
        {
            work(
                rt,
                alloc,
                shared,
                script,
                worker,
                (place % 4) as u32,
                requests,
            );
        },
    );
}

/// All hands work, and are then workers as they were.
pub fn work_all<R: Threads + Wait + Sync + Abort>(
    rt: &R,
    alloc: Global,
    shared: &Shared,
    script: &Script,
    workers: &mut Vec<Worker>,
    threads: usize,
    requests: u32,
)
    requires threads { 0 < threads }
    requires gates { gate_count shared.now ≡ 2 }
    requires workers { AreWorkers shared.now workers.old.items }
    ensures workers { AreWorkers shared.now workers.new.items }
    ensures count { vec_len workers.new ≡ vec_len workers.old }
{
    work_side_by_side(
        rt,
        alloc,
        shared,
        script,
        workers.as_mut_slice(),
        threads,
        requests,
    );
}
