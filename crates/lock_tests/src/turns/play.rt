//! The calls of the workers of a phase as values.
ghost use Rattle.std.specs.Prelude.{◌≡◌};
ghost use Rattle.weaver_locks.specs.Locks.{gate_count};
ghost use Rattle.weaver_workers.specs.Workers.{IsIdleHand, IsReadyForPhase};
ghost use Rattle.lock_tests.specs.Turns.{IsBench, IsReadySeat};
ghost use Rattle.lock_tests.specs.Workers.{IsPlayer};

use crate::calls::{gate_of, shard_of};
use crate::turns::pace::{CountedTurns, Hold};
use crate::turns::seat::Seat;
use crate::worker::Player;
use crate::{play, values};
use program_defs::Script;
use std::alloc::Global;
use std::process::Abort;
use std::sync::Wait;
use weaver_locks::{Hand, Shared};
use weaver_workers::{Brought, WorkKind, Worker, nudge, turn_gate, turn_shard};

/// A call of a hand. Turns and nudges are made by the hand of a gatekeeper's or a shard's worker.
#[derive(Clone, Copy)]
pub enum Call<'a> {
    /// It does its part of the phase. The pace is to be told this kind and index. The words say how it ends, and after
    /// how many turns.
    Go(WorkKind, u32, &'a str),
    /// A turn of this gatekeeper, and whether it sends empty messages in it.
    TurnGate(u32, bool),
    /// A turn of this shard.
    TurnShard(u32),
    /// A nudge for a program of this home at this shard.
    Nudge(u32, u32),
    /// A call of a hand that is no worker's, and what it answers.
    Play(values::Call<'a>, &'a str),
    /// Nothing, until this many workers are held.
    Await(u64),
    /// All workers that are held may go on.
    Release,
}

/// The number of a hand, and its call.
pub type Row<'a> = (usize, Call<'a>);

// The worker does its part of the first phase.
fn go<R: Wait + Abort>(
    rt: &R,
    alloc: Global,
    shared: &Shared,
    script: &Script,
    worker: &mut Worker,
    pace: &CountedTurns,
    expected: &str,
)
    requires bench { IsBench script.now shared.now }
    requires ready { IsReadyForPhase shared.now script.now 0 worker.old }
    ensures { IsReadyForPhase shared.now script.now 0 worker.new }
{
    let ended = worker
        .go(rt, alloc, shared, script, 0, pace)
        .expect(rt, "memory");
    let Some(turns) = pace.turns() else {
        panic!(rt; "a turn was not the pace's next one");
    };
    let said = format!(in alloc; "{ended:?} after {turns}").expect(rt, "memory");
    assert!(rt; said.as_str() == expected, "{said}");
}

fn take_gates_turn<R: Wait + Abort>(
    rt: &R,
    alloc: Global,
    shared: &Shared,
    script: &Script,
    hand: &mut Hand,
    gate: u32,
    sends: bool,
)
    requires bench { IsBench script.now shared.now }
    requires idle { IsIdleHand shared.now hand.old }
    ensures { IsIdleHand shared.now hand.new }
{
    let gate = gate_of(rt, gate);
    let mut last = Vec::new(alloc);
    let done = turn_gate(
        rt,
        alloc,
        hand,
        shared,
        script.gates,
        script.shards,
        gate,
        sends,
        &mut last,
    );
    done.expect(rt, "memory");
}

fn take_shards_turn<R: Wait + Abort>(
    rt: &R,
    alloc: Global,
    shared: &Shared,
    script: &Script,
    hand: &mut Hand,
    shard: u32,
)
    requires bench { IsBench script.now shared.now }
    requires idle { IsIdleHand shared.now hand.old }
    ensures { IsIdleHand shared.now hand.new }
{
    let shard = shard_of(rt, shared, shard);
    let mut brought = Brought::new(alloc).expect(rt, "memory");
    let done = turn_shard(rt, alloc, hand, shared, script.gates, shard, &mut brought);
    done.expect(rt, "memory");
}

fn nudge_all<R: Wait + Abort>(
    rt: &R,
    alloc: Global,
    shared: &Shared,
    script: &Script,
    hand: &mut Hand,
    home: u32,
    shard: u32,
)
    requires bench { IsBench script.now shared.now }
    requires idle { IsIdleHand shared.now hand.old }
    ensures { IsIdleHand shared.now hand.new }
{
    let home = gate_of(rt, home);
    let shard = shard_of(rt, shared, shard);
    let mut brought = Brought::new(alloc).expect(rt, "memory");
    let done = nudge(
        rt,
        alloc,
        hand,
        shared,
        script.gates,
        home,
        shard,
        &mut brought,
    );
    done.expect(rt, "memory");
}

// A call that only carries.
fn carry<R: Wait + Abort>(
    rt: &R,
    alloc: Global,
    shared: &Shared,
    script: &Script,
    hand: &mut Hand,
    call: &Call,
)
    requires bench { IsBench script.now shared.now }
    requires idle { IsIdleHand shared.now hand.old }
    ensures { IsIdleHand shared.now hand.new }
{
    match call {
        Call::Go(_, _, _) | Call::Play(_, _) | Call::Await(_) | Call::Release => {
            panic!(rt; "it is not for a hand that only carries")
        }
        Call::TurnGate(gate, sends) => {
            take_gates_turn(rt, alloc, shared, script, hand, *gate, *sends)
        }
        Call::TurnShard(shard) => take_shards_turn(rt, alloc, shared, script, hand, *shard),
        Call::Nudge(home, shard) => nudge_all(rt, alloc, shared, script, hand, *home, *shard),
    }
}

fn carry_by<R: Wait + Abort>(
    rt: &R,
    alloc: Global,
    shared: &Shared,
    script: &Script,
    worker: &mut Worker,
    call: &Call,
)
    requires bench { IsBench script.now shared.now }
    requires ready { IsReadyForPhase shared.now script.now 0 worker.old }
    ensures { IsReadyForPhase shared.now script.now 0 worker.new }
{
    match worker {
        Worker::ClientWork { hand: _, client: _ } => panic!(rt; "a client"),
        Worker::GateWork { hand, gate: _ } => carry(rt, alloc, shared, script, hand, call),
        Worker::ShardWork { hand, shard: _ } => carry(rt, alloc, shared, script, hand, call),
    }
}

// A call of a worker.
fn work<R: Wait + Abort>(
    rt: &R,
    alloc: Global,
    shared: &Shared,
    script: &Script,
    worker: &mut Worker,
    call: &Call,
    hold: &Hold,
)
    requires bench { IsBench script.now shared.now }
    requires ready { IsReadyForPhase shared.now script.now 0 worker.old }
    ensures { IsReadyForPhase shared.now script.now 0 worker.new }
{
    match call {
        Call::Go(kind, index, expected) => {
            let pace = CountedTurns::of(*kind, *index, hold);
            go(rt, alloc, shared, script, worker, &pace, expected)
        }
        _ => carry_by(rt, alloc, shared, script, worker, call),
    }
}

// A call of a hand that is no worker's.
fn answer<R: Wait + Abort>(rt: &R, alloc: Global, shared: &Shared, player: &mut Player, call: &Call)
    requires gates { gate_count shared.now ≡ 2 }
    requires player { IsPlayer shared.now player.old }
    ensures { IsPlayer shared.now player.new }
{
    let Call::Play(call, expected) = call else {
        panic!(rt; "it is a worker's");
    };
    let said = play::play(rt, alloc, shared, player, call);
    assert!(rt; said.as_slice() == expected.as_bytes(), "{expected}");
}

/// Makes a call.
pub fn play<R: Wait + Abort>(
    rt: &R,
    alloc: Global,
    shared: &Shared,
    script: &Script,
    seat: &mut Seat,
    call: &Call,
    hold: &Hold,
)
    requires bench { IsBench script.now shared.now }
    requires ready { IsReadySeat script.now shared.now seat.old }
    ensures { IsReadySeat script.now shared.now seat.new }
{
    match call {
        Call::Await(workers) => hold.wait_for(rt, *workers),
        Call::Release => hold.release(),
        _ => make(rt, alloc, shared, script, seat, call, hold),
    }
}

// A call of the hand at the seat.
fn make<R: Wait + Abort>(
    rt: &R,
    alloc: Global,
    shared: &Shared,
    script: &Script,
    seat: &mut Seat,
    call: &Call,
    hold: &Hold,
)
    requires bench { IsBench script.now shared.now }
    requires ready { IsReadySeat script.now shared.now seat.old }
    ensures { IsReadySeat script.now shared.now seat.new }
{
    match seat {
        Seat::AtWork(worker) => work(rt, alloc, shared, script, worker, call, hold),
        Seat::Playing(player) => answer(rt, alloc, shared, player, call),
    }
}
