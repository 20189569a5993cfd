//! Calls as values, and their answers as texts.
ghost use Rattle.std.specs.Prelude.{◌≡◌};
ghost use Rattle.weaver_locks.specs.Hands.{hand_number};
ghost use Rattle.weaver_locks.specs.Locks.{gate_count};
ghost use Rattle.lock_tests.specs.Workers.{IsPlayer};

use crate::answer_texts::{
    arrival_text, clock_text, fault_text, message_text, number_text, ok, ops_of, stamp_text,
    state_text, unapplied_text, unread_text, verdict_text,
};
use crate::calls::{gate_of, last_of, shard_of};
use crate::calls_at_gates::{begin_program, begin_tx, fetch, finish, hear, nop, say, send};
use crate::calls_at_shards::{apply, arrive, commit, visit};
use crate::values::{Call, Do, letter};
use crate::worker::{Fetched, Flight, Judged, Player, Step};
use std::alloc::Global;
use std::mem;
use std::process::Abort;
use std::sync::Wait;
use weaver_locks::Shared;

/// Makes a call, and answers its answer as a text.
pub fn play<R: Wait + Abort>(
    rt: &R,
    alloc: Global,
    shared: &Shared,
    player: &mut Player,
    call: &Call,
) -> Vec<u8>
    requires gates { gate_count shared.now ≡ 2 }
    requires player { IsPlayer shared.now player.old }
    ensures player { IsPlayer shared.now player.new }
    ensures number { hand_number player.new.worker.hand ≡ hand_number player.old.worker.hand }
{
    match call {
        Call::BeginTx(gate, request) => {
            play_begin_tx(rt, alloc, shared, player, *gate, *request, false)
        }
        Call::BeginTxAfter(gate, request) => {
            play_begin_tx(rt, alloc, shared, player, *gate, *request, true)
        }
        Call::BeginProgram(gate, request, vertex) => {
            play_begin_program(rt, alloc, shared, player, *gate, *request, *vertex, false)
        }
        Call::BeginProgramAfter(gate, request, vertex) => {
            play_begin_program(rt, alloc, shared, player, *gate, *request, *vertex, true)
        }
        Call::Commit(deeds) => play_commit(rt, alloc, shared, player, deeds),
        Call::Send => play_send(rt, alloc, shared, player),
        Call::Finish(gate) => play_finish(rt, alloc, shared, player, *gate),
        Call::Nop(gate, shard) => play_nop(rt, alloc, shared, player, *gate, *shard),
        Call::Say(gate) => play_say(rt, alloc, shared, player, *gate),
        Call::Hear(gate) => play_hear(rt, alloc, shared, player, *gate),
        Call::Fetch(gate, shard, number) => {
            play_fetch(rt, alloc, shared, player, *gate, *shard, *number)
        }
        Call::Arrive => play_arrive(rt, alloc, shared, player),
        Call::Apply(shard, gate) => play_apply(rt, alloc, shared, player, *shard, *gate),
        Call::Visit => play_visit(rt, alloc, shared, player),
    }
}

fn play_begin_tx<R: Wait + Abort>(
    rt: &R,
    alloc: Global,
    shared: &Shared,
    player: &mut Player,
    gate: u32,
    request: u32,
    after: bool,
) -> Vec<u8>
    requires gates { gate_count shared.now ≡ 2 }
    requires player { IsPlayer shared.now player.old }
    ensures player { IsPlayer shared.now player.new }
    ensures number { hand_number player.new.worker.hand ≡ hand_number player.old.worker.hand }
{
    if u64::from(request) < player.worker.next {
        panic!(rt; "it was begun");
    }
    player.step = Step::Any;
    let gate = gate_of(rt, gate);
    let last = last_of(player.worker.last, after);
    let stamp = match begin_tx(rt, alloc, shared, &mut player.worker, gate, request, last) {
        Ok(stamp) => stamp,
        Err(fault) => return fault_text(rt, alloc, fault),
    };
    player.step = Step::Judge(Flight {
        gate,
        request,
        stamp,
    });
    stamp_text(rt, alloc, &stamp)
}

fn play_begin_program<R: Wait + Abort>(
    rt: &R,
    alloc: Global,
    shared: &Shared,
    player: &mut Player,
    gate: u32,
    request: u32,
    vertex: u8,
    after: bool,
) -> Vec<u8>
    requires gates { gate_count shared.now ≡ 2 }
    requires player { IsPlayer shared.now player.old }
    ensures player { IsPlayer shared.now player.new }
    ensures number { hand_number player.new.worker.hand ≡ hand_number player.old.worker.hand }
{
    if u64::from(request) < player.worker.next {
        panic!(rt; "it was begun");
    }
    player.step = Step::Any;
    let gate = gate_of(rt, gate);
    let last = last_of(player.worker.last, after);
    let begun = begin_program(
        rt,
        alloc,
        shared,
        &mut player.worker,
        gate,
        request,
        last,
        letter(rt, vertex),
    );
    stamp_text(rt, alloc, &begun.expect(rt, "memory"))
}

fn play_commit<R: Wait + Abort>(
    rt: &R,
    alloc: Global,
    shared: &Shared,
    player: &mut Player,
    deeds: &[Do],
) -> Vec<u8>
    requires player { IsPlayer shared.now player.old }
    ensures player { IsPlayer shared.now player.new }
    ensures number { hand_number player.new.worker.hand ≡ hand_number player.old.worker.hand }
{
    let Step::Judge(flight) = mem::replace(&mut player.step, Step::Any) else {
        panic!(rt; "nothing was begun");
    };
    let ops = ops_of(rt, alloc, deeds);
    if ops.len() > 1000 {
        panic!(rt; "too many operations");
    }
    let judged = commit(
        rt,
        alloc,
        shared,
        &mut player.worker,
        flight,
        ops.as_slice(),
    );
    let verdict = judged.expect(rt, "memory");
    let text = verdict_text(rt, alloc, &verdict);
    player.step = Step::Send(Judged {
        gate: flight.gate,
        ops,
        verdict,
    });
    text
}

fn play_send<R: Wait + Abort>(
    rt: &R,
    alloc: Global,
    shared: &Shared,
    player: &mut Player,
) -> Vec<u8>
    requires gates { gate_count shared.now ≡ 2 }
    requires player { IsPlayer shared.now player.old }
    ensures player { IsPlayer shared.now player.new }
    ensures number { hand_number player.new.worker.hand ≡ hand_number player.old.worker.hand }
{
    let Step::Send(judged) = mem::replace(&mut player.step, Step::Any) else {
        panic!(rt; "nothing was judged");
    };
    let Judged { gate, ops, verdict } = judged;
    if gate >= 2 {
        panic!(rt; "no such gatekeeper");
    }
    match send(
        rt,
        alloc,
        shared,
        &mut player.worker,
        gate,
        ops.as_slice(),
        &verdict,
    ) {
        Ok(()) => ok(rt, alloc),
        Err(fault) => fault_text(rt, alloc, fault),
    }
}

fn play_finish<R: Wait + Abort>(
    rt: &R,
    alloc: Global,
    shared: &Shared,
    player: &mut Player,
    gate: u32,
) -> Vec<u8>
    requires gates { gate_count shared.now ≡ 2 }
    requires player { IsPlayer shared.now player.old }
    ensures player { IsPlayer shared.now player.new }
    ensures number { hand_number player.new.worker.hand ≡ hand_number player.old.worker.hand }
{
    player.step = Step::Any;
    match finish(rt, alloc, shared, &mut player.worker, gate_of(rt, gate)) {
        Ok(()) => ok(rt, alloc),
        Err(fault) => fault_text(rt, alloc, fault),
    }
}

fn play_nop<R: Wait + Abort>(
    rt: &R,
    alloc: Global,
    shared: &Shared,
    player: &mut Player,
    gate: u32,
    shard: u32,
) -> Vec<u8>
    requires gates { gate_count shared.now ≡ 2 }
    requires player { IsPlayer shared.now player.old }
    ensures player { IsPlayer shared.now player.new }
    ensures number { hand_number player.new.worker.hand ≡ hand_number player.old.worker.hand }
{
    player.step = Step::Any;
    let shard = shard_of(rt, shared, shard);
    match nop(
        rt,
        alloc,
        shared,
        &mut player.worker,
        gate_of(rt, gate),
        shard,
    ) {
        Ok(number) => number_text(rt, alloc, number),
        Err(fault) => fault_text(rt, alloc, fault),
    }
}

fn play_say<R: Wait + Abort>(
    rt: &R,
    alloc: Global,
    shared: &Shared,
    player: &mut Player,
    gate: u32,
) -> Vec<u8>
    requires gates { gate_count shared.now ≡ 2 }
    requires player { IsPlayer shared.now player.old }
    ensures player { IsPlayer shared.now player.new }
    ensures number { hand_number player.new.worker.hand ≡ hand_number player.old.worker.hand }
{
    player.step = Step::Any;
    let clock = say(rt, shared, &mut player.worker, gate_of(rt, gate));
    clock_text(rt, alloc, &clock)
}

fn play_hear<R: Wait + Abort>(
    rt: &R,
    alloc: Global,
    shared: &Shared,
    player: &mut Player,
    gate: u32,
) -> Vec<u8>
    requires gates { gate_count shared.now ≡ 2 }
    requires player { IsPlayer shared.now player.old }
    ensures player { IsPlayer shared.now player.new }
    ensures number { hand_number player.new.worker.hand ≡ hand_number player.old.worker.hand }
{
    player.step = Step::Any;
    let heard = hear(rt, alloc, shared, &mut player.worker, gate_of(rt, gate));
    heard.expect(rt, "memory");
    ok(rt, alloc)
}

fn play_fetch<R: Wait + Abort>(
    rt: &R,
    alloc: Global,
    shared: &Shared,
    player: &mut Player,
    gate: u32,
    shard: u32,
    number: u64,
) -> Vec<u8>
    requires gates { gate_count shared.now ≡ 2 }
    requires player { IsPlayer shared.now player.old }
    ensures player { IsPlayer shared.now player.new }
    ensures number { hand_number player.new.worker.hand ≡ hand_number player.old.worker.hand }
{
    player.step = Step::Any;
    let gate = gate_of(rt, gate);
    let found = fetch(rt, alloc, shared, &mut player.worker, gate, shard, number);
    let Some(message) = found.expect(rt, "memory") else {
        return message_text(rt, alloc, None);
    };
    let text = message_text(rt, alloc, Some(&message));
    player.step = Step::TakeIn(Fetched {
        gate,
        shard,
        number,
        message,
    });
    text
}

fn play_arrive<R: Wait + Abort>(
    rt: &R,
    alloc: Global,
    shared: &Shared,
    player: &mut Player,
) -> Vec<u8>
    requires gates { gate_count shared.now ≡ 2 }
    requires player { IsPlayer shared.now player.old }
    ensures player { IsPlayer shared.now player.new }
    ensures number { hand_number player.new.worker.hand ≡ hand_number player.old.worker.hand }
{
    let Step::TakeIn(fetched) = mem::replace(&mut player.step, Step::Any) else {
        panic!(rt; "nothing was fetched");
    };
    let Fetched {
        gate,
        shard,
        number,
        message,
    } = fetched;
    if gate >= 2 || shard >= shared.shards() || number == 0 {
        panic!(rt; "no such message");
    }
    let arrived = arrive(
        rt,
        alloc,
        shared,
        &mut player.worker,
        shard,
        gate,
        number,
        message,
    );
    arrival_text(rt, alloc, arrived.expect(rt, "memory"))
}

fn play_apply<R: Wait + Abort>(
    rt: &R,
    alloc: Global,
    shared: &Shared,
    player: &mut Player,
    shard: u32,
    gate: u32,
) -> Vec<u8>
    requires gates { gate_count shared.now ≡ 2 }
    requires player { IsPlayer shared.now player.old }
    ensures player { IsPlayer shared.now player.new }
    ensures number { hand_number player.new.worker.hand ≡ hand_number player.old.worker.hand }
{
    player.step = Step::Any;
    let shard = shard_of(rt, shared, shard);
    match apply(
        rt,
        alloc,
        shared,
        &mut player.worker,
        shard,
        gate_of(rt, gate),
    ) {
        Ok(()) => ok(rt, alloc),
        Err(fault) => unapplied_text(rt, alloc, &fault),
    }
}

fn play_visit<R: Wait + Abort>(
    rt: &R,
    alloc: Global,
    shared: &Shared,
    player: &mut Player,
) -> Vec<u8>
    requires player { IsPlayer shared.now player.old }
    ensures player { IsPlayer shared.now player.new }
    ensures number { hand_number player.new.worker.hand ≡ hand_number player.old.worker.hand }
{
    player.step = Step::Any;
    match visit(rt, alloc, shared, &mut player.worker) {
        Ok(state) => state_text(rt, alloc, &state),
        Err(fault) => unread_text(rt, alloc, fault),
    }
}
