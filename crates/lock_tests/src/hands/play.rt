//! Calls as values, and their answers as texts.
ghost use Rattle.std.specs.Prelude.{◌≡◌, ◌≤◌, length};
ghost use Rattle.weaver_locks.specs.Hands.{hand_number};
ghost use Rattle.weaver_locks.specs.Locks.{gate_count};
ghost use Rattle.lock_tests.specs.ReadyWorkers.{IsReadyWorker};

use crate::answer_texts::{stamp_text, word};
use crate::calls::{gate_of, last_of, shard_of};
use crate::hands::answer_texts::{answer_text, done_text, fault_text, judged_text};
use crate::hands::calls::not_begun;
use crate::hands::messages::{apply, nop, pull, say_and_hear};
use crate::hands::programs::{finish, start, visit};
use crate::hands::transactions::{begin, transact};
use crate::hands::worker::{Ended, Worker};
use graph_ops::Op;
use program_defs::{Program, Request, Script, Work};
use std::alloc::Global;
use std::process::Abort;
use std::sync::Wait;
use weaver_locks::Shared;

/// A call of a hand. Gatekeepers come before shards, shards before gatekeepers at `Apply`.
#[derive(Clone, Copy)]
pub enum Call {
    /// A transaction of the script.
    Transact(u32),
    /// After the last stamp that the hand began.
    TransactAfter(u32),
    /// A transaction of the script, which is left in flight.
    Begin(u32),
    /// A program of the script.
    Start(u32),
    /// After the last stamp that the hand began.
    StartAfter(u32),
    /// The hand's program that is running.
    Visit,
    Finish,
    /// Gatekeeper, shard and number.
    Pull(u32, u32, u64),
    /// Shard and gatekeeper.
    Apply(u32, u32),
    /// The second gatekeeper hears the first.
    SayAndHear(u32, u32),
    /// Gatekeeper and shard.
    Nop(u32, u32),
}

/// The number of a hand, its call, and what it answers.
pub type Row<'a> = (usize, Call, &'a str);

/// The request with this number.
pub fn request_of<'a>(rt: &impl Abort, script: &'a Script, request: u32) -> &'a Request {
    match script.requests.as_slice().get(request as usize) {
        Some(asked) => asked,
        None => panic!(rt; "no such request"),
    }
}

/// The operations of a transaction.
pub fn ops_of<'a>(rt: &impl Abort, asked: &'a Request) -> &'a [Op]
    ensures { length result.now ≤ 64 }
{
    let Work::Change(ops) = &asked.work else {
        panic!(rt; "no transaction");
    };
    if ops.as_slice().len() > 64 {
        panic!(rt; "too many operations");
    }
    ops.as_slice()
}

/// A program.
pub fn program_of<'a>(rt: &impl Abort, asked: &'a Request) -> &'a Program {
    match &asked.work {
        Work::Look(program) => program,
        Work::Change(_) => panic!(rt; "no program"),
    }
}

/// Makes a call, and answers its answer as a text.
pub fn play<R: Wait + Abort>(
    rt: &R,
    alloc: Global,
    shared: &Shared,
    script: &Script,
    me: &mut Worker,
    call: &Call,
) -> Vec<u8>
    requires gates { gate_count shared.now ≡ 2 }
    requires worker { IsReadyWorker shared.now me.old }
    ensures worker { IsReadyWorker shared.now me.new }
    ensures number { hand_number me.new.hand ≡ hand_number me.old.hand }
{
    match call {
        Call::Transact(request) => play_transact(rt, alloc, shared, script, me, *request, false),
        Call::TransactAfter(request) => {
            play_transact(rt, alloc, shared, script, me, *request, true)
        }
        Call::Begin(request) => play_begin(rt, alloc, shared, script, me, *request),
        Call::Start(request) => play_start(rt, alloc, shared, script, me, *request, false),
        Call::StartAfter(request) => play_start(rt, alloc, shared, script, me, *request, true),
        Call::Visit => play_visit(rt, alloc, shared, me),
        Call::Finish => play_finish(rt, alloc, shared, me),
        Call::Pull(gate, shard, number) => {
            play_pull(rt, alloc, shared, me, *gate, *shard, *number)
        }
        Call::Apply(shard, gate) => play_apply(rt, alloc, shared, me, *shard, *gate),
        Call::SayAndHear(from, to) => play_say_and_hear(rt, alloc, shared, me, *from, *to),
        Call::Nop(gate, shard) => play_nop(rt, alloc, shared, me, *gate, *shard),
    }
}

fn play_transact<R: Wait + Abort>(
    rt: &R,
    alloc: Global,
    shared: &Shared,
    script: &Script,
    me: &mut Worker,
    request: u32,
    after: bool,
) -> Vec<u8>
    requires gates { gate_count shared.now ≡ 2 }
    requires worker { IsReadyWorker shared.now me.old }
    ensures worker { IsReadyWorker shared.now me.new }
    ensures number { hand_number me.new.hand ≡ hand_number me.old.hand }
{
    let asked = request_of(rt, script, request);
    let request = not_begun(rt, me, request);
    let last = last_of(me.last, after);
    let gate = gate_of(rt, asked.gate);
    match transact(
        rt,
        alloc,
        shared,
        me,
        request,
        gate,
        ops_of(rt, asked),
        last,
    ) {
        Some((stamp, verdict)) => judged_text(rt, alloc, &stamp, &verdict),
        None => word(rt, alloc, b"busy"),
    }
}

fn play_begin<R: Wait + Abort>(
    rt: &R,
    alloc: Global,
    shared: &Shared,
    script: &Script,
    me: &mut Worker,
    request: u32,
) -> Vec<u8>
    requires gates { gate_count shared.now ≡ 2 }
    requires worker { IsReadyWorker shared.now me.old }
    ensures worker { IsReadyWorker shared.now me.new }
    ensures number { hand_number me.new.hand ≡ hand_number me.old.hand }
{
    let asked = request_of(rt, script, request);
    let request = not_begun(rt, me, request);
    let gate = gate_of(rt, asked.gate);
    match begin(rt, alloc, shared, me, request, gate) {
        Some(stamp) => stamp_text(rt, alloc, &stamp),
        None => word(rt, alloc, b"busy"),
    }
}

fn play_start<R: Wait + Abort>(
    rt: &R,
    alloc: Global,
    shared: &Shared,
    script: &Script,
    me: &mut Worker,
    request: u32,
    after: bool,
) -> Vec<u8>
    requires gates { gate_count shared.now ≡ 2 }
    requires worker { IsReadyWorker shared.now me.old }
    ensures worker { IsReadyWorker shared.now me.new }
    ensures number { hand_number me.new.hand ≡ hand_number me.old.hand }
{
    let asked = request_of(rt, script, request);
    let request = not_begun(rt, me, request);
    let last = last_of(me.last, after);
    let gate = gate_of(rt, asked.gate);
    let program = program_of(rt, asked);
    let stamp = start(rt, alloc, shared, me, request, gate, program, last);
    stamp_text(rt, alloc, &stamp)
}

fn play_visit<R: Wait + Abort>(rt: &R, alloc: Global, shared: &Shared, me: &mut Worker) -> Vec<u8>
    requires worker { IsReadyWorker shared.now me.old }
    ensures worker { IsReadyWorker shared.now me.new }
    ensures number { hand_number me.new.hand ≡ hand_number me.old.hand }
{
    let read = visit(rt, alloc, shared, me);
    done_text(rt, alloc, &read)
}

fn play_finish<R: Wait + Abort>(rt: &R, alloc: Global, shared: &Shared, me: &mut Worker) -> Vec<u8>
    requires worker { IsReadyWorker shared.now me.old }
    ensures worker { IsReadyWorker shared.now me.new }
    ensures number { hand_number me.new.hand ≡ hand_number me.old.hand }
{
    finish(rt, alloc, shared, me);
    last_answer(rt, alloc, me.ended.as_slice())
}

fn last_answer(rt: &impl Abort, alloc: Global, ended: &[Ended]) -> Vec<u8> {
    match ended.last() {
        Some(program) => answer_text(rt, alloc, &program.answer),
        None => panic!(rt; "no program was finished"),
    }
}

fn play_pull<R: Wait + Abort>(
    rt: &R,
    alloc: Global,
    shared: &Shared,
    me: &mut Worker,
    gate: u32,
    shard: u32,
    number: u64,
) -> Vec<u8>
    requires gates { gate_count shared.now ≡ 2 }
    requires worker { IsReadyWorker shared.now me.old }
    ensures worker { IsReadyWorker shared.now me.new }
    ensures number { hand_number me.new.hand ≡ hand_number me.old.hand }
{
    if number == 0 {
        panic!(rt; "no such message");
    }
    let gate = gate_of(rt, gate);
    let shard = shard_of(rt, shared, shard);
    match pull(rt, alloc, shared, me, gate, shard, number) {
        Ok(true) => word(rt, alloc, b"true"),
        Ok(false) => word(rt, alloc, b"false"),
        Err(fault) => fault_text(rt, alloc, &fault),
    }
}

fn play_apply<R: Wait + Abort>(
    rt: &R,
    alloc: Global,
    shared: &Shared,
    me: &mut Worker,
    shard: u32,
    gate: u32,
) -> Vec<u8>
    requires gates { gate_count shared.now ≡ 2 }
    requires worker { IsReadyWorker shared.now me.old }
    ensures worker { IsReadyWorker shared.now me.new }
    ensures number { hand_number me.new.hand ≡ hand_number me.old.hand }
{
    let gate = gate_of(rt, gate);
    let shard = shard_of(rt, shared, shard);
    let applied = apply(rt, alloc, shared, me, shard, gate);
    done_text(rt, alloc, &applied)
}

fn play_say_and_hear<R: Wait + Abort>(
    rt: &R,
    alloc: Global,
    shared: &Shared,
    me: &mut Worker,
    from: u32,
    to: u32,
) -> Vec<u8>
    requires gates { gate_count shared.now ≡ 2 }
    requires worker { IsReadyWorker shared.now me.old }
    ensures worker { IsReadyWorker shared.now me.new }
    ensures number { hand_number me.new.hand ≡ hand_number me.old.hand }
{
    let from = gate_of(rt, from);
    let to = gate_of(rt, to);
    let told = say_and_hear(rt, alloc, shared, me, from, to);
    done_text(rt, alloc, &told)
}

fn play_nop<R: Wait + Abort>(
    rt: &R,
    alloc: Global,
    shared: &Shared,
    me: &mut Worker,
    gate: u32,
    shard: u32,
) -> Vec<u8>
    requires gates { gate_count shared.now ≡ 2 }
    requires worker { IsReadyWorker shared.now me.old }
    ensures worker { IsReadyWorker shared.now me.new }
    ensures number { hand_number me.new.hand ≡ hand_number me.old.hand }
{
    let gate = gate_of(rt, gate);
    let shard = shard_of(rt, shared, shard);
    let sent = nop(rt, alloc, shared, me, gate, shard);
    done_text(rt, alloc, &sent)
}
