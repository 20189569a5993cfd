ghost use Rattle.std.specs.Prelude.{◌≡◌, ◌<◌, [], map};
ghost use Rattle.std.specs.Option.{ForSome};
ghost use Rattle.weave_data.specs.Limits.{most_gates};
ghost use Rattle.graph_ops.specs.Mentions.{named_by};
ghost use Rattle.weave_entries.specs.declared.verdict.Counted.{Counted};
ghost use Rattle.weave_entries.specs.GateReplay.{flight_of};
ghost use Rattle.weave_entries.specs.Sending.{IsCountsOf};

use crate::messages::same_message;
use crate::values::{clock, name, stamp, stamp_in};
use gatekeeper::{Gate, GateFault};
use graph_ops::{Op, Part, Reason, named};
use std::alloc::Global;
use std::process::Abort;
use vector_stamp::{Clock, Stamp};
use weave_data::Items;
use weave_entries::{Addressed, Counted, GateDeed, Message, Verdict};

// A transaction is begun, and meanwhile there is no other one and no empty message.
fn begin_flight(rt: &impl Abort, alloc: Global, gate: &mut Gate)
    requires { gate.old.shards ≡ 1 }
    ensures shards { gate.new.shards ≡ 1 }
    ensures flies { ForSome (flight_of gate.new.log) (λ flight. flight.author ≡ 0) }
{
    let begun = gate.begin_tx(alloc, 0, 0, None).expect(rt, "no stamp");
    assert!(rt; begun == stamp(0, 1, 0, 0));
    let Err(fault) = gate.begin_tx(alloc, 0, 1, None) else {
        panic!(rt; "begun");
    };
    assert!(rt; fault == GateFault::Busy);
    let Err(fault) = gate.nop(alloc, 0, 0) else {
        panic!(rt; "sent");
    };
    assert!(rt; fault == GateFault::Busy);
}

// It is aborted.
fn abort_flight(rt: &impl Abort, alloc: Global, gate: &mut Gate)
    requires shards { gate.old.shards ≡ 1 }
    requires flies { ForSome (flight_of gate.old.log) (λ flight. flight.author ≡ 0) }
    ensures { gate.new.shards ≡ 1 }
{
    let aborted = Verdict::Refused {
        op: 1,
        reason: Reason::Missing,
        at: 0,
    };
    gate.send(alloc, 0, &[], &aborted).expect(rt, "not sent");
    assert!(rt; gate.fetch(0, 1).is_none());
    let Err(fault) = gate.send(alloc, 0, &[], &aborted) else {
        panic!(rt; "sent again");
    };
    assert!(rt; fault == GateFault::Idle);
}

// The stamp and the low mark of a message that was sent to shard 0.
fn fetched(gate: &Gate, number: u64) -> Option<(Stamp, Clock)> {
    let message = gate.fetch(0, number)?;
    Some((message.stamp, message.low))
}

// An empty message has this number, stamp and low mark. None follows it.
fn sends_nop(rt: &impl Abort, alloc: Global, gate: &mut Gate, number: u64, stamp: Stamp, low: Clock)
    requires { gate.old.shards ≡ 1 }
    ensures { gate.new.shards ≡ 1 }
{
    let sent = gate.nop(alloc, 0, 0).expect(rt, "not sent");
    assert!(rt; sent == number);
    assert!(rt; fetched(gate, number) == Some((stamp, low)));
    assert!(rt; fetched(gate, number.wrapping_add(1)) == None);
}

// A clock is heard, and then the gatekeeper's own is this one.
fn hears(rt: &impl Abort, alloc: Global, gate: &mut Gate, heard: Clock, own: Clock)
    ensures { gate.new.shards ≡ gate.old.shards }
{
    gate.reserve(alloc, 1).expect(rt, "memory");
    gate.hear(0, &heard);
    assert!(rt; gate.say() == own);
}

// A program is finished once.
fn finish_once(rt: &impl Abort, alloc: Global, gate: &mut Gate) {
    assert!(rt; gate.finish(alloc, 0, 2) == Ok(()));
    assert!(rt; gate.finish(alloc, 0, 2) == Err(GateFault::Idle));
}

// Empty messages before, during and after a program.
fn nops_and_a_program(rt: &impl Abort, alloc: Global, gate: &mut Gate)
    requires { gate.old.shards ≡ 1 }
{
    sends_nop(rt, alloc, gate, 1, stamp(0, 2, 0, 0), clock(0, 2, 0));
    hears(rt, alloc, gate, clock(0, 0, 5), clock(0, 2, 5));
    let begun = gate.begin_program(alloc, 0, 2, None).expect(rt, "no stamp");
    assert!(rt; begun == stamp(0, 3, 5, 0));
    sends_nop(rt, alloc, gate, 2, stamp(0, 4, 5, 0), clock(0, 3, 5));
    finish_once(rt, alloc, gate);
}

// Raising the epoch has this answer, and then the gatekeeper's clock is this one.
fn raises(
    rt: &impl Abort,
    alloc: Global,
    gate: &mut Gate,
    epoch: u64,
    answer: Result<(), GateFault>,
    own: Clock,
) {
    gate.reserve(alloc, 1).expect(rt, "memory");
    assert!(rt; gate.epoch(0, epoch) == answer);
    assert!(rt; gate.say() == own);
}

// Epochs are raised, and heard.
fn epochs(rt: &impl Abort, alloc: Global, gate: &mut Gate) {
    raises(rt, alloc, gate, 0, Err(GateFault::Old), clock(0, 4, 5));
    raises(rt, alloc, gate, 2, Ok(()), clock(2, 0, 0));
    hears(rt, alloc, gate, clock(1, 0, 9), clock(2, 0, 0));
    hears(rt, alloc, gate, clock(3, 0, 4), clock(3, 0, 4));
}

#[test]
fn a_table_of_calls(rt: HostRuntime) {
    let alloc = rt.alloc();
    let mut gate = Gate::new(alloc, 0, 2, 1).expect(&rt, "no gatekeeper");
    begin_flight(&rt, alloc, &mut gate);
    abort_flight(&rt, alloc, &mut gate);
    nops_and_a_program(&rt, alloc, &mut gate);
    epochs(&rt, alloc, &mut gate);
    assert!(rt; gate.log().len() == 10);
}

// The stamp of the gatekeeper of home 1.
fn other_stamp(epoch: u64, first: u64, second: u64) -> Stamp {
    Stamp {
        home: 1,
        clock: clock(epoch, first, second),
    }
}

// The transaction in flight is that of author 1 and request 0, with this stamp.
fn is_in_flight(rt: &impl Abort, gate: &Gate, stamp: Stamp) {
    let flight = gate.flight().expect(rt, "no transaction in flight");
    if flight.author != 1 || flight.request != 0 || flight.stamp != stamp {
        panic!(rt; "another transaction in flight");
    }
}

fn begin_after_others(rt: &impl Abort, alloc: Global, gate: &mut Gate) {
    let first = gate.begin_tx(alloc, 1, 0, Some(other_stamp(0, 0, 7)));
    assert!(rt; first == Ok(stamp(0, 1, 7, 0)));
    is_in_flight(rt, gate, stamp(0, 1, 7, 0));
    let second = gate.begin_program(alloc, 2, 1, Some(other_stamp(0, 1, 9)));
    assert!(rt; second == Ok(stamp(0, 2, 9, 0)));
    let raised = gate.begin_program(alloc, 3, 2, Some(other_stamp(2, 5, 3)));
    assert!(rt; raised.expect(rt, "no stamp").clock == clock(2, 1, 3));
}

// What a session began last at another gatekeeper is heard before the next stamp.
#[test]
fn begins_after_the_last_stamp(rt: HostRuntime) {
    let alloc = rt.alloc();
    let mut gate = Gate::new(alloc, 0, 2, 1).expect(&rt, "no gatekeeper");
    begin_after_others(&rt, alloc, &mut gate);
    assert!(rt; gate.log().len() == 3);
}

// The vertices that operations name, with the numbers of earlier commits.
fn counted(rt: &impl Abort, alloc: Global, ops: &[Op], before: &[u64]) -> Items<Counted>
    ensures { map (λ (one : Counted). one.vertex) result ≡ named_by ops.now }
{
    let names = named(alloc, ops).expect(rt, "memory");
    let mut counts = Vec::new(alloc);
    for vertex in &names {
        let before = before.get(counts.len()).copied().unwrap_or(0);
        counts
            .push(Counted {
                vertex: *vertex,
                before,
            })
            .expect(rt, "memory");
    }
    Items::from_vec(counts)
}

// A transaction is begun, commits, and is sent.
fn commit(
    rt: &impl Abort,
    alloc: Global,
    gate: &mut Gate,
    request: u32,
    ops: &[Op],
    before: &[u64],
) -> Stamp
    ensures { gate.new.shards ≡ gate.old.shards }
{
    let verdict = Verdict::Committed {
        number: 1,
        answers: Items::new(alloc),
        counts: counted(rt, alloc, ops, before),
    };
    let stamp = gate
        .begin_tx(alloc, 3, request, None)
        .expect(rt, "no stamp");
    gate.send(alloc, 3, ops, &verdict).expect(rt, "not sent");
    stamp
}

// The part of a vertex: of the operations those in these places.
fn part(
    rt: &impl Abort,
    alloc: Global,
    vertex: &str,
    before: u64,
    ops: &[Op],
    places: &[usize],
) -> Part {
    let mut some = Items::new(alloc);
    for place in places {
        let op = ops.get(*place).copied().expect(rt, "no operation");
        some.push(op).expect(rt, "memory");
    }
    Part {
        vertex: name(rt, vertex),
        before,
        ops: some,
    }
}

// A message to a shard, while a program runs whose stamp is (2, 0).
fn addressed(shard: u32, number: u64, request: u32, stamp: Stamp, parts: Items<Part>) -> Addressed {
    let message = Message {
        request: Some(request),
        stamp,
        low: clock(0, 2, 0),
        parts,
    };
    Addressed {
        shard,
        number,
        message,
    }
}

// The message is on its channel, and nothing after it.
fn is_on_channel(rt: &impl Abort, gate: &Gate, one: &Addressed) {
    let Some(message) = gate.fetch(one.shard, one.number) else {
        panic!(rt; "not sent");
    };
    assert!(rt; same_message(message, &one.message));
    let next = one.number.wrapping_add(1);
    assert!(rt; gate.fetch(one.shard, next).is_none());
}

// The messages are on their channels, and nothing after them.
fn on_channels(rt: &impl Abort, gate: &Gate, wanted: &[Addressed]) {
    for one in wanted {
        is_on_channel(rt, gate, one);
    }
}

// Whether it is the same message, to the same shard, with the same number.
fn same_addressed(one: &Addressed, other: &Addressed) -> bool {
    one.shard == other.shard
        && one.number == other.number
        && same_message(&one.message, &other.message)
}

// The last entry of the log is the sending of these messages.
fn in_log(rt: &impl Abort, gate: &Gate, request: u32, wanted: &[Addressed]) {
    let Some(entry) = gate.log().last() else {
        panic!(rt; "no entry");
    };
    let GateDeed::Sent {
        request: sent,
        messages,
    } = &entry.deed
    else {
        panic!(rt; "another entry");
    };
    assert!(rt; entry.author == 3 && *sent == request);
    assert!(rt; messages.as_slice().len() == wanted.len());
    for (one, other) in messages.as_slice().iter().zip(wanted) {
        assert!(rt; same_addressed(one, other));
    }
}

// Operations of each kind on three vertices: `ann` and `bob` are on shard 1 of 2, `cyd` is on shard 0.
fn ten_operations(rt: &impl Abort) -> [Op; 10] {
    let (ann, bob) = (name(rt, "ann"), name(rt, "bob"));
    let (cyd, dan) = (name(rt, "cyd"), name(rt, "dan"));
    let (edge, key, value) = (name(rt, "e"), name(rt, "k"), name(rt, "x"));
    [
        Op::Create { v: ann },
        Op::Get { v: cyd },
        Op::Set { v: bob, key, value },
        Op::Unset { v: ann, key },
        Op::Link {
            v: bob,
            edge,
            target: dan,
        },
        Op::Delete { v: cyd },
        Op::Tag {
            v: ann,
            edge,
            key,
            value,
        },
        Op::Untag { v: bob, edge, key },
        Op::Unlink { v: ann, edge },
        Op::Get { v: bob },
    ]
}

// The parts of a message to a shard, of a table of shards, vertices, numbers of earlier commits and places of
// operations.
fn parts(
    rt: &impl Abort,
    alloc: Global,
    ops: &[Op],
    shard: u32,
    table: &[(u32, &str, u64, &[usize])],
) -> Items<Part> {
    let mut parts = Items::new(alloc);
    for row in table {
        if row.0 == shard {
            let part = part(rt, alloc, row.1, row.2, ops, row.3);
            parts.push(part).expect(rt, "memory");
        }
    }
    parts
}

// What a commit of all ten sends.
const FIRST_PARTS: [(u32, &str, u64, &[usize]); 3] = [
    (0, "cyd", u64::MAX, &[1, 5]),
    (1, "ann", 12, &[0, 3, 6, 8]),
    (1, "bob", 305, &[2, 4, 7, 9]),
];

// What a commit of the first two sends after them.
const SECOND_PARTS: [(u32, &str, u64, &[usize]); 2] = [(0, "cyd", 6, &[1]), (1, "ann", 13, &[0])];

// What a commit sends to two shards: to shard 0 with this number, and to shard 1 with the next one.
fn messages(
    rt: &impl Abort,
    alloc: Global,
    ops: &[Op],
    number: u32,
    request: u32,
    stamp: Stamp,
    table: &[(u32, &str, u64, &[usize])],
) -> Vec<Addressed> {
    let mut messages = Vec::new(alloc);
    for shard in 0..2 {
        let parts = parts(rt, alloc, ops, shard, table);
        let number = u64::from(number.wrapping_add(shard));
        messages
            .push(addressed(shard, number, request, stamp, parts))
            .expect(rt, "memory");
    }
    messages
}

// A commit has this stamp, and sends these messages.
fn commits(
    rt: &impl Abort,
    alloc: Global,
    gate: &mut Gate,
    request: u32,
    ops: &[Op],
    before: &[u64],
    wanted: &[Addressed],
    stamp: Stamp,
) {
    let begun = commit(rt, alloc, gate, request, ops, before);
    assert!(rt; begun == stamp);
    on_channels(rt, gate, wanted);
    in_log(rt, gate, request, wanted);
}

// A commit of all ten operations.
fn commit_ten(rt: &impl Abort, alloc: Global, gate: &mut Gate, ops: &[Op]) {
    let begun = stamp(0, 3, 0, 0);
    let wanted = messages(rt, alloc, ops, 1, 7, begun, &FIRST_PARTS);
    let before = [12, u64::MAX, 305];
    commits(rt, alloc, gate, 7, ops, &before, &wanted, begun);
}

// And one of the first two.
fn commit_two(rt: &impl Abort, alloc: Global, gate: &mut Gate, ops: &[Op; 10]) {
    let begun = stamp(0, 4, 0, 0);
    let wanted = messages(rt, alloc, ops, 2, 9, begun, &SECOND_PARTS);
    commits(rt, alloc, gate, 9, &ops[..2], &[13, 6], &wanted, begun);
}

// A message, and a program that runs meanwhile.
fn begin_on_two_shards(rt: &impl Abort, alloc: Global, gate: &mut Gate)
    requires { gate.old.shards ≡ 2 }
{
    sends_empty(rt, alloc, gate, 1, 1);
    let program = gate.begin_program(alloc, 4, 8, None);
    assert!(rt; program == Ok(stamp(0, 2, 0, 0)));
}

#[test]
fn commits_on_two_shards(rt: HostRuntime) {
    let alloc = rt.alloc();
    let ops = ten_operations(&rt);
    let mut gate = Gate::new(alloc, 0, 2, 2).expect(&rt, "no gatekeeper");
    begin_on_two_shards(&rt, alloc, &mut gate);
    commit_ten(&rt, alloc, &mut gate, &ops);
    commit_two(&rt, alloc, &mut gate, &ops);
}

// The request of a message, the first count of its stamp, and how many parts it has.
fn fetched_from(gate: &Gate, shard: u32, number: u64) -> Option<(Option<u32>, u64, usize)> {
    let message = gate.fetch(shard, number)?;
    let parts = message.parts.as_slice().len();
    Some((message.request, message.stamp.clock.counts[0], parts))
}

// These messages are on a channel, numbered from 1, and no others.
fn on_channel(rt: &impl Abort, gate: &Gate, shard: u32, wanted: &[(Option<u32>, u64, usize)]) {
    let mut number = 0;
    assert!(rt; fetched_from(gate, shard, number) == None);
    for one in wanted {
        number = number.wrapping_add(1);
        assert!(rt; fetched_from(gate, shard, number) == Some(*one));
    }
    assert!(rt; fetched_from(gate, shard, number.wrapping_add(1)) == None);
}

// An empty message to one of two shards has this number.
fn sends_empty(rt: &impl Abort, alloc: Global, gate: &mut Gate, shard: u32, number: u64)
    requires two { gate.old.shards ≡ 2 }
    requires shard { shard < 2 }
    ensures { gate.new.shards ≡ 2 }
{
    let sent = gate.nop(alloc, 3, shard).expect(rt, "not sent");
    if sent != number {
        panic!(rt; "another number");
    }
}

// Commits and empty messages in turns.
fn send_in_turns(rt: &impl Abort, alloc: Global, gate: &mut Gate, ops: &[Op; 10])
    requires { gate.old.shards ≡ 2 }
{
    sends_empty(rt, alloc, gate, 1, 1);
    commit(rt, alloc, gate, 7, ops, &[0, 0, 0]);
    sends_empty(rt, alloc, gate, 0, 2);
    sends_empty(rt, alloc, gate, 1, 3);
    commit(rt, alloc, gate, 9, &ops[..1], &[1]);
    sends_empty(rt, alloc, gate, 0, 3);
}

// Commits and empty messages in turns: each is fetched again under its number.
#[test]
fn fetches_what_was_sent(rt: HostRuntime) {
    let alloc = rt.alloc();
    let here = [(Some(7), 2, 1), (None, 3, 0), (None, 6, 0)];
    let there = [(None, 1, 0), (Some(7), 2, 2), (None, 4, 0), (Some(9), 5, 1)];
    let mut gate = Gate::new(alloc, 0, 2, 2).expect(&rt, "no gatekeeper");
    send_in_turns(&rt, alloc, &mut gate, &ten_operations(&rt));
    on_channel(&rt, &gate, 0, &here);
    on_channel(&rt, &gate, 1, &there);
}

// A stamp of a gatekeeper: its own count, and one count for all others.
fn stamp_at(home: u32, epoch: u64, own: u64, others: u64) -> Stamp
    requires { home < most_gates }
{
    let mut counts = [others; 8];
    counts[home as usize] = own;
    stamp_in(epoch, home, counts)
}

// At a new gatekeeper of this home a transaction or a program begins with the wanted stamp.
fn begins_at(
    rt: &impl Abort,
    alloc: Global,
    home: u32,
    is_program: bool,
    last: Option<Stamp>,
    wanted: Stamp,
)
    requires home { home < most_gates }
{
    let mut gate = Gate::new(alloc, home, 8, 1).expect(rt, "no gatekeeper");
    let begun = if is_program {
        gate.begin_program(alloc, 1, 0, last).ok()
    } else {
        gate.begin_tx(alloc, 1, 0, last).ok()
    };
    assert!(rt; begun == Some(wanted));
}

// The session's last stamp is none, of another gatekeeper, of a higher epoch, or of the same gatekeeper.
fn begin_at(rt: &impl Abort, alloc: Global, home: u32, is_program: bool)
    requires home { home < most_gates }
{
    let next = (home + 1) % 8;
    let rows = [
        (None, stamp_at(home, 0, 1, 0)),
        (Some(stamp_at(next, 0, 5, 5)), stamp_at(home, 0, 1, 5)),
        (Some(stamp_at(next, 2, 5, 5)), stamp_at(home, 2, 1, 5)),
        (Some(stamp_at(home, 0, 0, 5)), stamp_at(home, 0, 1, 5)),
    ];
    for (last, wanted) in rows {
        begins_at(rt, alloc, home, is_program, last, wanted);
    }
}

#[test]
fn begins_at_each_home(rt: HostRuntime) {
    for home in 0..8 {
        begin_at(&rt, rt.alloc(), home, false);
        begin_at(&rt, rt.alloc(), home, true);
    }
}

// A stamp of gatekeeper 0 in epoch 2.
fn raised(own: u64) -> Stamp {
    Stamp {
        home: 0,
        clock: clock(2, own, 3),
    }
}

fn begin_after_lower(rt: &impl Abort, alloc: Global, gate: &mut Gate) {
    let higher = Some(other_stamp(2, 5, 3));
    let lower = Some(other_stamp(0, 0, 7));
    assert!(rt; gate.begin_program(alloc, 1, 0, higher) == Ok(raised(1)));
    assert!(rt; gate.begin_program(alloc, 1, 1, lower) == Ok(raised(2)));
    assert!(rt; gate.begin_tx(alloc, 1, 2, lower) == Ok(raised(3)));
}

// The last stamp is of a lower epoch than the gatekeeper's own: nothing of it is heard.
#[test]
fn begins_after_a_lower_epoch(rt: HostRuntime) {
    let mut gate = Gate::new(rt.alloc(), 0, 2, 1).expect(&rt, "no gatekeeper");
    begin_after_lower(&rt, rt.alloc(), &mut gate);
}

// A transaction without operations begins with this own count of gatekeeper 3, and is aborted.
fn begin_and_abort(
    rt: &impl Abort,
    alloc: Global,
    gate: &mut Gate,
    last: Option<Stamp>,
    verdict: &Verdict,
    own: u64,
)
    requires { IsCountsOf [] verdict.now }
{
    let stamp = gate.begin_tx(alloc, 1, 0, last).expect(rt, "no stamp");
    gate.send(alloc, 1, &[], verdict).expect(rt, "not sent");
    assert!(rt; stamp == stamp_at(3, 0, own, 0));
}

fn abort_by_conflict(
    rt: &impl Abort,
    alloc: Global,
    gate: &mut Gate,
    last: Option<Stamp>,
    own: u64,
) {
    let conflict = Verdict::Conflict {
        vertex: name(rt, "ann"),
        newer: 7,
    };
    begin_and_abort(rt, alloc, gate, last, &conflict, own);
}

fn abort_by_refusal(
    rt: &impl Abort,
    alloc: Global,
    gate: &mut Gate,
    last: Option<Stamp>,
    own: u64,
) {
    let refused = Verdict::Refused {
        op: 1,
        reason: Reason::Full,
        at: 3,
    };
    begin_and_abort(rt, alloc, gate, last, &refused, own);
}

#[test]
fn aborts_by_each_verdict(rt: HostRuntime) {
    let alloc = rt.alloc();
    let first = Some(stamp_at(3, 0, 1, 0));
    let mut gate = Gate::new(alloc, 3, 8, 2).expect(&rt, "no gatekeeper");
    abort_by_conflict(&rt, alloc, &mut gate, None, 1);
    abort_by_refusal(&rt, alloc, &mut gate, first, 2);
    abort_by_conflict(&rt, alloc, &mut gate, first, 3);
    assert!(rt; gate.log().len() == 6);
}

// Twenty programs begin, the last number twice.
fn begin_programs(rt: &impl Abort, alloc: Global, gate: &mut Gate) {
    for request in 0..20 {
        let begun = gate.begin_program(alloc, 1, request, None);
        assert!(rt; begun == Ok(stamp(0, u64::from(request) + 1, 0, 0)));
    }
    let again = gate.begin_program(alloc, 1, 19, Some(other_stamp(0, 0, 4)));
    assert!(rt; again == Ok(stamp(0, 21, 4, 0)));
}

// Finishing each of them has this answer.
fn finish_programs(
    rt: &impl Abort,
    alloc: Global,
    gate: &mut Gate,
    answer: &Result<(), GateFault>,
) {
    for request in 0..20 {
        assert!(rt; gate.finish(alloc, 1, request) == *answer);
    }
}

// Twenty programs, the last number begun twice. All are finished, and none of them again.
#[test]
fn many_programs(rt: HostRuntime) {
    let alloc = rt.alloc();
    let mut gate = Gate::new(alloc, 0, 2, 1).expect(&rt, "no gatekeeper");
    begin_programs(&rt, alloc, &mut gate);
    finish_programs(&rt, alloc, &mut gate, &Ok(()));
    finish_programs(&rt, alloc, &mut gate, &Err(GateFault::Idle));
}

fn take_room(rt: &impl Abort, alloc: Global, gate: &mut Gate) {
    for entries in [0, 1, 10, 3, 1_000] {
        assert!(rt; gate.reserve(alloc, entries) == Ok(()));
    }
    assert!(rt; gate.fetch(1, 1).is_none());
    assert!(rt; gate.begin_tx(alloc, 1, 0, None) == Ok(stamp(0, 1, 0, 0)));
    assert!(rt; gate.reserve(alloc, 2_000) == Ok(()));
}

// Room is taken for more entries than before, for fewer and for none.
#[test]
fn takes_room(rt: HostRuntime) {
    let mut gate = Gate::new(rt.alloc(), 0, 1, 1).expect(&rt, "no gatekeeper");
    take_room(&rt, rt.alloc(), &mut gate);
    assert!(rt; gate.log().len() == 1);
}
