use crate::messages::same_message;
use crate::settled::is_entry;
use crate::values::{clock, list, name, stamp};
use graph_ops::{Got, Op, Part, Reason, Record};
use std::alloc::Global;
use std::process::Abort;
use vector_stamp::{Clock, Stamp, Stamped};
use weave_data::{Copied, Items, Name, NameMap};
use weave_entries::{
    Addressed, Counted, GateDeed, GateEntry, Message, OracleDeed, OracleEntry, SessionDeed,
    SessionEntry, ShardDeed, ShardEntry, StoreDeed, StoreEntry, Verdict,
};

fn reads(rt: &impl Abort, alloc: Global, count: u64) -> Items<Op> {
    let v = name(rt, "v");
    let mut ops = Items::new(alloc);
    for _ in 0..count {
        ops.push(Op::Get { v }).expect(rt, "memory");
    }
    ops
}

// A part of that many operations, and that many earlier commits.
fn part_of(rt: &impl Abort, alloc: Global, count: u64) -> Part {
    Part {
        vertex: name(rt, "v"),
        before: count,
        ops: reads(rt, alloc, count),
    }
}

// A message with that many parts: of no operation, of one, of two and so on. One without parts is of no transaction.
fn message_of(rt: &impl Abort, alloc: Global, count: u64) -> Message {
    let mut parts = Items::new(alloc);
    for before in 0..count {
        parts.push(part_of(rt, alloc, before)).expect(rt, "memory");
    }
    Message {
        request: if count == 0 { None } else { Some(4) },
        stamp: stamp(0, 2, 1, 0),
        low: clock(0, 1, 1),
        parts,
    }
}

// A message to shard 1.
fn addressed(number: u64, message: Message) -> Addressed {
    Addressed {
        shard: 1,
        number,
        message,
    }
}

// A message with one part of one operation.
fn one_part(rt: &impl Abort, alloc: Global) -> Message {
    let v = name(rt, "v");
    let part = Part {
        vertex: v,
        before: 3,
        ops: list(rt, alloc, [Op::Create { v }]),
    };
    Message {
        request: Some(4),
        stamp: stamp(0, 2, 1, 0),
        low: clock(0, 1, 1),
        parts: list(rt, alloc, [part]),
    }
}

fn is_copied(rt: &impl Abort, alloc: Global, sent: &Addressed) {
    let copied = sent.copy(alloc).expect(rt, "memory");
    assert!(rt; copied.shard == sent.shard && copied.number == sent.number);
    assert!(rt; copied.message.stamp() == stamp(0, 2, 1, 0));
    assert!(rt; same_message(&copied.message, &sent.message));
}

#[test]
fn messages_of_several_parts(rt: HostRuntime) {
    let alloc = rt.alloc();
    for count in 0..4 {
        is_copied(&rt, alloc, &addressed(count, message_of(&rt, alloc, count)));
    }
    is_copied(&rt, alloc, &addressed(5, one_part(&rt, alloc)));
}

// The kind of a deed, its numbers and its clocks.
fn shown(deed: &GateDeed) -> (&'static str, [u64; 2], Option<Stamp>, Option<Clock>) {
    match deed {
        GateDeed::BeganTx { request, stamp } => {
            ("tx", [u64::from(*request), 0], Some(*stamp), None)
        }
        GateDeed::BeganProgram { request, stamp } => {
            ("program", [u64::from(*request), 0], Some(*stamp), None)
        }
        GateDeed::Sent { request, messages } => (
            "sent",
            [u64::from(*request), messages.as_slice().len() as u64],
            None,
            None,
        ),
        GateDeed::Nop {
            shard,
            number,
            stamp,
            low,
        } => (
            "nop",
            [u64::from(*shard), *number],
            Some(*stamp),
            Some(*low),
        ),
        GateDeed::Heard { clock } => ("heard", [0, 0], None, Some(*clock)),
        GateDeed::Raised { epoch } => ("raised", [*epoch, 0], None, None),
        GateDeed::Finished { request } => ("finished", [u64::from(*request), 0], None, None),
    }
}

// The sending of that many messages.
fn sent(rt: &impl Abort, alloc: Global, count: u64) -> GateDeed {
    let mut messages = Items::new(alloc);
    for parts in 0..count {
        let one = addressed(parts, message_of(rt, alloc, parts));
        messages.push(one).expect(rt, "memory");
    }
    GateDeed::Sent {
        request: 4,
        messages,
    }
}

// The sending of one message with one part of one operation.
fn sent_one_part(rt: &impl Abort, alloc: Global) -> GateDeed {
    let one = addressed(5, one_part(rt, alloc));
    GateDeed::Sent {
        request: 4,
        messages: list(rt, alloc, [one]),
    }
}

// Ten deeds, numbered from 0.
fn gate_deed(rt: &impl Abort, alloc: Global, number: u32) -> GateDeed {
    let (stamp, low) = (stamp(0, 2, 1, 0), clock(0, 1, 1));
    match number {
        0 => GateDeed::BeganTx { request: 4, stamp },
        1 => GateDeed::BeganProgram { request: 5, stamp },
        2 => sent(rt, alloc, 0),
        3 => sent(rt, alloc, 1),
        4 => sent(rt, alloc, 3),
        5 => sent_one_part(rt, alloc),
        6 => GateDeed::Nop {
            shard: 15,
            number: u64::MAX,
            stamp,
            low,
        },
        7 => GateDeed::Heard { clock: low },
        8 => GateDeed::Raised { epoch: 9 },
        _ => GateDeed::Finished { request: 6 },
    }
}

// The entry of a deed is copied.
fn is_gate_copied(rt: &impl Abort, alloc: Global, deed: GateDeed) {
    let entry = GateEntry { author: 8, deed };
    let copied = entry.copy(alloc).expect(rt, "memory");
    assert!(rt; copied.author == 8);
    assert!(rt; shown(&copied.deed) == shown(&entry.deed));
}

#[test]
fn each_deed_of_a_gatekeeper(rt: HostRuntime) {
    for number in 0..10 {
        is_gate_copied(&rt, rt.alloc(), gate_deed(&rt, rt.alloc(), number));
    }
}

// The kind of a deed, its numbers, its stamp, its vertex and its bound.
fn shown_of_shard(
    deed: &ShardDeed,
) -> (
    &'static str,
    [u64; 3],
    Option<Stamp>,
    Option<Name>,
    Option<Clock>,
) {
    match deed {
        ShardDeed::Arrived {
            gate,
            number,
            message,
        } => {
            let parts = message.parts.as_slice().len() as u64;
            let numbers = [u64::from(*gate), *number, parts];
            ("arrived", numbers, Some(message.stamp), None, None)
        }
        ShardDeed::Applied { gate, number } => {
            ("applied", [u64::from(*gate), *number, 0], None, None, None)
        }
        ShardDeed::Visited {
            request,
            stamp,
            vertex,
            updates,
            settled,
        } => {
            let numbers = [u64::from(*request), *updates, u64::from(*settled)];
            ("visited", numbers, Some(*stamp), Some(*vertex), None)
        }
        ShardDeed::Collected { bound } => ("collected", [0, 0, 0], None, None, *bound),
    }
}

fn arrived(gate: u32, message: Message) -> ShardDeed {
    ShardDeed::Arrived {
        gate,
        number: 5,
        message,
    }
}

fn visited(rt: &impl Abort, settled: bool) -> ShardDeed {
    ShardDeed::Visited {
        request: 3,
        stamp: stamp(0, 2, 1, 0),
        vertex: name(rt, "v"),
        updates: 6,
        settled,
    }
}

// Nine deeds, numbered from 0.
fn shard_deed(rt: &impl Abort, alloc: Global, number: u32) -> ShardDeed {
    match number {
        0 => arrived(7, message_of(rt, alloc, 0)),
        1 => arrived(7, message_of(rt, alloc, 1)),
        2 => arrived(7, message_of(rt, alloc, 3)),
        3 => arrived(1, one_part(rt, alloc)),
        4 => ShardDeed::Applied { gate: 7, number: 5 },
        5 => visited(rt, true),
        6 => visited(rt, false),
        7 => ShardDeed::Collected { bound: None },
        _ => ShardDeed::Collected {
            bound: Some(clock(0, 1, 1)),
        },
    }
}

// The entry of a deed is copied.
fn is_shard_copied(rt: &impl Abort, alloc: Global, deed: ShardDeed) {
    let entry = ShardEntry { author: 8, deed };
    let copied = entry.copy(alloc).expect(rt, "memory");
    assert!(rt; copied.author == 8);
    assert!(rt; shown_of_shard(&copied.deed) == shown_of_shard(&entry.deed));
}

#[test]
fn each_deed_of_a_shard(rt: HostRuntime) {
    for number in 0..9 {
        is_shard_copied(&rt, rt.alloc(), shard_deed(&rt, rt.alloc(), number));
    }
}

// The answers of that many `get`s, the first of which reads nothing.
fn answers_of(rt: &impl Abort, alloc: Global, count: u32) -> Items<Got> {
    let mut answers = Items::new(alloc);
    for op in 0..count {
        let state = if op == 0 { None } else { Some(bare(alloc)) };
        answers.push(Got { op, state }).expect(rt, "memory");
    }
    answers
}

// A record without properties and edges.
fn bare(alloc: Global) -> Record {
    Record {
        props: NameMap::new(alloc),
        edges: NameMap::new(alloc),
    }
}

// That many vertices, with the numbers of their earlier commits.
fn counts_of(rt: &impl Abort, alloc: Global, count: u32) -> Items<Counted> {
    let vertex = name(rt, "v");
    let mut counts = Items::new(alloc);
    for number in 0..count {
        let before = u64::from(number);
        counts.push(Counted { vertex, before }).expect(rt, "memory");
    }
    counts
}

// A commit that reads that many states, the first one absent, and names that many vertices.
fn commit_of(rt: &impl Abort, alloc: Global, count: u32) -> Verdict {
    Verdict::Committed {
        number: 7,
        answers: answers_of(rt, alloc, count),
        counts: counts_of(rt, alloc, count),
    }
}

// A commit that reads one state, and names one vertex.
fn commit_of_one(rt: &impl Abort, alloc: Global) -> Verdict {
    let vertex = name(rt, "v");
    Verdict::Committed {
        number: 7,
        answers: list(rt, alloc, [Got { op: 2, state: None }]),
        counts: list(rt, alloc, [Counted { vertex, before: 3 }]),
    }
}

// The kind of a verdict, its numbers, its vertex and its reason.
fn shown_of_verdict(verdict: &Verdict) -> (&'static str, [u64; 3], Option<Name>, Option<Reason>) {
    match verdict {
        Verdict::Committed {
            number,
            answers,
            counts,
        } => {
            let read = answers.as_slice().len() as u64;
            let numbers = [*number, read, counts.as_slice().len() as u64];
            ("committed", numbers, None, None)
        }
        Verdict::Conflict { vertex, newer } => {
            ("conflict", [u64::from(*newer), 0, 0], Some(*vertex), None)
        }
        Verdict::Refused { op, reason, at } => {
            ("refused", [u64::from(*op), *at, 0], None, Some(*reason))
        }
    }
}

// Seven verdicts, numbered from 0.
fn verdict(rt: &impl Abort, alloc: Global, number: u32) -> Verdict {
    match number {
        0 => commit_of(rt, alloc, 0),
        1 => commit_of(rt, alloc, 1),
        2 => commit_of(rt, alloc, 3),
        3 => commit_of_one(rt, alloc),
        4 => conflict(rt),
        5 => Verdict::Refused {
            op: 1,
            reason: Reason::Missing,
            at: 6,
        },
        _ => Verdict::Refused {
            op: 64,
            reason: Reason::Full,
            at: u64::MAX,
        },
    }
}

fn conflict(rt: &impl Abort) -> Verdict {
    Verdict::Conflict {
        vertex: name(rt, "v"),
        newer: 9,
    }
}

fn names(rt: &impl Abort, alloc: Global, count: u64) -> Items<Name> {
    let mut names = Items::new(alloc);
    for _ in 0..count {
        names.push(name(rt, "v")).expect(rt, "memory");
    }
    names
}

// A judgement of that many operations, for which that many vertices were asked about.
fn judged(rt: &impl Abort, alloc: Global, count: u64, verdict: Verdict) -> StoreEntry {
    let deed = StoreDeed::Judged {
        request: 4,
        stamp: stamp(0, 2, 1, 0),
        ops: reads(rt, alloc, count),
        asked: names(rt, alloc, count),
        verdict,
    };
    StoreEntry { author: 8, deed }
}

// A judgement with this verdict is copied.
fn is_verdict_copied(rt: &impl Abort, alloc: Global, verdict: Verdict) {
    let wanted = shown_of_verdict(&verdict);
    let entry = judged(rt, alloc, 1, verdict);
    let copied = entry.copy(alloc).expect(rt, "memory");
    let StoreDeed::Judged { verdict, .. } = &copied.deed;
    assert!(rt; shown_of_verdict(verdict) == wanted);
}

#[test]
fn each_verdict_of_the_store(rt: HostRuntime) {
    for number in 0..7 {
        is_verdict_copied(&rt, rt.alloc(), verdict(&rt, rt.alloc(), number));
    }
}

// Whether it is the judgement of that many operations.
fn is_judged(entry: &StoreEntry, count: u64) -> bool {
    let StoreDeed::Judged {
        request,
        stamp: judged_at,
        ops,
        asked,
        ..
    } = &entry.deed;
    entry.author == 8
        && *request == 4
        && *judged_at == stamp(0, 2, 1, 0)
        && ops.as_slice().len() as u64 == count
        && asked.as_slice().len() as u64 == count
}

// A judgement of that many operations is copied.
fn is_judgement_copied(rt: &impl Abort, alloc: Global, count: u64) {
    let entry = judged(rt, alloc, count, conflict(rt));
    let copied = entry.copy(alloc).expect(rt, "memory");
    assert!(rt; is_judged(&copied, count));
}

#[test]
fn judgements_of_each_size(rt: HostRuntime) {
    for count in 0..4 {
        is_judgement_copied(&rt, rt.alloc(), count);
    }
}

// An entry of the oracle is copied.
fn is_settled_copied(
    rt: &impl Abort,
    alloc: Global,
    earlier: &[Stamp],
    later: Stamp,
    places: &[u32],
) {
    let deed = OracleDeed::Settled {
        earlier: Items::from_vec(Vec::from_slice(alloc, earlier).expect(rt, "memory")),
        later,
        places: Items::from_vec(Vec::from_slice(alloc, places).expect(rt, "memory")),
    };
    let entry = OracleEntry { author: 8, deed };
    let copied = entry.copy(alloc).expect(rt, "memory");
    assert!(rt; is_entry(&copied, 8, earlier, &later, places));
}

#[test]
fn what_the_oracle_was_asked(rt: HostRuntime) {
    let (a, b) = (stamp(0, 1, 0, 0), stamp(0, 0, 1, 0));
    let (one, all) = ([a], [a, b, stamp(0, 2, 2, 0)]);
    let rows: [(&[Stamp], Stamp, &[u32]); 5] = [
        (&[], a, &[]),
        (&one, a, &[0]),
        (&one, b, &[0]),
        (&all, a, &[2]),
        (&all, a, &[0, 1, 2]),
    ];
    for (earlier, later, places) in rows {
        is_settled_copied(&rt, rt.alloc(), earlier, later, places);
    }
}

#[test]
fn an_entry_of_a_session(rt: HostRuntime) {
    let deed = SessionDeed::Begun {
        request: 4,
        stamp: stamp(0, 2, 1, 0),
    };
    let begun = SessionEntry { author: 3, deed };
    let copied = begun.copy(rt.alloc()).expect(&rt, "memory");
    assert!(rt; copied == begun);
}
