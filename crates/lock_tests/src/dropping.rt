//! A shard with notes drops old versions as it does without them.
ghost use Rattle.std.specs.Prelude.{◌≡◌, [], ◌∷◌, Some};
ghost use Rattle.chronicle.specs.Passes.{seen_by_note};
ghost use Rattle.lock_tests.specs.Dropping.{clock_of_count, deleted_message, empty, made_message, message_of, stamp_of_count, vertex, HasSeenRun, IsSentToShard};

use crate::log_texts::text_of_shard;
use chronicle::{Chronicle, Machine, Note};
use graph_ops::{Op, Part};
use shard_lock::{NotedShard, ShardNotes};
use shard_node::Shard;
use shard_queue::Arrival;
use std::alloc::Global;
use std::process::Abort;
use vector_stamp::{Clock, Stamp};
use weave_data::{Items, Name};
use weave_entries::{GateDeed, Message, OracleDeed, StoreDeed};

// A gatekeeper that has sent the three messages.
#[derive(Drop)]
struct Sender {
    byte: u8,
}

impl Machine for Sender {
    type Entry = GateDeed;

    ghost use Rattle.std.specs.Prelude.{[]};
    ghost use Rattle.seen_logs.specs.Entries.{gate_pairs};
    ghost use Rattle.lock_tests.specs.Dropping.{sent_log};

    ghost frame = { λ _. [] };

    ghost log = { λ _. gate_pairs sent_log };
}

// The store that has judged their transactions.
#[derive(Drop)]
struct Judge {
    byte: u8,
}

impl Machine for Judge {
    type Entry = StoreDeed;

    ghost use Rattle.std.specs.Prelude.{[]};
    ghost use Rattle.seen_logs.specs.Entries.{store_pairs};
    ghost use Rattle.lock_tests.specs.Dropping.{judged_log};

    ghost frame = { λ _. [] };

    ghost log = { λ _. store_pairs judged_log };
}

// An oracle that was asked nothing.
#[derive(Drop)]
struct Unasked {
    byte: u8,
}

impl Machine for Unasked {
    type Entry = OracleDeed;

    ghost use Rattle.std.specs.Prelude.{[]};

    ghost frame = { λ _. [] };

    ghost log = { λ _. [] };
}

// A note of the lock of this machine.
fn note_of<R: Abort, M: Machine + Drop>(rt: &R, alloc: Global, machine: &M) -> Note<M::Entry>
    ensures { seen_by_note result ≡ M.log machine.now }
{
    let opened = Chronicle::<M>::new(alloc, machine, 1);
    let (lock, mut passes, _place) = opened.expect(rt, "memory");
    lock.note(&mut passes[0])
}

// A shard without entries, with notes of these machines' locks.
fn new_shard(rt: &impl Abort, alloc: Global) -> NotedShard
    ensures { HasSeenRun result }
{
    let mut gates = Vec::new(alloc);
    let gate = note_of(rt, alloc, &Sender { byte: 0 });
    gates.push(gate).expect(rt, "memory");
    let store = note_of(rt, alloc, &Judge { byte: 0 });
    let oracle = note_of(rt, alloc, &Unasked { byte: 0 });
    let shard = Shard::new(alloc, 0, 1).expect(rt, "memory");
    NotedShard::new(shard, 1, ShardNotes::new(gates, store, oracle))
}

fn clock_at(count: u64) -> Clock
    ensures { result ≡ clock_of_count count }
{
    Clock {
        epoch: 0,
        counts: [count, 0, 0, 0, 0, 0, 0, 0],
    }
}

fn stamp_at(count: u64) -> Stamp
    ensures { result ≡ stamp_of_count count }
{
    Stamp {
        home: 0,
        clock: clock_at(count),
    }
}

fn the_vertex(rt: &impl Abort) -> Name
    ensures { result ≡ vertex }
{
    Name::parse(&[118]).expect(rt, "a letter")
}

// The message of a transaction of one operation on the vertex.
fn message(rt: &impl Abort, alloc: Global, request: u32, count: u64, before: u64, op: Op) -> Message
    ensures { result ≡ message_of request count before op }
{
    let mut ops = Items::new(alloc);
    ops.push(op).expect(rt, "memory");
    let part = Part {
        vertex: the_vertex(rt),
        before,
        ops,
    };
    let mut parts = Items::new(alloc);
    parts.push(part).expect(rt, "memory");
    Message {
        request: Some(request),
        stamp: stamp_at(count),
        low: clock_at(count),
        parts,
    }
}

fn first_message(rt: &impl Abort, alloc: Global) -> Message
    ensures { result ≡ made_message }
{
    let op = Op::Create { v: the_vertex(rt) };
    message(rt, alloc, 0, 1, 0, op)
}

fn second_message(rt: &impl Abort, alloc: Global) -> Message
    ensures { result ≡ deleted_message }
{
    let op = Op::Delete { v: the_vertex(rt) };
    message(rt, alloc, 1, 2, 1, op)
}

fn third_message(alloc: Global) -> Message
    ensures { result ≡ empty }
{
    Message {
        request: None,
        stamp: stamp_at(3),
        low: clock_at(3),
        parts: Items::new(alloc),
    }
}

// The message with this number arrives, and is processed.
fn take(rt: &impl Abort, alloc: Global, shard: &mut NotedShard, number: u64, message: Message)
    requires run { HasSeenRun shard.old }
    requires sent { IsSentToShard number message }
    ensures { HasSeenRun shard.new }
{
    let arrived = shard.arrive(alloc, 5, 0, number, message);
    if arrived.expect(rt, "memory") == Arrival::Repeat {
        panic!(rt; "it was there");
    }
    if shard.apply(alloc, 6, 0).is_err() {
        panic!(rt; "it was not processed");
    }
}

fn collect(rt: &impl Abort, shard: &mut NotedShard)
    requires { HasSeenRun shard.old }
    ensures { HasSeenRun shard.new }
{
    shard.collect(7).expect(rt, "memory");
}

// A shard that has collected before the first message and before the third one.
fn shard_with_versions(rt: &impl Abort, alloc: Global) -> NotedShard
    ensures { HasSeenRun result }
{
    let mut shard = new_shard(rt, alloc);
    collect(rt, &mut shard);
    take(rt, alloc, &mut shard, 1, first_message(rt, alloc));
    take(rt, alloc, &mut shard, 2, second_message(rt, alloc));
    collect(rt, &mut shard);
    take(rt, alloc, &mut shard, 3, third_message(alloc));
    shard
}

const LOG: &str =
    "7 collected nothing\n5 arrived 0 1 [0 0:0:1,0 low 0:1,0; v 0 create v]\n6 applied 0 1\n5 arrived 0 2 [1 0:0:2,0 low 0:2,0; v 1 delete v]\n6 applied 0 2\n7 collected 0:2,0\n5 arrived 0 3 [empty 0:0:3,0 low 0:3,0]\n6 applied 0 3\n7 collected 0:3,0\n";

// The log, and that one version of the vertex is left.
fn check_shard(rt: &impl Abort, alloc: Global, shard: &Shard) {
    let text = text_of_shard(alloc, shard).expect(rt, "memory");
    assert!(rt; text.as_slice() == LOG.as_bytes(), "another log than {LOG}");
    assert!(rt; shard.kept(the_vertex(rt)) == 1);
}

// A shard without notes collects after the third message, and then a shard with notes: both keep one version of two,
// and have the same entries.
#[test]
fn old_versions_are_dropped_behind_notes(rt: HostRuntime) {
    let alloc = rt.alloc();
    let mut bare = shard_with_versions(&rt, alloc).into_shard();
    assert!(rt; bare.kept(the_vertex(&rt)) == 2);
    bare.collect(7).expect(&rt, "memory");
    check_shard(&rt, alloc, &bare);
    let mut noted = shard_with_versions(&rt, alloc);
    collect(&rt, &mut noted);
    check_shard(&rt, alloc, &noted.into_shard());
}
