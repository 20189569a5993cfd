ghost use Rattle.std.specs.Prelude.{◌≤◌};
ghost use Rattle.weave_data.specs.Limits.{most_gates};

use crate::shard_row::{
    Reading, Row, apply, arrive, commit, deliver, is_last_by, new_shard, next_number, nop,
    nop_above, part, read, two_parts, visit, visit_for, visited,
};
use crate::test_judge::{TestJudge, full_judge, judge_of};
use crate::values::{name, stamp, stamp_in};
use graph_ops::{Name, Op, Record};
use shard_node::{ApplyFault, Arrival, VisitFault};
use std::alloc::Global;
use std::process::Abort;
use vector_stamp::{Clock, Stamp};
use weave_entries::{Message, ShardDeed, ShardEntry};

// Of three empty messages that were sent this one is delivered.
fn delivers(rt: &impl Abort, alloc: Global, row: &mut Row, number: u64, arrival: Option<Arrival>) {
    assert!(rt; deliver(rt, alloc, row, 3, number) == arrival);
}

// The head of gatekeeper 0 is processed.
fn applies(rt: &impl Abort, alloc: Global, row: &mut Row, answer: Result<(), ApplyFault>) {
    assert!(rt; apply(rt, alloc, row, 0) == answer);
}

// Three empty messages arrive out of order, the first of them twice. A fourth one was never sent.
fn deliver_each(rt: &impl Abort, alloc: Global, row: &mut Row) {
    delivers(rt, alloc, row, 3, Some(Arrival::Kept));
    applies(rt, alloc, row, Err(ApplyFault::Empty));
    delivers(rt, alloc, row, 1, Some(Arrival::Kept));
    delivers(rt, alloc, row, 1, Some(Arrival::Repeat));
    delivers(rt, alloc, row, 2, Some(Arrival::Kept));
    delivers(rt, alloc, row, 4, None);
}

// They are processed, and one of them arrives again.
fn apply_each(rt: &impl Abort, alloc: Global, row: &mut Row) {
    for _turn in 0..3 {
        applies(rt, alloc, row, Ok(()));
    }
    applies(rt, alloc, row, Err(ApplyFault::Empty));
    delivers(rt, alloc, row, 2, Some(Arrival::Repeat));
}

// Messages that arrive out of order are processed in order.
#[test]
fn messages_out_of_order(rt: HostRuntime) {
    let mut row = new_shard(&rt, rt.alloc(), 0, 1);
    deliver_each(&rt, rt.alloc(), &mut row);
    apply_each(&rt, rt.alloc(), &mut row);
    for (place, number) in [(3, 1), (4, 2), (5, 3)] {
        assert!(rt; applied_at(row.shard.log(), place) == Some((0, number)));
    }
    assert!(rt; next_number(&rt, &row, 0) == 4 && row.shard.log().len() == 6);
}

// The gatekeeper and the number of the message that the entry of this place processed.
fn applied_at(log: &[ShardEntry], place: usize) -> Option<(u32, u64)> {
    let entry = log.get(place)?;
    match &entry.deed {
        ShardDeed::Applied { gate, number } => Some((*gate, *number)),
        _ => None,
    }
}

fn color(rt: &impl Abort, text: &str) -> Op {
    Op::Set {
        v: name(rt, "v"),
        key: name(rt, "color"),
        value: name(rt, text),
    }
}

// A message arrives as the next one of its channel, and is processed.
fn take(rt: &impl Abort, alloc: Global, row: &mut Row, gate: u32, number: u64, message: Message) {
    arrive(rt, alloc, row, gate, number, message);
    apply(rt, alloc, row, gate).ok().expect(rt, "not applied");
}

// Three updates of `v` by three gatekeepers: it is made, becomes red, and becomes blue. A program with the stamp (2, 0,
// 0) is after the first, unordered with the second, and before the third.
fn three_updates(rt: &impl Abort, alloc: Global) -> Row {
    let mut row = new_shard(rt, alloc, 0, 3);
    update_each(rt, alloc, &mut row);
    row
}

fn update_each(rt: &impl Abort, alloc: Global, row: &mut Row) {
    let v = name(rt, "v");
    let made = commit(rt, alloc, stamp(0, 1, 0, 0), 0, Op::Create { v });
    take(rt, alloc, row, 0, 1, made);
    let red = commit(rt, alloc, stamp(1, 0, 1, 0), 1, color(rt, "red"));
    take(rt, alloc, row, 1, 1, red);
    let blue = commit(rt, alloc, stamp(2, 3, 0, 1), 2, color(rt, "blue"));
    take(rt, alloc, row, 2, 1, blue);
}

// A program's visit waits for this gatekeeper. Then an empty message of it arrives.
fn waits_for(
    rt: &impl Abort,
    alloc: Global,
    row: &mut Row,
    judge: &mut TestJudge,
    gate: u32,
    empty: Stamp,
) {
    let (v, program) = (name(rt, "v"), stamp(0, 2, 0, 0));
    let silent = visit(rt, alloc, row, program, v, judge);
    assert!(rt; silent.err() == Some(VisitFault::Again { gate }));
    arrive(rt, alloc, row, gate, 2, nop(alloc, empty));
}

// The judge is out of memory, and so is a visit.
fn visit_without_memory(rt: &impl Abort, alloc: Global, row: &mut Row) {
    let (v, program) = (name(rt, "v"), stamp(0, 2, 0, 0));
    let mut judge = full_judge(Vec::new(alloc));
    let full = visit(rt, alloc, row, program, v, &mut judge);
    assert!(rt; full.err() == Some(VisitFault::Memory));
    assert!(rt; judge.pairs.is_empty());
}

// Two silent gatekeepers keep a program waiting, the least of them first. The last message of the third one is after
// the program.
#[test]
fn silent_gatekeepers(rt: HostRuntime) {
    let alloc = rt.alloc();
    let mut row = three_updates(&rt, alloc);
    let mut judge = judge_of(&rt, alloc, &[]);
    waits_for(&rt, alloc, &mut row, &mut judge, 0, stamp(0, 3, 0, 0));
    waits_for(&rt, alloc, &mut row, &mut judge, 1, stamp(1, 2, 2, 0));
    visit_without_memory(&rt, alloc, &mut row);
    assert!(rt; row.shard.log().len() == 8 && judge.pairs.is_empty());
}

// A shard with the three updates, which is ready for the stamp (2, 0, 0).
fn ready_shard(rt: &impl Abort, alloc: Global) -> Row {
    let mut row = three_updates(rt, alloc);
    arrive(rt, alloc, &mut row, 0, 2, nop(alloc, stamp(0, 3, 0, 0)));
    arrive(rt, alloc, &mut row, 1, 2, nop(alloc, stamp(1, 2, 2, 0)));
    row
}

// A visit: the program, the vertex, what it reads, the number of updates and the mark of its entry, and the place of
// that in the log.
#[derive(Clone, Copy)]
struct Visit {
    program: Stamp,
    vertex: Name,
    reading: Reading,
    updates: u64,
    settled: bool,
    place: usize,
}

// A visit reads that, and the judge then has these pairs.
fn reads(
    rt: &impl Abort,
    alloc: Global,
    row: &mut Row,
    judge: &mut TestJudge,
    one: &Visit,
    pairs: &[(Stamp, Stamp)],
) {
    let seen = visit(rt, alloc, row, one.program, one.vertex, judge);
    if read(rt, &seen) != one.reading {
        panic!(rt; "another reading");
    }
    if judge.pairs.as_slice() != pairs {
        panic!(rt; "other pairs");
    }
}

// Whether the log has the entries of these visits, by author 0.
fn are_visited(log: &[ShardEntry], visits: &[Visit]) -> bool {
    let Some((one, others)) = visits.split_first() else {
        return true;
    };
    visited(log, one.place) == Some((0, 5, one.updates, one.settled)) && are_visited(log, others)
}

// Visits, one after another. The judge has these pairs after each of them.
fn read_each(
    rt: &impl Abort,
    alloc: Global,
    row: &mut Row,
    judge: &mut TestJudge,
    visits: &[Visit],
    pairs: &[(Stamp, Stamp)],
) {
    for one in visits {
        reads(rt, alloc, row, judge, one, pairs);
    }
    assert!(rt; are_visited(row.shard.log(), visits));
}

// The same with a judge that has the first pairs, and then the second ones.
fn read_all(
    rt: &impl Abort,
    alloc: Global,
    row: &mut Row,
    before: &[(Stamp, Stamp)],
    visits: &[Visit],
    after: &[(Stamp, Stamp)],
) {
    let mut judge = judge_of(rt, alloc, before);
    read_each(rt, alloc, row, &mut judge, visits, after);
}

fn colored(rt: &impl Abort, text: &str) -> Reading {
    Reading::Colored(Some(name(rt, text)))
}

// A program reads the red vertex: it sees the unordered update, which is put before it, and not the one after it. Of a
// vertex without updates it reads that it is absent.
#[test]
fn a_program_reads(rt: HostRuntime) {
    let alloc = rt.alloc();
    let program = stamp(0, 2, 0, 0);
    let first = Visit {
        program,
        vertex: name(&rt, "v"),
        reading: colored(&rt, "red"),
        updates: 2,
        settled: true,
        place: 8,
    };
    let again = Visit {
        settled: false,
        place: 9,
        ..first
    };
    let absent = Visit {
        vertex: name(&rt, "w"),
        reading: Reading::Absent,
        updates: 0,
        place: 10,
        ..again
    };
    let pairs = [(stamp(1, 0, 1, 0), program)];
    let mut row = ready_shard(&rt, alloc);
    read_all(&rt, alloc, &mut row, &[], &[first, again, absent], &pairs);
}

// A judge by whose pairs the program precedes the red vertex's update: the program reads the vertex without a color.
#[test]
fn a_refused_update_is_not_read(rt: HostRuntime) {
    let alloc = rt.alloc();
    let program = stamp(0, 2, 0, 0);
    let one = Visit {
        program,
        vertex: name(&rt, "v"),
        reading: Reading::Colored(None),
        updates: 1,
        settled: false,
        place: 8,
    };
    let pairs = [(program, stamp(1, 0, 1, 0))];
    let mut row = ready_shard(&rt, alloc);
    read_all(&rt, alloc, &mut row, &pairs, &[one], &pairs);
}

// An empty message of each of the three gatekeepers arrives.
fn arrive_each(rt: &impl Abort, alloc: Global, row: &mut Row, empties: &[Stamp; 3]) {
    for gate in 0..3 {
        let empty = nop(alloc, empties[gate as usize]);
        arrive(rt, alloc, row, gate, 2, empty);
    }
}

// A later program reads the blue vertex.
#[test]
fn a_later_program_reads_the_newest_state(rt: HostRuntime) {
    let alloc = rt.alloc();
    let empties = [stamp(0, 5, 1, 1), stamp(1, 4, 2, 1), stamp(2, 4, 1, 2)];
    let one = Visit {
        program: stamp(0, 4, 1, 1),
        vertex: name(&rt, "v"),
        reading: colored(&rt, "blue"),
        updates: 3,
        settled: false,
        place: 9,
    };
    let mut row = three_updates(&rt, alloc);
    arrive_each(&rt, alloc, &mut row, &empties);
    read_all(&rt, alloc, &mut row, &[], &[one], &[]);
}

// `w` is made. One transaction then makes `v`, gives it a color and links `w` to it. A third one has no operation on
// `v`.
fn two_linked(rt: &impl Abort, alloc: Global) -> Row {
    let mut row = new_shard(rt, alloc, 0, 2);
    let w = name(rt, "w");
    let made = commit(rt, alloc, stamp(0, 1, 0, 0), 0, Op::Create { v: w });
    take(rt, alloc, &mut row, 0, 1, made);
    take(rt, alloc, &mut row, 1, 1, makes_and_links(rt, alloc));
    take(rt, alloc, &mut row, 0, 2, only_reads(rt, alloc));
    row
}

fn makes_and_links(rt: &impl Abort, alloc: Global) -> Message {
    let (v, w) = (name(rt, "v"), name(rt, "w"));
    let link = Op::Link {
        v: w,
        edge: name(rt, "e"),
        target: v,
    };
    let makes = part(rt, alloc, v, 0, &[Op::Create { v }, color(rt, "red")]);
    let links = part(rt, alloc, w, 1, &[link]);
    two_parts(rt, alloc, stamp(1, 1, 1, 0), makes, links)
}

fn only_reads(rt: &impl Abort, alloc: Global) -> Message {
    let (v, w) = (name(rt, "v"), name(rt, "w"));
    let nothing = part(rt, alloc, v, 1, &[]);
    let reads = part(rt, alloc, w, 2, &[Op::Get { v: w }]);
    two_parts(rt, alloc, stamp(0, 2, 1, 0), nothing, reads)
}

// How many edges the vertex has that was read.
fn edges(visit: &Result<Option<Record>, VisitFault>) -> Option<usize> {
    let Ok(state) = visit else {
        return None;
    };
    let Some(found) = state else {
        return None;
    };
    Some(found.edges.len())
}

// The number of edges of `w` that this program reads.
fn edges_read(rt: &impl Abort, alloc: Global, row: &mut Row, program: Stamp) -> Option<usize> {
    let mut judge = judge_of(rt, alloc, &[]);
    let seen = visit(rt, alloc, row, program, name(rt, "w"), &mut judge);
    edges(&seen)
}

// This many versions of the vertex are kept.
fn keeps(rt: &impl Abort, row: &Row, vertex: &str, versions: usize) {
    if row.shard.kept(name(rt, vertex)) != versions {
        panic!(rt; "another number of versions");
    }
}

// A program reads both vertices, once each gatekeeper has sent a later message.
fn read_both(rt: &impl Abort, alloc: Global, row: &mut Row) {
    let program = stamp(0, 3, 1, 0);
    let one = Visit {
        program,
        vertex: name(rt, "v"),
        reading: colored(rt, "red"),
        updates: 2,
        settled: false,
        place: 8,
    };
    arrive(rt, alloc, row, 0, 3, nop(alloc, stamp(0, 4, 1, 0)));
    arrive(rt, alloc, row, 1, 2, nop(alloc, stamp(1, 3, 2, 0)));
    read_all(rt, alloc, row, &[], &[one], &[]);
    assert!(rt; edges_read(rt, alloc, row, program) == Some(1));
    assert!(rt; visited(row.shard.log(), 9) == Some((0, 5, 3, false)));
}

// A message of two vertices is applied to both, with all operations of each part. A part without operations is an
// update.
#[test]
fn a_message_of_two_vertices(rt: HostRuntime) {
    let alloc = rt.alloc();
    let mut row = two_linked(&rt, alloc);
    keeps(&rt, &row, "v", 2);
    keeps(&rt, &row, "w", 3);
    read_both(&rt, alloc, &mut row);
}

// A visit of a program of epoch 3 for request 41.
fn visit_late(
    rt: &impl Abort,
    alloc: Global,
    row: &mut Row,
    judge: &mut TestJudge,
) -> Result<Option<Record>, VisitFault> {
    let program = stamp_in(3, 6, [0, 0, 0, 0, 0, 0, 1, 1]);
    visit_for(rt, alloc, row, 41, program, name(rt, "v"), judge)
}

// The visit waits for this gatekeeper. Then an empty message of epoch 4 arrives from it.
fn waits_late(rt: &impl Abort, alloc: Global, row: &mut Row, judge: &mut TestJudge, gate: u32) {
    let silent = visit_late(rt, alloc, row, judge);
    assert!(rt; silent.err() == Some(VisitFault::Again { gate }));
    let number = if gate == 7 { 2 } else { 1 };
    let empty = nop(alloc, stamp_in(4, gate, [1; 8]));
    arrive(rt, alloc, row, gate, number, empty);
}

// The visit waits for each gatekeeper in turn, and then reads a vertex without a color.
fn wait_for_all(rt: &impl Abort, alloc: Global, row: &mut Row, judge: &mut TestJudge) {
    for gate in 0..8 {
        waits_late(rt, alloc, row, judge, gate);
    }
    let seen = visit_late(rt, alloc, row, judge);
    assert!(rt; read(rt, &seen) == Reading::Colored(None));
}

// Eight gatekeepers in epoch 3: the last one makes a vertex, and a program of the seventh reads it once each has sent a
// message of epoch 4.
#[test]
fn eight_gatekeepers(rt: HostRuntime) {
    let alloc = rt.alloc();
    let v = name(&rt, "v");
    let made = stamp_in(3, 7, [0, 0, 0, 0, 0, 0, 0, 1]);
    let made = commit(&rt, alloc, made, 0, Op::Create { v });
    let mut judge = judge_of(&rt, alloc, &[]);
    let mut row = new_shard(&rt, alloc, 5, 8);
    take(&rt, alloc, &mut row, 7, 1, made);
    wait_for_all(&rt, alloc, &mut row, &mut judge);
    assert!(rt; visited(row.shard.log(), 10) == Some((6, 41, 1, false)));
}

// The bound of the last entry, if that is a collection.
fn last_bound(log: &[ShardEntry]) -> Option<Option<Clock>> {
    let entry = log.last()?;
    match &entry.deed {
        ShardDeed::Collected { bound } => Some(*bound),
        _ => None,
    }
}

// A collection by author 9 has this bound, and leaves this many versions of `v`.
fn collect(rt: &impl Abort, row: &mut Row, bound: Option<Clock>, kept: usize) {
    row.shard.collect(9).expect(rt, "memory");
    if last_bound(row.shard.log()) != Some(bound) || !is_last_by(row.shard.log(), 9) {
        panic!(rt; "another entry");
    }
    keeps(rt, row, "v", kept);
}

// Gatekeeper 0 makes `v`, and gives it a color.
fn two_updates(rt: &impl Abort, alloc: Global, gates: u32) -> Row
    requires some { 1 ≤ gates }
    requires few { gates ≤ most_gates }
{
    let v = name(rt, "v");
    let mut row = new_shard(rt, alloc, 0, gates);
    let made = commit(rt, alloc, stamp(0, 1, 0, 0), 0, Op::Create { v });
    take(rt, alloc, &mut row, 0, 1, made);
    let red = commit(rt, alloc, stamp(0, 2, 0, 0), 1, color(rt, "red"));
    take(rt, alloc, &mut row, 0, 2, red);
    row
}

// A message of gatekeeper 0 has this number, count and count of its low mark, which is the bound of a collection then.
// That leaves this many versions of the red vertex, and what a program of count 4 reads, whose entry is at this place.
fn collects_at(
    rt: &impl Abort,
    alloc: Global,
    row: &mut Row,
    number: u64,
    own: u64,
    low: u64,
    kept: usize,
    place: usize,
) {
    let low = stamp(0, low, 0, 0);
    let one = Visit {
        program: stamp(0, 4, 0, 0),
        vertex: name(rt, "v"),
        reading: colored(rt, "red"),
        updates: 2,
        settled: false,
        place,
    };
    let message = nop_above(alloc, stamp(0, own, 0, 0), low);
    take(rt, alloc, row, 0, number, message);
    collect(rt, row, Some(low.clock), kept);
    read_all(rt, alloc, row, &[], &[one], &[]);
}

// The bound is the low mark of the last processed message, and not its stamp. While it has count 2, both versions are
// kept. With count 3 the older one is dropped. A program of count 4 reads the same after each collection.
#[test]
fn old_versions_are_dropped(rt: HostRuntime) {
    let alloc = rt.alloc();
    let mut row = two_updates(&rt, alloc, 1);
    collects_at(&rt, alloc, &mut row, 3, 5, 2, 2, 7);
    collects_at(&rt, alloc, &mut row, 4, 6, 3, 1, 11);
}

// An empty message of a gatekeeper is processed, and a collection then has this bound, and leaves this many versions.
fn take_and_collect(
    rt: &impl Abort,
    alloc: Global,
    row: &mut Row,
    number: u64,
    empty: Stamp,
    bound: Option<u64>,
    kept: usize,
) {
    take(rt, alloc, row, empty.home, number, nop(alloc, empty));
    let bound = bound.map(|count| stamp(0, count, 0, 0).clock);
    collect(rt, row, bound, kept);
}

// If nothing of a gatekeeper was processed, there is no bound, and nothing is dropped.
// The bound is then the meet of the low marks of both gatekeepers.
#[test]
fn all_gatekeepers_bound_a_collection(rt: HostRuntime) {
    let alloc = rt.alloc();
    let rows = [
        (3, stamp(0, 3, 0, 0), None, 2),
        (1, stamp(1, 1, 1, 0), Some(1), 2),
        (2, stamp(1, 4, 2, 0), Some(3), 1),
    ];
    let mut row = two_updates(&rt, alloc, 2);
    for (number, empty, bound, kept) in rows {
        take_and_collect(&rt, alloc, &mut row, number, empty, bound, kept);
    }
    collect(&rt, &mut row, Some(stamp(0, 3, 0, 0).clock), 1);
    assert!(rt; row.shard.log().len() == 14);
}
