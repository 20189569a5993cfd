ghost use Rattle.std.specs.Prelude.{◌≡◌};
ghost use Rattle.machine_tests.specs.Covers.{IsAmong};

use crate::passing::after_ops;
use crate::test_judge::{TestJudge, expect_coherent, full_judge, judge_of};
use crate::values::{name, numbered, stamp, stamp_in};
use graph_ops::{Name, Op, Record};
use std::alloc::{AllocError, Global};
use std::marker::Model;
use std::process::Abort;
use vector_stamp::Stamp;
use vector_stamp::laws::parts_and_unions_are_coherent;
use version_chain::{Chain, Version, View};
use weave_data::Copied;

// The updates of a vertex, and stamps among which are those of all versions that are kept.
#[derive(Drop)]
struct Row {
    chain: Chain,
    stamps: Vec<Stamp>,
}

impl Model for Row {
    ghost use Rattle.version_chain.specs.Chains.{ChainView, stamps_of_versions};
    ghost use Rattle.machine_tests.specs.Covers.{IsAmong};

    ghost Value = { ChainView };

    ghost view = { λ r. r.chain };

    ghost invariant = { λ r. IsAmong (stamps_of_versions r.chain.kept) r.stamps.items };
}

fn no_updates(alloc: Global) -> Row {
    Row {
        chain: Chain::new(alloc),
        stamps: Vec::new(alloc),
    }
}

// Applies an update, whose operations must pass.
fn apply_all(rt: &impl Abort, alloc: Global, row: &mut Row, stamp: Stamp, ops: &[Op]) {
    let newest = row.chain.newest(alloc).expect(rt, "memory");
    let _ = after_ops(rt, alloc, ops, newest);
    let before = row.chain.count();
    if before == u64::MAX {
        panic!(rt; "too many");
    }
    row.stamps.push(stamp).expect(rt, "memory");
    row.chain
        .apply_update(alloc, stamp, before, ops)
        .expect(rt, "memory");
}

// Applies an update of one operation.
fn apply(rt: &impl Abort, alloc: Global, row: &mut Row, stamp: Stamp, op: Op) {
    apply_all(rt, alloc, row, stamp, &[op]);
}

// Applies updates of one operation each, by gatekeeper 0, whose counts begin with this one: each is the update of its
// count.
fn apply_each(rt: &impl Abort, alloc: Global, row: &mut Row, first: u64, ops: &[Op]) {
    let mut own = first;
    for op in ops {
        apply(rt, alloc, row, stamp(0, own, 0, 0), *op);
        if row.chain.count() != own {
            panic!(rt; "another number of updates");
        }
        own = own.wrapping_add(1);
    }
}

// Takes the newest update back. Nothing was dropped yet.
fn take_back(rt: &impl Abort, row: &mut Row) {
    let kept = row.chain.kept();
    if kept == 0 || row.chain.count() != kept as u64 {
        panic!(rt; "nothing is kept");
    }
    row.chain.take_back();
}

fn collect(row: &mut Row, bound: &Stamp) {
    row.chain.collect(&bound.clock);
}

// A program's view, under the conditions of `view_at`. Its gatekeeper is the author.
fn view(
    rt: &impl Abort,
    alloc: Global,
    row: &Row,
    program: Stamp,
    judge: &mut TestJudge,
) -> Result<View, AllocError> {
    parts_and_unions_are_coherent();
    expect_coherent(rt, alloc, program, row.stamps.as_slice(), judge);
    if !row.chain.reaches_back(&program) {
        panic!(rt; "what is kept doesn't reach back");
    }
    row.chain.view_at(alloc, program.home, program, judge)
}

// Whether the view is of a vertex with that many properties, `None` for absent, after that many updates.
fn shows(
    view: &Result<View, AllocError>,
    props: Option<usize>,
    updates: u64,
    settled: bool,
) -> bool {
    match view {
        Ok(view) => {
            view.state.as_ref().map(|found| found.props.len()) == props
                && view.updates == updates
                && view.settled == settled
        }
        Err(_) => false,
    }
}

// The program of the first stamp sees that, and the judge then has these pairs.
fn sees(
    rt: &impl Abort,
    alloc: Global,
    row: &Row,
    judge: &mut TestJudge,
    one: &(Stamp, Option<usize>, u64, bool),
    pairs: &[(Stamp, Stamp)],
) {
    let seen = view(rt, alloc, row, one.0, judge);
    if !shows(&seen, one.1, one.2, one.3) {
        panic!(rt; "another view");
    }
    if judge.pairs.as_slice() != pairs {
        panic!(rt; "other pairs");
    }
}

// Programs see that, one after another, and the judge has these pairs after each of them.
fn each_sees(
    rt: &impl Abort,
    alloc: Global,
    row: &Row,
    judge: &mut TestJudge,
    seen: &[(Stamp, Option<usize>, u64, bool)],
    pairs: &[(Stamp, Stamp)],
) {
    for one in seen {
        sees(rt, alloc, row, judge, one, pairs);
    }
}

// The same with a judge that has the first pairs, and then the second ones.
fn all_see(
    rt: &impl Abort,
    alloc: Global,
    row: &Row,
    before: &[(Stamp, Stamp)],
    seen: &[(Stamp, Option<usize>, u64, bool)],
    after: &[(Stamp, Stamp)],
) {
    let mut judge = judge_of(rt, alloc, before);
    each_sees(rt, alloc, row, &mut judge, seen, after);
}

// The vertex has had that many updates, and that many versions are kept.
fn keeps(rt: &impl Abort, row: &Row, updates: u64, versions: usize) {
    if row.chain.count() != updates || row.chain.kept() != versions {
        panic!(rt; "other versions");
    }
}

// The same, with that many parts.
fn keeps_parts(rt: &impl Abort, row: &Row, updates: u64, versions: usize, parts: u64) {
    keeps(rt, row, updates, versions);
    if row.chain.parts() != parts {
        panic!(rt; "other parts");
    }
}

fn set(rt: &impl Abort, v: Name, key: &str) -> Op {
    Op::Set {
        v,
        key: name(rt, key),
        value: v,
    }
}

// Sets a property whose key has that number.
fn set_key(rt: &impl Abort, v: Name, number: u8) -> Op {
    Op::Set {
        v,
        key: numbered(rt, number),
        value: v,
    }
}

// An edge from the vertex to itself.
fn link(v: Name, edge: Name) -> Op {
    Op::Link { v, edge, target: v }
}

fn tag(v: Name, edge: Name, key: Name) -> Op {
    Op::Tag {
        v,
        edge,
        key,
        value: v,
    }
}

// Three updates, of gatekeepers 0, 1 and 2: the first makes the vertex, and each other gives it a property more.
fn three_updates(rt: &impl Abort, alloc: Global, clocks: &[Stamp; 3]) -> Row {
    let mut row = no_updates(alloc);
    apply_three(rt, alloc, &mut row, clocks);
    row
}

fn apply_three(rt: &impl Abort, alloc: Global, row: &mut Row, clocks: &[Stamp; 3]) {
    let v = name(rt, "v");
    apply(rt, alloc, row, clocks[0], Op::Create { v });
    apply(rt, alloc, row, clocks[1], set(rt, v, "a"));
    apply(rt, alloc, row, clocks[2], set(rt, v, "b"));
}

// Of a vertex with one update before the program, one unordered with it and one after it the program sees two, and the
// second is put before it. The second view adds nothing.
#[test]
fn an_unordered_update_is_seen(rt: HostRuntime) {
    let alloc = rt.alloc();
    let program = stamp(0, 2, 0, 0);
    let clocks = [stamp(0, 1, 0, 0), stamp(1, 0, 1, 0), stamp(2, 3, 0, 1)];
    let seen = [(program, Some(1), 2, true), (program, Some(1), 2, false)];
    let row = three_updates(&rt, alloc, &clocks);
    keeps(&rt, &row, 3, 3);
    all_see(&rt, alloc, &row, &[], &seen, &[(clocks[1], program)]);
}

// An unordered update that the program precedes by a pair is skipped, and the one before it is seen.
#[test]
fn a_refused_update_is_skipped(rt: HostRuntime) {
    let alloc = rt.alloc();
    let program = stamp(0, 2, 0, 0);
    let (b, c) = (stamp(1, 0, 1, 0), stamp(2, 0, 0, 1));
    let row = three_updates(&rt, alloc, &[stamp(0, 1, 0, 0), b, c]);
    let settled = [(program, c), (b, program)];
    let seen = [(program, Some(1), 2, true)];
    all_see(&rt, alloc, &row, &[(program, c)], &seen, &settled);
    let refused = [(program, b), (b, c)];
    let seen = [(program, Some(0), 1, false)];
    all_see(&rt, alloc, &row, &refused, &seen, &refused);
}

// The judge is out of memory: a program that needs no pair sees nothing, and one that needs a pair has no view. The
// judge is as it was.
fn sees_without_memory(rt: &impl Abort, alloc: Global, row: &Row) {
    let mut judge = full_judge(Vec::new(alloc));
    let seen = (stamp(3, 0, 0, 0), None, 0, false);
    sees(rt, alloc, row, &mut judge, &seen, &[]);
    let asked = view(rt, alloc, row, stamp(4, 3, 0, 0), &mut judge);
    if asked.is_ok() || !judge.pairs.is_empty() {
        panic!(rt; "a view");
    }
}

// A vertex without updates is absent, and so is one whose updates are all after the program. Out of memory leaves the
// judge as it was.
#[test]
fn nothing_is_seen(rt: HostRuntime) {
    let alloc = rt.alloc();
    let clocks = [stamp(0, 2, 0, 0), stamp(1, 2, 1, 0), stamp(2, 2, 0, 1)];
    let nothing = [(stamp(0, 1, 0, 0), None, 0, false)];
    all_see(&rt, alloc, &no_updates(alloc), &[], &nothing, &[]);
    let row = three_updates(&rt, alloc, &clocks);
    all_see(&rt, alloc, &row, &[], &nothing, &[]);
    sees_without_memory(&rt, alloc, &row);
}

// What was taken back is gone, and another update can be applied in its place.
#[test]
fn an_update_is_taken_back(rt: HostRuntime) {
    let alloc = rt.alloc();
    let delete = Op::Delete { v: name(&rt, "v") };
    let clocks = [stamp(0, 1, 0, 0), stamp(0, 2, 0, 0), stamp(0, 3, 0, 0)];
    let mut row = three_updates(&rt, alloc, &clocks);
    take_back(&rt, &mut row);
    keeps(&rt, &row, 2, 2);
    apply(&rt, alloc, &mut row, stamp(0, 4, 0, 0), delete);
    let seen = [(stamp(0, 5, 0, 0), None, 3, false)];
    all_see(&rt, alloc, &row, &[], &seen, &[]);
}

// A bound of this count leaves that many of three versions, and drops nothing the second time.
fn leaves(rt: &impl Abort, alloc: Global, count: u64, kept: usize) {
    let clocks = [stamp(0, 1, 0, 0), stamp(0, 2, 0, 0), stamp(0, 3, 0, 0)];
    let mut row = three_updates(rt, alloc, &clocks);
    for _turn in 0..2 {
        collect(&mut row, &stamp(0, count, 0, 0));
        keeps(rt, &row, 3, kept);
    }
}

// Three updates of one gatekeeper, with the counts 1, 2 and 3.
// A bound of count 3 drops the first version. A bound of count 1 drops none.
#[test]
fn older_versions_are_dropped(rt: HostRuntime) {
    let alloc = rt.alloc();
    leaves(&rt, alloc, 3, 2);
    leaves(&rt, alloc, 1, 3);
}

// A collection leaves two of three versions, and what a program sees. What is kept then no longer reaches back to an
// earlier program.
fn sees_after_a_collection(
    rt: &impl Abort,
    alloc: Global,
    row: &mut Row,
    pairs: &[(Stamp, Stamp)],
    seen: &[(Stamp, Option<usize>, u64, bool)],
) {
    let earlier = stamp(0, 0, 1, 0);
    all_see(rt, alloc, row, pairs, seen, pairs);
    assert!(rt; row.chain.reaches_back(&earlier));
    collect(row, &stamp(0, 3, 0, 0));
    keeps(rt, row, 3, 2);
    all_see(rt, alloc, row, pairs, seen, pairs);
    assert!(rt; !row.chain.reaches_back(&earlier));
}

// A program precedes the newest update by a pair. After a collection it sees the version before it, as it did before.
#[test]
fn a_collection_leaves_the_view(rt: HostRuntime) {
    let alloc = rt.alloc();
    let program = stamp(0, 4, 0, 0);
    let clocks = [stamp(0, 1, 0, 0), stamp(0, 2, 0, 0), stamp(2, 1, 0, 4)];
    let (pairs, seen) = ([(program, clocks[2])], [(program, Some(1), 2, false)]);
    let mut row = three_updates(&rt, alloc, &clocks);
    sees_after_a_collection(&rt, alloc, &mut row, &pairs, &seen);
}

// A program of this count of gatekeeper 0 sees that.
fn sees_at(
    rt: &impl Abort,
    alloc: Global,
    row: &Row,
    count: u64,
    props: Option<usize>,
    updates: u64,
) {
    let seen = [(stamp(0, count, 0, 0), props, updates, false)];
    all_see(rt, alloc, row, &[], &seen, &[]);
}

// Updates of several operations and of none, on a vertex that is absent, and on one that is there.
fn updates_of_several(rt: &impl Abort, alloc: Global, row: &mut Row, v: Name) {
    let reads = [Op::Get { v }, Op::Get { v }, Op::Get { v }];
    apply_all(rt, alloc, row, stamp(0, 1, 0, 0), &[]);
    apply_all(rt, alloc, row, stamp(0, 2, 0, 0), &reads);
    sees_at(rt, alloc, row, 3, None, 2);
    apply(rt, alloc, row, stamp(0, 4, 0, 0), Op::Create { v });
    apply_all(rt, alloc, row, stamp(0, 5, 0, 0), &reads);
    apply_all(rt, alloc, row, stamp(0, 6, 0, 0), &[]);
    sees_at(rt, alloc, row, 7, Some(0), 5);
}

// The vertex is deleted, made again, and given a property.
fn made_again(rt: &impl Abort, alloc: Global, row: &mut Row, v: Name) {
    apply(rt, alloc, row, stamp(0, 8, 0, 0), Op::Delete { v });
    apply(rt, alloc, row, stamp(0, 9, 0, 0), Op::Create { v });
    apply(rt, alloc, row, stamp(0, 10, 0, 0), set(rt, v, "a"));
    sees_at(rt, alloc, row, 11, Some(1), 8);
}

// Updates of several operations and of none, on a vertex that is absent, there, deleted and there again.
#[test]
fn updates_of_each_state(rt: HostRuntime) {
    let alloc = rt.alloc();
    let v = name(&rt, "v");
    let mut row = no_updates(alloc);
    updates_of_several(&rt, alloc, &mut row, v);
    made_again(&rt, alloc, &mut row, v);
}

// An unordered update that deletes the vertex is put before the program, which sees it absent.
#[test]
fn an_unordered_deletion_is_seen(rt: HostRuntime) {
    let alloc = rt.alloc();
    let v = name(&rt, "v");
    let (program, deleted) = (stamp(2, 0, 0, 1), stamp(1, 1, 1, 0));
    let seen = [(program, None, 2, true), (program, None, 2, false)];
    let mut row = no_updates(alloc);
    apply(&rt, alloc, &mut row, stamp(0, 1, 0, 0), Op::Create { v });
    apply(&rt, alloc, &mut row, deleted, Op::Delete { v });
    all_see(&rt, alloc, &row, &[], &seen, &[(deleted, program)]);
}

// Two unordered updates are refused, and the one before them is put before the program.
#[test]
fn the_third_update_is_seen(rt: HostRuntime) {
    let alloc = rt.alloc();
    let program = stamp_in(0, 3, [0, 0, 0, 1, 0, 0, 0, 0]);
    let clocks = [stamp(0, 1, 0, 0), stamp(1, 0, 1, 0), stamp(2, 0, 0, 1)];
    let refused = [(program, clocks[1]), (program, clocks[2])];
    let settled = [refused[0], refused[1], (clocks[0], program)];
    let row = three_updates(&rt, alloc, &clocks);
    let seen = [(program, Some(0), 1, true)];
    all_see(&rt, alloc, &row, &refused, &seen, &settled);
}

// An update of each kind of operation, one after another.
#[test]
fn updates_of_each_kind(rt: HostRuntime) {
    let alloc = rt.alloc();
    let v = name(&rt, "v");
    let (edge, key) = (name(&rt, "e"), name(&rt, "k"));
    let ops = [
        Op::Create { v },
        set(&rt, v, "k"),
        Op::Get { v },
        link(v, edge),
        tag(v, edge, key),
        Op::Untag { v, edge, key },
        Op::Unlink { v, edge },
        Op::Unset { v, key },
        Op::Delete { v },
    ];
    let mut row = no_updates(alloc);
    apply_each(&rt, alloc, &mut row, 1, &ops);
    sees_at(&rt, alloc, &row, 10, None, 9);
}

// The operations of an update of `create` and 63 properties.
fn many_properties(rt: &impl Abort, alloc: Global, v: Name) -> Vec<Op> {
    let mut ops = Vec::new(alloc);
    ops.push(Op::Create { v }).expect(rt, "memory");
    for number in 0..63 {
        ops.push(set_key(rt, v, number)).expect(rt, "memory");
    }
    ops
}

// An update of `create` and 63 properties, one of a 64th, and 100 that write the first property again.
fn write_a_property_again(rt: &impl Abort, alloc: Global, row: &mut Row) {
    let v = name(rt, "v");
    let ops = many_properties(rt, alloc, v);
    apply_all(rt, alloc, row, stamp(0, 1, 0, 0), ops.as_slice());
    apply(rt, alloc, row, stamp(0, 2, 0, 0), set_key(rt, v, 63));
    for own in 3..103 {
        apply(rt, alloc, row, stamp(0, own, 0, 0), set_key(rt, v, 0));
    }
}

// `take_back` takes one part away, and a collection leaves the 65 parts of the oldest kept state and one of the update
// after it.
fn take_back_and_collect(rt: &impl Abort, alloc: Global, row: &mut Row) {
    let (program, newest, last) = (
        stamp(1, 100, 1, 0),
        stamp(0, 101, 0, 0),
        stamp(0, 103, 0, 0),
    );
    let pairs = [(program, newest)];
    let seen = [
        (program, Some(64), 100, false),
        (last, Some(64), 101, false),
    ];
    keeps_parts(rt, row, 102, 102, 165);
    take_back(rt, row);
    keeps_parts(rt, row, 101, 101, 164);
    collect(row, &newest);
    keeps_parts(rt, row, 101, 2, 66);
    all_see(rt, alloc, row, &pairs, &seen, &pairs);
}

// Each update adds what it changes: 64 parts, and 101 more.
#[test]
fn parts_are_what_changed(rt: HostRuntime) {
    let alloc = rt.alloc();
    let mut row = no_updates(alloc);
    write_a_property_again(&rt, alloc, &mut row);
    take_back_and_collect(&rt, alloc, &mut row);
}

// The state after the newest update.
fn newest(rt: &impl Abort, alloc: Global, row: &Row) -> Option<Record> {
    row.chain.newest(alloc).expect(rt, "memory")
}

// Whether the vertex has this edge and no other, and that has no tags.
fn has_bare_edge(state: &Option<Record>, edge: Name) -> bool {
    let Some(record) = state else {
        return false;
    };
    if record.edges.len() != 1 {
        return false;
    }
    match record.edges.get(edge) {
        Some(found) => found.tags.len() == 0,
        None => false,
    }
}

// Whether the vertex has neither properties nor edges.
fn is_bare(state: &Option<Record>) -> bool {
    let Some(record) = state else {
        return false;
    };
    record.props.len() == 0 && record.edges.len() == 0
}

// An edge that is linked again has none of its tags.
fn links_again(rt: &impl Abort, alloc: Global, row: &mut Row, v: Name, edge: Name) {
    let ops = [
        Op::Create { v },
        link(v, edge),
        tag(v, edge, name(rt, "k")),
        Op::Unlink { v, edge },
        link(v, edge),
    ];
    apply_each(rt, alloc, row, 1, &ops);
    assert!(rt; has_bare_edge(&newest(rt, alloc, row), edge));
}

// A vertex that is made again has none of its properties and edges.
fn makes_again(rt: &impl Abort, alloc: Global, row: &mut Row, v: Name) {
    let ops = [set(rt, v, "a"), Op::Delete { v }, Op::Create { v }];
    apply_each(rt, alloc, row, 6, &ops);
    assert!(rt; is_bare(&newest(rt, alloc, row)));
    keeps_parts(rt, row, 8, 8, 8);
}

// A vertex that is made again has none of the properties and edges that it had, and an edge that is linked again none
// of its tags.
#[test]
fn what_was_deleted_stays_hidden(rt: HostRuntime) {
    let alloc = rt.alloc();
    let v = name(&rt, "v");
    let mut row = no_updates(alloc);
    links_again(&rt, alloc, &mut row, v, name(&rt, "e"));
    makes_again(&rt, alloc, &mut row, v);
    collect(&mut row, &stamp(0, 9, 0, 0));
    keeps_parts(&rt, &row, 8, 1, 1);
}

// Whether the version is copied.
fn is_version_copied(rt: &impl Abort, alloc: Global, stamp: Stamp, state: Option<Record>) -> bool {
    let version = Version { stamp, state };
    let other = version.copy(alloc).expect(rt, "memory");
    other.stamp == stamp && other.state.is_some() && other.state == version.state
}

// Whether a view after three updates is copied.
fn is_view_copied(rt: &impl Abort, alloc: Global, state: Option<Record>) -> bool {
    let view = View {
        state,
        updates: 3,
        settled: true,
    };
    let other = view.copy(alloc).expect(rt, "memory");
    other.state.is_some() && other.state == view.state && other.updates == 3 && other.settled
}

// The newest version and a view of it are copied.
fn are_copied(rt: &impl Abort, alloc: Global, row: &Row, stamp: Stamp) {
    assert!(rt; is_version_copied(rt, alloc, stamp, newest(rt, alloc, row)));
    assert!(rt; is_view_copied(rt, alloc, newest(rt, alloc, row)));
}

#[test]
fn copies_are_equal(rt: HostRuntime) {
    let alloc = rt.alloc();
    let clocks = [stamp(0, 1, 0, 0), stamp(1, 0, 1, 0), stamp(2, 3, 0, 1)];
    let row = three_updates(&rt, alloc, &clocks);
    are_copied(&rt, alloc, &row, clocks[2]);
}
