//! Commits over a judge that adds nothing: it refuses, or is out of memory. Nothing is lost, and nothing kept.

use crate::store_row::{Row, judge_row, over_oracle, put, was_called};
use crate::test_judge::TestJudge;
use crate::values::{name, stamp};
use graph_ops::{Name, Op, Reason};
use std::process::Abort;
use timeline_oracle::Oracle;
use vector_stamp::Stamp;

fn set(v: Name, key: Name) -> Op {
    Op::Set { v, key, value: key }
}

// A vertex is made. The judge refuses to put that before a second transaction, which changes nothing then.
fn conflict_once(
    rt: &impl Abort,
    row: &mut Row<TestJudge>,
    v: Name,
    t1: Stamp,
    t2: Stamp,
    ops: &[Op],
) {
    row.creates(rt, 0, t1, v, 1);
    was_called(rt, row, 0);
    row.conflicts(rt, 1, t2, ops, v, 0);
    was_called(rt, row, 1);
    row.asked(rt, 1, &[v]);
    row.has(rt, 1, v, Some(0));
}

// The judge has the pair the other way round, and so refuses each place.
#[test]
fn refused_always(rt: HostRuntime) {
    let (v, k) = (name(&rt, "v"), name(&rt, "k"));
    let (t1, t2, t3) = (stamp(0, 1, 0, 0), stamp(1, 0, 1, 0), stamp(0, 2, 0, 0));
    let ops = [set(v, k), Op::Delete { v }];
    let mut row = judge_row(&rt, rt.alloc(), 3, Some((t2, t1)));
    conflict_once(&rt, &mut row, v, t1, t2, &ops);
    row.commits(&rt, 2, t3, &[Op::Get { v }], 2, &[(v, 1)], &[(1, Some(0))]);
    was_called(&rt, &row, 1);
}

// Two vertices are made, and a third transaction that deletes both conflicts at the second.
fn conflict_at_second(
    rt: &impl Abort,
    row: &mut Row<TestJudge>,
    u: Name,
    v: Name,
    q: Stamp,
    t: Stamp,
) {
    row.creates(rt, 0, stamp(0, 1, 0, 0), u, 1);
    row.creates(rt, 1, q, v, 2);
    row.conflicts(rt, 2, t, &[Op::Delete { v: u }, Op::Delete { v }], v, 1);
    was_called(rt, row, 1);
    row.asked(rt, 2, &[u, v]);
    row.has(rt, 2, u, Some(0));
}

// The judge refuses the second place. What the operations changed at the first vertex is taken back.
#[test]
fn refused_at_the_second_place(rt: HostRuntime) {
    let (u, v) = (name(&rt, "u"), name(&rt, "v"));
    let (q, t, r) = (stamp(2, 0, 0, 1), stamp(1, 0, 1, 0), stamp(0, 2, 0, 1));
    let mut row = judge_row(&rt, rt.alloc(), 0, Some((t, q)));
    conflict_at_second(&rt, &mut row, u, v, q, t);
    let gets = [Op::Get { v: u }, Op::Get { v }];
    let got = [(1, Some(0)), (2, Some(0))];
    row.commits(&rt, 3, r, &gets, 3, &[(u, 1), (v, 1)], &got);
}

// The operations are refused, and the judge refuses a place: a conflict comes first.
#[test]
fn refused_both_ways(rt: HostRuntime) {
    let v = name(&rt, "v");
    let (t1, t2) = (stamp(0, 1, 0, 0), stamp(1, 0, 1, 0));
    let mut row = judge_row(&rt, rt.alloc(), 2, Some((t2, t1)));
    conflict_once(&rt, &mut row, v, t1, t2, &[Op::Create { v }]);
}

// A conflict by stamps, and a commit after the last one: the judge isn't called.
#[test]
fn not_called(rt: HostRuntime) {
    let v = name(&rt, "v");
    let (t1, t2, t3) = (stamp(0, 1, 1, 0), stamp(1, 0, 1, 0), stamp(2, 1, 1, 1));
    let mut row = judge_row(&rt, rt.alloc(), 6, None);
    row.creates(&rt, 0, t1, v, 1);
    row.conflicts(&rt, 1, t2, &[Op::Get { v }], v, 0);
    row.commits(&rt, 2, t3, &[Op::Get { v }], 2, &[(v, 1)], &[(1, Some(0))]);
    was_called(&rt, &row, 0);
}

// The judge is out of memory: nothing is judged.
fn judge_without_memory(
    rt: &impl Abort,
    row: &mut Row<TestJudge>,
    v: Name,
    t1: Stamp,
    t2: Stamp,
    ops: &[Op],
) {
    row.creates(rt, 0, t1, v, 1);
    row.is_out_of_memory(rt, 1, t2, ops);
    was_called(rt, row, 1);
    row.has(rt, 1, v, Some(0));
    row.was_not_judged(rt, 1);
}

// Over the oracle the transaction commits as if it were the first try.
fn judge_again(rt: &impl Abort, row: &mut Row<Oracle>, v: Name, t1: Stamp, t2: Stamp, ops: &[Op]) {
    row.by(4);
    row.commits(rt, 1, t2, ops, 2, &[(v, 1)], &[(2, Some(1))]);
    row.asked(rt, 1, &[v]);
    put(rt, row, 4, &[t1], t2, &[0]);
}

// The judge is out of memory: nothing is judged. One that is refused asks for no pair, and is judged. Over the oracle
// the transaction then commits as if it were the first try.
#[test]
fn out_of_memory(rt: HostRuntime) {
    let (v, t1, t2) = (name(&rt, "v"), stamp(0, 1, 0, 0), stamp(1, 0, 1, 0));
    let ops = [set(v, name(&rt, "k")), Op::Get { v }];
    let mut row = judge_row(&rt, rt.alloc(), 1, None);
    judge_without_memory(&rt, &mut row, v, t1, t2, &ops);
    let creation = [Op::Create { v }];
    row.refuses(&rt, 2, stamp(2, 0, 0, 1), &creation, 1, Reason::Exists, 1);
    was_called(&rt, &row, 2);
    let mut row = over_oracle(row);
    judge_again(&rt, &mut row, v, t1, t2, &ops);
}
