//! Rows over the timeline oracle: what it is asked of, and its log. Verdicts, counts and records are cases in
//! `crates/worked_tests/data/store.cases`, under the same headings.

use crate::store_row::{Row, oracle_row, put, put_last, put_nothing};
use crate::values::{name, numbered, stamp};
use graph_ops::Op;
use std::alloc::Global;
use std::process::Abort;
use timeline_oracle::Oracle;
use vector_stamp::Stamp;
use weave_data::Name;

// The operations of a request, of a table of requests and operations.
fn ops_of(rt: &impl Abort, alloc: Global, table: &[(u32, Op)], request: u32) -> Vec<Op> {
    let mut ops = Vec::new(alloc);
    for row in table {
        if row.0 == request {
            ops.push(row.1).expect(rt, "memory");
        }
    }
    ops
}

// Transactions with these stamps are judged, one after another. Their operations are in the table.
fn judge_each(
    rt: &impl Abort,
    alloc: Global,
    row: &mut Row<Oracle>,
    stamps: &[Stamp],
    table: &[(u32, Op)],
) {
    let mut request = 0u32;
    for stamp in stamps {
        let ops = ops_of(rt, alloc, table, request);
        row.judges(rt, request, *stamp, ops.as_slice());
        request = request.wrapping_add(1);
    }
}

// Calls by an author: transactions with these stamps, whose operations are in the table. The last one asks of these
// vertices. The oracle has then put these events before that one, with pairs at these places.
#[derive(Clone, Copy)]
struct Calls<'a> {
    author: u32,
    stamps: &'a [Stamp],
    table: &'a [(u32, Op)],
    asked: &'a [Name],
    earlier: &'a [Stamp],
    later: Stamp,
    places: &'a [u32],
}

// The last transaction is that of this request. Leaves the store.
fn judge_calls(rt: &impl Abort, alloc: Global, request: u32, calls: &Calls) -> Row<Oracle> {
    let mut row = oracle_row(alloc, calls.author);
    judge_each(rt, alloc, &mut row, calls.stamps, calls.table);
    row.asked(rt, request, calls.asked);
    row
}

// And the oracle has put what they say.
fn put_by_calls(rt: &impl Abort, alloc: Global, request: u32, calls: &Calls) {
    let row = judge_calls(rt, alloc, request, calls);
    put(
        rt,
        &row,
        calls.author,
        calls.earlier,
        calls.later,
        calls.places,
    );
}

// The first of two unordered writers.
fn judge_first_writer(rt: &impl Abort, row: &mut Row<Oracle>, v: Name, stamp: Stamp) {
    row.judges(rt, 0, stamp, &[Op::Create { v }]);
    put_nothing(rt, row);
}

// And the second, by another author. It is put after the first.
fn judge_second_writer(
    rt: &impl Abort,
    row: &mut Row<Oracle>,
    v: Name,
    first: Stamp,
    stamp: Stamp,
) {
    let (key, value) = (name(rt, "k"), name(rt, "x"));
    row.by(2);
    row.judges(rt, 1, stamp, &[Op::Set { v, key, value }]);
    put(rt, row, 2, &[first], stamp, &[0]);
}

// Two unordered writers of one vertex: the first one that is judged comes before.
#[test]
fn unordered_writers(rt: HostRuntime) {
    let v = name(&rt, "v");
    let (t1, t2) = (stamp(0, 1, 0, 0), stamp(1, 0, 1, 0));
    let mut row = oracle_row(rt.alloc(), 5);
    judge_first_writer(&rt, &mut row, v, t1);
    judge_second_writer(&rt, &mut row, v, t1, t2);
    row.was_asked(&rt, 1, &[v]);
    row.was_asked(&rt, 0, &[]);
    row.was_not_judged(&rt, 2);
}

// The pair at u would be permitted, and isn't added, since v refuses.
#[test]
fn all_or_none(rt: HostRuntime) {
    let (u, v, w) = (name(&rt, "u"), name(&rt, "v"), name(&rt, "w"));
    let (x, q) = (stamp(0, 1, 0, 1), stamp(1, 0, 1, 0));
    let (y, z) = (stamp(1, 0, 2, 0), stamp(2, 0, 0, 1));
    let table = [
        (0, Op::Create { v: w }),
        (1, Op::Create { v: u }),
        (2, Op::Get { v: w }),
        (2, Op::Create { v }),
        (3, Op::Get { v: u }),
        (3, Op::Get { v }),
    ];
    let calls = Calls {
        author: 0,
        stamps: &[x, q, y, z],
        table: &table,
        asked: &[u, v],
        earlier: &[x],
        later: y,
        places: &[0],
    };
    put_by_calls(&rt, rt.alloc(), 3, &calls);
}

// A conflict through a path at the first vertex and one by stamps at the second: stamps are looked at first.
#[test]
fn stamps_before_paths(rt: HostRuntime) {
    let (u, v, w) = (name(&rt, "u"), name(&rt, "v"), name(&rt, "w"));
    let (x, y, z) = (stamp(0, 1, 0, 1), stamp(1, 0, 1, 0), stamp(2, 0, 0, 1));
    let table = [
        (0, Op::Create { v: w }),
        (0, Op::Create { v: u }),
        (1, Op::Get { v: w }),
        (1, Op::Create { v }),
        (2, Op::Get { v }),
        (2, Op::Get { v: u }),
    ];
    let calls = Calls {
        author: 6,
        stamps: &[x, y, z],
        table: &table,
        asked: &[v],
        earlier: &[x],
        later: y,
        places: &[0],
    };
    put_by_calls(&rt, rt.alloc(), 2, &calls);
}

// A vertex is made and linked, in the third transaction. The target of a link is not named, and the oracle has put what
// the first two say.
fn judge_link(rt: &impl Abort, alloc: Global, target: Name, stamp: Stamp, calls: &Calls) {
    let (v, edge) = (name(rt, "w"), name(rt, "e"));
    let links = [Op::Create { v }, Op::Link { v, edge, target }];
    let mut row = judge_calls(rt, alloc, 1, calls);
    row.judges(rt, 2, stamp, &links);
    row.asked(rt, 2, &[]);
    put(
        rt,
        &row,
        calls.author,
        calls.earlier,
        calls.later,
        calls.places,
    );
}

// Two asked vertices have one last transaction: one pair, at the first. The target of a link is not named.
#[test]
fn one_last_transaction(rt: HostRuntime) {
    let (u, v) = (name(&rt, "u"), name(&rt, "v"));
    let (t1, t2, t3) = (stamp(0, 1, 0, 0), stamp(1, 0, 1, 0), stamp(2, 0, 0, 1));
    let table = [
        (0, Op::Create { v }),
        (0, Op::Create { v: u }),
        (1, Op::Get { v }),
        (1, Op::Get { v: u }),
    ];
    let calls = Calls {
        author: 7,
        stamps: &[t1, t2],
        table: &table,
        asked: &[v, u],
        earlier: &[t1, t1],
        later: t2,
        places: &[0],
    };
    judge_link(&rt, rt.alloc(), v, t3, &calls);
}

// Two asked vertices have last transactions of their own, and a third one that of the second: two pairs, at the first
// two.
#[test]
fn two_last_transactions(rt: HostRuntime) {
    let (u, v, w) = (name(&rt, "u"), name(&rt, "v"), name(&rt, "w"));
    let (a, b, c) = (stamp(0, 1, 0, 0), stamp(1, 0, 1, 0), stamp(2, 0, 0, 1));
    let table = [
        (0, Op::Create { v: u }),
        (0, Op::Create { v }),
        (1, Op::Create { v: w }),
        (2, Op::Delete { v: w }),
        (2, Op::Delete { v }),
        (2, Op::Delete { v: u }),
    ];
    let calls = Calls {
        author: 10,
        stamps: &[a, b, c],
        table: &table,
        asked: &[w, v, u],
        earlier: &[b, a, a],
        later: c,
        places: &[0, 1],
    };
    put_by_calls(&rt, rt.alloc(), 2, &calls);
}

// Of two last commits the first is ordered before the transaction, and the second unordered: the oracle is asked of the
// second alone.
#[test]
fn one_ordered_one_unordered(rt: HostRuntime) {
    let (u, v) = (name(&rt, "u"), name(&rt, "v"));
    let (t1, t2, t3) = (stamp(0, 1, 0, 0), stamp(1, 0, 1, 0), stamp(0, 2, 0, 0));
    let table = [
        (0, Op::Create { v: u }),
        (1, Op::Create { v }),
        (2, Op::Get { v: u }),
        (2, Op::Get { v }),
    ];
    let calls = Calls {
        author: 9,
        stamps: &[t1, t2, t3],
        table: &table,
        asked: &[v],
        earlier: &[t2],
        later: t3,
        places: &[0],
    };
    put_by_calls(&rt, rt.alloc(), 2, &calls);
}

// A refused transaction would have needed a pair: none is kept.
#[test]
fn refused_keeps_nothing(rt: HostRuntime) {
    let (v, key) = (name(&rt, "v"), name(&rt, "k"));
    let (t1, t2) = (stamp(0, 1, 0, 0), stamp(1, 0, 1, 0));
    let table = [
        (0, Op::Create { v }),
        (1, Op::Set { v, key, value: key }),
        (1, Op::Create { v }),
    ];
    let calls = Calls {
        author: 2,
        stamps: &[t1, t2],
        table: &table,
        asked: &[v],
        earlier: &[],
        later: t2,
        places: &[],
    };
    put_nothing(&rt, &judge_calls(&rt, rt.alloc(), 1, &calls));
}

// An operation on each of 64 vertices: it is made, or deleted.
fn on_each(rt: &impl Abort, alloc: Global, deletes: bool) -> Vec<Op> {
    let mut ops = Vec::new(alloc);
    for number in 0..64 {
        let v = numbered(rt, number);
        let op = if deletes {
            Op::Delete { v }
        } else {
            Op::Create { v }
        };
        ops.push(op).expect(rt, "memory");
    }
    ops
}

// All of them are made by one transaction, and deleted by the next.
fn judge_on_each(rt: &impl Abort, alloc: Global, row: &mut Row<Oracle>, t1: Stamp, t2: Stamp) {
    let creations = on_each(rt, alloc, false);
    row.judges(rt, 0, t1, creations.as_slice());
    let deletions = on_each(rt, alloc, true);
    row.judges(rt, 1, t2, deletions.as_slice());
}

// 64 operations on 64 vertices, the most that a script allows. The author has the greatest number.
#[test]
fn many_vertices(rt: HostRuntime) {
    let (t1, t2) = (stamp(0, 1, 0, 0), stamp(1, 0, 1, 0));
    let mut row = oracle_row(rt.alloc(), 4294967295);
    judge_on_each(&rt, rt.alloc(), &mut row, t1, t2);
    put(&rt, &row, 4294967295, &[t1; 64], t2, &[0]);
}

// Stamps of two gatekeepers in turn that hear nothing of each other.
fn in_turn(number: u32) -> Stamp {
    let count = u64::from(number / 2) + 1;
    if number % 2 == 0 {
        stamp(0, count, 0, 0)
    } else {
        stamp(1, 0, count, 0)
    }
}

// One more transaction commits at the vertex, by another author, and is put after the one before it.
fn judges_next(rt: &impl Abort, row: &mut Row<Oracle>, v: Name, last: u8) {
    let next = u32::from(last) + 1;
    let (earlier, later) = (in_turn(u32::from(last)), in_turn(next));
    row.by(next % 5);
    let (key, value) = (v, v);
    row.judges(rt, next, later, &[Op::Set { v, key, value }]);
    put_last(
        rt,
        row,
        usize::from(last) + 1,
        next % 5,
        &[earlier],
        later,
        &[0],
    );
}

// Forty transactions at one vertex, each unordered with the one before it, and put after it.
#[test]
fn forty_commits(rt: HostRuntime) {
    let v = name(&rt, "v");
    let mut row = oracle_row(rt.alloc(), 0);
    row.judges(&rt, 0, in_turn(0), &[Op::Create { v }]);
    for last in 0..39 {
        judges_next(&rt, &mut row, v, last);
    }
}
