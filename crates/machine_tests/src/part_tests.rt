use crate::passing::after_ops;
use crate::values::{name, numbered};
use graph_ops::{Name, Op, Record};
use std::alloc::Global;
use std::marker::Model;
use std::process::Abort;
use version_parts::Parts;

// Parts with the number of their updates.
#[derive(Drop)]
struct Row {
    updates: u64,
    parts: Parts,
}

impl Model for Row {
    ghost use Rattle.std.specs.Prelude.{ℕ};
    ghost use Rattle.version_parts.specs.Placed.{AreUpTo};

    ghost Value = { ℕ };

    ghost view = { λ row. row.updates };

    ghost invariant = { λ row. AreUpTo row.updates row.parts };
}

fn start(alloc: Global) -> Row {
    Row {
        updates: 0,
        parts: Parts::new(alloc),
    }
}

// Adds an update, whose operations must pass.
fn add(rt: &impl Abort, alloc: Global, row: &mut Row, ops: &[Op]) {
    let before = row.updates;
    let state = row.parts.state_at(alloc, before).expect(rt, "memory");
    let _ = after_ops(rt, alloc, ops, state);
    if before == u64::MAX {
        panic!(rt; "too many");
    }
    row.parts
        .add_update(alloc, before, ops)
        .expect(rt, "memory");
    row.updates = before + 1;
}

fn take_back(rt: &impl Abort, row: &mut Row) {
    if row.updates == 0 {
        panic!(rt; "no update");
    }
    let newest = row.updates - 1;
    row.parts.take_back(newest);
    row.updates = newest;
}

fn collect(row: &mut Row, oldest: u64) {
    row.parts.collect(oldest);
}

// The items of an update of that many properties.
fn first_update(rt: &impl Abort, alloc: Global, v: Name, props: u8) -> Vec<Op> {
    let mut ops = Vec::new(alloc);
    ops.push(Op::Create { v }).expect(rt, "memory");
    for number in 0..props {
        let key = numbered(rt, number);
        ops.push(Op::Set { v, key, value: v }).expect(rt, "memory");
    }
    ops
}

// The vertex has that many properties after an update, `None` for absent.
fn has_props(rt: &impl Abort, alloc: Global, row: &Row, update: u64, props: Option<usize>) {
    let state = row.parts.state_at(alloc, update).expect(rt, "memory");
    assert!(rt; state.as_ref().map(|found| found.props.len()) == props);
}

// There were that many updates, and there are that many parts.
fn has_parts(rt: &impl Abort, row: &Row, updates: u64, parts: u64) {
    if row.updates != updates || row.parts.count() != parts {
        panic!(rt; "other parts");
    }
}

// An update of 64 items, one of a 64th property, and 100 that write the first property again.
fn write_a_property_again(rt: &impl Abort, alloc: Global, row: &mut Row) {
    let v = name(rt, "v");
    let (first, last) = (numbered(rt, 0), numbered(rt, 63));
    let ops = first_update(rt, alloc, v, 63);
    add(rt, alloc, row, ops.as_slice());
    let (key, value) = (last, v);
    add(rt, alloc, row, &[Op::Set { v, key, value }]);
    let (key, value) = (first, last);
    for _round in 0..100 {
        add(rt, alloc, row, &[Op::Set { v, key, value }]);
    }
}

// An update of 64 items, one of a 64th property, and 100 that write the first property again.
#[test]
fn parts_are_what_changed(rt: HostRuntime) {
    let alloc = rt.alloc();
    let mut row = start(alloc);
    write_a_property_again(&rt, alloc, &mut row);
    has_parts(&rt, &row, 102, 165);
    for (update, props) in [(0, None), (1, Some(63)), (102, Some(64))] {
        has_props(&rt, alloc, &row, update, props);
    }
    collect(&mut row, 101);
    has_parts(&rt, &row, 102, 66);
    has_props(&rt, alloc, &row, 101, Some(64));
}

// The operations of an update, of a table of updates.
fn part(rt: &impl Abort, alloc: Global, table: &[(u64, Op)], number: u64) -> Vec<Op> {
    let mut ops = Vec::new(alloc);
    for row in table {
        if row.0 == number {
            ops.push(row.1).expect(rt, "memory");
        }
    }
    ops
}

// The state of an update is this one.
fn has_state(rt: &impl Abort, alloc: Global, row: &Row, update: u64, state: &Option<Record>) {
    let found = row.parts.state_at(alloc, update).expect(rt, "memory");
    if found != *state {
        panic!(rt; "another state");
    }
}

// Compares each state from an update on with what the operations of the table leave one after another.
fn compare(rt: &impl Abort, alloc: Global, row: &Row, table: &[(u64, Op)], from: u64) {
    let mut state = None;
    for update in 0..=row.updates {
        let ops = part(rt, alloc, table, update);
        state = after_ops(rt, alloc, ops.as_slice(), state);
        if from <= update {
            has_state(rt, alloc, row, update, &state);
        }
    }
}

fn table(rt: &impl Abort, v: Name) -> [(u64, Op); 19] {
    let (e, a, b, k) = (name(rt, "e"), name(rt, "a"), name(rt, "b"), name(rt, "k"));
    [
        (1, Op::Create { v }),
        (
            1,
            Op::Set {
                v,
                key: a,
                value: v,
            },
        ),
        (1, Op::Delete { v }),
        (1, Op::Create { v }),
        (
            1,
            Op::Set {
                v,
                key: b,
                value: v,
            },
        ),
        (
            2,
            Op::Link {
                v,
                edge: e,
                target: a,
            },
        ),
        (
            2,
            Op::Tag {
                v,
                edge: e,
                key: k,
                value: a,
            },
        ),
        (2, Op::Unlink { v, edge: e }),
        (
            2,
            Op::Join {
                v,
                edge: e,
                target: b,
            },
        ),
        (
            3,
            Op::Tag {
                v,
                edge: e,
                key: k,
                value: b,
            },
        ),
        (3, Op::Unset { v, key: b }),
        (4, Op::Untag { v, edge: e, key: k }),
        (4, Op::Get { v }),
        (
            4,
            Op::Set {
                v,
                key: a,
                value: b,
            },
        ),
        (5, Op::Delete { v }),
        (6, Op::Create { v }),
        (
            6,
            Op::Link {
                v,
                edge: e,
                target: v,
            },
        ),
        (
            6,
            Op::Set {
                v,
                key: b,
                value: a,
            },
        ),
        (7, Op::Unlink { v, edge: e }),
    ]
}

// The seven updates of a table.
fn add_seven(rt: &impl Abort, alloc: Global, row: &mut Row, table: &[(u64, Op)]) {
    for number in 1..8 {
        let ops = part(rt, alloc, table, number);
        add(rt, alloc, row, ops.as_slice());
        compare(rt, alloc, row, table, 0);
    }
    has_parts(rt, row, 7, 18);
}

// The newest update is taken back.
fn take_one_back(rt: &impl Abort, alloc: Global, row: &mut Row, table: &[(u64, Op)]) {
    take_back(rt, row);
    has_parts(rt, row, 6, 17);
    compare(rt, alloc, row, table, 0);
}

// A collection leaves the states from this update on, and that many parts.
fn collects(
    rt: &impl Abort,
    alloc: Global,
    row: &mut Row,
    table: &[(u64, Op)],
    oldest: u64,
    parts: u64,
) {
    collect(row, oldest);
    has_parts(rt, row, 6, parts);
    compare(rt, alloc, row, table, oldest);
}

// Each kind of operation, several of them in an update. A later deletion hides what was before it, and so does a later
// unlink.
#[test]
fn states_are_those_of_the_operations(rt: HostRuntime) {
    let alloc = rt.alloc();
    let table = table(&rt, name(&rt, "v"));
    let mut row = start(alloc);
    add_seven(&rt, alloc, &mut row, &table);
    take_one_back(&rt, alloc, &mut row, &table);
    collects(&rt, alloc, &mut row, &table, 4, 7);
    collects(&rt, alloc, &mut row, &table, 5, 3);
}
