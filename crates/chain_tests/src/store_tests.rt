//! The store over a chain of replicas.

use crate::calls::stamp;
use crate::store_row::StoreRow;
use graph_ops::{Got, Op};
use std::process::Abort;
use weave_data::Name;
use weave_entries::Verdict;

// The verdict is the commit of this number, and its `get`s read that many records.
fn is_commit(verdict: &Verdict, commit: u64, records: usize) -> bool {
    match verdict {
        Verdict::Committed {
            number,
            answers,
            ..
        } => *number == commit && are_records(answers.as_slice(), records),
        Verdict::Conflict { .. } | Verdict::Refused { .. } => false,
    }
}

fn are_records(answers: &[Got], records: usize) -> bool {
    answers.len() == records && answers.iter().all(|got| got.state.is_some())
}

fn is_conflict(verdict: &Verdict, at: Name, with: u32) -> bool {
    match verdict {
        Verdict::Conflict { vertex, newer } => *vertex == at && *newer == with,
        Verdict::Committed { .. } | Verdict::Refused { .. } => false,
    }
}

// The transaction is the commit of this number.
fn commits(
    rt: &impl Abort,
    row: &mut StoreRow,
    request: u32,
    ops: &[Op],
    number: u64,
    records: usize,
) {
    if !is_commit(
        &row.commit(rt, request, request as usize, ops),
        number,
        records,
    ) {
        panic!(rt; "not this commit");
    }
}

// A conflict through a path, over a chain of three. The head stops before the third transaction: the chain has put the
// first before the second, and the third is before the first by stamps.
#[test]
fn store_over_replicas(rt: HostRuntime) {
    let w = Name::parse(b"w").expect(&rt, "no name");
    let v = Name::parse(b"v").expect(&rt, "no name");
    let stamps = [
        stamp(0, [1, 0, 1, 0, 0, 0, 0, 0]),
        stamp(1, [0, 1, 0, 0, 0, 0, 0, 0]),
        stamp(2, [0, 0, 1, 0, 0, 0, 0, 0]),
    ];
    let events = Vec::from_slice(rt.alloc(), &stamps).expect(&rt, "memory");
    let mut row = StoreRow::new(&rt, rt.alloc(), 3, events);
    commits(&rt, &mut row, 0, &[Op::Create { v: w }], 1, 0);
    commits(
        &rt,
        &mut row,
        1,
        &[Op::Get { v: w }, Op::Create { v }],
        2,
        1,
    );
    row.stop(&rt, 0);
    if !is_conflict(&row.commit(&rt, 2, 2, &[Op::Get { v }]), v, 1) {
        panic!(&rt; "not this conflict");
    }
}
