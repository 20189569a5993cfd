//! Worked rows of calls on a chain.

use crate::calls::{Call, Said, Wish, stamp};
use crate::chain_row::ChainRow;
use oracle_chain::{ChainFault, Delivered};
use std::alloc::Global;
use std::process::Abort;
use vector_stamp::Stamp;

// The events x, q, y and z, by their places. The stamp of z is before that of x, and that of q before that of y.
const X: usize = 0;

const Q: usize = 1;

const Y: usize = 2;

const Z: usize = 3;

fn four_events(rt: &impl Abort, alloc: Global) -> Vec<Stamp> {
    let events = [
        stamp(0, [1, 0, 1, 0, 0, 0, 0, 0]),
        stamp(1, [0, 1, 0, 0, 0, 0, 0, 0]),
        stamp(1, [0, 2, 0, 0, 0, 0, 0, 0]),
        stamp(2, [0, 0, 1, 0, 0, 0, 0, 0]),
    ];
    Vec::from_slice(alloc, &events).expect(rt, "memory")
}

const X_Y: Wish = Wish {
    first: X,
    second: None,
    later: Y,
    keep: true,
};

const Y_X: Wish = Wish {
    first: Y,
    second: None,
    later: X,
    keep: true,
};

const Y_Z: Wish = Wish {
    first: Y,
    second: None,
    later: Z,
    keep: true,
};

const X_Z: Wish = Wish {
    first: X,
    second: None,
    later: Z,
    keep: true,
};

const Z_Y: Wish = Wish {
    first: Z,
    second: None,
    later: Y,
    keep: true,
};

const Q_Z: Wish = Wish {
    first: Q,
    second: None,
    later: Z,
    keep: true,
};

const QY_Z: Wish = Wish {
    first: Q,
    second: Some(Y),
    later: Z,
    keep: true,
};

// One that keeps no pairs.
const Q_Z_LOOSE: Wish = Wish {
    first: Q,
    second: None,
    later: Z,
    keep: false,
};

// A new chain of that many replicas answers each call as is said.
fn answers_each(rt: &impl Abort, alloc: Global, replicas: u32, calls: &[(Call, Said)]) {
    let mut row = ChainRow::new(rt, alloc, replicas, four_events(rt, alloc));
    for one in calls {
        if row.call(rt, one.0) != one.1 {
            panic!(rt; "another answer");
        }
    }
}

const WORKED: [(Call, Said); 23] = [
    (Call::Accept(X_Y), Said::Position(0)),
    (Call::Forward(0, 0), Said::Message(0)),
    (Call::Deliver(0), Said::Became(Delivered::Taken)),
    (Call::Deliver(0), Said::Became(Delivered::Repeat)),
    (Call::Accept(QY_Z), Said::Position(1)),
    (Call::Forward(0, 1), Said::Message(1)),
    (Call::Stop(0), Said::Stopped),
    (Call::Deliver(1), Said::Became(Delivered::Taken)),
    (Call::Forward(1, 0), Said::Message(2)),
    (Call::Forward(1, 1), Said::Message(3)),
    (Call::Deliver(3), Said::Became(Delivered::Gap)),
    (Call::Deliver(2), Said::Became(Delivered::Taken)),
    (Call::Answer(0), Said::Settled(true, false)),
    (Call::Answer(1), Said::NoAnswer),
    (Call::Deliver(3), Said::Became(Delivered::Taken)),
    (Call::Answer(1), Said::Precedes(1)),
    (Call::Stop(2), Said::Stopped),
    (Call::Answer(0), Said::Settled(true, false)),
    (Call::Answer(1), Said::Precedes(1)),
    (Call::Forward(1, 0), Said::Fault(ChainFault::Tail)),
    (Call::Stop(1), Said::Fault(ChainFault::Last)),
    (Call::Forward(0, 0), Said::Fault(ChainFault::Halted)),
    (Call::Deliver(9), Said::Fault(ChainFault::Unknown)),
];

#[test]
fn worked_row(rt: HostRuntime) {
    answers_each(&rt, rt.alloc(), 3, &WORKED);
}

// The table of a single oracle, over two replicas.
const TABLE: [(Call, Said); 7] = [
    (Call::Settle(X_Y), Said::Settled(true, false)),
    (Call::Settle(X_Y), Said::Settled(false, false)),
    (Call::Settle(QY_Z), Said::Precedes(1)),
    (Call::Settle(X_Z), Said::Precedes(0)),
    (Call::Settle(Z_Y), Said::Settled(false, false)),
    (Call::Settle(Q_Z_LOOSE), Said::Settled(false, false)),
    (Call::Settle(Q_Z), Said::Settled(true, false)),
];

// An ask is lost with its head, and its position gets another one.
const LOST: [(Call, Said); 5] = [
    (Call::Accept(X_Y), Said::Position(0)),
    (Call::Stop(0), Said::Stopped),
    (Call::Accept(Y_X), Said::Position(0)),
    (Call::Answer(0), Said::NoAnswer),
    (Call::Settle(Y_Z), Said::Settled(true, false)),
];

// A message of a head that has stopped brings an ask that nobody else has, after one of the next head.
const LATE: [(Call, Said); 11] = [
    (Call::Accept(X_Y), Said::Position(0)),
    (Call::Accept(QY_Z), Said::Position(1)),
    (Call::Forward(0, 0), Said::Message(0)),
    (Call::Forward(0, 1), Said::Message(1)),
    (Call::Stop(0), Said::Stopped),
    (Call::Accept(Y_Z), Said::Position(0)),
    (Call::Deliver(1), Said::Became(Delivered::Taken)),
    (Call::Deliver(0), Said::Became(Delivered::Repeat)),
    (Call::Stop(2), Said::Stopped),
    (Call::Answer(0), Said::Settled(true, false)),
    (Call::Answer(1), Said::Settled(false, false)),
];

// A settle answers what was accepted before it too, and stays when all but the tail stop.
const BEHIND: [(Call, Said); 8] = [
    (Call::Accept(X_Y), Said::Position(0)),
    (Call::Settle(QY_Z), Said::Precedes(1)),
    (Call::Stop(0), Said::Stopped),
    (Call::Stop(1), Said::Stopped),
    (Call::Answer(0), Said::Settled(true, false)),
    (Call::Answer(1), Said::Precedes(1)),
    (Call::Deliver(3), Said::Became(Delivered::Repeat)),
    (Call::Deliver(4), Said::Fault(ChainFault::Unknown)),
];

#[test]
fn table_and_lost_asks(rt: HostRuntime) {
    answers_each(&rt, rt.alloc(), 2, &TABLE);
    answers_each(&rt, rt.alloc(), 3, &LOST);
}

#[test]
fn late_messages(rt: HostRuntime) {
    answers_each(&rt, rt.alloc(), 3, &LATE);
    answers_each(&rt, rt.alloc(), 3, &BEHIND);
}

// A settle brings two replicas the two asks that they lack, and its own.
const BROUGHT: [(Call, Said); 12] = [
    (Call::Accept(X_Y), Said::Position(0)),
    (Call::Accept(QY_Z), Said::Position(1)),
    (Call::Answer(0), Said::NoAnswer),
    (Call::Settle(Y_Z), Said::Precedes(0)),
    (Call::Answer(0), Said::Settled(true, false)),
    (Call::Answer(1), Said::Precedes(1)),
    (Call::Answer(2), Said::Precedes(0)),
    (Call::Answer(3), Said::NoAnswer),
    (Call::Deliver(5), Said::Became(Delivered::Repeat)),
    (Call::Deliver(6), Said::Fault(ChainFault::Unknown)),
    (Call::Forward(1, 2), Said::Message(6)),
    (Call::Forward(1, 3), Said::Fault(ChainFault::Unknown)),
];

#[test]
fn settle_brings_two_asks(rt: HostRuntime) {
    answers_each(&rt, rt.alloc(), 3, &BROUGHT);
}
