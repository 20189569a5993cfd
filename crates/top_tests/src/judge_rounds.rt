//! Requests at eight gatekeepers in rounds, whose stamps leave each two of different gatekeepers open.
//!
//! The first creates v, and the others set a key of it. A pair joins each two commits that follow one another at
//! different gatekeepers. Where there are conflicts, of every second round all but the last are aborted: each precedes
//! the next request of its gatekeeper by its stamp, and that one the newer request by a pair.
ghost use Rattle.std.specs.Prelude.{◌<◌};
ghost use Rattle.weave_data.specs.Limits.{most_gates};

use crate::judging::{judge, letter, script_of, writer};
use order_witness::{Clause, Judged, has_order, order_of};
use program_defs::{Program, Request, Script, Work};
use report_rules::{Pair, Reply, ReplyState, Report};
use std::alloc::Global;
use std::process::Abort;
use vector_stamp::{Clock, Stamp};
use weave_data::Items;

/// Which requests are aborted.
#[derive(Clone, Copy, PartialEq, Eq)]
pub enum Aborted {
    None,
    /// All but the last of every second round.
    Some,
    /// The same ones, and the last of them names a commit that it does not precede.
    OneWrongly,
}

fn is_committed(i: u32, aborted: Aborted) -> bool {
    aborted == Aborted::None || i == 0 || i % 16 > 6
}

/// The gatekeeper of a request.
pub fn gate_of(i: u32) -> u32
    ensures { result < most_gates }
{
    i % 8
}

/// The script of this many requests.
pub fn round_script(rt: &impl Abort, alloc: Global, count: u32) -> Script {
    let mut requests = Items::new(alloc);
    for i in 0..count {
        let one = writer(rt, alloc, gate_of(i), gate_of(i), i == 0);
        requests.push(one).expect(rt, "memory");
    }
    script_of(alloc, 8, requests)
}

fn round_stamp(i: u32) -> Stamp {
    let home = gate_of(i);
    let mut counts = [0; 8];
    counts[home as usize] = u64::from(i / 8) + 1;
    Stamp {
        home,
        clock: Clock { epoch: 0, counts },
    }
}

// The newer request of the conflict of this one, at this distance from the end.
fn newer_of(i: u32, left: u32, aborted: Aborted) -> u32 {
    if aborted == Aborted::OneWrongly && left == 10 {
        i.saturating_sub(14)
    } else {
        i.saturating_add(9)
    }
}

/// The replies to this many requests.
pub fn round_replies(rt: &impl Abort, alloc: Global, count: u32, aborted: Aborted) -> Items<Reply> {
    let vertex = letter(rt, b'v');
    let mut replies = Items::new(alloc);
    let mut number: u64 = 0;
    for i in 0..count {
        let state = if is_committed(i, aborted) {
            number = number.saturating_add(1);
            ReplyState::Committed {
                number,
                answers: Items::new(alloc),
            }
        } else {
            ReplyState::Conflict {
                vertex,
                newer: newer_of(i, count - i, aborted),
            }
        };
        let reply = Reply {
            request: i,
            stamp: Some(round_stamp(i)),
            state,
        };
        replies.push(reply).expect(rt, "memory");
    }
    replies
}

fn round_order(rt: &impl Abort, alloc: Global, count: u32, aborted: Aborted) -> Items<u32> {
    let mut order = Items::new(alloc);
    for i in 0..count {
        if is_committed(i, aborted) {
            order.push(i).expect(rt, "memory");
        }
    }
    order
}

fn round_pairs(rt: &impl Abort, alloc: Global, count: u32, aborted: Aborted) -> Items<Pair> {
    let vertex = letter(rt, b'v');
    let mut pairs = Items::new(alloc);
    let mut earlier: u32 = 0;
    for later in 1..count {
        if is_committed(later, aborted) {
            let pair = Pair {
                vertex,
                earlier,
                later,
            };
            if gate_of(earlier) != gate_of(later) {
                pairs.push(pair).expect(rt, "memory");
            }
            earlier = later;
        }
    }
    pairs
}

fn round_report(rt: &impl Abort, alloc: Global, count: u32, aborted: Aborted) -> Report {
    Report {
        replies: round_replies(rt, alloc, count, aborted),
        pairs: round_pairs(rt, alloc, count, aborted),
        order: round_order(rt, alloc, count, aborted),
        answers: Items::new(alloc),
    }
}

#[test]
fn ten_thousand_requests_with_pairs(rt: HostRuntime) {
    let alloc = rt.alloc();
    let script = round_script(&rt, alloc, 10000);
    for aborted in [Aborted::None, Aborted::Some] {
        let report = round_report(&rt, alloc, 10000, aborted);
        assert!(rt; judge(&rt, alloc, &script, &report) == Judged::Yes);
    }
}

#[test]
fn a_wrong_conflict_among_pairs(rt: HostRuntime) {
    let alloc = rt.alloc();
    let script = round_script(&rt, alloc, 160);
    let report = round_report(&rt, alloc, 160, Aborted::OneWrongly);
    let want = Judged::No {
        clause: Clause::Vi,
        place: 151,
    };
    assert!(rt; judge(&rt, alloc, &script, &report) == want);
}

// A running program that a pair puts after the last of ten thousand requests.
fn add_running(rt: &impl Abort, alloc: Global, script: &mut Script, report: &mut Report) {
    let v = letter(rt, b'v');
    let program = Request {
        name: v,
        session: 0,
        gate: 0,
        work: Work::Look(Program::Show { v }),
    };
    script.requests.push(program).expect(rt, "memory");
    let reply = Reply {
        request: 10000,
        stamp: Some(round_stamp(10000)),
        state: ReplyState::Begun,
    };
    report.replies.push(reply).expect(rt, "memory");
    let pair = Pair {
        vertex: v,
        earlier: 9999,
        later: 10000,
    };
    report.pairs.push(pair).expect(rt, "memory");
}

#[test]
fn a_program_that_runs_after_ten_thousand_requests(rt: HostRuntime) {
    let alloc = rt.alloc();
    let mut script = round_script(&rt, alloc, 10000);
    let mut report = round_report(&rt, alloc, 10000, Aborted::None);
    add_running(&rt, alloc, &mut script, &mut report);
    assert!(rt; judge(&rt, alloc, &script, &report) == Judged::Yes);
}

#[test]
fn a_long_order_is_printed(rt: HostRuntime) {
    let alloc = rt.alloc();
    let script = round_script(&rt, alloc, 10000);
    let report = round_report(&rt, alloc, 10000, Aborted::None);
    assert!(rt; has_order(alloc, &script, &report).expect(&rt, "memory"));
    let order = order_of(alloc, &script, &report).expect(&rt, "memory");
    assert!(rt; order.as_slice() == report.order.as_slice());
}
