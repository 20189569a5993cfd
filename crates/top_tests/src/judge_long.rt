//! Long reports: right ones, and ones that break a clause at one place near their end.
//!
//! Requests at one gatekeeper or at eight in turn, of sixteen sessions. The first creates v. Of each sixteen four
//! create it again and are refused, one is aborted for a conflict with the eighth after it, and the others set a key
//! of it.
ghost use Rattle.std.specs.Prelude.{◌<◌};
ghost use Rattle.weave_data.specs.Limits.{most_gates};

use crate::judging::{judge, letter, script_of, writer};
use graph_ops::{Got, Reason};
use order_witness::{Clause, Judged};
use program_defs::Script;
use report_rules::{Pair, Reply, ReplyState, Report};
use std::alloc::Global;
use std::process::Abort;
use vector_stamp::{Clock, Stamp};
use weave_data::Items;

/// What is wrong in a long report.
#[derive(Clone, Copy, PartialEq, Eq)]
enum Flaw {
    None,
    /// The last stamp has the own count of the one before it.
    Stamp,
    /// The order repeats its last request.
    Listed,
    /// The last two of the order are the other way round.
    Order,
    /// The last commit has an answer that nothing asked for.
    Answer,
    /// The last pair joins requests whose stamps are ordered.
    Pair,
    /// The last conflict is with an earlier request.
    Conflict,
    /// The last refusal is after more commits than there are.
    Refusal,
    /// The last commit has number 0, and the request after it no verdict.
    Number,
}

fn home_of(i: u32, many: bool) -> u32
    ensures { result < most_gates }
{
    if many { i % 8 } else { 0 }
}

fn long_script(rt: &impl Abort, alloc: Global, count: u32, many: bool) -> Script {
    let mut requests = Items::new(alloc);
    for i in 0..count {
        let creates = i == 0 || i % 4 == 3;
        let one = writer(rt, alloc, i % 16, home_of(i, many), creates);
        requests.push(one).expect(rt, "memory");
    }
    script_of(alloc, if many { 8 } else { 1 }, requests)
}

fn is_committed(i: u32) -> bool {
    i % 4 != 3 && i % 16 != 5
}

// Each round of the eight gatekeepers is after the one before it.
fn long_stamp(i: u32, left: u32, many: bool, flaw: Flaw) -> Stamp {
    let home = home_of(i, many);
    let round = u64::from(if many { i / 8 } else { i });
    let mut counts = if many { [round; 8] } else { [0; 8] };
    if left != 1 || flaw != Flaw::Stamp {
        counts[home as usize] = round + 1;
    } else {
        counts[home as usize] = round;
    }
    Stamp {
        home,
        clock: Clock { epoch: 0, counts },
    }
}

fn refusal_of(left: u32, number: u64, flaw: Flaw) -> ReplyState {
    if left == 1 && flaw == Flaw::Number {
        return ReplyState::Begun;
    }
    let wrong = left == 1 && flaw == Flaw::Refusal;
    ReplyState::Refused {
        op: 1,
        reason: Reason::Exists,
        at: if wrong {
            number.saturating_add(1)
        } else {
            number
        },
    }
}

fn commit_of(rt: &impl Abort, alloc: Global, left: u32, number: u64, flaw: Flaw) -> ReplyState {
    let mut answers = Items::new(alloc);
    if left == 2 && flaw == Flaw::Answer {
        let got = Got { op: 1, state: None };
        answers.push(got).expect(rt, "memory");
    }
    let wrong = left == 2 && flaw == Flaw::Number;
    ReplyState::Committed {
        number: if wrong { 0 } else { number.saturating_add(1) },
        answers,
    }
}

// What is reported of request i, at this distance from the end, after this number of commits.
fn state_of(
    rt: &impl Abort,
    alloc: Global,
    i: u32,
    left: u32,
    number: u64,
    flaw: Flaw,
) -> ReplyState {
    if i % 4 == 3 {
        return refusal_of(left, number, flaw);
    }
    if i % 16 != 5 {
        return commit_of(rt, alloc, left, number, flaw);
    }
    let wrong = left == 11 && flaw == Flaw::Conflict;
    ReplyState::Conflict {
        vertex: letter(rt, b'v'),
        newer: if wrong {
            i.saturating_sub(8)
        } else {
            i.saturating_add(8)
        },
    }
}

fn long_replies(
    rt: &impl Abort,
    alloc: Global,
    count: u32,
    many: bool,
    flaw: Flaw,
) -> Items<Reply> {
    let mut replies = Items::new(alloc);
    let mut number: u64 = 0;
    for i in 0..count {
        let left = count - i;
        let reply = Reply {
            request: i,
            stamp: Some(long_stamp(i, left, many, flaw)),
            state: state_of(rt, alloc, i, left, number, flaw),
        };
        replies.push(reply).expect(rt, "memory");
        if is_committed(i) {
            number = number.saturating_add(1);
        }
    }
    replies
}

fn long_order(rt: &impl Abort, alloc: Global, count: u32, flaw: Flaw) -> Items<u32> {
    let mut order = Items::new(alloc);
    for i in 0..count {
        let listed = match (flaw, count - i) {
            (Flaw::Order, 3) => i.saturating_add(1),
            (Flaw::Order, 2) => i.saturating_sub(1),
            _ => i,
        };
        if is_committed(listed) {
            order.push(listed).expect(rt, "memory");
        }
    }
    if flaw == Flaw::Listed {
        order.push(count.saturating_sub(2)).expect(rt, "memory");
    }
    order
}

// A pair for each two neighbours of a round that are committed.
fn long_pairs(rt: &impl Abort, alloc: Global, count: u32, many: bool, flaw: Flaw) -> Items<Pair> {
    let vertex = letter(rt, b'v');
    let mut pairs = Items::new(alloc);
    let mut earlier: u32 = 0;
    for later in 1..count {
        if is_committed(later) {
            let pair = Pair {
                vertex,
                earlier,
                later,
            };
            if many && earlier / 8 == later / 8 {
                pairs.push(pair).expect(rt, "memory");
            }
            earlier = later;
        }
    }
    if flaw == Flaw::Pair {
        let pair = Pair {
            vertex,
            earlier: 0,
            later: count.saturating_sub(2),
        };
        pairs.push(pair).expect(rt, "memory");
    }
    pairs
}

fn judged_long(rt: &impl Abort, alloc: Global, count: u32, many: bool, flaw: Flaw) -> Judged {
    let script = long_script(rt, alloc, count, many);
    let report = Report {
        replies: long_replies(rt, alloc, count, many, flaw),
        pairs: long_pairs(rt, alloc, count, many, flaw),
        order: long_order(rt, alloc, count, flaw),
        answers: Items::new(alloc),
    };
    judge(rt, alloc, &script, &report)
}

#[test]
fn ten_thousand_requests_are_judged(rt: HostRuntime) {
    for many in [false, true] {
        assert!(rt; judged_long(&rt, rt.alloc(), 10000, many, Flaw::None) == Judged::Yes);
    }
}

// Of 160 requests 110 are committed, with 90 pairs at eight gatekeepers: the clause that breaks, and its place at one
// gatekeeper and at eight.
const FLAWS: [(Flaw, Clause, u64, u64); 8] = [
    (Flaw::Stamp, Clause::I, 160, 160),
    (Flaw::Listed, Clause::Ii, 111, 111),
    (Flaw::Order, Clause::Iii, 110, 110),
    (Flaw::Answer, Clause::Iv, 110, 110),
    (Flaw::Pair, Clause::V, 1, 91),
    (Flaw::Conflict, Clause::Vi, 150, 150),
    (Flaw::Refusal, Clause::Vii, 160, 160),
    (Flaw::Number, Clause::Viii, 159, 159),
];

#[test]
fn a_late_flaw_of_each_clause(rt: HostRuntime) {
    let alloc = rt.alloc();
    for (flaw, clause, first, second) in FLAWS {
        for (many, place) in [(false, first), (true, second)] {
            assert!(rt; judged_long(&rt, alloc, 160, many, flaw) == Judged::No { clause, place });
        }
    }
}
