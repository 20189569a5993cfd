//! Programs over a long chain and a wide star, with bounds that no text gives: right answers, wrong ones, and a pair at
//! each vertex.
ghost use Rattle.std.specs.Prelude.{◌<◌};
ghost use Rattle.weave_data.specs.Limits.{most_gates};

use crate::judging::{change, judge, letter, script_of};
use graph_ops::Op;
use order_witness::{Clause, Judged};
use program_defs::{Answer, Program, Request, Work};
use report_rules::{Pair, Reply, ReplyState, Report};
use std::alloc::Global;
use std::process::Abort;
use vector_stamp::{Clock, Stamp};
use weave_data::{Items, Name};

// A name for each number below 456,976.
fn numbered(rt: &impl Abort, n: usize) -> Name {
    let letters = [n / 17576, n / 676, n / 26, n].map(|digit| b'a' + (digit % 26) as u8);
    Name::parse(&letters).expect(rt, "four letters")
}

// The names of the first numbers, from 0 on.
fn numbers(rt: &impl Abort, alloc: Global, count: usize) -> Items<Name> {
    let mut names = Items::new(alloc);
    for n in 0..count {
        names.push(numbered(rt, n)).expect(rt, "memory");
    }
    names
}

// Twenty-five vertices from this number on, each with an edge to the next number, or from the vertex v.
fn some_vertices(rt: &impl Abort, alloc: Global, first: usize, from: Option<Name>) -> Items<Op> {
    let mut ops = Items::new(alloc);
    for n in 0..25 {
        let here = numbered(rt, first.saturating_add(n));
        let (v, target) = match from {
            Some(v) => (v, here),
            None => (here, numbered(rt, first.saturating_add(n + 1))),
        };
        let edge = target;
        ops.push(Op::Create { v: here }).expect(rt, "memory");
        ops.push(Op::Link { v, edge, target }).expect(rt, "memory");
    }
    ops
}

// Transactions that make a chain of 10,000 vertices.
fn chain(rt: &impl Abort, alloc: Global) -> Items<Request> {
    let mut changes = Items::new(alloc);
    for part in 0..400 {
        let ops = some_vertices(rt, alloc, part * 25, None);
        changes.push(change(rt, 0, 0, ops)).expect(rt, "memory");
    }
    changes
}

// Transactions that make a vertex with 1,000 edges, each to a vertex of its own.
fn star(rt: &impl Abort, alloc: Global) -> Items<Request> {
    let v = letter(rt, b'v');
    let mut ops = Items::new(alloc);
    ops.push(Op::Create { v }).expect(rt, "memory");
    let mut changes = Items::new(alloc);
    changes.push(change(rt, 0, 0, ops)).expect(rt, "memory");
    for part in 0..40 {
        let ops = some_vertices(rt, alloc, part * 25, Some(v));
        changes.push(change(rt, 0, 0, ops)).expect(rt, "memory");
    }
    changes
}

// A pair at each vertex of the chain, with the transaction that makes it.
fn pairs_of_chain(rt: &impl Abort, alloc: Global) -> Items<Pair> {
    let mut pairs = Items::new(alloc);
    for n in 0..10_000 {
        let pair = Pair {
            vertex: numbered(rt, n as usize),
            earlier: n / 25,
            later: 400,
        };
        pairs.push(pair).expect(rt, "memory");
    }
    pairs
}

fn stamp_of(home: u32, count: u64) -> Option<Stamp>
    requires { home < most_gates }
{
    let mut counts = [0; 8];
    counts[home as usize] = count;
    Some(Stamp {
        home,
        clock: Clock { epoch: 0, counts },
    })
}

// This number of transactions are committed, and then a program has this answer. Its stamp is unordered with theirs.
fn told(
    rt: &impl Abort,
    alloc: Global,
    changes: u32,
    answer: Answer,
    pairs: Items<Pair>,
) -> Report {
    let mut replies = Items::new(alloc);
    let mut order = Items::new(alloc);
    for request in 0..changes {
        let number = u64::from(request) + 1;
        let reply = Reply {
            request,
            stamp: stamp_of(0, number),
            state: ReplyState::Committed {
                number,
                answers: Items::new(alloc),
            },
        };
        replies.push(reply).expect(rt, "memory");
        order.push(request).expect(rt, "memory");
    }
    let reply = Reply {
        request: changes,
        stamp: stamp_of(1, 1),
        state: ReplyState::Finished(answer),
    };
    replies.push(reply).expect(rt, "memory");
    order.push(changes).expect(rt, "memory");
    Report {
        replies,
        pairs,
        order,
        answers: Items::new(alloc),
    }
}

// What the judge says if this program asks after these transactions, at the second gatekeeper.
fn judged_after(
    rt: &impl Abort,
    alloc: Global,
    requests: Items<Request>,
    program: Program,
    report: &Report,
) -> Judged {
    let mut requests = requests;
    let request = Request {
        name: letter(rt, b'p'),
        session: 1,
        gate: 1,
        work: Work::Look(program),
    };
    requests.push(request).expect(rt, "memory");
    judge(rt, alloc, &script_of(alloc, 2, requests), report)
}

fn path_of(from: Name, to: Name, bound: u32) -> Program {
    Program::Path {
        from,
        to,
        bound,
        pass: None,
    }
}

fn reach_of(from: Name, to: Name) -> Program {
    Program::Reach {
        from,
        to,
        pass: None,
    }
}

fn no(clause: Clause, place: u64) -> Judged {
    Judged::No { clause, place }
}

fn judged_on_chain(rt: &impl Abort, alloc: Global, program: Program, answer: Answer) -> Judged {
    let report = told(rt, alloc, 400, answer, pairs_of_chain(rt, alloc));
    judged_after(rt, alloc, chain(rt, alloc), program, &report)
}

#[test]
fn a_path_through_ten_thousand_vertices(rt: HostRuntime) {
    let alloc = rt.alloc();
    let (from, to) = (numbered(&rt, 0), numbered(&rt, 9_999));
    for (bound, count, want) in [
        (9_999, 10_000, Judged::Yes),
        (9_999, 9_999, no(Clause::Iv, 401)),
        (9_998, 10_000, no(Clause::Iv, 401)),
    ] {
        let walk = Answer::Walk(Some(numbers(&rt, alloc, count)));
        assert!(rt; judged_on_chain(&rt, alloc, path_of(from, to, bound), walk) == want);
    }
}

#[test]
fn a_neighbourhood_of_ten_thousand_vertices(rt: HostRuntime) {
    let alloc = rt.alloc();
    for (bound, count, want) in [
        (9_999, 10_000, Judged::Yes),
        (9_998, 9_999, no(Clause::V, 10_000)),
    ] {
        let around = Program::Around {
            from: numbered(&rt, 0),
            bound,
            pass: None,
        };
        let found = Answer::Found(numbers(&rt, alloc, count));
        assert!(rt; judged_on_chain(&rt, alloc, around, found) == want);
    }
}

// A pair puts the program after the last transaction, which makes the last vertex.
fn judged_on_star(rt: &impl Abort, alloc: Global, program: Program, answer: Answer) -> Judged {
    let mut pairs = Items::new(alloc);
    let pair = Pair {
        vertex: numbered(rt, 999),
        earlier: 40,
        later: 41,
    };
    pairs.push(pair).expect(rt, "memory");
    let report = told(rt, alloc, 41, answer, pairs);
    judged_after(rt, alloc, star(rt, alloc), program, &report)
}

#[test]
fn a_star_of_a_thousand_edges(rt: HostRuntime) {
    let alloc = rt.alloc();
    let (from, to) = (letter(&rt, b'v'), numbered(&rt, 999));
    for (program, answer, want) in [
        (reach_of(from, to), Answer::Reached(true), Judged::Yes),
        (
            reach_of(from, to),
            Answer::Reached(false),
            no(Clause::Iv, 42),
        ),
        (path_of(from, to, 0), Answer::Walk(None), no(Clause::V, 1)),
    ] {
        assert!(rt; judged_on_star(&rt, alloc, program, answer) == want);
    }
}
