//! Scripts and reports that no text can express: each is that of a text, but for one change.
//!
//! In a text the answers are those of the transaction's `get`s, one for each, a program's answer is one of its kind,
//! every name is that of a request, and there are at most eight gatekeepers.

use crate::judging::{judge, letter, read};
use graph_ops::{Got, Record};
use order_witness::{Clause, Judged};
use program_defs::{Answer, Script};
use report_rules::{Pair, Reply, ReplyState, Report};
use std::alloc::Global;
use std::process::Abort;
use weave_data::{Items, NameMap};

// Two sessions, each at a gatekeeper of its own: the first creates a vertex, the second sets a key of it.
const TWO: &str = "weaver 1 2 1\ntx t0 0 0\ncreate v\nend\ntx t1 1 1\nset v k x\nend\n";

// One session creates a vertex with a key, and then reads it.
const READER: &str = "weaver 1 1 1\ntx t0 0 0\ncreate v\nset v k x\nend\ntx t1 0 0\nget v\nend\n";

// Three sessions: the first creates w, the second reads it and creates v, the third reads v.
const PATH: &str =
    "weaver 1 3 1\ntx t0 0 0\ncreate w\nend\ntx t1 1 1\nget w\ncreate v\nend\ntx t2 2 2\nget v\nend\n";

// Three sessions: the first creates v, the second creates w, the third reads v.
const MEETING: &str =
    "weaver 1 3 1\ntx t0 0 0\ncreate v\nend\ntx t1 1 1\ncreate w\nend\ntx t2 2 2\nget v\nend\n";

// A transaction creates d, and a program shows it.
const SHOWN: &str = "weaver 1 2 1\ntx t 0 0\ncreate d\nend\nprog p 1 1 show d\n";

/// What is changed. Requests are named by their places in the script, from 0.
#[derive(Clone, Copy)]
enum Change {
    /// This request, which is committed, has answers to these operations alone, each a record with the property k=x.
    Answers(usize, &'static [u32]),
    /// This request, a program, answers that a vertex is reached.
    Reached(usize),
    /// The order lists this request too.
    Listed(u32),
    /// There is a pair of these requests at v.
    Pair(u32, u32),
    /// The third request is aborted for a conflict with this one.
    Newer(u32),
    /// There are nine gatekeepers, and the first request is at the ninth.
    Ninth,
}

/// A script, a report, what is changed, and the clause and the place that break then, if one does.
type Row = (&'static str, &'static str, Change, Option<(Clause, u64)>);

const CHANGED: [Row; 15] = [
    // Answers that are not those of the `get`s; earlier or later clauses break too.
    // The first pair puts t0 before itself.
    (
        TWO,
        "report 1\ntx t0 0:0:1,0 committed 1\ntx t1 0:1:0,1 committed 9\nsettled v t0 t0\nsettled w t0 t1\norder t0 t1\nend\n",
        Change::Answers(1, &[1]),
        Some((Clause::Iii, 1)),
    ),
    // The pairs make a cycle, so t0 precedes itself.
    (
        TWO,
        "report 1\ntx t0 0:0:1,0 committed 1\ntx t1 0:1:0,1 committed 9\nsettled v t0 t1\nsettled v t1 t0\norder t0 t1\nend\n",
        Change::Answers(1, &[1]),
        Some((Clause::Iii, 1)),
    ),
    // The order is against the pair.
    (
        TWO,
        "report 1\ntx t0 0:0:1,0 committed 1\ntx t1 0:1:0,1 committed 9\nsettled v t1 t0\norder t0 t1\nend\n",
        Change::Answers(1, &[1]),
        Some((Clause::Iii, 2)),
    ),
    // t1 has no `get`.
    (
        TWO,
        "report 1\ntx t0 0:0:1,0 committed 1\ntx t1 0:1:0,1 committed 9\nsettled w t0 t1\norder t0 t1\nend\n",
        Change::Answers(1, &[1]),
        Some((Clause::Iv, 2)),
    ),
    (
        READER,
        "report 1\ntx t0 0:0:1 committed 1\ntx t1 0:0:2 committed 9\ngot 1 record k=x\nsettled w t0 t1\norder t0 t1\nend\n",
        Change::Answers(1, &[]),
        Some((Clause::Iv, 2)),
    ),
    (
        READER,
        "report 1\ntx t0 0:0:1 committed 1\ntx t1 0:0:2 committed 9\ngot 1 record k=x\nsettled w t0 t1\norder t0 t1\nend\n",
        Change::Answers(1, &[2]),
        Some((Clause::Iv, 2)),
    ),
    (
        READER,
        "report 1\ntx t0 0:0:1 committed 1\ntx t1 0:0:2 committed 9\ngot 1 record k=x\nsettled w t0 t1\norder t0 t1\nend\n",
        Change::Answers(1, &[1, 1]),
        Some((Clause::Iv, 2)),
    ),
    // t0 has no `get`.
    (
        READER,
        "report 1\ntx t0 0:0:1 committed 9\ntx t1 0:0:2 committed 9\ngot 1 absent\nsettled w t0 t1\norder t0 t1\nend\n",
        Change::Answers(0, &[1]),
        Some((Clause::Iv, 1)),
    ),
    // t5 is none of the script.
    (
        TWO,
        "report 1\ntx t0 0:0:1,0 committed 1\ntx t1 0:1:0,1 committed 9\nsettled w t1 t1\norder\nend\n",
        Change::Listed(5),
        Some((Clause::Ii, 1)),
    ),
    (
        MEETING,
        "report 1\ntx t0 0:0:1,0,0 committed 1\ntx t1 0:1:0,1,0 committed 2\ntx t2 0:2:0,0,1 committed 9\ngot 1 record\norder t0 t1 t2\nend\n",
        Change::Pair(0, 7),
        Some((Clause::V, 1)),
    ),
    (
        MEETING,
        "report 1\ntx t0 0:0:1,0,0 committed 1\ntx t1 0:1:0,1,0 committed 2\ntx t2 0:2:0,0,1 committed 9\ngot 1 record\norder t0 t1 t2\nend\n",
        Change::Pair(7, 0),
        Some((Clause::V, 1)),
    ),
    (
        MEETING,
        "report 1\ntx t0 0:0:1,0,1 refused 1 full at 0\ntx t1 0:1:0,1,0 committed 9\ntx t2 0:2:0,0,1 conflict v t0\norder t1\nend\n",
        Change::Newer(7),
        Some((Clause::Vi, 3)),
    ),
    // Gatekeeper 8 is none of the eight whose chains the graph keeps, so precedence is closed over all requests: t2
    // precedes t0 by stamps, and t0 precedes t1 by the pair.
    (
        PATH,
        "report 1\ntx t0 0:0:1,0,1 committed 1\ntx t1 0:1:0,1,0 committed 2\ngot 1 record\ntx t2 0:2:0,0,1 conflict v t1\nsettled w t0 t1\norder t0 t1\nend\n",
        Change::Ninth,
        None,
    ),
    (
        PATH,
        "report 1\ntx t0 0:0:1,0,1 committed 1\ntx t1 0:1:0,1,0 committed 2\ngot 1 record\ntx t2 0:2:0,0,1 conflict v t1\norder t0 t1\nend\n",
        Change::Ninth,
        Some((Clause::Vi, 3)),
    ),
    // An answer that is none of the program's.
    (
        SHOWN,
        "report 1\ntx t 0:0:1,0 committed 1\nprog p 0:1:0,1 done record\nsettled d t p\norder t p\nend\n",
        Change::Reached(1),
        Some((Clause::Iv, 2)),
    ),
];

#[test]
fn values_that_no_text_gives(rt: HostRuntime) {
    let alloc = rt.alloc();
    for (script, text, change, broken) in CHANGED {
        let (script, report) = read(&rt, alloc, script, text);
        let script = changed_script(script, change);
        let report = changed_report(&rt, alloc, report, change);
        let want = match broken {
            Some((clause, place)) => Judged::No { clause, place },
            None => Judged::Yes,
        };
        assert!(rt; judge(&rt, alloc, &script, &report) == want, "{text}");
    }
}

fn changed_script(script: Script, change: Change) -> Script {
    if !matches!(change, Change::Ninth) {
        return script;
    }
    let mut requests = script.requests.into_vec();
    if let Some(request) = requests.get_mut(0) {
        request.gate = 8;
    }
    Script {
        gates: 9,
        shards: script.shards,
        requests: Items::from_vec(requests),
        phases: script.phases,
        steps: script.steps,
    }
}

fn changed_report(rt: &impl Abort, alloc: Global, report: Report, change: Change) -> Report {
    let Report {
        replies,
        mut pairs,
        mut order,
        answers,
    } = report;
    match change {
        Change::Listed(request) => order.push(request).expect(rt, "memory"),
        Change::Pair(earlier, later) => {
            let vertex = letter(rt, b'v');
            let pair = Pair {
                vertex,
                earlier,
                later,
            };
            pairs.push(pair).expect(rt, "memory");
        }
        _ => {}
    }
    Report {
        replies: changed_replies(rt, alloc, replies, change),
        pairs,
        order,
        answers,
    }
}

fn changed_replies(
    rt: &impl Abort,
    alloc: Global,
    replies: Items<Reply>,
    change: Change,
) -> Items<Reply> {
    let mut replies = replies.into_vec();
    let place = match change {
        Change::Answers(request, _) | Change::Reached(request) => request,
        Change::Newer(_) => 2,
        _ => 0,
    };
    let Some(reply) = replies.get_mut(place) else {
        panic!(rt; "no reply {place}");
    };
    change_reply(rt, alloc, reply, change);
    Items::from_vec(replies)
}

fn change_reply(rt: &impl Abort, alloc: Global, reply: &mut Reply, change: Change) {
    match change {
        Change::Answers(_, ops) => {
            let ReplyState::Committed { number, .. } = reply.state else {
                panic!(rt; "not committed");
            };
            let answers = answers(rt, alloc, ops);
            reply.state = ReplyState::Committed { number, answers };
        }
        Change::Reached(_) => reply.state = ReplyState::Finished(Answer::Reached(true)),
        Change::Newer(newer) => {
            let vertex = letter(rt, b'v');
            reply.state = ReplyState::Conflict { vertex, newer };
        }
        Change::Ninth => {
            if let Some(stamp) = &mut reply.stamp {
                stamp.home = 8;
            }
        }
        _ => {}
    }
}

fn answers(rt: &impl Abort, alloc: Global, ops: &[u32]) -> Items<Got> {
    let mut answers = Items::new(alloc);
    for op in ops {
        let got = Got {
            op: *op,
            state: Some(record(rt, alloc)),
        };
        answers.push(got).expect(rt, "memory");
    }
    answers
}

// A record with the property k=x.
fn record(rt: &impl Abort, alloc: Global) -> Record {
    let mut props = NameMap::new(alloc);
    props
        .put(letter(rt, b'k'), letter(rt, b'x'))
        .expect(rt, "memory");
    Record {
        props,
        edges: NameMap::new(alloc),
    }
}
