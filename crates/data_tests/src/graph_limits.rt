use crate::names::named;
use graph_ops::Op;
use program_defs::{Program, Request, Script, Work};
use std::alloc::Global;
use std::process::Abort;
use weave_data::Items;

// A transaction of that many operations.
fn change(rt: &impl Abort, alloc: Global, count: usize) -> Work {
    let mut ops = Items::new(alloc);
    for _count in 0..count {
        let op = Op::Create { v: named(rt, b"v") };
        ops.push(op).expect(rt, "memory");
    }
    Work::Change(ops)
}

fn look(rt: &impl Abort) -> Work {
    Work::Look(Program::Show { v: named(rt, b"v") })
}

fn request(rt: &impl Abort, gate: u32, session: u32, work: Work) -> Request {
    Request {
        name: named(rt, b"v"),
        session,
        gate,
        work,
    }
}

// A script of that many programs at so many gatekeepers and shards.
fn script(rt: &impl Abort, alloc: Global, nodes: (u32, u32), count: usize) -> Script {
    let mut requests = Items::new(alloc);
    for _count in 0..count {
        let program = request(rt, 0, 0, look(rt));
        requests.push(program).expect(rt, "memory");
    }
    Script {
        gates: nodes.0,
        shards: nodes.1,
        requests,
        phases: Items::new(alloc),
        steps: None,
    }
}

// Whether a script of a program and a transaction is within the limits.
fn is_within(
    rt: &impl Abort,
    alloc: Global,
    nodes: (u32, u32),
    gate: u32,
    session: u32,
    count: usize,
) -> bool {
    let mut script = script(rt, alloc, nodes, 1);
    let transaction = request(rt, gate, session, change(rt, alloc, count));
    script.requests.push(transaction).expect(rt, "memory");
    script.is_within_limits()
}

// Gatekeepers and shards, then the gatekeeper, session and number of operations of a transaction after a program.
#[test]
fn limits_of_scripts(rt: HostRuntime) {
    let rows = [
        ((1, 1), 0, 63, 0, true),
        ((8, 16), 7, 0, 64, true),
        ((0, 1), 0, 0, 1, false),
        ((9, 1), 0, 0, 1, false),
        ((1, 0), 0, 0, 1, false),
        ((1, 17), 0, 0, 1, false),
        ((8, 16), 8, 0, 1, false),
        ((8, 16), 7, 64, 1, false),
        ((8, 16), 7, 63, 65, false),
    ];
    for (nodes, gate, session, count, wanted) in rows {
        assert!(rt; is_within(&rt, rt.alloc(), nodes, gate, session, count) == wanted);
    }
}

// 10,000 requests are within the limits, and one more is not.
#[test]
fn the_most_requests(rt: HostRuntime) {
    let alloc = rt.alloc();
    let most = script(&rt, alloc, (1, 1), 10_000).is_within_limits();
    let more = script(&rt, alloc, (1, 1), 10_001).is_within_limits();
    assert!(rt; most && !more);
}
