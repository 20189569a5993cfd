//! What the tests of the judge have in common: names, transactions, scripts and reports, and what the judge says.

use graph_ops::Op;
use order_witness::{Judged, has_numbered_operations, judge_report};
use program_defs::{Request, Script, Work};
use report_rules::Report;
use std::alloc::Global;
use std::process::Abort;
use weave_data::{Items, Name};
use weave_script::read_check;

/// The name of one letter.
pub fn letter(rt: &impl Abort, byte: u8) -> Name {
    Name::parse(&[byte]).expect(rt, "a letter")
}

/// A transaction of these operations.
pub fn change(rt: &impl Abort, session: u32, gate: u32, ops: Items<Op>) -> Request {
    Request {
        name: letter(rt, b't'),
        session,
        gate,
        work: Work::Change(ops),
    }
}

/// A transaction that creates v, or gives its key k the value x.
pub fn writer(rt: &impl Abort, alloc: Global, session: u32, gate: u32, creates: bool) -> Request {
    let v = letter(rt, b'v');
    let op = if creates {
        Op::Create { v }
    } else {
        Op::Set {
            v,
            key: letter(rt, b'k'),
            value: letter(rt, b'x'),
        }
    };
    let mut ops = Items::new(alloc);
    ops.push(op).expect(rt, "memory");
    change(rt, session, gate, ops)
}

/// A script of these requests, with one shard.
pub fn script_of(alloc: Global, gates: u32, requests: Items<Request>) -> Script {
    Script {
        gates,
        shards: 1,
        requests,
        phases: Items::new(alloc),
        steps: None,
    }
}

/// The script and the report of their texts.
pub fn read(rt: &impl Abort, alloc: Global, script: &str, report: &str) -> (Script, Report) {
    let input = format!(in alloc; "{script}{report}").expect(rt, "memory");
    match read_check(alloc, input.as_str().as_bytes()) {
        Ok(both) => both,
        Err(_) => panic!(rt; "no script and report: {report}"),
    }
}

/// What the judge says.
pub fn judge(rt: &impl Abort, alloc: Global, script: &Script, report: &Report) -> Judged {
    assert!(rt; has_numbered_operations(script));
    judge_report(alloc, script, report).expect(rt, "memory")
}
