//! What a script and a report say of one request.

use graph_ops::Op;
use program_defs::{Program, Request, Script, Work};
use report_rules::{Reply, ReplyState, Report};
use vector_stamp::Stamp;
use weave_data::Name;

pub fn request_of(script: &Script, r: u32) -> Option<&Request> {
    script.requests.as_slice().get(r as usize)
}

pub fn reply_of(report: &Report, r: u32) -> Option<&Reply> {
    report.replies.as_slice().get(r as usize)
}

pub fn stamp_of(report: &Report, r: u32) -> Option<Stamp> {
    reply_of(report, r)?.stamp
}

pub fn one_session(script: &Script, a: u32, b: u32) -> bool {
    match (request_of(script, a), request_of(script, b)) {
        (Some(a), Some(b)) => a.session == b.session,
        _ => false,
    }
}

/// The number of its commit.
pub fn number(reply: &Reply) -> Option<u64> {
    match &reply.state {
        ReplyState::Committed { number, .. } => Some(*number),
        _ => None,
    }
}

pub fn commit_count(report: &Report) -> u64 {
    let mut count: u64 = 0;
    for reply in report.replies.as_slice() {
        if number(reply).is_some() {
            count = count.saturating_add(1);
        }
    }
    count
}

pub fn ops_of(script: &Script, r: u32) -> Option<&[Op]> {
    match &request_of(script, r)?.work {
        Work::Change(ops) => Some(ops.as_slice()),
        Work::Look(_) => None,
    }
}

pub fn program_of(script: &Script, r: u32) -> Option<&Program> {
    match &request_of(script, r)?.work {
        Work::Change(_) => None,
        Work::Look(program) => Some(program),
    }
}

/// Whether it is committed and names the vertex.
pub fn commits_at(script: &Script, report: &Report, r: u32, v: Name) -> bool {
    let committed = match reply_of(report, r) {
        Some(reply) => number(reply).is_some(),
        None => false,
    };
    committed && names(script, r, v)
}

pub fn names(script: &Script, r: u32, v: Name) -> bool {
    match ops_of(script, r) {
        Some(ops) => ops.iter().any(|op| is_named(op, v)),
        None => false,
    }
}

// Whether the operation is on the vertex, or makes an edge that needs it.
fn is_named(op: &Op, vertex: Name) -> bool {
    match *op {
        Op::Join { v, target, .. } => v == vertex || target == vertex,
        _ => op.vertex() == vertex,
    }
}
