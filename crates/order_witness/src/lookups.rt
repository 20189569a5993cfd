//! What a script and a report say of a request.
ghost use Rattle.std.specs.Prelude.{◌≡◌, option_copied, length, is_some};
ghost use Rattle.std.specs.List.{list_any};
ghost use Rattle.graph_ops.specs.Mentions.{is_among, named_by_op};
ghost use Rattle.graph_ops.specs.declared.op.Op.{Op};
ghost use Rattle.order_witness.specs.Begun.{is_request_before, numbers_in, stamp_in};
ghost use Rattle.report_rules.specs.Lookups as lookups;
ghost use Rattle.vector_stamp.specs.Order.{stamp_before};

use graph_ops::Op;
use program_defs::{Request, Script, Work};
use report_rules::{Reply, ReplyState, Report};
use vector_stamp::Stamp;
use weave_data::Name;

/// Request r of the script.
pub fn request_at(script: &Script, r: u32) -> Option<&Request>
    ensures { option_copied result ≡ lookups.request_at script.now r }
{
    request_in(script, r as usize)
}

/// The request at a place in the script, from 0.
pub fn request_in(script: &Script, place: usize) -> Option<&Request>
    ensures { option_copied result ≡ lookups.request_at script.now place }
{
    script.requests.as_slice().get(place)
}

/// Reply r of the report.
pub fn reply_at(report: &Report, r: u32) -> Option<&Reply>
    ensures { option_copied result ≡ lookups.reply_at report.now r }
{
    report.replies.as_slice().get(r as usize)
}

/// The stamp of request r, if it is begun.
pub fn stamp_at(report: &Report, r: u32) -> Option<Stamp>
    ensures { result ≡ lookups.stamp_at report.now r }
{
    match reply_at(report, r) {
        Some(reply) => reply.stamp,
        None => None,
    }
}

/// The stamp of the request at a place in the report, from 0, if it is begun.
pub fn stamp_of(report: &Report, place: usize) -> Option<Stamp>
    ensures { result ≡ lookups.stamp_at report.now place }
{
    match report.replies.as_slice().get(place) {
        Some(reply) => reply.stamp,
        None => None,
    }
}

/// Whether the request is begun.
pub fn is_begun(replies: &[Reply], request: u32) -> bool
    ensures { result ≡ is_some (stamp_in replies.now request) }
{
    match replies.get(request as usize) {
        Some(reply) => reply.stamp.is_some(),
        None => false,
    }
}

/// Whether the first request's stamp is before the second's, both begun.
pub fn is_request_before(report: &Report, a: usize, b: usize) -> bool
    ensures { result ≡ is_request_before report.now a b }
{
    let replies = report.replies.as_slice();
    match (replies.get(a), replies.get(b)) {
        (Some(a), Some(b)) => is_begun_before(&a.stamp, &b.stamp),
        _ => false,
    }
}

fn is_begun_before(a: &Option<Stamp>, b: &Option<Stamp>) -> bool
    ensures { result ≡ lookups.are_both stamp_before a.now b.now }
{
    match (a, b) {
        (Some(a), Some(b)) => a.is_before(b),
        _ => false,
    }
}

/// Whether the two requests are of one session.
pub fn same_session(script: &Script, a: u32, b: u32) -> bool
    ensures { result ≡ lookups.same_session script.now a b }
{
    match (request_at(script, a), request_at(script, b)) {
        (Some(a), Some(b)) => a.session == b.session,
        _ => false,
    }
}

/// The commit number.
pub fn number_of(state: &ReplyState) -> Option<u64>
    ensures { result ≡ lookups.committed_number state.now }
{
    match state {
        ReplyState::Committed { number, .. } => Some(*number),
        _ => None,
    }
}

/// How many transactions are committed.
pub fn commits(report: &Report) -> usize
    ensures { result ≡ lookups.commits report.now }
{
    commits_in(report.replies.as_slice())
}

fn commits_in(replies: &[Reply]) -> usize
    ensures { result ≡ length (numbers_in replies.now) }
{
    let mut count = 0;
    for reply in replies {
        if number_of(&reply.state).is_some() {
            count += 1;
        }
    }
    count
}

/// Whether the request is a committed transaction.
pub fn is_committed(report: &Report, r: u32) -> bool
    ensures { result ≡ lookups.is_committed report.now r }
{
    match reply_at(report, r) {
        Some(reply) => number_of(&reply.state).is_some(),
        None => false,
    }
}

/// Whether it is committed or finished.
pub fn is_committed_or_finished(state: &ReplyState) -> bool
    ensures { result ≡ lookups.is_committed_or_finished state.now }
{
    matches!(
        state,
        ReplyState::Committed { .. } | ReplyState::Finished(_)
    )
}

/// Whether the order may list the request.
pub fn may_be_listed(report: &Report, r: u32) -> bool
    ensures { result ≡ lookups.may_be_listed report.now r }
{
    match reply_at(report, r) {
        Some(reply) => is_committed_or_finished(&reply.state),
        None => false,
    }
}

/// Whether the request is a transaction that names the vertex.
pub fn names_vertex(script: &Script, r: u32, v: Name) -> bool
    ensures { result ≡ lookups.request_names_vertex script.now r v }
{
    match request_at(script, r) {
        Some(request) => work_names(v, &request.work),
        None => false,
    }
}

#[tactic(auto, using(crate::proofs::Named::among_named))]
fn work_names(v: Name, work: &Work) -> bool
    ensures { result ≡ lookups.work_names v work.now }
{
    match work {
        Work::Change(ops) => is_named(v, ops.as_slice()),
        Work::Look(_) => false,
    }
}

fn is_named(v: Name, ops: &[Op]) -> bool
    ensures { result ≡ list_any (λ (op : Op). is_among (named_by_op op) v) ops.now }
{
    ops.iter().any(|op| names(op, v))
}

// Whether the operation names the vertex.
fn names(op: &Op, v: Name) -> bool
    ensures { result ≡ is_among (named_by_op op.now) v }
{
    if op.vertex() == v {
        return true;
    }
    match op.needs() {
        Some(needed) => needed == v,
        None => false,
    }
}
