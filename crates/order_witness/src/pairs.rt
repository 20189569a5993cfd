//! The clause on pairs: the stamps are unordered, and both requests meet at the vertex: transactions by naming it, a
//! program by visiting it.
ghost use Rattle.std.specs.Prelude.{◌≡◌, ◌&&◌, false, slice_index_or};
ghost use Rattle.vector_stamp.specs.Order as stamps;
ghost use Rattle.report_rules.specs.RightReport as right;
ghost use Rattle.report_rules.specs.Lookups as lookups;
ghost use Rattle.order_witness.specs.Judgement.{IsFirstFault};
ghost use Rattle.order_witness.specs.Visited.{AreVisitsMarked, is_pair_in_place, may_be_later};
ghost use Rattle.program_defs.specs.declared.script.Request.{Request};
ghost use Rattle.report_rules.specs.declared.report.Reply.{Reply};

use crate::lookups::{is_committed, names_vertex, reply_at, request_at, stamp_at};
use program_defs::{Script, Work};
use report_rules::{Pair, ReplyState, Report};
use weave_data::Name;

/// The first pair that breaks the clause, from 1. The marks say of each pair whose later request is a finished program
/// whether that one visits its vertex.
pub fn first_fault(script: &Script, report: &Report, marks: &[bool]) -> Option<u64>
    requires { AreVisitsMarked script.now report.now marks.now }
    ensures { IsFirstFault (right.pairs_clause script.now report.now) result }
{
    for (place, pair) in report.pairs.as_slice().iter().enumerate() {
        let holds = is_in_place(script, report, pair, mark_at(marks, place));
        if !holds {
            return Some(place as u64 + 1);
        }
    }
    None
}

fn mark_at(marks: &[bool], place: usize) -> bool
    ensures { result ≡ slice_index_or marks.now place false }
{
    match marks.get(place) {
        Some(mark) => *mark,
        None => false,
    }
}

fn is_in_place(script: &Script, report: &Report, pair: &Pair, mark: bool) -> bool
    ensures { result ≡ is_pair_in_place script.now report.now pair.now mark }
{
    are_unordered(report, pair.earlier, pair.later)
        && is_committed_and_names(script, report, pair.vertex, pair.earlier)
        && is_later_in_place(script, report, pair.vertex, pair.later, mark)
}

fn is_later_in_place(script: &Script, report: &Report, v: Name, r: u32, mark: bool) -> bool
    ensures { result ≡ lookups.are_both
        (λ (request : Request) (reply : Reply). may_be_later script.now report.now v r mark request.work reply.state)
        (lookups.request_at script.now r) (lookups.reply_at report.now r) }
{
    let Some(request) = request_at(script, r) else {
        return false;
    };
    match reply_at(report, r) {
        Some(reply) => may_be_later(script, report, v, r, mark, &request.work, &reply.state),
        None => false,
    }
}

fn may_be_later(
    script: &Script,
    report: &Report,
    v: Name,
    r: u32,
    mark: bool,
    work: &Work,
    state: &ReplyState,
) -> bool
    ensures { result ≡ may_be_later script.now report.now v r mark work.now state.now }
{
    match work {
        Work::Change(_) => is_committed_and_names(script, report, v, r),
        Work::Look(_) => !matches!(state, ReplyState::Finished(_)) || mark,
    }
}

fn are_unordered(report: &Report, a: u32, b: u32) -> bool
    ensures { result
        ≡ lookups.are_both stamps.unordered (lookups.stamp_at report.now a) (lookups.stamp_at report.now b) }
{
    match (stamp_at(report, a), stamp_at(report, b)) {
        (Some(a), Some(b)) => a.is_unordered(&b),
        _ => false,
    }
}

/// Whether the request is a committed transaction that names the vertex.
pub fn is_committed_and_names(script: &Script, report: &Report, v: Name, r: u32) -> bool
    ensures { result ≡ right.is_committed_and_names script.now report.now v r }
{
    is_committed(report, r) && names_vertex(script, r, v)
}
