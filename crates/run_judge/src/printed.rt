//! The printed order: the first place at which the order isn't as it.
ghost use Rattle.std.specs.Prelude.{◌≡◌, IfOk, MatchBool, Some, slice_get};
ghost use Rattle.std.specs.List.{filter};
ghost use Rattle.report_rules.specs.PrintedOrder.{TakesAll, begun_requests};
ghost use Rattle.report_rules.specs.Lookups.{may_be_listed};
ghost use Rattle.order_witness.specs.Judgement.{IsFirstFault};
ghost use Rattle.run_judge.specs.Promises.{printed_order_clause};
ghost use Rattle.run_judge.specs.Differences.{IsFirstDifference};

use report_rules::laws::printed_order_is_one;
use report_rules::{ReplyState, Report};
use std::alloc::{AllocError, Global};

/// The first place in the order that isn't as in the printed order, from 1; one more than the last if more is printed.
pub fn first_fault(alloc: Global, report: &Report, turns: &[u32]) -> Result<Option<u64>, AllocError>
    requires { TakesAll report.now (begun_requests report.now) turns.now }
    ensures { IfOk result (IsFirstFault (printed_order_clause report.now)) }
{
    printed_order_is_one();
    let printed = printed_order(alloc, report, turns)?;
    Ok(first_difference(printed.as_slice(), report.order.as_slice()))
}

// Those of the requests in turn that the order may list.
fn printed_order(alloc: Global, report: &Report, turns: &[u32]) -> Result<Vec<u32>, AllocError>
    ensures { IfOk result (λ order. order.items ≡ filter (may_be_listed report.now) turns.now) }
{
    turns
        .iter()
        .copied()
        .filter(|turn| may_be_listed(report, *turn))
        .collect(alloc)
}

/// Whether the order may list the request.
pub fn may_be_listed(report: &Report, request: u32) -> bool
    ensures { result ≡ may_be_listed report.now request }
{
    match report.replies.as_slice().get(request as usize) {
        Some(reply) => matches!(
            reply.state,
            ReplyState::Committed { .. } | ReplyState::Finished(_)
        ),
        None => false,
    }
}

// The first place, from 1, at which the second list isn't as the first; one more than its length if it ends too early.
fn first_difference(wanted: &[u32], found: &[u32]) -> Option<u64>
    ensures { IsFirstDifference wanted.now found.now result }
{
    for place in 0..found.len() {
        if !is_at(wanted, place, found[place]) {
            return Some(place as u64 + 1);
        }
    }
    if found.len() < wanted.len() {
        return Some(found.len() as u64 + 1);
    }
    None
}

fn is_at(numbers: &[u32], place: usize, number: u32) -> bool
    ensures { MatchBool result (slice_get numbers.now place ≡ Some number)
        (¬ (slice_get numbers.now place ≡ Some number)) }
{
    match numbers.get(place) {
        Some(its) => *its == number,
        None => false,
    }
}
