//! The clause on listing: the order lists each committed transaction and each finished program once, and nothing else.
ghost use Rattle.std.specs.Prelude.{◌≡◌, ℕ, ◌<◌, ◌/◌, ◌==◌, ◌&&◌, ◌||◌, not, false, None, length, IsTrue, IfOk};
ghost use Rattle.std.specs.List.{list_all};
ghost use Rattle.report_rules.specs.declared.report.Reply.{Reply};
ghost use Rattle.weave_data.specs.Facts.{facts_in_turn};
ghost use Rattle.report_rules.specs.RightReport as right;
ghost use Rattle.report_rules.specs.Lookups as lookups;
ghost use Rattle.order_witness.specs.Bits.{has_bit};
ghost use Rattle.order_witness.specs.Judgement.{IsFirstFault};
ghost use Rattle.order_witness.specs.Seen.{AreSeen};

use crate::bits::Row;
use crate::lookups::{is_committed_or_finished, may_be_listed};
use report_rules::Report;
use std::alloc::{AllocError, Global};

/// The first place in the order that repeats an earlier one or may not be listed, from 1. If none is and a request is
/// missing: the place after its end.
pub fn first_fault(alloc: Global, report: &Report) -> Result<Option<u64>, AllocError>
    ensures { IfOk result (IsFirstFault (right.listing_clause report.now)) }
{
    let order = report.order.as_slice();
    let mut seen = Row::empty(alloc, report.replies.as_slice().len())?;
    if let Some(place) = first_out_of_place(report, order, &mut seen) {
        return Ok(Some(place));
    }
    if !all_are_seen(report, &seen) {
        return Ok(Some(order.len() as u64 + 1));
    }
    Ok(None)
}

fn first_out_of_place(report: &Report, order: &[u32], seen: &mut Row) -> Option<u64>
    requires none { (n : ℕ) → has_bit seen.old n ≡ false }
    requires room { length report.now.replies / 64 < length seen.old }
    ensures fault { IsFirstFault (facts_in_turn
        (λ before r. IsTrue (not (lookups.is_in r before) && lookups.may_be_listed report.now r)) order.now) result }
    ensures seen { result ≡ None → AreSeen order.now seen.new }
{
    for (place, request) in order.iter().enumerate() {
        let holds = see(report, seen, *request);
        if !holds {
            return Some(place as u64 + 1);
        }
    }
    None
}

// Whether the request was not seen, and may be listed. If so, it is seen from then on.
fn see(report: &Report, seen: &mut Row, request: u32) -> bool
    requires { length report.now.replies / 64 < length seen.old }
    ensures size { length seen.new ≡ length seen.old }
    ensures holds { result ≡ (not (has_bit seen.old request) && lookups.may_be_listed report.now request) }
    ensures after { IsTrue result → (n : ℕ) → has_bit seen.new n ≡ (has_bit seen.old n || n == request) }
{
    let holds = is_in_place(report, seen, request);
    if holds {
        seen.put(request as usize);
    }
    holds
}

fn is_in_place(report: &Report, seen: &Row, request: u32) -> bool
    ensures { result ≡ (not (has_bit seen.now request) && lookups.may_be_listed report.now request) }
{
    !seen.has(request as usize) && may_be_listed(report, request)
}

fn all_are_seen(report: &Report, seen: &Row) -> bool
    ensures { result ≡ list_all (λ (reply : Reply). not (lookups.is_committed_or_finished reply.state)
        || has_bit seen.now reply.request) report.now.replies }
{
    report.replies.as_slice().iter().all(|reply| !is_committed_or_finished(&reply.state)
        || seen.has(reply.request as usize))
}
