//! Begun requests, and lists of numbers by place.
ghost use Rattle.std.specs.Prelude.{◌≡◌, is_some};
ghost use Rattle.report_rules.specs.Lookups as lookups;
ghost use Rattle.vector_stamp.specs.Order.{stamp_before};
ghost use Rattle.order_witness.specs.Begun.{is_request_before, stamp_in};
ghost use Rattle.order_witness.specs.ByNumber.{list_at};
ghost use Rattle.order_witness.specs.Heads.{item};

use report_rules::{Reply, Report};
use vector_stamp::Stamp;
use weave_data::Items;

/// The stamp of the request, if it is begun.
pub fn stamp_of(report: &Report, request: usize) -> Option<Stamp>
    ensures { result ≡ lookups.stamp_at report.now request }
{
    match report.replies.as_slice().get(request) {
        Some(reply) => reply.stamp,
        None => None,
    }
}

/// Whether the request is begun.
pub fn is_begun(replies: &[Reply], request: u32) -> bool
    ensures { result ≡ is_some (stamp_in replies.now request) }
{
    match replies.get(request as usize) {
        Some(reply) => reply.stamp.is_some(),
        None => false,
    }
}

/// Whether the first request's stamp is before the second's, both begun.
pub fn is_request_before(report: &Report, a: usize, b: usize) -> bool
    ensures { result ≡ is_request_before report.now a b }
{
    let replies = report.replies.as_slice();
    match (replies.get(a), replies.get(b)) {
        (Some(a), Some(b)) => are_in_turn(&a.stamp, &b.stamp),
        _ => false,
    }
}

fn are_in_turn(a: &Option<Stamp>, b: &Option<Stamp>) -> bool
    ensures { result ≡ lookups.are_both stamp_before a.now b.now }
{
    match (a, b) {
        (Some(a), Some(b)) => a.is_before(b),
        _ => false,
    }
}

/// The number at a place, 0 past the end.
pub fn item(numbers: &[usize], place: usize) -> usize
    ensures { result ≡ item numbers.now place }
{
    match numbers.get(place) {
        Some(number) => *number,
        None => 0,
    }
}

/// The list at a place, empty past the end.
pub fn list_at(lists: &[Items<usize>], place: usize) -> &[usize]
    ensures { result.now ≡ list_at lists.now place }
{
    match lists.get(place) {
        Some(list) => list.as_slice(),
        None => &[],
    }
}
