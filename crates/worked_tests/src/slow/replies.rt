//! Replies by themselves: their requests and stamps, and the numbers of commits.

use crate::slow::lookups::{commit_count, number, one_session, request_of};
use program_defs::Script;
use report_rules::{Reply, Report};
use vector_stamp::Stamp;

/// Whether the reply at the place is one of its request, and its stamp fits those before it; after the last one,
/// whether none is missing.
pub fn is_reply_right(script: &Script, report: &Report, place: usize) -> bool {
    let replies = report.replies.as_slice();
    let Some(reply) = replies.get(place) else {
        return script.requests.as_slice().len() <= place;
    };
    let Some(request) = request_of(script, reply.request) else {
        return false;
    };
    let at_home = match reply.stamp {
        Some(stamp) => stamp.home == request.gate,
        None => true,
    };
    reply.request as usize == place
        && at_home
        && replies
            .iter()
            .take(place)
            .all(|earlier| stand_well(script, earlier, reply))
}

fn stand_well(script: &Script, earlier: &Reply, reply: &Reply) -> bool {
    let begun = match (&earlier.stamp, &reply.stamp) {
        (Some(x), Some(y)) => x.home != y.home || are_told_apart(x, y) || are_told_apart(y, x),
        _ => true,
    };
    let in_turn = match (&earlier.stamp, &reply.stamp) {
        (_, None) => true,
        (None, Some(_)) => false,
        (Some(x), Some(y)) => x.is_before(y),
    };
    begun && (in_turn || !one_session(script, earlier.request, reply.request))
}

// The first is before the second, as its epoch and own count say.
fn are_told_apart(x: &Stamp, y: &Stamp) -> bool {
    let (Some(a), Some(b)) = (
        x.clock.counts.get(x.home as usize),
        y.clock.counts.get(y.home as usize),
    ) else {
        return false;
    };
    (x.clock.epoch < y.clock.epoch || (x.clock.epoch == y.clock.epoch && *a < *b)) && x.is_before(y)
}

/// Whether the number of the commit at the place, if it is one, is that of no earlier one and not too large.
pub fn is_number_right(report: &Report, place: usize) -> bool {
    let replies = report.replies.as_slice();
    let Some(reply) = replies.get(place) else {
        return true;
    };
    let Some(n) = number(reply) else {
        return true;
    };
    let again = replies
        .iter()
        .take(place)
        .any(|earlier| number(earlier) == Some(n));
    0 < n && n <= commit_count(report) && !again
}
