//! The order, and conflicts: what has to be listed, and what precedes what.

use crate::slow::lookups::{commits_at, names, number, one_session, reply_of};
use crate::slow::ways::Ways;
use program_defs::Script;
use report_rules::{Reply, ReplyState, Report};

/// Whether the request at the place may be listed and wasn't before; after the last one, whether none is missing.
pub fn is_listing_right(report: &Report, place: usize) -> bool {
    let order = report.order.as_slice();
    let Some(request) = order.get(place) else {
        return report.replies.as_slice().iter().all(|reply| !is_listed(reply)
            || order.contains(&reply.request));
    };
    let again = order.iter().take(place).any(|other| *other == *request);
    let may = match reply_of(report, *request) {
        Some(reply) => is_listed(reply),
        None => false,
    };
    may && !again
}

fn is_listed(reply: &Reply) -> bool {
    number(reply).is_some() || matches!(reply.state, ReplyState::Finished(_))
}

/// Whether the request at the place precedes neither itself nor one that is listed before it, and comes after those of
/// its session.
pub fn is_order_right(script: &Script, report: &Report, ways: &Ways, place: usize) -> bool {
    let order = report.order.as_slice();
    let Some(request) = order.get(place) else {
        return true;
    };
    !ways.lead(*request, *request)
        && order.iter().take(place).all(|earlier| {
            let is_later = *earlier < *request || !one_session(script, *earlier, *request);
            is_later && !ways.lead(*request, *earlier)
        })
}

/// Whether the reply at the place, if it is a conflict, names a commit of another session at a vertex of its own that
/// it precedes.
pub fn is_conflict_right(script: &Script, report: &Report, ways: &Ways, place: usize) -> bool {
    let Some(reply) = report.replies.as_slice().get(place) else {
        return true;
    };
    match &reply.state {
        ReplyState::Conflict { vertex, newer } => {
            commits_at(script, report, *newer, *vertex)
                && !one_session(script, reply.request, *newer)
                && names(script, reply.request, *vertex)
                && ways.lead(reply.request, *newer)
        }
        _ => true,
    }
}
