//! The clause on replies: reply i is of request i, with a stamp of its gatekeeper, apart from the others' and after
//! those of its session.
ghost use Rattle.std.specs.Prelude.{◌≡◌, ◌==◌, ◌&&◌, nat_lt, IsTrue, IfOk, length, take};
ghost use Rattle.std.specs.List.{list_all};
ghost use Rattle.report_rules.specs.declared.report.Reply.{Reply};
ghost use Rattle.weave_data.specs.Facts.{AllHold, facts_in_turn};
ghost use Rattle.report_rules.specs.RightReport as right;
ghost use Rattle.report_rules.specs.Lookups.{is_none_or, request_at};
ghost use Rattle.order_witness.specs.Judgement.{IsFirstFault};
ghost use Rattle.order_witness.specs.Rising.{AreAtPlaces, is_at_place};

use crate::lookups::{request_at, same_session};
use crate::rising::{are_begun_in_turn, are_stamps_apart, do_sessions_take_turns};
use program_defs::Script;
use report_rules::{Reply, Report};
use std::alloc::{AllocError, Global};
use vector_stamp::Stamp;

/// The first reply line that breaks the clause, from 1; one more than the last if lines are missing.
///
/// A sort by stamps, and one by sessions, find that there is none: then only neighbours are compared. If they do not,
/// a bisection finds the longest front of the replies for which they do, and the next reply is compared with each
/// before it.
pub fn first_fault(
    alloc: Global,
    script: &Script,
    report: &Report,
) -> Result<Option<u64>, AllocError>
    ensures { IfOk result (IsFirstFault (right.replies_clause script.now report.now)) }
{
    let replies = report.replies.as_slice();
    if let Some(place) = fault_in_place(alloc, script, replies)? {
        return Ok(Some(place));
    }
    if replies.len() < script.requests.as_slice().len() {
        return Ok(Some(replies.len() as u64 + 1));
    }
    Ok(None)
}

fn fault_in_place(
    alloc: Global,
    script: &Script,
    replies: &[Reply],
) -> Result<Option<u64>, AllocError>
    ensures { IfOk result (IsFirstFault (facts_in_turn
        (λ before (reply : Reply). IsTrue (right.is_reply_in_place script.now before reply)) replies.now)) }
{
    let surely = are_surely_in_place(alloc, script, replies)?;
    if surely {
        return Ok(None);
    }
    let from = surely_in_place(alloc, script, replies)?;
    Ok(first_out_of_place(script, replies, from))
}

// A number of first replies that are in place, by bisection: the longest front that neighbours show to be so.
fn surely_in_place(alloc: Global, script: &Script, replies: &[Reply]) -> Result<usize, AllocError>
    ensures { IfOk result (λ count. AllHold (facts_in_turn
        (λ before (reply : Reply). IsTrue (right.is_reply_in_place script.now before reply))
        (take count replies.now))) }
{
    let mut count = 0;
    let mut most = replies.len();
    while count < most {
        let middle = most - (most - count) / 2;
        let surely = are_surely_in_place(alloc, script, &replies[..middle])?;
        if surely {
            count = middle;
        } else {
            most = middle - 1;
        }
    }
    Ok(count)
}

// Whether each reply is in place. It is never wrong when it says so.
fn are_surely_in_place(
    alloc: Global,
    script: &Script,
    replies: &[Reply],
) -> Result<bool, AllocError>
    ensures { IfOk result (λ holds. IsTrue holds
        → AllHold (facts_in_turn
        (λ before (reply : Reply). IsTrue (right.is_reply_in_place script.now before reply)) replies.now)) }
{
    let at_places = are_at_places(script, replies);
    if !at_places {
        return Ok(false);
    }
    let apart = are_stamps_apart(alloc, replies)?;
    if !apart {
        return Ok(false);
    }
    let turns = do_sessions_take_turns(alloc, script, replies)?;
    Ok(turns)
}

fn are_at_places(script: &Script, replies: &[Reply]) -> bool
    ensures { IsTrue result → AreAtPlaces script.now replies.now (length replies.now) }
{
    for (place, reply) in replies.iter().enumerate() {
        let holds = is_at_place(script, place, reply);
        if !holds {
            return false;
        }
    }
    true
}

fn is_at_place(script: &Script, place: usize, reply: &Reply) -> bool
    ensures { result ≡ is_at_place script.now place reply.now }
{
    reply.request as usize == place
        && (reply.request as usize) < script.requests.as_slice().len()
        && is_at_home(script, reply)
}

// The first place from one on, if all before that are in place.
fn first_out_of_place(script: &Script, replies: &[Reply], from: usize) -> Option<u64>
    requires { AllHold (facts_in_turn
        (λ before (reply : Reply). IsTrue (right.is_reply_in_place script.now before reply)) (take from replies.now)) }
    ensures { IsFirstFault (facts_in_turn
        (λ before (reply : Reply). IsTrue (right.is_reply_in_place script.now before reply)) replies.now) result }
{
    for place in from..replies.len() {
        let holds = is_in_place(script, &replies[..place], &replies[place]);
        if !holds {
            return Some(place as u64 + 1);
        }
    }
    None
}

fn is_in_place(script: &Script, before: &[Reply], reply: &Reply) -> bool
    ensures { result ≡ right.is_reply_in_place script.now before.now reply.now }
{
    is_numbered(script, before, reply)
        && is_at_home(script, reply)
        && stands_after_all(script, before, reply)
}

fn is_numbered(script: &Script, before: &[Reply], reply: &Reply) -> bool
    ensures { result ≡ (reply.now.request == length before.now
        && nat_lt reply.now.request (length script.now.requests)) }
{
    reply.request as usize == before.len()
        && (reply.request as usize) < script.requests.as_slice().len()
}

fn stands_after_all(script: &Script, before: &[Reply], reply: &Reply) -> bool
    ensures { result ≡ list_all (right.stands_after script.now reply.now) before.now }
{
    before
        .iter()
        .all(|earlier| stands_after(script, reply, earlier))
}

fn is_at_home(script: &Script, reply: &Reply) -> bool
    ensures { result ≡ is_none_or (right.is_home_of (request_at script.now reply.now.request)) reply.now.stamp }
{
    match (&reply.stamp, request_at(script, reply.request)) {
        (Some(stamp), Some(request)) => stamp.home == request.gate,
        (Some(_), None) => false,
        (None, _) => true,
    }
}

fn stands_after(script: &Script, reply: &Reply, earlier: &Reply) -> bool
    ensures { result ≡ right.stands_after script.now reply.now earlier.now }
{
    are_apart_where_begun(&earlier.stamp, &reply.stamp)
        && (!same_session(script, earlier.request, reply.request)
            || are_begun_in_turn(&earlier.stamp, &reply.stamp))
}

fn are_apart_where_begun(a: &Option<Stamp>, b: &Option<Stamp>) -> bool
    ensures { result ≡ right.are_apart_where_begun a.now b.now }
{
    match (a, b) {
        (Some(a), Some(b)) => a.is_apart(b),
        _ => true,
    }
}
