//! Of each refusal whether the commit numbers of its session keep clear of it, by a walk over the replies and one back.
ghost use Rattle.std.specs.Prelude.{◌≡◌, ℕ, ◌<◌, ◌≤◌, Bool, false, Some, IsTrue, IfOk, OnOk, length, slice_index_or};
ghost use Rattle.order_witness.specs.Heads.{item};
ghost use Rattle.report_rules.specs.Lookups as lookups;
ghost use Rattle.order_witness.specs.Refusals.{refused_after};
ghost use Rattle.order_witness.specs.Turns.{IsAfterCommits, IsBeforeCommits, IsLoweredBy, IsOfMarked, IsRaisedBy};

use crate::by_session::BySession;
use crate::lookups::request_in;
use program_defs::Script;
use report_rules::{Reply, ReplyState};
use std::alloc::{AllocError, Global};

/// For each reply a mark. If a refusal has it, each commit number of its session before it is at most the number of
/// commits after which it is refused, and each after it is above that. Without a mark that may be so too.
pub fn marks_of_turns(
    alloc: Global,
    script: &Script,
    replies: &[Reply],
) -> Result<Vec<bool>, AllocError>
    ensures after { IfOk result (λ marks. IsOfMarked (IsAfterCommits script.now replies.now) marks.items) }
    ensures before { IfOk result (λ marks. IsOfMarked (IsBeforeCommits script.now replies.now) marks.items) }
{
    let mut marks = after_commits(alloc, script, replies)?;
    keep_before_commits(alloc, script, replies, &mut marks)?;
    Ok(marks)
}

// Marks the refusals that are after each commit of their session before them.
fn after_commits(alloc: Global, script: &Script, replies: &[Reply]) -> Result<Vec<bool>, AllocError>
    ensures size { IfOk result (λ marks. length marks.items ≡ length replies.now) }
    ensures marked { IfOk result (λ marks. IsOfMarked (IsAfterCommits script.now replies.now) marks.items) }
{
    let mut tops = BySession::new(alloc, 0)?;
    let mut marks = Vec::new(alloc);
    for (place, reply) in replies.iter().enumerate() {
        let is_after = is_after_commits(script, place, &reply.state, &mut tops);
        marks.push(is_after)?;
    }
    Ok(marks)
}

// Whether the reply is refused after the greatest commit number of its session so far. Its own number counts from then
// on.
fn is_after_commits(script: &Script, place: usize, state: &ReplyState, tops: &mut BySession) -> bool
    ensures { IsRaisedBy script.now place state.now tops.old tops.new result }
{
    let Some(request) = request_in(script, place) else {
        return false;
    };
    let is_after = is_after(state, request.session, tops);
    raise(tops, request.session, state);
    is_after
}

fn is_after(state: &ReplyState, session: u32, tops: &BySession) -> bool
    ensures { IsTrue result → (at : ℕ) → refused_after state.now ≡ Some at
        → (session < length tops.now) × (item tops.now session ≤ at) }
{
    match state {
        ReplyState::Refused { at, .. } => tops.is_at_most(session, *at),
        _ => false,
    }
}

fn raise(tops: &mut BySession, session: u32, state: &ReplyState)
    ensures size { length tops.new ≡ length tops.old }
    ensures no_less { (s : ℕ) → item tops.old s ≤ item tops.new s }
    ensures there { (number : ℕ) → lookups.committed_number state.now ≡ Some number → session < length tops.new
        → number ≤ item tops.new session }
{
    match state {
        ReplyState::Committed { number, .. } => tops.raise(session, *number),
        _ => {}
    }
}

// Leaves the marks of those alone that are before each commit of their session after them.
fn keep_before_commits(
    alloc: Global,
    script: &Script,
    replies: &[Reply],
    marks: &mut Vec<bool>,
) -> Result<(), AllocError>
    requires { length marks.old.items ≡ length replies.now }
    ensures kept { OnOk result ((place : ℕ) → IsTrue (slice_index_or marks.new.items place false)
        → IsTrue (slice_index_or marks.old.items place false)) }
    ensures marked { OnOk result (IsOfMarked (IsBeforeCommits script.now replies.now) marks.new.items) }
{
    let mut lows = BySession::new(alloc, u64::MAX)?;
    for back in 0..replies.len() {
        let place = replies.len() - 1 - back;
        let is_before = is_before_commits(script, place, &replies[place].state, &mut lows);
        keep_mark(marks, place, is_before);
    }
    Ok(())
}

// Takes the mark away, unless it may be kept.
fn keep_mark(marks: &mut Vec<bool>, place: usize, may: bool)
    requires { place < length marks.old.items }
    ensures size { length marks.new.items ≡ length marks.old.items }
    ensures others { (p : ℕ) → ¬ (p ≡ place)
        → slice_index_or marks.new.items p false ≡ slice_index_or marks.old.items p false }
    ensures here { IsTrue (slice_index_or marks.new.items place false)
        → IsTrue (slice_index_or marks.old.items place false) × IsTrue may }
{
    if !may {
        marks[place] = false;
    }
}

// Whether the reply is refused before the least commit number of its session after it. Its own number counts from then
// on.
fn is_before_commits(
    script: &Script,
    place: usize,
    state: &ReplyState,
    lows: &mut BySession,
) -> bool
    ensures { IsLoweredBy script.now place state.now lows.old lows.new result }
{
    let Some(request) = request_in(script, place) else {
        return false;
    };
    let is_before = is_before(state, request.session, lows);
    lower(lows, request.session, state);
    is_before
}

fn is_before(state: &ReplyState, session: u32, lows: &BySession) -> bool
    ensures { IsTrue result → (at : ℕ) → refused_after state.now ≡ Some at
        → (session < length lows.now) × (at < item lows.now session) }
{
    match state {
        ReplyState::Refused { at, .. } => lows.is_above(session, *at),
        _ => false,
    }
}

fn lower(lows: &mut BySession, session: u32, state: &ReplyState)
    ensures size { length lows.new ≡ length lows.old }
    ensures no_more { (s : ℕ) → item lows.new s ≤ item lows.old s }
    ensures there { (number : ℕ) → lookups.committed_number state.now ≡ Some number → session < length lows.new
        → item lows.new session ≤ number }
{
    match state {
        ReplyState::Committed { number, .. } => lows.lower(session, *number),
        _ => {}
    }
}
