//! For each reply, whether it is refused as it says after the number of commits that it says. The commits are replayed
//! once.
ghost use Rattle.std.specs.Prelude.{◌≡◌, ◌≢◌, ℕ, ◌<◌, ◌≤◌, [], ◌∷◌, ◌++◌, IsTrue, IfOk, OnOk, Some, false, is_some, not, length, replicate, slice_get, slice_index_or};
ghost use Rattle.std.specs.List.{list_all};
ghost use Rattle.std.specs.Option.{option_and_then};
ghost use Rattle.graph_ops.specs.Graphs.{plain_of};
ghost use Rattle.report_rules.specs.Replay.{IsWorkRefused, graph_after_commit, graph_if_work_passed, the_only};
ghost use Rattle.report_rules.specs.Lookups as lookups;
ghost use Rattle.order_witness.specs.Judgement.{has_numbered_operations, is_numbered_work};
ghost use Rattle.report_rules.specs.declared.report.Reply.{Reply};
ghost use Rattle.order_witness.specs.ByNumber.{list_at, HasRefused, place_if_refused};
ghost use Rattle.order_witness.specs.Refusals.{AreMarked, AreMarkedOn, IsMarkedOn, IsRefusedOn, IsExpectedGraph, Marks, numbered_in, refused_after};

use crate::by_number::ByNumber;
use crate::lookups::{commits, number_of, request_at, request_in};
use crate::trial::{passes, stops};
use graph_ops::{Graph, Reason};
use program_defs::{Script, Work};
use report_rules::{Reply, ReplyState, Report};
use std::alloc::{AllocError, Global};

/// The marks of the replies. Nothing is replayed if none is refused.
pub fn marks_of(alloc: Global, script: &Script, report: &Report) -> Result<Vec<bool>, AllocError>
    requires numbered { IsTrue (has_numbered_operations script.now) }
    ensures { IfOk result (λ marks. AreMarked script.now report.now marks.items) }
{
    if none_is_refused(report.replies.as_slice()) {
        return Ok(Vec::new(alloc));
    }
    marks_by_replay(alloc, script, report)
}

fn none_is_refused(replies: &[Reply]) -> bool
    ensures { result ≡ list_all (λ (reply : Reply). not (is_some (refused_after reply.state))) replies.now }
{
    replies.iter().all(|reply| !is_refusal(&reply.state))
}

fn is_refusal(state: &ReplyState) -> bool
    ensures { result ≡ is_some (refused_after state.now) }
{
    match state {
        ReplyState::Refused { .. } => true,
        _ => false,
    }
}

fn marks_by_replay(alloc: Global, script: &Script, report: &Report) -> Result<Vec<bool>, AllocError>
    requires numbered { IsTrue (has_numbered_operations script.now) }
    ensures { IfOk result (λ marks. AreMarked script.now report.now marks.items) }
{
    let replies = report.replies.as_slice();
    let committed = commits_by_number(alloc, replies)?;
    let refused = refusals_by_number(alloc, replies)?;
    let mut marks = no_marks(alloc, replies.len())?;
    let mut graph = Graph::new(alloc);
    let first = refused.list_of(0);
    mark(alloc, &mut graph, script, replies, 0, first, &mut marks)?;
    for done in 0..commits(report) as u64 {
        let requests = committed.list_of(done + 1);
        let there = commit(alloc, &mut graph, script, requests)?;
        if !there {
            return Ok(marks);
        }
        let places = refused.list_of(done + 1);
        mark(
            alloc,
            &mut graph,
            script,
            replies,
            done + 1,
            places,
            &mut marks,
        )?;
    }
    Ok(marks)
}

// The requests with each commit number, as far as there are replies.
fn commits_by_number(alloc: Global, replies: &[Reply]) -> Result<ByNumber, AllocError>
    ensures { IfOk result (λ table. (n : ℕ) → n ≤ length replies.now → list_at table n ≡ numbered_in n replies.now) }
{
    let mut table = ByNumber::new(alloc, replies.len() + 1)?;
    for reply in replies {
        put_commit(&mut table, reply)?;
    }
    Ok(table)
}

fn put_commit(table: &mut ByNumber, reply: &Reply) -> Result<(), AllocError>
    ensures size { length table.new ≡ length table.old }
    ensures after { OnOk result ((n : ℕ) → n < length table.old
        → list_at table.new n ≡ list_at table.old n ++ numbered_in n (reply.now ∷ [])) }
{
    if let Some(number) = number_of(&reply.state) {
        table.put(number, reply.request as usize)?;
    }
    Ok(())
}

// The places of the replies that are refused after each number of commits, as far as there are replies.
fn refusals_by_number(alloc: Global, replies: &[Reply]) -> Result<ByNumber, AllocError>
    ensures { IfOk result (λ table. (n : ℕ) → n ≤ length replies.now → HasRefused n replies.now (list_at table n)) }
{
    let mut table = ByNumber::new(alloc, replies.len() + 1)?;
    for (place, reply) in replies.iter().enumerate() {
        put_refusal(&mut table, place, reply)?;
    }
    Ok(table)
}

fn put_refusal(table: &mut ByNumber, place: usize, reply: &Reply) -> Result<(), AllocError>
    ensures size { length table.new ≡ length table.old }
    ensures after { OnOk result ((n : ℕ) → n < length table.old
        → list_at table.new n ≡ list_at table.old n ++ place_if_refused n place reply.now.state) }
{
    if let ReplyState::Refused { at, .. } = &reply.state {
        table.put(*at, place)?;
    }
    Ok(())
}

fn no_marks(alloc: Global, count: usize) -> Result<Vec<bool>, AllocError>
    ensures { IfOk result (λ marks. marks.items ≡ replicate count false) }
{
    vec![in alloc; false; count]
}

// Marks those of the replies that are refused after this number of commits, by the graph that these leave. Their places
// are among these.
fn mark(
    alloc: Global,
    graph: &mut Graph,
    script: &Script,
    replies: &[Reply],
    after: u64,
    places: &[usize],
    marks: &mut Vec<bool>,
) -> Result<(), AllocError>
    requires numbered { IsTrue (has_numbered_operations script.now) }
    requires size { length marks.old.items ≡ length replies.now }
    requires places { HasRefused after replies.now places.now }
    ensures size { length marks.new.items ≡ length marks.old.items }
    ensures unchanged { graph.new ≡ graph.old }
    ensures marked { OnOk result
        (AreMarkedOn script.now (plain_of graph.old) after replies.now marks.old.items marks.new.items) }
{
    for place in places {
        mark_one(alloc, graph, script, replies, after, *place, marks)?;
    }
    Ok(())
}

fn mark_one(
    alloc: Global,
    graph: &mut Graph,
    script: &Script,
    replies: &[Reply],
    after: u64,
    place: usize,
    marks: &mut Vec<bool>,
) -> Result<(), AllocError>
    requires numbered { IsTrue (has_numbered_operations script.now) }
    requires size { length marks.old.items ≡ length replies.now }
    ensures size { length marks.new.items ≡ length marks.old.items }
    ensures unchanged { graph.new ≡ graph.old }
    ensures others { OnOk result ((k : ℕ) → k ≢ place
        → slice_index_or marks.new.items k false ≡ slice_index_or marks.old.items k false) }
    ensures marked { OnOk result ((reply : Reply) → slice_get replies.now place ≡ Some reply
        → IsMarkedOn script.now (plain_of graph.old) after reply.request reply.state
        (slice_index_or marks.old.items place false) (slice_index_or marks.new.items place false)) }
{
    if place >= replies.len() {
        return Ok(());
    }
    let old = marks[place];
    marks[place] = mark_of(alloc, graph, script, &replies[place], after, old)?;
    Ok(())
}

fn mark_of(
    alloc: Global,
    graph: &mut Graph,
    script: &Script,
    reply: &Reply,
    after: u64,
    old: bool,
) -> Result<bool, AllocError>
    requires numbered { IsTrue (has_numbered_operations script.now) }
    ensures unchanged { graph.new ≡ graph.old }
    ensures mark { IfOk result
        (IsMarkedOn script.now (plain_of graph.old) after reply.now.request reply.now.state old) }
{
    match &reply.state {
        ReplyState::Refused { op, reason, at } => {
            if *at != after {
                return Ok(old);
            }
            is_refused(alloc, graph, script, reply.request, *op, *reason)
        }
        _ => Ok(old),
    }
}

// Whether on this graph the request's operations before this one pass, and it is refused for this reason.
fn is_refused(
    alloc: Global,
    graph: &mut Graph,
    script: &Script,
    request: u32,
    op: u32,
    reason: Reason,
) -> Result<bool, AllocError>
    requires numbered { IsTrue (has_numbered_operations script.now) }
    ensures unchanged { graph.new ≡ graph.old }
    ensures mark { IfOk result (λ refused. Marks refused
        (IsRefusedOn (Some (plain_of graph.old)) (lookups.request_at script.now request) op reason)) }
{
    match request_at(script, request) {
        Some(request) => work_stops(alloc, graph, &request.work, op, reason),
        None => Ok(false),
    }
}

fn work_stops(
    alloc: Global,
    graph: &mut Graph,
    work: &Work,
    op: u32,
    reason: Reason,
) -> Result<bool, AllocError>
    requires numbered { IsTrue (is_numbered_work work.now) }
    ensures unchanged { graph.new ≡ graph.old }
    ensures mark { IfOk result (λ refused. Marks refused (IsWorkRefused (plain_of graph.old) work.now op reason)) }
{
    match work {
        Work::Change(ops) => stops(alloc, graph, ops.as_slice(), op, reason),
        Work::Look(_) => Ok(false),
    }
}

// Replays the commit that has these requests; whether it is there once, and passes.
fn commit(
    alloc: Global,
    graph: &mut Graph,
    script: &Script,
    requests: &[usize],
) -> Result<bool, AllocError>
    requires numbered { IsTrue (has_numbered_operations script.now) }
    ensures { IfOk result (IsExpectedGraph
        (graph_after_commit (option_and_then (lookups.request_at script.now) (the_only requests.now))
        (Some (plain_of graph.old))) (plain_of graph.new)) }
{
    let Some(only) = the_only(requests) else {
        return Ok(false);
    };
    match request_in(script, only) {
        Some(request) => work_passes(alloc, graph, &request.work),
        None => Ok(false),
    }
}

fn work_passes(alloc: Global, graph: &mut Graph, work: &Work) -> Result<bool, AllocError>
    requires numbered { IsTrue (is_numbered_work work.now) }
    ensures { IfOk result (IsExpectedGraph (graph_if_work_passed work.now (plain_of graph.old)) (plain_of graph.new)) }
{
    match work {
        Work::Change(ops) => passes(alloc, graph, ops.as_slice()),
        Work::Look(_) => Ok(false),
    }
}

// The one of a list of one.
fn the_only(requests: &[usize]) -> Option<usize>
    ensures { result ≡ the_only requests.now }
{
    if requests.len() == 1 {
        Some(requests[0])
    } else {
        None
    }
}
