//! The printed order.
ghost use Rattle.std.specs.Prelude.{◌≡◌, ◌++◌, ◌↔◌, ℕ, IsTrue, IfOk, OnOk, MatchOption, Some, length, replicate};
ghost use Rattle.std.specs.List.{filter, list_all};
ghost use Rattle.weave_data.specs.Facts.{AllHold};
ghost use Rattle.report_rules.specs.RightReport.{replies_clause};
ghost use Rattle.report_rules.specs.PrintedOrder.{IsPrintedOrder, begun_requests};
ghost use Rattle.report_rules.specs.Lookups as lookups;
ghost use Rattle.order_witness.specs.Begun.{NonePrecedesItself};
ghost use Rattle.report_rules.specs.declared.report.Reply.{Reply};
ghost use Rattle.order_witness.specs.Heads.{AreWaiting, requests_left, listed_in};
ghost use Rattle.order_witness.specs.Rows.{AreAllTurns};

use crate::by_number::ByNumber;
use crate::heads::{Run, earlier_ends, never_begun, next, runs_of};
use crate::lookups::is_committed_or_finished;
use crate::replies;
use crate::rising::places_by_stamps;
use program_defs::Script;
use report_rules::{Reply, Report};
use std::alloc::{AllocError, Global};
use vector_stamp::laws::precedence_is_decided;

/// Whether the report has a printed order: the clause on replies holds, and no request precedes itself.
pub fn has_order(alloc: Global, script: &Script, report: &Report) -> Result<bool, AllocError>
    ensures { IfOk result (λ has. IsTrue has
        ↔ (AllHold (replies_clause script.now report.now) × NonePrecedesItself report.now)) }
{
    if let Some(_) = replies::first_fault(alloc, script, report)? {
        return Ok(false);
    }
    let turns = taken_in_turn(alloc, script, report)?;
    Ok(turns.is_some())
}

/// The printed order: again and again, among the remaining begun requests that no remaining one precedes, the one of
/// the least home is taken; those that are neither committed nor finished are then left out. Condition: the clause on
/// replies holds, and no request precedes itself.
///
/// A sort, and then a turn for each request, in which the first requests left of the gatekeepers are compared with one
/// another; each pair is looked at once.
pub fn order_of(alloc: Global, script: &Script, report: &Report) -> Result<Vec<u32>, AllocError>
    requires replies { AllHold (replies_clause script.now report.now) }
    requires acyclic { NonePrecedesItself report.now }
    ensures { IfOk result (λ order. IsPrintedOrder report.now order.items) }
{
    match taken_in_turn(alloc, script, report)? {
        Some(turns) => listed(alloc, report, turns.as_slice()),
        None => Ok(Vec::new(alloc)),
    }
}

// Those of the requests taken in turn that the order may list.
fn listed(alloc: Global, report: &Report, turns: &[usize]) -> Result<Vec<u32>, AllocError>
    requires { (r : ℕ) (reply : Reply) → lookups.reply_at report.now r ≡ Some reply → reply.request ≡ r }
    ensures { IfOk result (λ order. order.items ≡ filter (lookups.may_be_listed report.now) turns.now) }
{
    let mut order = Vec::new(alloc);
    for turn in turns {
        add(report, &mut order, *turn)?;
    }
    Ok(order)
}

/// The begun requests in turn, each after all that precede it; none if a request precedes itself. The clause on replies
/// must hold.
pub fn taken_in_turn(
    alloc: Global,
    script: &Script,
    report: &Report,
) -> Result<Option<Vec<usize>>, AllocError>
    requires { AllHold (replies_clause script.now report.now) }
    ensures { IfOk result (λ turns. MatchOption turns (¬ NonePrecedesItself report.now)
        (λ turns. AreAllTurns report.now turns.items)) }
{
    let replies = report.replies.as_slice();
    let befores = earlier_ends(alloc, replies, report.pairs.as_slice())?;
    let line = places_by_stamps(alloc, replies)?;
    let mut runs = runs_of(alloc, report, line.as_slice())?;
    let mut seen = none_seen(alloc, replies.len())?;
    let mut done = never_begun(alloc, replies)?;
    let turns = take_all(
        alloc,
        script,
        report,
        line.as_slice(),
        &befores,
        runs.as_mut_slice(),
        seen.as_mut_slice(),
        done.as_mut_slice(),
    )?;
    Ok(turns)
}

// Takes the next request again and again; none if some are left.
fn take_all(
    alloc: Global,
    script: &Script,
    report: &Report,
    line: &[usize],
    befores: &ByNumber,
    runs: &mut [Run],
    seen: &mut [usize],
    done: &mut [bool],
) -> Result<Option<Vec<usize>>, AllocError>
    requires replies { AllHold (replies_clause script.now report.now) }
    requires waiting { AreWaiting report.now line.now befores.now runs.old seen.old done.old }
    requires size { length done.old ≡ length report.now.replies }
    requires start { requests_left report.now done.old ≡ begun_requests report.now }
    ensures { IfOk result (λ turns. MatchOption turns (¬ NonePrecedesItself report.now)
        (λ turns. AreAllTurns report.now turns.items)) }
{
    precedence_is_decided();
    let mut turns = Vec::new(alloc);
    while let Some(request) = next(alloc, script, report, line, befores, runs, seen, done)? {
        turns.push(request)?;
        done[request] = true;
    }
    if !are_done(done) {
        return Ok(None);
    }
    Ok(Some(turns))
}

fn none_seen(alloc: Global, count: usize) -> Result<Vec<usize>, AllocError>
    ensures { IfOk result (λ seen. seen.items ≡ replicate count 0) }
{
    vec![in alloc; 0; count]
}

// Adds the request to the order, if it may be listed.
fn add(report: &Report, order: &mut Vec<u32>, request: usize) -> Result<(), AllocError>
    ensures { OnOk result (order.new.items ≡ order.old.items ++ listed_in (lookups.reply_at report.now request)) }
{
    match report.replies.as_slice().get(request) {
        Some(reply) => add_reply(order, reply),
        None => Ok(()),
    }
}

fn add_reply(order: &mut Vec<u32>, reply: &Reply) -> Result<(), AllocError>
    ensures { OnOk result (order.new.items ≡ order.old.items ++ listed_in (Some reply.now)) }
{
    if is_committed_or_finished(&reply.state) {
        order.push(reply.request)?;
    }
    Ok(())
}

fn are_done(done: &[bool]) -> bool
    ensures { result ≡ list_all (λ is. is) done.now }
{
    done.iter().all(|is| *is)
}
