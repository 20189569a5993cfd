//! The clause on conflicts: the newer request is a committed transaction of another session, both name the vertex, and
//! the aborted one precedes it.
ghost use Rattle.std.specs.Prelude.{◌≡◌, ◌&&◌, not, length, IfOk};
ghost use Rattle.std.specs.List.{list_all};
ghost use Rattle.report_rules.specs.declared.report.Reply.{Reply};
ghost use Rattle.weave_data.specs.Facts.{AllHold};
ghost use Rattle.report_rules.specs.RightReport as right;
ghost use Rattle.report_rules.specs.Lookups as lookups;
ghost use Rattle.report_rules.specs.PrintedOrder.{TakesAll, begun_requests};
ghost use Rattle.order_witness.specs.Heads.{AreEarlierEnds};
ghost use Rattle.order_witness.specs.Preceding.{AreStepsOf};
ghost use Rattle.order_witness.specs.Rows.{CountsTell};
ghost use Rattle.order_witness.specs.Begun.{request_precedes, is_conflict_in_place, is_request_before};
ghost use Rattle.order_witness.specs.Judgement.{IsFirstFault};

use crate::by_number::ByNumber;
use crate::heads::{Run, earlier_ends, runs_of};
use crate::lookups::{is_request_before, names_vertex, same_session, stamp_at};
use crate::pairs::is_committed_and_names;
use crate::printed_order::taken_in_turn;
use crate::rising::places_by_stamps;
use crate::rows::{counts, places_in, row_in, rows_along};
use program_defs::Script;
use report_rules::{ReplyState, Report};
use std::alloc::{AllocError, Global};
use vector_stamp::laws::{one_pair_joins_its_ends, precedence_is_decided, stamps_are_ordered};
use weave_data::{Items, Name};

/// The first reply line that breaks the clause, from 1. The clauses on replies, listing, order and pairs must hold.
///
/// What precedes each request is counted only if the stamps of a conflict leave its two requests open. By the clauses
/// that hold no request precedes itself, so each has its turn, and its row of counts.
pub fn first_fault(
    alloc: Global,
    script: &Script,
    report: &Report,
) -> Result<Option<u64>, AllocError>
    requires replies { AllHold (right.replies_clause script.now report.now) }
    requires listing { AllHold (right.listing_clause report.now) }
    requires order { AllHold (right.order_clause script.now report.now) }
    requires pairs { AllHold (right.pairs_clause script.now report.now) }
    ensures { IfOk result (IsFirstFault (right.conflicts_clause script.now report.now)) }
{
    precedence_is_decided();
    if hold_by_stamps(script, report) {
        return Ok(None);
    }
    stamps_are_ordered();
    one_pair_joins_its_ends();
    let befores = earlier_ends(alloc, report.replies.as_slice(), report.pairs.as_slice())?;
    let Some(turns) = taken_in_turn(alloc, script, report)? else {
        return Ok(None);
    };
    first_by_counts(alloc, script, report, &befores, turns.as_slice())
}

// The same, by counts of what precedes each request.
fn first_by_counts(
    alloc: Global,
    script: &Script,
    report: &Report,
    befores: &ByNumber,
    turns: &[usize],
) -> Result<Option<u64>, AllocError>
    requires replies { AllHold (right.replies_clause script.now report.now) }
    requires size { length befores.now ≡ length report.now.replies }
    requires ends { AreEarlierEnds report.now befores.now }
    requires steps { AreStepsOf report.now befores.now }
    requires turns { TakesAll report.now (begun_requests report.now) turns.now }
    ensures { IfOk result (IsFirstFault (right.conflicts_clause script.now report.now)) }
{
    precedence_is_decided();
    stamps_are_ordered();
    let replies = report.replies.as_slice();
    let parts = places_by_stamps(alloc, replies)?;
    let line = parts.as_slice();
    let cut = runs_of(alloc, report, line)?;
    let runs = cut.as_slice();
    let found = places_in(alloc, line, replies.len())?;
    let places = found.as_slice();
    let rows = rows_along(
        alloc,
        report,
        befores,
        line,
        runs,
        places,
        replies.len(),
        turns,
    )?;
    Ok(first_out_of_place(script, report, line, runs, rows.as_slice()))
}

fn hold_by_stamps(script: &Script, report: &Report) -> bool
    ensures { result ≡ list_all (λ (reply : Reply). is_conflict_in_place script.now report.now
        (is_request_before report.now) reply.request reply.state) report.now.replies }
{
    report.replies.as_slice().iter().all(|reply| is_in_place_by_stamps(
        script,
        report,
        reply.request,
        &reply.state,
    ))
}

fn is_in_place_by_stamps(script: &Script, report: &Report, request: u32, state: &ReplyState) -> bool
    ensures { result ≡ is_conflict_in_place script.now report.now (is_request_before report.now) request state.now }
{
    match state {
        ReplyState::Conflict { vertex, newer } => {
            may_be_newer(script, report, request, *vertex, *newer)
                && is_request_before(report, request as usize, *newer as usize)
        }
        _ => true,
    }
}

// Whether the newer request is a committed transaction of another session, and both name the vertex.
fn may_be_newer(script: &Script, report: &Report, request: u32, vertex: Name, newer: u32) -> bool
    ensures { result ≡ (right.is_committed_and_names script.now report.now vertex newer
        && not (lookups.same_session script.now request newer)
        && lookups.request_names_vertex script.now request vertex) }
{
    is_committed_and_names(script, report, vertex, newer)
        && !same_session(script, request, newer)
        && names_vertex(script, request, vertex)
}

fn first_out_of_place(
    script: &Script,
    report: &Report,
    line: &[usize],
    runs: &[Run],
    rows: &[Items<usize>],
) -> Option<u64>
    requires { CountsTell report.now line.now runs.now rows.now }
    ensures { IsFirstFault (right.conflicts_clause script.now report.now) result }
{
    precedence_is_decided();
    for (place, reply) in report.replies.as_slice().iter().enumerate() {
        let holds = is_in_place(
            script,
            report,
            line,
            runs,
            rows,
            reply.request,
            &reply.state,
        );
        if !holds {
            return Some(place as u64 + 1);
        }
    }
    None
}

fn is_in_place(
    script: &Script,
    report: &Report,
    line: &[usize],
    runs: &[Run],
    rows: &[Items<usize>],
    request: u32,
    state: &ReplyState,
) -> bool
    requires { CountsTell report.now line.now runs.now rows.now }
    ensures { result ≡ is_conflict_in_place script.now report.now (request_precedes report.now) request state.now }
{
    match state {
        ReplyState::Conflict { vertex, newer } => {
            may_be_newer(script, report, request, *vertex, *newer)
                && leads(report, line, runs, rows, request, *newer)
        }
        _ => true,
    }
}

// Whether the first request precedes the second.
fn leads(
    report: &Report,
    line: &[usize],
    runs: &[Run],
    rows: &[Items<usize>],
    a: u32,
    b: u32,
) -> bool
    requires { CountsTell report.now line.now runs.now rows.now }
    ensures { result ≡ request_precedes report.now a b }
{
    precedence_is_decided();
    let Some(_) = stamp_at(report, b) else {
        return false;
    };
    counts(report, line, runs, row_in(rows, b as usize), a as usize)
}
