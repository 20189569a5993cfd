//! The judge of reports.
ghost use Rattle.std.specs.Prelude.{◌≡◌, ◌↔◌, ℕ, false, IsTrue, IfOk, replicate};
ghost use Rattle.report_rules.specs.declared.report.Clause.{Clause};
ghost use Rattle.report_rules.specs.RightReport.{BreaksFirst, IsRightReport};
ghost use Rattle.order_witness.specs.Judgement as judgement;

use crate::{conflicts, listing, numbers, order, pairs, refusals, replay, replies};
use program_defs::{Script, Work};
use report_rules::laws::{right_report_breaks_nowhere, wrong_report_breaks_first_once};
use report_rules::{Clause, Report};
use std::alloc::{AllocError, Global};

/// Whether a report is right.
#[derive(Clone, Copy, PartialEq, Eq, Debug)]
pub enum Judged {
    /// It is right.
    Yes,
    /// The first clause, in order, that breaks, and the first place at which it does, from 1.
    No { clause: Clause, place: u64 },
}

/// Whether each transaction has fewer than 2^32 operations, which a reply numbers with 32 bits.
pub fn has_numbered_operations(script: &Script) -> bool
    ensures { result ≡ judgement.has_numbered_operations script.now }
{
    script
        .requests
        .as_slice()
        .iter()
        .all(|request| match &request.work {
            Work::Change(ops) => (ops.as_slice().len() as u64) < 4_294_967_296,
            Work::Look(_) => true,
        })
}

/// Whether the report is right for the script. Each transaction must have fewer than 2^32 operations, as in every
/// script that is read.
pub fn judge_report(alloc: Global, script: &Script, report: &Report) -> Result<Judged, AllocError>
    requires { IsTrue (judgement.has_numbered_operations script.now) }
    ensures yes { IfOk result (λ judged. (judged ≡ Judged.Yes) ↔ IsRightReport script.now report.now) }
    ensures no { IfOk result (λ judged. (clause : Clause) (place : ℕ) → (judged ≡ Judged.No clause place)
        ↔ BreaksFirst script.now report.now clause place) }
{
    right_report_breaks_nowhere();
    wrong_report_breaks_first_once();
    first_clause(alloc, script, report)
}

fn first_clause(alloc: Global, script: &Script, report: &Report) -> Result<Judged, AllocError>
    requires { IsTrue (judgement.has_numbered_operations script.now) }
    ensures { IfOk result (judgement.IsJudgement script.now report.now) }
{
    if let Some(place) = replies::first_fault(alloc, script, report)? {
        return Ok(no(Clause::I, place));
    }
    if let Some(place) = listing::first_fault(alloc, report)? {
        return Ok(no(Clause::Ii, place));
    }
    if let Some(place) = order::first_fault(alloc, script, report)? {
        return Ok(no(Clause::Iii, place));
    }
    let mut marks = no_marks(alloc, report.pairs.as_slice().len())?;
    if let Some(place) = replay::first_fault(alloc, script, report, &mut marks)? {
        return Ok(no(Clause::Iv, place));
    }
    if let Some(place) = pairs::first_fault(script, report, marks.as_slice()) {
        return Ok(no(Clause::V, place));
    }
    if let Some(place) = conflicts::first_fault(alloc, script, report)? {
        return Ok(no(Clause::Vi, place));
    }
    if let Some(place) = refusals::first_fault(alloc, script, report)? {
        return Ok(no(Clause::Vii, place));
    }
    if let Some(place) = numbers::first_fault(alloc, report)? {
        return Ok(no(Clause::Viii, place));
    }
    Ok(Judged::Yes)
}

fn no_marks(alloc: Global, count: usize) -> Result<Vec<bool>, AllocError>
    ensures { IfOk result (λ marks. marks.items ≡ replicate count false) }
{
    vec![in alloc; false; count]
}

fn no(clause: Clause, place: u64) -> Judged
    ensures { result ≡ Judged.No clause place }
{
    Judged::No { clause, place }
}
