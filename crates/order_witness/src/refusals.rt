//! The clause on refusals: each is refused so after the number of commits that it says, and that number fits those of
//! its session's commits.
ghost use Rattle.std.specs.Prelude.{◌≡◌, ◌||◌, ℕ, not, false, Some, IsTrue, IfOk, slice_index_or};
ghost use Rattle.std.specs.List.{list_all};
ghost use Rattle.report_rules.specs.declared.report.Reply.{Reply};
ghost use Rattle.weave_data.specs.Facts.{AllHold};
ghost use Rattle.order_witness.specs.Turns.{AreKeptAtMarks, AreNumbersKept};
ghost use Rattle.report_rules.specs.RightReport as right;
ghost use Rattle.report_rules.specs.Lookups as lookups;
ghost use Rattle.order_witness.specs.Judgement.{IsFirstFault, has_numbered_operations};
ghost use Rattle.order_witness.specs.Refusals.{AreMarked, is_refusal_in_place, refused_after};

use crate::lookups::{commits, number_of, same_session};
use crate::refusal_marks::marks_of;
use crate::turns::marks_of_turns;
use program_defs::Script;
use report_rules::{Reply, ReplyState, Report};
use std::alloc::{AllocError, Global};

/// The first reply line that breaks the clause, from 1. The clause on replies must hold.
///
/// A walk over the replies and one back mark the refusals of which the commit numbers of their sessions keep clear. A
/// refusal is compared with all replies only if it isn't marked.
pub fn first_fault(
    alloc: Global,
    script: &Script,
    report: &Report,
) -> Result<Option<u64>, AllocError>
    requires numbered { IsTrue (has_numbered_operations script.now) }
    requires replies { AllHold (right.replies_clause script.now report.now) }
    ensures { IfOk result (IsFirstFault (right.refusals_clause script.now report.now)) }
{
    let marks = marks_of(alloc, script, report)?;
    let turns = marks_of_turns(alloc, script, report.replies.as_slice())?;
    let found = marks.as_slice();
    let kept = turns.as_slice();
    Ok(first_out_of_place(script, report, found, kept))
}

fn first_out_of_place(
    script: &Script,
    report: &Report,
    marks: &[bool],
    kept: &[bool],
) -> Option<u64>
    requires marked { AreMarked script.now report.now marks.now }
    requires kept { AreKeptAtMarks script.now report.now.replies kept.now }
    ensures { IsFirstFault (right.refusals_clause script.now report.now) result }
{
    let count = commits(report);
    for (place, reply) in report.replies.as_slice().iter().enumerate() {
        let mark = mark_at(marks, place);
        let is_kept = mark_at(kept, place);
        let holds = is_in_place(script, report, reply, mark, is_kept, count);
        if !holds {
            return Some(place as u64 + 1);
        }
    }
    None
}

fn mark_at(marks: &[bool], place: usize) -> bool
    ensures { result ≡ slice_index_or marks.now place false }
{
    match marks.get(place) {
        Some(mark) => *mark,
        None => false,
    }
}

fn is_in_place(
    script: &Script,
    report: &Report,
    reply: &Reply,
    mark: bool,
    is_kept: bool,
    count: usize,
) -> bool
    requires kept { IsTrue is_kept → (at : ℕ) → refused_after reply.now.state ≡ Some at
        → AreNumbersKept script.now report.now.replies reply.now.request at }
    requires count { count ≡ lookups.commits report.now }
    ensures { result ≡ is_refusal_in_place script.now report.now reply.now.request reply.now.state mark }
{
    match &reply.state {
        ReplyState::Refused { at, .. } => {
            stands_among_commits(script, report, reply.request, *at, is_kept, count) && mark
        }
        _ => true,
    }
}

fn stands_among_commits(
    script: &Script,
    report: &Report,
    r: u32,
    at: u64,
    is_kept: bool,
    count: usize,
) -> bool
    requires kept { IsTrue is_kept → AreNumbersKept script.now report.now.replies r at }
    requires count { count ≡ lookups.commits report.now }
    ensures { result ≡ right.stands_among_commits script.now report.now r at }
{
    at <= count as u64 && are_numbers_kept(script, report.replies.as_slice(), r, at, is_kept)
}

fn are_numbers_kept(script: &Script, replies: &[Reply], r: u32, at: u64, is_kept: bool) -> bool
    requires { IsTrue is_kept → AreNumbersKept script.now replies.now r at }
    ensures { result ≡ list_all (λ (other : Reply). not (lookups.same_session script.now other.request r)
        || right.keeps_number at r other) replies.now }
{
    if is_kept {
        return true;
    }
    keeps_numbers(script, replies, r, at)
}

fn keeps_numbers(script: &Script, replies: &[Reply], r: u32, at: u64) -> bool
    ensures { result ≡ list_all (λ (other : Reply). not (lookups.same_session script.now other.request r)
        || right.keeps_number at r other) replies.now }
{
    replies.iter().all(|other| !same_session(script, other.request, r)
        || keeps_number(at, r, other))
}

fn keeps_number(at: u64, r: u32, other: &Reply) -> bool
    ensures { result ≡ right.keeps_number at r other.now }
{
    match number_of(&other.state) {
        Some(number) => {
            if other.request < r {
                number <= at
            } else {
                at < number
            }
        }
        None => true,
    }
}
