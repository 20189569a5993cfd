//! The judge of what `run` promises of a right report.
ghost use Rattle.std.specs.Prelude.{IsTrue, IfOk};
ghost use Rattle.report_rules.specs.RightReport.{IsRightReport};
ghost use Rattle.order_witness.specs.Judgement.{IsFirstFault, has_numbered_operations};
ghost use Rattle.run_judge.specs.Meetings.{IsFirstMeeting};
ghost use Rattle.run_judge.specs.Phases.{IsFirstPhaseFault};
ghost use Rattle.run_judge.specs.Promises.{final_replies_clause, no_steps_clause, printed_order_clause};

use crate::ways::ways_of;
use crate::{finals, meetings, phases, printed};
use program_defs::Script;
use report_rules::Report;
use std::alloc::{AllocError, Global};
use weave_data::Name;

/// Two listed requests that meet at a vertex, neither of which precedes the other.
#[derive(Clone, Copy, PartialEq, Eq)]
pub struct Meeting {
    /// The place in the order, from 1, of the later request.
    pub place: u64,
    /// The earlier request: its place in the script, from 0.
    pub earlier: u32,
    /// A vertex at which they meet.
    pub vertex: Name,
}

/// How a reply doesn't keep the phases.
#[derive(Clone, Copy, PartialEq, Eq, Debug)]
pub enum PhasePart {
    /// The other request, of a later phase, precedes the reply's.
    Precedence,
    /// The other request is the newer one of the reply's conflict, and of another phase.
    Conflict,
    /// The other request, of an earlier phase, has a commit number that isn't below the reply's.
    Number,
    /// The reply is a commit. The other request, of an earlier phase, was refused after this commit.
    EarlierRefusal,
    /// The reply is a refusal. The other request, of an earlier phase, is a commit that it isn't after.
    Refusal,
}

/// A reply that doesn't keep the phases.
#[derive(Clone, Copy, PartialEq, Eq, Debug)]
pub struct PhaseFault {
    /// The reply line, from 1.
    pub place: u64,
    pub part: PhasePart,
    /// The other request: its place in the script, from 0.
    pub other: u32,
}

/// What a right report doesn't keep of what `run` promises beside the eight clauses: of each promise the first place at
/// which it fails, none if it is kept.
#[derive(Clone, Copy, PartialEq, Eq)]
pub struct RunFaults {
    /// The first place in the order, from 1, that isn't as in the printed order.
    pub order: Option<u64>,
    /// The first place in the order at which a request meets an earlier one without precedence.
    pub meetings: Option<Meeting>,
    /// The first reply line that doesn't keep the phases.
    pub phases: Option<PhaseFault>,
    /// The first reply line, from 1, that isn't final.
    pub replies: Option<u64>,
    /// The first answer of a step, from 1.
    pub steps: Option<u64>,
}

/// What the report doesn't keep of what `run` promises. The report must be right for the script, as `judge_report`
/// says, and each transaction must have fewer than 2^32 operations, as in every script that is read.
pub fn judge_run(alloc: Global, script: &Script, report: &Report) -> Result<RunFaults, AllocError>
    requires right { IsRightReport script.now report.now }
    requires numbered { IsTrue (has_numbered_operations script.now) }
    ensures order { IfOk result (λ faults. IsFirstFault (printed_order_clause report.now) faults.order) }
    ensures meetings { IfOk result (λ faults. IsFirstMeeting script.now report.now faults.meetings) }
    ensures phases { IfOk result (λ faults. IsFirstPhaseFault script.now report.now faults.phases) }
    ensures replies { IfOk result (λ faults. IsFirstFault (final_replies_clause report.now) faults.replies) }
    ensures steps { IfOk result (λ faults. IsFirstFault (no_steps_clause report.now) faults.steps) }
{
    let ways = ways_of(alloc, script, report)?;
    let order = printed::first_fault(alloc, report, ways.turns.as_slice())?;
    let meetings = meetings::first_fault(alloc, script, report, &ways)?;
    let phases = phases::first_fault(alloc, script, report, &ways)?;
    let replies = finals::first_open_reply(report);
    let steps = finals::first_answer(report);
    Ok(RunFaults {
        order,
        meetings,
        phases,
        replies,
        steps,
    })
}
