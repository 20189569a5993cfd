//! The turns of all begun requests: the printed order of a report in which each of them may be listed.
ghost use Rattle.std.specs.Prelude.{◌≡◌, IfOk, map};
ghost use Rattle.weave_data.specs.Facts.{AllHold};
ghost use Rattle.report_rules.specs.RightReport.{replies_clause};
ghost use Rattle.report_rules.specs.PrintedOrder.{TakesAll, begun_requests};
ghost use Rattle.order_witness.specs.Begun.{NonePrecedesItself};
ghost use Rattle.run_judge.specs.Outlines as outlines;

use order_witness::order_of;
use program_defs::Script;
use report_rules::{Reply, ReplyState, Report};
use std::alloc::{AllocError, Global};
use weave_data::{Copied, Items};

/// The begun requests in turn, finished or not: again and again the one of the least home among those that no
/// remaining one precedes.
pub fn turns_of(alloc: Global, script: &Script, report: &Report) -> Result<Vec<u32>, AllocError>
    requires replies { AllHold (replies_clause script.now report.now) }
    requires acyclic { NonePrecedesItself report.now }
    ensures { IfOk result (λ turns. TakesAll report.now (begun_requests report.now) turns.items) }
{
    let outline = outline_of(alloc, report)?;
    let turns = order_of(alloc, script, &outline)?;
    Ok(turns)
}

// The stamps and the pairs of a report.
fn outline_of(alloc: Global, report: &Report) -> Result<Report, AllocError>
    ensures { IfOk result (λ made. made ≡ outlines.outline_of report.now) }
{
    let replies = outlines(alloc, report.replies.as_slice())?;
    let pairs = report.pairs.copy(alloc)?;
    Ok(Report {
        replies: Items::from_vec(replies),
        pairs,
        order: Items::new(alloc),
        answers: Items::new(alloc),
    })
}

fn outlines(alloc: Global, replies: &[Reply]) -> Result<Vec<Reply>, AllocError>
    ensures { IfOk result (λ made. made.items ≡ map outlines.outline replies.now) }
{
    replies
        .iter()
        .map(|reply| outline(alloc, reply))
        .collect(alloc)
}

fn outline(alloc: Global, reply: &Reply) -> Reply
    ensures { result ≡ outlines.outline reply.now }
{
    Reply {
        request: reply.request,
        stamp: reply.stamp,
        state: ReplyState::Committed {
            number: 0,
            answers: Items::new(alloc),
        },
    }
}
