//! The reply of a program that has read all that it visits.
ghost use Rattle.std.specs.Prelude.{◌≡◌, is_some, IfOk};
ghost use Rattle.path_program.specs.AnyPrograms.{next_read};
ghost use Rattle.weaver_core.specs.Finishing.{IsOutcomeOf, IsReplyIfOver};
ghost use Rattle.weaver_core.specs.Visiting.{AsksForNextVisit};

use crate::walks::Running;
use node_program::NodeProgram;
use report_rules::{Reply, ReplyState};
use std::alloc::{AllocError, Global};

/// The reply with the answer of a program, if one is running and has no next vertex. The one error is out of memory.
pub(crate) fn outcome_of(
    alloc: Global,
    running: &Option<Running>,
) -> Result<Option<Reply>, AllocError>
    ensures { IfOk result (IsOutcomeOf running.now) }
{
    match running {
        Some(running) => outcome_if_over(alloc, running),
        None => Ok(None),
    }
}

fn outcome_if_over(alloc: Global, running: &Running) -> Result<Option<Reply>, AllocError>
    ensures { IfOk result (IsReplyIfOver running.now) }
{
    if is_going(running) {
        return Ok(None);
    }
    let answer = running.walk.outcome(alloc)?;
    Ok(Some(Reply {
        request: running.request,
        stamp: Some(running.stamp),
        state: ReplyState::Finished(answer),
    }))
}

// Whether the program has a next vertex.
fn is_going(running: &Running) -> bool
    ensures going { result ≡ is_some (next_read running.now.walk) }
    ensures asks { AsksForNextVisit running.now.walk }
{
    running.walk.next_vertex().is_some()
}
