//! The finish of a program.
ghost use Rattle.std.specs.Prelude.{◌≡◌, List, None};
ghost use Rattle.weave_data.specs.declared.name.Name.{Name};
ghost use Rattle.graph_ops.specs.Operations.{State};
ghost use Rattle.program_defs.specs.Visits.{next_visit};
ghost use Rattle.path_program.specs.AnyPrograms.{any_of, next_read, HasRead};
ghost use Rattle.weaver_locks.specs.Hands.{IsHand};
ghost use Rattle.weaver_locks.specs.Locks.{shard_count};
ghost use Rattle.weaver_hands.specs.Programs.{FinishesAs, IsRunning};

use crate::fault::{HandFault, out_of_memory};
use crate::lower_laws::hands_keep_their_laws;
use node_program::NodeProgram;
use path_program::AnyProgram;
use program_defs::Answer;
use program_defs::laws::order_of_reads_is_free;
use shard_lock::laws::own_programs_are_running;
use std::alloc::Global;
use std::sync::Wait;
use weaver_core::Running;
use weaver_locks::{Hand, Shared};

/// Finishes a program of the hand that is running, and has read all that it visits, at its gatekeeper. It gives its
/// answer. It may wait.
pub fn finish<R: Wait>(
    rt: &R,
    alloc: Global,
    hand: &mut Hand,
    shared: &Shared,
    running: &Running,
) -> Result<Answer, HandFault>
    requires hand { IsHand shared.now hand.old }
    requires over { next_read running.now.walk ≡ None }
    requires running { IsRunning shared.now hand.old running.now }
    ensures hand { IsHand shared.now hand.new }
    ensures done { FinishesAs (shard_count shared.now) hand.old hand.new running.now result }
{
    hands_keep_their_laws();
    order_of_reads_is_free();
    own_programs_are_running();
    shows_its_next(&running.walk);
    let answer = running.walk.outcome(alloc)?;
    match shared.finish(rt, alloc, hand, running.stamp.home, running.request) {
        Ok(()) => Ok(answer),
        Err(fault) => Err(out_of_memory(fault)),
    }
}

// A walk's next vertex is the next visit after what it has read.
fn shows_its_next(walk: &AnyProgram)
    ensures { (reads : List (Name × State)) → HasRead walk.now reads
        → next_read walk.now ≡ next_visit reads (any_of walk.now) }
{
    let _next = walk.next_vertex();
}
