//! That a client's worker follows its session, as a contract without a body.
ghost use Rattle.std.specs.Prelude.{ℕ, List};
ghost use Rattle.program_defs.specs.declared.script.Script.{Script};
ghost use Rattle.program_defs.specs.Limits.{IsWithinLimits};
ghost use Rattle.weaver_locks.specs.declared.shared.Shared.{Shared};
ghost use Rattle.weaver_locks.specs.Following.{VisitsItsOwnPrograms};
ghost use Rattle.weaver_workers.specs.ClientWork.{Goes, Stand};
ghost use Rattle.weaver_workers.specs.Keeping.{AreLocksOf, KeepsClient};
ghost use Rattle.workers_account.specs.Followed.{IsFollowed};

use crate::in_step_laws::in_step_stands_on;
use crate::read_laws::hands_read_by_their_laws;
use crate::turn_laws::turns_keep_their_laws;

/// A client's worker follows its session: what it did and what the session's log says are in step, and each thing is as
/// the script asks it.
pub fn workers_follow_their_sessions()
    ensures { (shared : Shared) (script : Script) (number upto : ℕ) (from at : Stand) (path : List Stand)
        → IsWithinLimits script → AreLocksOf script shared → KeepsClient shared script number from.hand from.client
        → VisitsItsOwnPrograms shared from.hand → Goes shared script number upto from path at
        → IsFollowed shared script number upto from at }
{
    hands_read_by_their_laws();
    in_step_stands_on();
    turns_keep_their_laws();
}
