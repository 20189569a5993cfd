//! The law of the crates below that hands and sessions in step rely on.
ghost use Rattle.workers_account.specs.InStepLaws.{InStepLaws};

use weave_entries::laws::sessions_go_in_turn;

/// The law of the crates below that hands and sessions in step rely on.
pub(crate) fn in_step_stands_on()
    ensures { InStepLaws }
{
    sessions_go_in_turn();
}
