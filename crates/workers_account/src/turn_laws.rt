//! The law of the crates below that begins in turn rely on.
ghost use Rattle.workers_account.specs.TurnLaws.{TurnLaws};

use weaver_locks::laws::own_entries_of_each_log;

/// In each log of a gatekeeper a hand made just the entries with its number that it has seen there.
pub(crate) fn turns_keep_their_laws()
    ensures { TurnLaws }
{
    own_entries_of_each_log();
}
