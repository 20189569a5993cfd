//! The laws of the crates below, in one.
ghost use Rattle.weaver_locks.specs.OpeningLaws.{OpeningLaws};

use seen_logs::laws::{beginnings_are_legal, entries_come_back, references_go_on};

// The laws of the crates below that new locks rely on.
pub(crate) fn new_locks_keep_their_laws()
    ensures { OpeningLaws }
{
    beginnings_are_legal();
    entries_come_back();
    gate_lock::laws::notes_of_whole_logs_are_enough();
    references_go_on();
    shard_lock::laws::notes_of_whole_logs_are_enough();
}
