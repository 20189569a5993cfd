//! The laws of the crates below, in one.
ghost use Rattle.weaver_workers.specs.KeepLaws.{KeepLaws};

use session_stamp::laws::a_log_goes_on;
use weave_entries::laws::{begun_and_replied_are_decided, sessions_go_in_turn};
use weaver_hands::laws::{begun_programs_run, calls_leave_others_alone, programs_left_alone_go_on};
use weaver_locks::laws::{own_entries_of_each_log, what_was_not_begun_stays};

/// The laws of the crates below that a client's worker relies on.
pub(crate) fn workers_keep_their_laws()
    ensures { KeepLaws }
{
    a_log_goes_on();
    begun_programs_run();
    calls_leave_others_alone();
    own_entries_of_each_log();
    programs_left_alone_go_on();
    begun_and_replied_are_decided();
    sessions_go_in_turn();
    what_was_not_begun_stays();
}
