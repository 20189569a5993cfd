//! The laws of the crates below on gatekeepers, in one.
ghost use Rattle.weaver_locks.specs.GateLaws.{GateLaws};

use seen_logs::laws::{clocks_count_within, references_go_on};
use weave_account::laws::clocks_are_known;
use weave_entries::laws::{the_replay_goes_on, verdicts_count_what_is_named};

/// The laws of the crates below on gatekeepers.
pub(crate) fn gates_keep_their_laws()
    ensures { GateLaws }
{
    clocks_are_known();
    clocks_count_within();
    references_go_on();
    the_replay_goes_on();
    verdicts_count_what_is_named();
}
