//! The laws of the crates below that a run by phases relies on, in one.
ghost use Rattle.weaver_top.specs.LowerLaws.{LawsForCommands};

use step_rules::laws::{start_is_a_core, steps_keep_the_core};
use weave_account::laws::{
    begun_stamps_are_coherent, facts_stay_true, finished_exactly_if_replied, requests_end_or_go_on,
};
use weave_entries::laws::{requests_end, what_has_not_ended_goes_on};

// What has its reply has ended, no two requests have the same stamp, and steps keep the core and let its logs go on.
pub(crate) fn the_crates_below_keep_their_laws()
    ensures { LawsForCommands }
{
    requests_end();
    what_has_not_ended_goes_on();
    requests_end_or_go_on();
    begun_stamps_are_coherent();
    facts_stay_true();
    finished_exactly_if_replied();
    steps_keep_the_core();
    start_is_a_core();
}
