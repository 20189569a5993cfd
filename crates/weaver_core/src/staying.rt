//! The laws by which what is kept of the programs stays as the logs say, in one.
ghost use Rattle.weaver_core.specs.Staying.{CoreLaws, StayLaws};

use step_rules::laws::steps_keep_the_core;
use weave_account::laws::{
    facts_stay_true, finished_exactly_if_replied, requests_of_a_session_rise,
};
use weave_entries::laws::{begun_and_replied_are_decided, requests_end, sessions_go_in_turn};

/// What is said of a program's begin, its reads and its end stays true while other logs go on, and each step leaves a
/// core.
pub(crate) fn what_stays()
    ensures stay { StayLaws }
    ensures core { CoreLaws }
{
    begun_and_replied_are_decided();
    facts_stay_true();
    finished_exactly_if_replied();
    requests_end();
    requests_of_a_session_rise();
    sessions_go_in_turn();
    steps_keep_the_core();
}
