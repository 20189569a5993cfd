//! The laws of the crates below that `load` relies on.
ghost use Rattle.weaver_top.specs.LoadLaws.{LoadLaws};

use program_defs::laws::plain_answer_is_one;
use step_rules::laws::steps_keep_the_core;
use weave_account::laws::{
    account_has_one_report, account_is_right, begun_stamps_are_coherent, facts_stay_true,
    replied_requests_are_final,
};

/// All laws of the crates below that what is promised of `load` relies on.
pub(crate) fn the_crates_below_keep_their_laws()
    ensures { LoadLaws }
{
    account_is_right();
    account_has_one_report();
    begun_stamps_are_coherent();
    facts_stay_true();
    plain_answer_is_one();
    replied_requests_are_final();
    steps_keep_the_core();
}
