//! The laws of the crates below that driving relies on, in one.
ghost use Rattle.weave_drive.specs.LowerLaws.{LawsForDriving};

use drive_rules::laws::{
    known_clocks_may_be_heard, messages_arrive_as_sent, no_shard_is_stuck, programs_read_few,
    readiness_stays, reads_stay,
};
use step_rules::laws::steps_keep_the_core;
use weave_account::laws::{facts_stay_true, requests_end_or_go_on};

// What was sent arrives as it was, no shard is stuck, a nudged shard is ready for good, and a program reads few
// vertices.
pub(crate) fn the_crates_below_keep_their_laws()
    ensures { LawsForDriving }
{
    steps_keep_the_core();
    messages_arrive_as_sent();
    no_shard_is_stuck();
    known_clocks_may_be_heard();
    readiness_stays();
    programs_read_few();
    reads_stay();
    requests_end_or_go_on();
    facts_stay_true();
}
