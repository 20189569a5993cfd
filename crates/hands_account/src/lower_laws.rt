//! The laws of the crates below, in one.
ghost use Rattle.hands_account.specs.LowerLaws.{LawsForHands};

use seen_logs::laws::{
    begun_programs_are_enough, closed_logs_refer_within, logs_make_an_account,
    programs_read_what_was_seen,
};
use weave_account::laws::{
    facts_stay_true, judgements_are_of_requests, requests_end_or_go_on, requests_of_a_session_rise,
};
use weave_entries::laws::{begun_and_replied_are_decided, requests_end, sessions_go_in_turn};

/// The laws of the crates below that the laws of this crate rely on.
pub(crate) fn the_crates_below_keep_their_laws()
    ensures { LawsForHands }
{
    begun_and_replied_are_decided();
    begun_programs_are_enough();
    closed_logs_refer_within();
    facts_stay_true();
    judgements_are_of_requests();
    logs_make_an_account();
    programs_read_what_was_seen();
    requests_end();
    requests_end_or_go_on();
    requests_of_a_session_rise();
    sessions_go_in_turn();
}
