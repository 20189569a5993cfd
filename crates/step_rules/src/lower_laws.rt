//! The laws of the crates below, in one.
ghost use Rattle.step_rules.specs.LowerLaws.{LawsForSteps};
ghost use Rattle.step_rules.specs.FurtherLaws.{FurtherAccountLaws, ProgramLaws};

use graph_ops::laws::each_vertex_is_named_once;
use program_defs::laws::visits_go_on;
use vector_stamp::laws::{
    coherent_stamps_have_ids, counts_one_by_one, equality_is_decided, hearing_brings_order,
    more_pairs_more_precedence, precedence_is_decided, settling_puts_all_before,
    the_last_update_read_is_seen,
};
use weave_account::laws::{
    begun_stamps_are_coherent, clocks_are_known, empty_logs_are_an_account, facts_stay_true,
    judgements_are_of_requests, requests_end_or_go_on, requests_of_a_session_rise,
    sessions_follow_gatekeepers, stamps_are_begun, updates_are_commits,
};
use weave_entries::laws::{
    a_log_goes_on, an_oracle_log_goes_on, begun_and_replied_are_decided, channels_rise,
    requests_end, sessions_go_in_turn, stamps_are_its_own, stamps_rise, the_replay_goes_on,
    what_has_not_ended_goes_on,
};

/// The laws of the crates below that the law of steps relies on.
pub(crate) fn the_crates_below_keep_their_laws()
    ensures { LawsForSteps }
{
    a_log_goes_on();
    an_oracle_log_goes_on();
    begun_and_replied_are_decided();
    begun_stamps_are_coherent();
    channels_rise();
    clocks_are_known();
    coherent_stamps_have_ids();
    counts_one_by_one();
    each_vertex_is_named_once();
    empty_logs_are_an_account();
    equality_is_decided();
    facts_stay_true();
    hearing_brings_order();
    more_pairs_more_precedence();
    precedence_is_decided();
    requests_end();
    sessions_go_in_turn();
    settling_puts_all_before();
    stamps_are_its_own();
    stamps_rise();
    the_last_update_read_is_seen();
    the_replay_goes_on();
    updates_are_commits();
    what_has_not_ended_goes_on();
}

/// The laws of accounts on requests, clocks and reads that the law of steps relies on.
pub(crate) fn accounts_keep_their_laws()
    ensures { FurtherAccountLaws }
{
    begun_stamps_are_coherent();
    clocks_are_known();
    facts_stay_true();
    judgements_are_of_requests();
    requests_end_or_go_on();
    requests_of_a_session_rise();
    sessions_follow_gatekeepers();
    stamps_are_begun();
}

/// The law of programs that the law of steps relies on.
pub(crate) fn programs_keep_their_laws()
    ensures { ProgramLaws }
{
    visits_go_on();
}
