//! The laws that the account of a phase relies on, in one.
ghost use Rattle.weaver_core.specs.Staying.{StayLaws};
ghost use Rattle.workers_account.specs.PhaseLaws.{PhaseLaws};

use crate::session_laws::workers_follow_their_sessions;
use hands_account::laws::{
    closed_logs_are_an_account, closed_logs_go_on, last_stamps_are_those_of_sessions,
};
use seen_logs::laws::programs_read_what_was_seen;
use weave_account::laws::{
    begun_stamps_are_coherent, facts_stay_true, finished_exactly_if_replied, requests_end_or_go_on,
    requests_of_a_session_rise,
};
use weave_entries::laws::{
    begun_and_replied_are_decided, requests_end, sessions_go_in_turn, what_has_not_ended_goes_on,
};
use weaver_hands::laws::{hands_visit_their_own_programs, own_reads_were_seen};
use weaver_locks::laws::{
    hands_are_found_by_number, own_entries_are_those_seen, own_entries_of_each_log,
    visits_stay_of_own_programs,
};

/// The laws that the account of a phase relies on.
pub(crate) fn phases_keep_their_laws()
    ensures { PhaseLaws }
{
    begun_and_replied_are_decided();
    begun_stamps_are_coherent();
    closed_logs_are_an_account();
    closed_logs_go_on();
    facts_stay_true();
    hands_are_found_by_number();
    hands_visit_their_own_programs();
    last_stamps_are_those_of_sessions();
    own_entries_are_those_seen();
    own_entries_of_each_log();
    own_reads_were_seen();
    programs_read_what_was_seen();
    requests_end();
    requests_end_or_go_on();
    requests_of_a_session_rise();
    sessions_go_in_turn();
    visits_stay_of_own_programs();
    what_has_not_ended_goes_on();
    workers_follow_their_sessions();
}

/// The laws by which a session's values stay those of its log while other logs go on.
pub(crate) fn values_stay_by_their_laws()
    ensures { StayLaws }
{
    begun_and_replied_are_decided();
    facts_stay_true();
    finished_exactly_if_replied();
    requests_end();
    requests_of_a_session_rise();
    sessions_go_in_turn();
}
