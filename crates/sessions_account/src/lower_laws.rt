//! The laws of the crates below that this crate relies on, in one.
ghost use Rattle.sessions_account.specs.SessionsLaws.{SessionsLaws};

use graph_ops::laws::each_vertex_is_named_once;
use hands_account::laws::{
    closed_logs_are_an_account, closed_logs_go_on, last_stamps_are_those_of_sessions,
};
use program_defs::laws::visits_go_on;
use seen_logs::laws::programs_read_what_was_seen;
use weave_account::laws::{
    begun_stamps_are_coherent, facts_stay_true, requests_end_or_go_on, requests_of_a_session_rise,
};
use weave_entries::laws::{
    begun_and_replied_are_decided, requests_end, sessions_go_in_turn, what_has_not_ended_goes_on,
};
use weaver_hands::laws::{
    calls_leave_others_alone, hands_visit_their_own_programs, own_reads_were_seen,
    programs_left_alone_go_on,
};
use weaver_locks::laws::{
    hands_are_found_by_number, own_entries_are_those_seen, own_entries_of_each_log,
    visits_stay_of_own_programs,
};
use weaver_workers::laws::hands_go_on;
use workers_account::laws::split_clients_are_ready;
use workers_account::session_laws::workers_follow_their_sessions;

/// The laws of the crates below that this crate relies on.
pub(crate) fn sessions_keep_their_laws()
    ensures { SessionsLaws }
{
    begun_and_replied_are_decided();
    begun_stamps_are_coherent();
    calls_leave_others_alone();
    closed_logs_are_an_account();
    closed_logs_go_on();
    each_vertex_is_named_once();
    facts_stay_true();
    hands_are_found_by_number();
    hands_go_on();
    hands_visit_their_own_programs();
    last_stamps_are_those_of_sessions();
    own_entries_are_those_seen();
    own_entries_of_each_log();
    own_reads_were_seen();
    programs_left_alone_go_on();
    programs_read_what_was_seen();
    requests_end();
    requests_end_or_go_on();
    requests_of_a_session_rise();
    sessions_go_in_turn();
    split_clients_are_ready();
    visits_go_on();
    visits_stay_of_own_programs();
    what_has_not_ended_goes_on();
    workers_follow_their_sessions();
}
