//! The laws of the crates below that a phase relies on, in one.
ghost use Rattle.weave_phase.specs.StartLaws.{StartLaws};

use crate::order::{
    closed_machines_are_parts, split_machines_are_in_order, split_shards_keep_the_rules,
};
use weave_account::laws::facts_stay_true;
use weave_entries::laws::sessions_go_in_turn;
use workers_account::laws::{
    closed_parts_can_be_joined, hands_of_a_phase_visit_their_own,
    sessions_run_as_their_workers_end, split_clients_are_ready, split_machines_may_start,
};

/// The laws that a phase relies on.
pub(crate) fn phases_keep_their_laws()
    ensures { StartLaws }
{
    closed_machines_are_parts();
    closed_parts_can_be_joined();
    facts_stay_true();
    hands_of_a_phase_visit_their_own();
    sessions_go_in_turn();
    sessions_run_as_their_workers_end();
    split_clients_are_ready();
    split_machines_are_in_order();
    split_machines_may_start();
    split_shards_keep_the_rules();
}
