//! The laws of the crates below, in one.
ghost use Rattle.drive_rules.specs.LowerLaws.{LawsForReadiness};

use graph_ops::laws::each_vertex_is_named_once;
use step_rules::laws::steps_keep_the_core;
use vector_stamp::laws::{
    clocks_are_ordered, hearing_brings_order, precedence_is_decided, stamps_are_ordered, ticks_rise,
};
use weave_account::laws::{
    accounts_were_seen, begun_stamps_are_coherent, clocks_are_known, commits_are_on_the_way,
    commits_are_ordered, facts_stay_true, judgements_are_of_requests, messages_can_be_taken,
    updates_are_commits,
};
use weave_entries::laws::{
    arrivals_stay, channels_rise, stamps_are_its_own, stamps_rise, the_shard_replay_goes_on,
    the_store_replay_goes_on, updates_go_on,
};

/// The laws of the crates below that the laws of this crate rely on.
pub(crate) fn the_crates_below_keep_their_laws()
    ensures { LawsForReadiness }
{
    accounts_were_seen();
    arrivals_stay();
    begun_stamps_are_coherent();
    channels_rise();
    clocks_are_known();
    clocks_are_ordered();
    commits_are_on_the_way();
    commits_are_ordered();
    each_vertex_is_named_once();
    facts_stay_true();
    hearing_brings_order();
    judgements_are_of_requests();
    messages_can_be_taken();
    precedence_is_decided();
    stamps_are_its_own();
    stamps_are_ordered();
    stamps_rise();
    steps_keep_the_core();
    the_shard_replay_goes_on();
    the_store_replay_goes_on();
    ticks_rise();
    updates_are_commits();
    updates_go_on();
}
