//! The laws of the crates below, in one.
ghost use Rattle.seen_logs.specs.LowerLaws.{LawsForSeenLogs};
ghost use Rattle.weaver_locks.specs.HandLaws.{HandLaws};
ghost use Rattle.weaver_hands.specs.ArrivalLaws.{ArrivalLaws};

use chronicle::laws::own_entries_were_seen;
use seen_logs::laws::{
    accounts_have_logs_of_locks, beginnings_are_legal, entries_come_back, hands_see_more,
};
use vector_stamp::laws::counts_one_by_one;
use weave_account::laws::{
    accounts_were_seen, begun_stamps_are_coherent, clocks_are_known, facts_stay_true,
    stamps_are_begun, updates_are_commits,
};
use weave_entries::laws::{
    arrivals_stay, channels_rise, requests_end, stamps_are_its_own, the_replay_goes_on,
    updates_go_on,
};
use weave_entries::{GateDeed, OracleDeed, ShardDeed, StoreDeed};

/// The laws of the crates below on messages that arrive.
pub(crate) fn arrivals_keep_their_laws()
    ensures { ArrivalLaws }
{
    arrivals_stay();
    channels_rise();
}

/// The laws of the crates below on what hands have seen.
pub(crate) fn hands_keep_their_laws()
    ensures { HandLaws }
{
    accounts_have_logs_of_locks();
    beginnings_are_legal();
    entries_come_back();
    hands_see_more();
    own_entries_were_seen::<GateDeed>();
    own_entries_were_seen::<StoreDeed>();
    own_entries_were_seen::<OracleDeed>();
    own_entries_were_seen::<ShardDeed>();
}

/// The laws of the crates below on logs that go on.
pub(crate) fn the_crates_below_keep_their_laws()
    ensures { LawsForSeenLogs }
{
    accounts_were_seen();
    begun_stamps_are_coherent();
    clocks_are_known();
    counts_one_by_one();
    facts_stay_true();
    requests_end();
    stamps_are_begun();
    stamps_are_its_own();
    the_replay_goes_on();
    updates_are_commits();
    updates_go_on();
}
