//! The laws of the crates below, in one.
ghost use Rattle.seen_logs.specs.LowerLaws.{LawsForSeenLogs};

use vector_stamp::laws::counts_one_by_one;
use weave_account::laws::{
    accounts_were_seen, begun_stamps_are_coherent, clocks_are_known, facts_stay_true,
    stamps_are_begun, updates_are_commits,
};
use weave_entries::laws::{requests_end, stamps_are_its_own, the_replay_goes_on, updates_go_on};

/// The laws of the crates below that the laws of this crate rely on.
pub(crate) fn the_crates_below_keep_their_laws()
    ensures { LawsForSeenLogs }
{
    accounts_were_seen();
    begun_stamps_are_coherent();
    clocks_are_known();
    counts_one_by_one();
    facts_stay_true();
    requests_end();
    stamps_are_begun();
    stamps_are_its_own();
    the_replay_goes_on();
    updates_are_commits();
    updates_go_on();
}
