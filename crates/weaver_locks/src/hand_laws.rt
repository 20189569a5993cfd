//! The laws of the crates below on what hands have seen, in one.
ghost use Rattle.weaver_locks.specs.HandLaws.{HandLaws};

use chronicle::laws::own_entries_were_seen;
use seen_logs::laws::{
    accounts_have_logs_of_locks, beginnings_are_legal, entries_come_back, hands_see_more,
};
use weave_entries::{GateDeed, OracleDeed, ShardDeed, StoreDeed};

/// The laws of the crates below on what hands have seen.
pub(crate) fn hands_keep_their_laws()
    ensures { HandLaws }
{
    accounts_have_logs_of_locks();
    beginnings_are_legal();
    entries_come_back();
    hands_see_more();
    own_entries_were_seen::<GateDeed>();
    own_entries_were_seen::<StoreDeed>();
    own_entries_were_seen::<OracleDeed>();
    own_entries_were_seen::<ShardDeed>();
}
