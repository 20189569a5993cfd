//! The laws of the crates below, in one.
ghost use Rattle.weaver_locks.specs.ClosingLaws.{ClosingLaws};

use chronicle::laws::own_entries_were_seen;
use seen_logs::laws::{accounts_have_logs_of_locks, entries_come_back};
use weave_entries::{GateDeed, OracleDeed, ShardDeed, StoreDeed};

// The laws of the crates below that closed logs rely on.
pub(crate) fn closed_logs_keep_their_laws()
    ensures { ClosingLaws }
{
    accounts_have_logs_of_locks();
    entries_come_back();
    own_entries_were_seen::<GateDeed>();
    own_entries_were_seen::<StoreDeed>();
    own_entries_were_seen::<OracleDeed>();
    own_entries_were_seen::<ShardDeed>();
}
