//! Hands get their passes, and each machine goes into its lock with its notes.
ghost use Rattle.std.specs.Prelude.{◌≡◌, ◌≤◌, ◌<◌, ℕ, IfOk, map, slice_index_or, vec_len};
ghost use Rattle.weaver_locks.specs.Closing.{MayStart};
ghost use Rattle.weaver_locks.specs.Noted.{AreFilled};
ghost use Rattle.weaver_locks.specs.Opened.{IsNewHand};
ghost use Rattle.weaver_locks.specs.OpenedFor.{IsOpenedFor};

use crate::dealing::deal_hands;
use crate::hand::Hand;
use crate::locks::Locks;
use crate::noting_all::{fill_all, note_all};
use crate::opened_locks::OpenedLocks;
use crate::opening_laws::new_locks_keep_their_laws;
use backing_store::Store;
use std::alloc::{AllocError, Global};
use timeline_oracle::Oracle;

/// Deals the passes to hands, gives each machine its notes of what the first hand has seen, and puts it into its lock.
pub(crate) fn fill_locks(
    alloc: Global,
    opened: OpenedLocks,
    store: Store,
    oracle: Oracle,
    hands: u32,
) -> Result<(Locks, Vec<Hand>), AllocError>
    requires hands { 1 ≤ hands }
    requires start { MayStart (map (λ b. b.gate) opened.gates.items) store oracle
        (map (λ b. b.shard) opened.shards.items) }
    requires opened { IsOpenedFor store oracle hands opened }
    ensures filled { IfOk result (λ r. AreFilled opened.locks r.0) }
    ensures count { IfOk result (λ r. vec_len r.1 ≡ hands) }
    ensures hands { IfOk result (λ r. (k : ℕ) (h : _) → k < hands
        → IsNewHand opened.locks k (slice_index_or r.1.items k h)) }
{
    new_locks_keep_their_laws();
    let OpenedLocks {
        mut locks,
        passes,
        places,
        gates,
        shards,
    } = opened;
    let count = shards.len() as u32;
    let mut dealt = deal_hands(alloc, &locks, passes, hands)?;
    let machines = note_all(
        alloc,
        gates,
        store,
        oracle,
        shards,
        count,
        &locks,
        &mut dealt[0],
    )?;
    fill_all(&mut locks, places, machines);
    Ok((locks, dealt))
}
