//! What the store's lock begins with.
ghost use Rattle.std.specs.Prelude.{◌≡◌, [], ◌∷◌, All, map, vec_len};
ghost use Rattle.std.specs.List.{range_with_len};
ghost use Rattle.chronicle.specs.Locks.{lock_of, name_of, LockStartsWith, IsVacant};
ghost use Rattle.chronicle.specs.Passes.{IsReady, IsUnopened, number_of, seen_by_pass};
ghost use Rattle.lock_row.specs.Rows.{names_of};
ghost use Rattle.seen_logs.specs.Entries.{store_pairs};

use crate::noted_store::NotedStore;
use backing_store::Store;
use chronicle::{Chronicle, Machine, Pass, Unopened, Vacant};
use oracle_lock::NotedOracle;
use std::snapshot::Snapshot;
use weave_entries::{GateDeed, StoreDeed};

/// The store without its notes, and the names of the locks of which it will keep notes.
#[derive(Drop)]
pub struct BareStore<'a, G: Machine> {
    pub store: &'a Store,
    /// The number of shards.
    pub shards: u32,
    pub gates: Snapshot<Vec<Chronicle<G>>>,
    pub oracle: Snapshot<Chronicle<NotedOracle>>,
}

impl<G: Machine<Entry = GateDeed>> Machine for BareStore<'_, G> {
    type Entry = StoreDeed;

    ghost use Rattle.std.specs.Prelude.{[], ◌∷◌};
    ghost use Rattle.chronicle.specs.Locks.{lock_of, name_of};
    ghost use Rattle.lock_row.specs.Rows.{names_of};
    ghost use Rattle.seen_logs.specs.Entries.{store_pairs};

    ghost frame = { λ b. (b.shards ∷ []) ∷ name_of (lock_of b.oracle.value) ∷ names_of b.gates.value.items };

    ghost log = { λ b. store_pairs b.store.now };
}

/// Opens the store's lock for notes of the oracle's lock, and of the locks of this row of gatekeepers.
pub fn open_store<G: Machine<Entry = GateDeed>>(
    lock: &mut Chronicle<NotedStore>,
    part: Unopened<NotedStore>,
    store: &Store,
    shards: u32,
    gates: Snapshot<Vec<Chronicle<G>>>,
    oracle: Snapshot<Chronicle<NotedOracle>>,
) -> (Vec<Pass<StoreDeed>>, Vacant<NotedStore>)
    requires { IsUnopened (lock_of lock.old) part }
    ensures name { name_of (lock_of lock.new) ≡ name_of (lock_of lock.old) }
    ensures lock { LockStartsWith (lock_of lock.new) (lock_of lock.old).passes
        ((shards ∷ []) ∷ name_of (lock_of oracle.value) ∷ names_of gates.value.items) (store_pairs store.now) }
    ensures count { vec_len result.0 ≡ (lock_of lock.old).passes }
    ensures numbers { map number_of result.0.items ≡ range_with_len 0 (lock_of lock.old).passes }
    ensures ready { All (IsReady (lock_of lock.new)) result.0.items }
    ensures seen { All (λ p. seen_by_pass p ≡ (lock_of lock.new).start) result.0.items }
    ensures vacant { IsVacant (lock_of lock.new) result.1 }
{
    let bare = BareStore {
        store,
        shards,
        gates,
        oracle,
    };
    lock.open(part, &bare)
}
