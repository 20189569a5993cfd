//! What the oracle's lock begins with.
ghost use Rattle.std.specs.Prelude.{◌≡◌, [], ◌∷◌, All, map, vec_len};
ghost use Rattle.std.specs.List.{range_with_len};
ghost use Rattle.chronicle.specs.Locks.{lock_of, name_of, LockStartsWith, IsVacant};
ghost use Rattle.chronicle.specs.Passes.{IsReady, IsUnopened, number_of, seen_by_pass};
ghost use Rattle.lock_row.specs.Rows.{names_of};
ghost use Rattle.seen_logs.specs.Entries.{oracle_pairs};

use crate::noted_oracle::NotedOracle;
use chronicle::{Chronicle, Machine, Pass, Unopened, Vacant};
use std::snapshot::Snapshot;
use timeline_oracle::Oracle;
use weave_entries::{GateDeed, OracleDeed};

/// The oracle without its notes, and the names of the locks of which it will keep notes.
#[derive(Drop)]
pub struct BareOracle<'a, G: Machine> {
    pub oracle: &'a Oracle,
    /// The number of shards.
    pub shards: u32,
    pub gates: Snapshot<Vec<Chronicle<G>>>,
}

impl<G: Machine<Entry = GateDeed>> Machine for BareOracle<'_, G> {
    type Entry = OracleDeed;

    ghost use Rattle.std.specs.Prelude.{[], ◌∷◌};
    ghost use Rattle.lock_row.specs.Rows.{names_of};
    ghost use Rattle.seen_logs.specs.Entries.{oracle_pairs};

    ghost frame = { λ b. (b.shards ∷ []) ∷ names_of b.gates.value.items };

    ghost log = { λ b. oracle_pairs b.oracle.now };
}

/// Opens the oracle's lock for notes of the locks of this row of gatekeepers.
pub fn open_oracle<G: Machine<Entry = GateDeed>>(
    lock: &mut Chronicle<NotedOracle>,
    part: Unopened<NotedOracle>,
    oracle: &Oracle,
    shards: u32,
    gates: Snapshot<Vec<Chronicle<G>>>,
) -> (Vec<Pass<OracleDeed>>, Vacant<NotedOracle>)
    requires { IsUnopened (lock_of lock.old) part }
    ensures name { name_of (lock_of lock.new) ≡ name_of (lock_of lock.old) }
    ensures lock { LockStartsWith (lock_of lock.new) (lock_of lock.old).passes
        ((shards ∷ []) ∷ names_of gates.value.items) (oracle_pairs oracle.now) }
    ensures count { vec_len result.0 ≡ (lock_of lock.old).passes }
    ensures numbers { map number_of result.0.items ≡ range_with_len 0 (lock_of lock.old).passes }
    ensures ready { All (IsReady (lock_of lock.new)) result.0.items }
    ensures seen { All (λ p. seen_by_pass p ≡ (lock_of lock.new).start) result.0.items }
    ensures vacant { IsVacant (lock_of lock.new) result.1 }
{
    let bare = BareOracle {
        oracle,
        shards,
        gates,
    };
    lock.open(part, &bare)
}
