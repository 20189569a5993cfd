//! What a shard's lock begins with.
ghost use Rattle.std.specs.Prelude.{◌≡◌};

use chronicle::{Chronicle, Machine};
use lock_row::Bare;
use shard_node::Shard;
use std::snapshot::Snapshot;
use weave_entries::{GateDeed, OracleDeed, ShardDeed, StoreDeed};

/// A shard without its notes, the number of shards, and the names of the locks of the gatekeepers, of the store and of
/// the oracle, which take no memory.
#[derive(Drop)]
pub struct BareShard<G: Machine, S: Machine, O: Machine> {
    shard: Shard,
    shards: u32,
    gates: Snapshot<Vec<Chronicle<G>>>,
    store: Snapshot<Chronicle<S>>,
    oracle: Snapshot<Chronicle<O>>,
}

impl<G: Machine, S: Machine, O: Machine> Bare for BareShard<G, S, O> {
    type Entry = ShardDeed;

    type Context = ();

    ghost use Rattle.std.specs.Prelude.{map};
    ghost use Rattle.chronicle.specs.Locks.{lock_of, name_of};
    ghost use Rattle.lock_row.specs.Rows.{names_of};
    ghost use Rattle.seen_logs.specs.Entries.{shard_pair};
    ghost use Rattle.shard_lock.specs.Frames.{shard_frame};

    ghost frame = { λ b _ _. shard_frame b.shard.number b.shard.gates b.shards (name_of (lock_of b.store.value))
        (name_of (lock_of b.oracle.value)) (names_of b.gates.value.items) };

    ghost log = { λ b. map shard_pair b.shard.log };
}

impl<G, S, O> BareShard<G, S, O>
where
    G: Machine<Entry = GateDeed>,
    S: Machine<Entry = StoreDeed>,
    O: Machine<Entry = OracleDeed>,
{
    /// A shard with these locks.
    pub fn new(
        shard: Shard,
        shards: u32,
        gates: &Vec<Chronicle<G>>,
        store: &Chronicle<S>,
        oracle: &Chronicle<O>,
    ) -> BareShard<G, S, O>
        ensures shard { result.shard ≡ shard }
        ensures shards { result.shards ≡ shards }
        ensures gates { result.gates.value ≡ gates.now }
        ensures store { result.store.value ≡ store.now }
        ensures oracle { result.oracle.value ≡ oracle.now }
    {
        BareShard {
            shard,
            shards,
            gates: Snapshot::of(gates),
            store: Snapshot::of(store),
            oracle: Snapshot::of(oracle),
        }
    }

    /// The shard.
    pub fn into_shard(self) -> Shard
        ensures { result ≡ self.shard }
    {
        let BareShard { shard, .. } = self;
        shard
    }
}
