//! What the machines of a core say of their logs.
ghost use Rattle.std.specs.Prelude.{ℕ, ◌<◌, length, slice_index_or};
ghost use Rattle.shard_node.specs.Shards.{ShardView};
ghost use Rattle.weave_entries.specs.ShardRules.{IsShardLog};
ghost use Rattle.weave_entries.specs.StoreRule.{IsStoreLog};

use backing_store::Store;
use shard_node::Shard;

/// The store's log keeps the rules.
pub(crate) fn shows_store(store: &Store)
    ensures { IsStoreLog store.now }
{
    let _log = store.log();
}

/// Each shard's log keeps the rules.
pub(crate) fn shows_shards(shards: &[Shard])
    ensures { (k : ℕ) (s : ShardView) → k < length shards.now
        → IsShardLog (slice_index_or shards.now k s).gates (slice_index_or shards.now k s).log }
{
    for shard in shards {
        shows_shard(shard);
    }
}

// The shard's log keeps the rules.
fn shows_shard(shard: &Shard)
    ensures { IsShardLog shard.now.gates shard.now.log }
{
    let _log = shard.log();
}
