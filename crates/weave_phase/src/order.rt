//! The machines of a split core are in the order in which locks are made for them, and machines in this order are parts
//! of a core.
ghost use Rattle.std.specs.Prelude.{◌≡◌, ℕ, ◌<◌, List, length, slice_get, slice_index_or, Some};
ghost use Rattle.gatekeeper.specs.Gates.{GateView};
ghost use Rattle.shard_node.specs.Shards.{ShardView};
ghost use Rattle.program_defs.specs.declared.script.Script.{Script};
ghost use Rattle.seen_logs.specs.Seen.{without_sessions};
ghost use Rattle.weave_account.specs.Account.{shard_log};
ghost use Rattle.weave_entries.specs.ShardRules.{IsShardLog};
ghost use Rattle.weaver_core.specs.declared.split.Split.{Split};
ghost use Rattle.weaver_core.specs.Splitting.{account_of, CanBeJoined, IsGateFor, IsShardFor};
ghost use Rattle.weaver_locks.specs.Closing.{logs_of, AreInOrder};

use weave_entries::laws::a_shard_log_goes_on;

/// Gatekeepers and shards of a split core are in their order.
pub(crate) fn split_machines_are_in_order()
    ensures order { (split : Split) → CanBeJoined split → AreInOrder split.gates.items split.shards.items }
    ensures logs { (split : Split) → CanBeJoined split
        → logs_of split.gates.items split.store split.oracle split.shards.items ≡ without_sessions (account_of split) }
    ensures counts { (split : Split) → CanBeJoined split
        → (length split.gates.items ≡ split.script.gates) × (length split.shards.items ≡ split.script.shards) }
{}

/// If the machines of a split core keep the rules of their logs, so do the logs of its account, for each number of a
/// shard.
pub(crate) fn split_shards_keep_the_rules()
    ensures { (split : Split) → CanBeJoined split
        → ((k : ℕ) (s : ShardView) → k < length split.shards.items
        → IsShardLog (slice_index_or split.shards.items k s).gates (slice_index_or split.shards.items k s).log)
        → (shard : ℕ) → IsShardLog split.script.gates (shard_log (account_of split) shard) }
{
    a_shard_log_goes_on();
    split_machines_are_in_order();
}

/// Gatekeepers and shards in their order, as many as the script has, are those of a core of the script.
pub(crate) fn closed_machines_are_parts()
    ensures { (script : Script) (gates : List GateView) (shards : List ShardView)
        → length gates ≡ script.gates → length shards ≡ script.shards → AreInOrder gates shards
        → ((home : ℕ) (gate : GateView) → slice_get gates home ≡ Some gate → IsGateFor script home gate)
        × ((number : ℕ) (shard : ShardView) → slice_get shards number ≡ Some shard → IsShardFor script number shard) }
{}
