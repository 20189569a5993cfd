//! What follows from the definitions.
ghost use Rattle.std.specs.Prelude.{◌≡◌, ◌≢◌, ◌<◌, ℕ, List, length, map, Contains};
ghost use Rattle.vector_stamp.specs.declared.clock.Stamp.{Stamp};
ghost use Rattle.weave_entries.specs.declared.gate_log.GateDeed.TheVariants.{Finished};
ghost use Rattle.weave_entries.specs.declared.gate_log.GateEntry.{GateEntry};
ghost use Rattle.weave_entries.specs.declared.shard_log.ShardDeed.{ShardDeed};
ghost use Rattle.weave_entries.specs.declared.shard_log.ShardEntry.{ShardEntry};
ghost use Rattle.weave_entries.specs.GateReplay.{programs_of, running_of};
ghost use Rattle.shard_node.specs.Shards.{ShardView};
ghost use Rattle.weave_account.specs.declared.account.Account.{Account};
ghost use Rattle.weave_account.specs.Account.{gate_log, shard_log};
ghost use Rattle.seen_logs.specs.Seen.{AreLegal, ShardRefersWithin};
ghost use Rattle.chronicle.specs.Logs.{Log};
ghost use Rattle.shard_lock.specs.declared.notes.ShardNotes.{ShardNotes};
ghost use Rattle.seen_logs.specs.Entries.{shard_entries, shard_pair};
ghost use Rattle.shard_lock.specs.Notes.{ShardIsKept, seen_of_shard};

use crate::lower_laws::the_crates_below_keep_their_laws;

/// A shard's entries come back from the pairs that its lock has, and the pairs from the entries.
pub fn entries_come_back()
    ensures log { (log : List ShardEntry) → shard_entries (map shard_pair log) ≡ log }
    ensures pairs { (log : Log ShardDeed) → map shard_pair (shard_entries log) ≡ log }
{}

/// Notes that have seen whole logs are enough for a shard, if the logs are legal and have all that the shard's own log
/// refers to: those of an account, for example.
pub fn notes_of_whole_logs_are_enough()
    ensures { (shard : ShardView) (shards : ℕ) (notes : ShardNotes) (account : Account) → shard.number < shards
        → length notes.gates.items ≡ shard.gates → AreLegal shard.gates shards account
        → ShardRefersWithin shards account shard.number
        → ((k : ℕ) → gate_log (seen_of_shard shard notes) k ≡ gate_log account k)
        → (seen_of_shard shard notes).store ≡ account.store → (seen_of_shard shard notes).oracle ≡ account.oracle
        → shard.log ≡ shard_log account shard.number → ShardIsKept shard shards notes }
{
    the_crates_below_keep_their_laws();
}

/// A program that was begun is running, as far as its gatekeeper's log was seen, if its author hasn't finished it. So
/// only the author's own entries have to be known.
pub fn own_programs_are_running()
    ensures { (log : List GateEntry) (author request : ℕ) (stamp : Stamp)
        → Contains (programs_of log) (record { author = author; request = request; stamp = stamp })
        → ((entry : GateEntry) → Contains log entry → entry.author ≡ author → entry.deed ≢ Finished request)
        → Contains (running_of log) (record { author = author; request = request; stamp = stamp }) }
{}
