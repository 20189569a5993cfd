//! What follows for a store with notes, as a contract over the logs alone.
ghost use Rattle.std.specs.Prelude.{◌≡◌, ◌≢◌, ◌≤◌, ℕ, List, length, All, Contains};
ghost use Rattle.weave_data.specs.Limits.{most_gates};
ghost use Rattle.vector_stamp.specs.declared.clock.Stamp.{Stamp};
ghost use Rattle.vector_stamp.specs.Order.{id_of};
ghost use Rattle.weave_entries.specs.declared.gate_log.GateEntry.{GateEntry};
ghost use Rattle.weave_entries.specs.declared.oracle_log.OracleEntry.{OracleEntry};
ghost use Rattle.weave_entries.specs.declared.store_log.StoreEntry.{StoreEntry};
ghost use Rattle.weave_entries.specs.StoreReplay.{Judgement, judgements_of};
ghost use Rattle.backing_store.specs.Commits.{stamps_judged};
ghost use Rattle.seen_logs.specs.Entries.{store_entries, store_pairs};
ghost use Rattle.store_lock.specs.Seen.{IsBegunTx, StoreIsKept};

use weave_account::laws::begun_stamps_are_coherent;

/// A transaction that was begun in what the store's notes have seen has a new stamp, if its author has judged no
/// transaction of its request. So only the author's own entries have to be known.
pub fn own_transactions_are_new()
    ensures { (shards : ℕ) (gates : List (List GateEntry)) (oracle : List OracleEntry) (log : List StoreEntry)
        (author request : ℕ) (stamp : Stamp) → StoreIsKept shards gates oracle log → length gates ≤ most_gates
        → IsBegunTx gates author request stamp
        → ((judged : Judgement) → Contains (judgements_of log) judged → judged.author ≡ author
        → judged.request ≢ request)
        → All (λ (judged : Stamp). id_of judged ≢ id_of stamp) (stamps_judged log) }
{
    begun_stamps_are_coherent();
}

/// The store's entries come back from the pairs that its lock has.
pub fn pairs_tell_entries()
    ensures { (log : List StoreEntry) → store_entries (store_pairs log) ≡ log }
{}
