//! What follows for an oracle with notes, as contracts over the logs alone.
ghost use Rattle.std.specs.Prelude.{◌≡◌, ◌≤◌, ◌∷◌, ◌++◌, ℕ, List, map, length, Contains};
ghost use Rattle.weave_data.specs.Limits.{most_gates};
ghost use Rattle.vector_stamp.specs.declared.clock.Stamp.{Stamp};
ghost use Rattle.vector_stamp.specs.Coherence.{AreCoherent};
ghost use Rattle.vector_stamp.specs.Settling.{SettledEntry};
ghost use Rattle.order_graph.specs.Building.{ends_of};
ghost use Rattle.weave_entries.specs.declared.gate_log.GateEntry.{GateEntry};
ghost use Rattle.weave_entries.specs.declared.oracle_log.OracleEntry.{OracleEntry};
ghost use Rattle.weave_entries.specs.OracleReplay.{oracle_entry_of, pairs_of_log, settled_entry};
ghost use Rattle.weave_entries.specs.OracleRules.{IsOracleLog};
ghost use Rattle.weave_account.specs.Account.{IsBegunStamp};
ghost use Rattle.seen_logs.specs.Entries.{oracle_entries, oracle_pairs};
ghost use Rattle.oracle_lock.specs.Seen.{of_gates, oracle_seen, OracleIsKept};

use order_graph::laws::ends_are_of_pairs;
use vector_stamp::laws::parts_and_unions_are_coherent;
use weave_account::laws::begun_stamps_are_coherent;
use weave_entries::laws::oracle_entries_are_a_judges;

/// An oracle's log goes on by entries of events that were begun in what was seen of the gatekeepers' logs. Then all
/// that its entries refer to is still seen.
pub fn settling_keeps()
    ensures log { (before after : List OracleEntry) (entries : List SettledEntry)
        → map settled_entry after ≡ map settled_entry before ++ entries
        → after ≡ before ++ map oracle_entry_of entries }
    ensures kept { (shards : ℕ) (gates : List (List GateEntry)) (before after : List OracleEntry)
        (entries : List SettledEntry) → OracleIsKept shards gates before
        → map settled_entry after ≡ map settled_entry before ++ entries → IsOracleLog after
        → ((entry : SettledEntry) (event : Stamp) → Contains entries entry
        → Contains (entry.later ∷ entry.earlier) event → IsBegunStamp (of_gates gates) event)
        → OracleIsKept shards gates after }
{
    oracle_entries_are_a_judges();
}

/// The events that the oracle knows were begun in what it has seen of the gatekeepers' logs. With others that were
/// begun there they are coherent.
pub fn known_events_are_begun()
    ensures begun { (shards : ℕ) (gates : List (List GateEntry)) (log : List OracleEntry)
        → OracleIsKept shards gates log → (event : Stamp) → Contains (ends_of (pairs_of_log log)) event
        → IsBegunStamp (of_gates gates) event }
    ensures coherent { (shards : ℕ) (gates : List (List GateEntry)) (log : List OracleEntry) (events : List Stamp)
        → OracleIsKept shards gates log → length gates ≤ most_gates
        → ((event : Stamp) → Contains events event → IsBegunStamp (of_gates gates) event)
        → AreCoherent (events ++ ends_of (pairs_of_log log)) }
{
    ends_are_of_pairs();
    begun_stamps_are_coherent();
    parts_and_unions_are_coherent();
}

/// The oracle's entries come back from the pairs that its lock has.
pub fn pairs_tell_entries()
    ensures { (log : List OracleEntry) → oracle_entries (oracle_pairs log) ≡ log }
{}
