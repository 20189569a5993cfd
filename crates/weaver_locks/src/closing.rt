//! The machines come out of their locks.
ghost use Rattle.std.specs.Prelude.{◌≡◌, ◌≤◌, ◌<◌, ℕ, map, vec_len, All, Contains};
ghost use Rattle.seen_logs.specs.Closed.{AreOfHands};
ghost use Rattle.seen_logs.specs.Seen.{AreLegal, IsWithin, VisitsOwnPrograms};
ghost use Rattle.weaver_locks.specs.ClosedLogs.{AreClosedLogs};
ghost use Rattle.weaver_locks.specs.Closing.{AreInOrder, AreEntriesOfHands, entries_by, logs_of, seen_by_number};
ghost use Rattle.weaver_locks.specs.Hands.{hand_number, made_by, seen_by, IsHand};
ghost use Rattle.weaver_locks.specs.Locks.{gate_count, hands_of, shard_count, start_of};

use crate::closed_rows::close_row;
use crate::closing_laws::closed_logs_keep_their_laws;
use crate::ends::{gates_without_notes, shards_without_notes};
use crate::hand::Hand;
use crate::rooms::gather;
use crate::shared::Shared;
use backing_store::Store;
use gatekeeper::Gate;
use shard_node::Shard;
use timeline_oracle::Oracle;

/// Machines that were behind locks, in the order in which they were put there.
#[derive(Drop)]
pub struct Closed {
    pub gates: Vec<Gate>,
    pub store: Store,
    pub oracle: Oracle,
    pub shards: Vec<Shard>,
}

impl Shared {
    /// Takes the machines out, since these are all the hands. It waits for nobody, and takes no memory.
    pub fn close(self, hands: Vec<Hand>) -> Closed
        requires each { All (IsHand self) hands.items }
        requires all { (number : ℕ) → number < hands_of self → Contains (map hand_number hands.items) number }
        requires count { vec_len hands ≤ hands_of self }
        ensures gates { vec_len result.gates ≡ gate_count self }
        ensures shards { vec_len result.shards ≡ shard_count self }
        ensures order { AreInOrder result.gates.items result.shards.items }
        ensures legal { AreLegal (gate_count self) (shard_count self)
            (logs_of result.gates.items result.store result.oracle result.shards.items) }
        ensures within { All (λ hand. IsWithin (seen_by hand)
            (logs_of result.gates.items result.store result.oracle result.shards.items)) hands.items }
        ensures entries { AreEntriesOfHands (hands_of self) (start_of self) (seen_by_number hands.items)
            (logs_of result.gates.items result.store result.oracle result.shards.items) }
        ensures of_hands { ((number : ℕ) → number < hands_of self
            → VisitsOwnPrograms number (start_of self) (seen_by_number hands.items number))
            → AreOfHands (shard_count self) (hands_of self) (start_of self) (seen_by_number hands.items)
            (logs_of result.gates.items result.store result.oracle result.shards.items) }
        ensures made { All (λ hand. entries_by (hand_number hand)
            (logs_of result.gates.items result.store result.oracle result.shards.items) ≡ made_by hand) hands.items }
    {
        close_all(self, hands)
    }
}

// What `close` does. What it says of the logs is one fact.
fn close_all(shared: Shared, hands: Vec<Hand>) -> Closed
    requires each { All (IsHand shared) hands.items }
    requires all { (number : ℕ) → number < hands_of shared → Contains (map hand_number hands.items) number }
    requires count { vec_len hands ≤ hands_of shared }
    ensures gates { vec_len result.gates ≡ gate_count shared }
    ensures shards { vec_len result.shards ≡ shard_count shared }
    ensures closed { AreClosedLogs shared hands.items result.gates.items result.store result.oracle
        result.shards.items }
{
    closed_logs_keep_their_laws();
    let Shared {
        gates,
        store,
        oracle,
        shards,
        mut rooms,
        ends,
    } = shared;
    gather(&mut rooms, hands);
    let noted_gates = close_row(gates, rooms.gates, ends.noted_gates);
    let noted_store = store.close(rooms.store);
    let noted_oracle = oracle.close(rooms.oracle);
    let noted_shards = close_row(shards, rooms.shards, ends.noted_shards);
    Closed {
        gates: gates_without_notes(noted_gates, ends.gates),
        store: noted_store.into_store(),
        oracle: noted_oracle.into_oracle(),
        shards: shards_without_notes(noted_shards, ends.shards),
    }
}
