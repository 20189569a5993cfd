//! What follows from the definitions, as contracts without a body.
ghost use Rattle.std.specs.Prelude.{◌≡◌, ◌≢◌, ◌<◌, ◌≤◌, ◌==◌, ℕ, slice_index_or, List, [], ◌∷◌, length, map, All, Contains, Ok};
ghost use Rattle.std.specs.List.{filter};
ghost use Rattle.weave_data.specs.Limits.{most_gates, most_shards};
ghost use Rattle.graph_ops.specs.declared.op.Op.{Op};
ghost use Rattle.vector_stamp.specs.declared.clock.Stamp.{Stamp};
ghost use Rattle.weave_entries.specs.declared.gate_log.GateDeed.{GateDeed};
ghost use Rattle.weave_entries.specs.declared.gate_log.GateEntry.{GateEntry};
ghost use Rattle.weave_entries.specs.declared.oracle_log.OracleEntry.{OracleEntry};
ghost use Rattle.weave_entries.specs.declared.shard_log.ShardEntry.{ShardEntry};
ghost use Rattle.weave_entries.specs.declared.store_log.StoreEntry.{StoreEntry};
ghost use Rattle.weave_entries.specs.declared.verdict.Verdict.{Verdict};
ghost use Rattle.weave_entries.specs.GateReplay.{BegunRequest, begun_by, programs_of, running_of};
ghost use Rattle.weave_account.specs.declared.account.Account.{Account};
ghost use Rattle.weave_account.specs.Account.{gate_log, shard_log};
ghost use Rattle.weave_account.specs.Clocks.{IsKnown};
ghost use Rattle.seen_logs.specs.Seen.{IsWithin, VisitsItsOwn, VisitsOwnPrograms};
ghost use Rattle.weaver_locks.specs.declared.hand.Hand.{Hand};
ghost use Rattle.weaver_locks.specs.declared.shared.Shared.{Shared};
ghost use Rattle.gatekeeper.specs.Gates.{GateView};
ghost use Rattle.shard_node.specs.Shards.{ShardView};
ghost use Rattle.weaver_locks.specs.Closing.{entries_by, seen_by_number, AreInOrder, MayStart};
ghost use Rattle.weaver_locks.specs.Following.{HasBegunProgram, HasNotBegun, IsInFlight, MayHear, MayJudge, VisitsItsOwnPrograms};
ghost use Rattle.weaver_locks.specs.GateHolds.{gate_entry_by, MaySend, WasAtGate};
ghost use Rattle.weaver_locks.specs.Locks.{hands_of, shard_count, start_of};
ghost use Rattle.weaver_locks.specs.Hands.{hand_number, made_by, seen_by, with_gate_entries, IsHand};
ghost use Rattle.weaver_locks.specs.ShardHolds.{WasAtShard};
ghost use Rattle.weaver_locks.specs.StoreHolds.{JudgesIn};

use crate::gate_laws::gates_keep_their_laws;
use crate::hand_laws::hands_keep_their_laws;
use seen_logs::laws::{more_is_seen, own_visits_stay};
use weave_account::laws::begun_stamps_are_coherent;
use weave_entries::laws::{
    a_log_goes_on, a_shard_log_goes_on, a_store_log_goes_on, an_oracle_log_goes_on,
};

/// What a hand has just begun may be judged, and is in flight. What it has then had judged may be sent.
pub fn calls_follow_each_other()
    ensures judge { (shared : Shared) (old new : Hand) (gate request : ℕ) (stamp : Stamp) (before : List GateEntry)
        → IsHand shared old → IsHand shared new → HasNotBegun old request
        → WasAtGate (shard_count shared) old new gate before
        (gate_entry_by old (GateDeed.BeganTx request stamp) ∷ []) → MayJudge new request stamp }
    ensures flies { (shared : Shared) (old new : Hand) (gate request : ℕ) (stamp : Stamp) (before : List GateEntry)
        → IsHand shared old → IsHand shared new → HasNotBegun old request
        → WasAtGate (shard_count shared) old new gate before
        (gate_entry_by old (GateDeed.BeganTx request stamp) ∷ []) → IsInFlight new gate request stamp }
    ensures send { (shared : Shared) (old new : Hand) (gate request : ℕ) (stamp : Stamp) (ops : List Op)
        (verdict : Verdict) → IsHand shared old → IsHand shared new → IsInFlight old gate request stamp
        → JudgesIn old new request stamp ops (Ok verdict) → MaySend (seen_by new) (hand_number new) gate ops verdict }
{
    begun_stamps_are_coherent();
    gates_keep_their_laws();
    hands_keep_their_laws();
}

/// A hand has not begun a request that it had not begun before, unless it was the one that this call began.
pub fn what_was_not_begun_stays()
    ensures gate { (old new : Hand) (gate : ℕ) (added : List GateEntry)
        → made_by new ≡ with_gate_entries gate added (made_by old) → (r : ℕ)
        → ((entry : GateEntry) (begun : BegunRequest) → Contains added entry
        → Contains (begun_by entry.author entry.deed) begun → begun.request ≢ r)
        → HasNotBegun old r → HasNotBegun new r }
    ensures others { (old new : Hand) → (made_by new).gates ≡ (made_by old).gates
        → (r : ℕ) → HasNotBegun old r → HasNotBegun new r }
{}

/// A hand may let a gatekeeper hear the stamp of a request that it began, or that was begun at the start.
pub fn begun_stamps_may_be_heard()
    ensures { (shared : Shared) (hand : Hand) (stamp : Stamp) → IsHand shared hand → MayHear shared hand stamp
        → IsKnown (seen_by hand) stamp.clock }
{
    hands_keep_their_laws();
}

/// A hand's transaction in flight and its running programs stay so while it makes no entry at a gatekeeper, and what it
/// may have judged stays so while it makes none at the store.
pub fn what_was_begun_goes_on()
    ensures flight { (shared : Shared) (old new : Hand) → IsHand shared old → IsHand shared new
        → hand_number new ≡ hand_number old → (made_by new).gates ≡ (made_by old).gates
        → IsWithin (seen_by old) (seen_by new) → (gate request : ℕ) (stamp : Stamp)
        → IsInFlight old gate request stamp → IsInFlight new gate request stamp }
    ensures program { (shared : Shared) (old new : Hand) → IsHand shared old → IsHand shared new
        → hand_number new ≡ hand_number old → (made_by new).gates ≡ (made_by old).gates
        → IsWithin (seen_by old) (seen_by new) → (home request : ℕ) (stamp : Stamp)
        → Contains (running_of (gate_log (seen_by old) home))
        (record { author = hand_number old; request = request; stamp = stamp })
        → Contains (running_of (gate_log (seen_by new) home))
        (record { author = hand_number new; request = request; stamp = stamp }) }
    ensures judge { (old new : Hand) → hand_number new ≡ hand_number old → (made_by new).store ≡ (made_by old).store
        → IsWithin (seen_by old) (seen_by new) → (request : ℕ) (stamp : Stamp)
        → MayJudge old request stamp → MayJudge new request stamp }
{
    gates_keep_their_laws();
    hands_keep_their_laws();
}

/// A hand may let a gatekeeper hear the stamp of what it has just begun, and goes on to be allowed to.
pub fn what_was_begun_may_be_heard()
    ensures begun { (shared : Shared) (old new : Hand) (gate : ℕ) (before : List GateEntry) (deed : GateDeed)
        → (begun : BegunRequest) → IsHand shared new
        → WasAtGate (shard_count shared) old new gate before (gate_entry_by old deed ∷ [])
        → Contains (begun_by (hand_number old) deed) begun → MayHear shared new begun.stamp }
    ensures gate { (shared : Shared) (old new : Hand) (gate : ℕ) (added : List GateEntry)
        → made_by new ≡ with_gate_entries gate added (made_by old)
        → (stamp : Stamp) → MayHear shared old stamp → MayHear shared new stamp }
    ensures others { (shared : Shared) (old new : Hand) → (made_by new).gates ≡ (made_by old).gates
        → (stamp : Stamp) → MayHear shared old stamp → MayHear shared new stamp }
{
    hands_keep_their_laws();
}

/// What a hand made is what has its number among what it has seen.
pub fn own_entries_are_those_seen()
    ensures { (shared : Shared) (hand : Hand) → IsHand shared hand
        → made_by hand ≡ entries_by (hand_number hand) (seen_by hand) }
{}

/// In each log of a gatekeeper or a shard a hand made just the entries with its number that it has seen there.
pub fn own_entries_of_each_log()
    ensures gate { (shared : Shared) (hand : Hand) → IsHand shared hand → (home : ℕ) → gate_log (made_by hand) home
        ≡ filter (λ (entry : GateEntry). entry.author == hand_number hand) (gate_log (seen_by hand) home) }
    ensures shard { (shared : Shared) (hand : Hand) → IsHand shared hand → (shard : ℕ) → shard_log (made_by hand) shard
        ≡ filter (λ (entry : ShardEntry). entry.author == hand_number hand) (shard_log (seen_by hand) shard) }
{}

/// After the locks were closed, each entry with a hand's number that another hand has seen is one that this hand made.
/// While a run goes on a hand's value of an earlier time lacks what others may have seen later.
pub fn seen_entries_are_their_authors()
    ensures gate { (one other : Hand) (closed : Account) → IsWithin (seen_by other) closed
        → entries_by (hand_number one) closed ≡ made_by one → (home : ℕ) (entry : GateEntry)
        → Contains (gate_log (seen_by other) home) entry → entry.author ≡ hand_number one
        → Contains (gate_log (made_by one) home) entry }
    ensures store { (one other : Hand) (closed : Account) → IsWithin (seen_by other) closed
        → entries_by (hand_number one) closed ≡ made_by one → (entry : StoreEntry)
        → Contains (seen_by other).store entry → entry.author ≡ hand_number one → Contains (made_by one).store entry }
    ensures oracle { (one other : Hand) (closed : Account) → IsWithin (seen_by other) closed
        → entries_by (hand_number one) closed ≡ made_by one → (entry : OracleEntry)
        → Contains (seen_by other).oracle entry → entry.author ≡ hand_number one → Contains (made_by one).oracle entry }
    ensures shard { (one other : Hand) (closed : Account) → IsWithin (seen_by other) closed
        → entries_by (hand_number one) closed ≡ made_by one → (shard : ℕ) (entry : ShardEntry)
        → Contains (shard_log (seen_by other) shard) entry → entry.author ≡ hand_number one
        → Contains (shard_log (made_by one) shard) entry }
{}

/// What the hand with a number has seen is what one of the hands with this number has. So if hands visit their own
/// programs, this holds by their numbers too, which is what the closed logs need.
pub fn hands_are_found_by_number()
    ensures found { (hands : List Hand) (number : ℕ) → Contains (map hand_number hands) number → (hand : Hand)
        × Contains hands hand × (hand_number hand ≡ number) × (seen_by_number hands number ≡ seen_by hand) }
    ensures own { (shared : Shared) (hands : List Hand)
        → ((number : ℕ) → number < hands_of shared → Contains (map hand_number hands) number)
        → All (VisitsItsOwnPrograms shared) hands → (number : ℕ) → number < hands_of shared
        → VisitsOwnPrograms number (start_of shared) (seen_by_number hands number) }
{}

/// A hand has begun a program since the start once a call has begun it. It stays so, and the begin was seen.
pub fn own_programs_stay_begun()
    ensures begins { (shared : Shared) (old new : Hand) (gate request : ℕ) (stamp : Stamp) (before : List GateEntry)
        → IsHand shared old → WasAtGate (shard_count shared) old new gate before
        (gate_entry_by old (GateDeed.BeganProgram request stamp) ∷ []) → HasBegunProgram shared new gate request stamp }
    ensures on { (shared : Shared) (old new : Hand) → IsHand shared old → hand_number new ≡ hand_number old
        → IsWithin (seen_by old) (seen_by new) → (home request : ℕ) (stamp : Stamp)
        → HasBegunProgram shared old home request stamp → HasBegunProgram shared new home request stamp }
    ensures seen { (shared : Shared) (hand : Hand) (home request : ℕ) (stamp : Stamp)
        → HasBegunProgram shared hand home request stamp → Contains (programs_of (gate_log (seen_by hand) home))
        (record { author = hand_number hand; request = request; stamp = stamp }) }
{}

/// A hand's visits since the start are of programs that it began itself. This holds before its first call. It stays in
/// a call that adds no entry at a shard, or there only visits of such programs and entries that are no visits.
pub fn visits_stay_of_own_programs()
    ensures start { (shared : Shared) (hand : Hand) → seen_by hand ≡ start_of shared
        → VisitsItsOwnPrograms shared hand }
    ensures others { (shared : Shared) (old new : Hand) → IsHand shared old → IsHand shared new
        → hand_number new ≡ hand_number old → (made_by new).shards ≡ (made_by old).shards
        → IsWithin (seen_by old) (seen_by new) → VisitsItsOwnPrograms shared old → VisitsItsOwnPrograms shared new }
    ensures shard { (shared : Shared) (old new : Hand) (shard : ℕ) (before added : List ShardEntry)
        → (asked : List OracleEntry) → IsHand shared old → IsHand shared new
        → WasAtShard (shard_count shared) old new shard before added asked
        → ((entry : ShardEntry) → Contains added entry
        → VisitsItsOwn (hand_number new) (start_of shared) (seen_by new) entry.deed)
        → VisitsItsOwnPrograms shared old → VisitsItsOwnPrograms shared new }
{
    own_visits_stay();
}

/// Machines without entries may be put behind locks, if they are in order.
pub fn new_machines_may_start()
    ensures { (gates : List GateView) (shards : List ShardView) → 1 ≤ length gates → length gates ≤ most_gates
        → 1 ≤ length shards → length shards ≤ most_shards → AreInOrder gates shards
        → ((k : ℕ) (g : GateView) → k < length gates → (slice_index_or gates k g).log ≡ [])
        → ((k : ℕ) (s : ShardView) → k < length shards → (slice_index_or shards k s).log ≡ [])
        → MayStart gates [] [] shards }
{
    a_log_goes_on();
    a_shard_log_goes_on();
    a_store_log_goes_on();
    an_oracle_log_goes_on();
    more_is_seen();
}
