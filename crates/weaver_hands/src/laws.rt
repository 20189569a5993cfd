//! What follows from the definitions, as contracts without a body.
ghost use Rattle.std.specs.Prelude.{◌≡◌, ◌≢◌, ◌<◌, ℕ, Bool, List, [], Contains, Option, Result};
ghost use Rattle.weave_data.specs.declared.name.Name.{Name};
ghost use Rattle.graph_ops.specs.declared.op.Op.{Op};
ghost use Rattle.graph_ops.specs.Operations.{State};
ghost use Rattle.program_defs.specs.declared.program.Answer.{Answer};
ghost use Rattle.vector_stamp.specs.declared.clock.Stamp.{Stamp};
ghost use Rattle.path_program.specs.declared.any.AnyProgram.{AnyProgram};
ghost use Rattle.path_program.specs.AnyPrograms.{HasRead};
ghost use Rattle.weave_entries.specs.declared.verdict.Verdict.{Verdict};
ghost use Rattle.weave_entries.specs.ShardReplay.{Visit};
ghost use Rattle.weave_account.specs.Account.{reads_of, shard_log};
ghost use Rattle.weave_account.specs.GoesOn.{visits_by};
ghost use Rattle.seen_logs.specs.Seen.{VisitsOwnPrograms};
ghost use Rattle.weaver_core.specs.declared.walks.Running.{Running};
ghost use Rattle.weaver_locks.specs.declared.hand.Hand.{Hand};
ghost use Rattle.weaver_locks.specs.declared.shared.Shared.{Shared};
ghost use Rattle.weaver_locks.specs.Following.{HasNotBegun};
ghost use Rattle.weaver_locks.specs.Hands.{hand_number, seen_by, IsHand};
ghost use Rattle.weaver_locks.specs.Locks.{gate_count, shard_count, start_of};
ghost use Rattle.weaver_hands.specs.declared.fault.HandFault.{HandFault};
ghost use Rattle.weaver_hands.specs.Leaving.{LeavesAlone, MakesNoVisit};
ghost use Rattle.weaver_hands.specs.Messages.{AppliesAs, PullsAs};
ghost use Rattle.weaver_hands.specs.Programs.{own_reads, FinishesAs, IsRunning, VisitsAs};
ghost use Rattle.weaver_hands.specs.Telling.{NopsAs, TellsAs};
ghost use Rattle.weaver_hands.specs.Transactions.{Starts, StartsAs, TransactsAs};

use crate::lower_laws::{hands_keep_their_laws, the_crates_below_keep_their_laws};
use seen_logs::laws::{more_is_seen, own_visits_stay};

/// Each call leaves alone each request that it does not visit for or finish, whatever it answers.
pub fn calls_leave_others_alone()
    ensures transact { (shards : ℕ) (old new : Hand) (gate request : ℕ) (ops : List Op) (last : Option Stamp)
        (result : Result (Stamp × Verdict) HandFault) → TransactsAs shards old new gate request ops last result
        → (r : ℕ) → LeavesAlone old new r }
    ensures start { (shards : ℕ) (old new : Hand) (gate request : ℕ) (last : Option Stamp)
        (result : Result Stamp HandFault) → StartsAs shards old new gate request last result
        → (r : ℕ) → LeavesAlone old new r }
    ensures tell { (shards : ℕ) (old new : Hand) (from to : ℕ) (result : Result (Unit {0}) HandFault)
        → TellsAs shards old new from to result → (r : ℕ) → LeavesAlone old new r }
    ensures nop { (shards : ℕ) (old new : Hand) (gate shard : ℕ) (result : Result (Unit {0}) HandFault)
        → NopsAs shards old new gate shard result → (r : ℕ) → LeavesAlone old new r }
    ensures pull { (shards : ℕ) (old new : Hand) (gate shard number : ℕ) (result : Result Bool HandFault)
        → PullsAs shards old new gate shard number result → (r : ℕ) → LeavesAlone old new r }
    ensures apply { (shards : ℕ) (old new : Hand) (shard gate : ℕ) (result : Result (Unit {0}) HandFault)
        → AppliesAs shards old new shard gate result → (r : ℕ) → LeavesAlone old new r }
    ensures visit { (gates shards : ℕ) (old new : Hand) (was is : Running) (result : Result (Unit {0}) HandFault)
        → VisitsAs gates shards old new was is result → (r : ℕ) → r ≢ was.request → LeavesAlone old new r }
    ensures finish { (shards : ℕ) (old new : Hand) (running : Running) (result : Result Answer HandFault)
        → FinishesAs shards old new running result → (r : ℕ) → r ≢ running.request → LeavesAlone old new r }
    ensures finish_visits { (shards : ℕ) (old new : Hand) (running : Running) (result : Result Answer HandFault)
        → FinishesAs shards old new running result → (r : ℕ) → MakesNoVisit old new r }
{
    more_is_seen();
}

/// A program that is left alone goes on running. What the hand's visits read for a request stays, if no other is made
/// for it.
pub fn programs_left_alone_go_on()
    ensures later { (old next new : Hand) (r : ℕ) → LeavesAlone old next r → LeavesAlone next new r
        → LeavesAlone old new r }
    ensures running { (shared : Shared) (old new : Hand) (running : Running) → IsHand shared old → IsHand shared new
        → LeavesAlone old new running.request → IsRunning shared old running → IsRunning shared new running }
    ensures reads { (shared : Shared) (old new : Hand) (r : ℕ) → IsHand shared old → IsHand shared new
        → MakesNoVisit old new r → own_reads new r ≡ own_reads old r }
{
    hands_keep_their_laws();
    more_is_seen();
    the_crates_below_keep_their_laws();
}

/// A program that was begun is running with a walk that has read nothing, if the hand's visits had read nothing for its
/// request.
pub fn begun_programs_run()
    ensures { (shared : Shared) (old new : Hand) (gate request : ℕ) (last : Option Stamp) (stamp : Stamp)
        (walk : AnyProgram) → IsHand shared old → IsHand shared new → gate < gate_count shared
        → HasNotBegun old request → own_reads old request ≡ []
        → Starts (shard_count shared) old new gate request last stamp → HasRead walk []
        → IsRunning shared new (record { request = request; stamp = stamp; walk = walk }) }
{
    hands_keep_their_laws();
    the_crates_below_keep_their_laws();
}

/// A hand's visits are of programs that it began itself, if it makes them by these calls. This holds for each of its
/// visits since the start, and stays true.
pub fn hands_visit_their_own_programs()
    ensures others { (shared : Shared) (old new : Hand) → IsHand shared old → IsHand shared new
        → ((r : ℕ) → MakesNoVisit old new r) → VisitsOwnPrograms (hand_number old) (start_of shared) (seen_by old)
        → VisitsOwnPrograms (hand_number new) (start_of shared) (seen_by new) }
    ensures visit { (shared : Shared) (old new : Hand) (was is : Running) (result : Result (Unit {0}) HandFault)
        → IsHand shared old → IsHand shared new → IsRunning shared old was
        → VisitsAs (gate_count shared) (shard_count shared) old new was is result
        → VisitsOwnPrograms (hand_number old) (start_of shared) (seen_by old)
        → VisitsOwnPrograms (hand_number new) (start_of shared) (seen_by new) }
{
    hands_keep_their_laws();
    own_visits_stay();
    the_crates_below_keep_their_laws();
}

/// What a hand's visits read for a request is among all that it has seen read for it: nothing if that is nothing, and
/// all if no other author made visits for it.
pub fn own_reads_were_seen()
    ensures among { (hand : Hand) (r : ℕ) (read : Name × State) → Contains (own_reads hand r) read
        → Contains (reads_of (seen_by hand) r) read }
    ensures nothing { (hand : Hand) (r : ℕ) → reads_of (seen_by hand) r ≡ [] → own_reads hand r ≡ [] }
    ensures all { (hand : Hand) (r : ℕ) → ((shard : ℕ) (visit : Visit)
        → Contains (visits_by r (shard_log (seen_by hand) shard)) visit → visit.author ≡ hand_number hand)
        → own_reads hand r ≡ reads_of (seen_by hand) r }
{}
