//! What follows for a client's hand, as contracts without a body.
ghost use Rattle.std.specs.Prelude.{ℕ, Bool, Result};
ghost use Rattle.std.specs.Option.{ForSome};
ghost use Rattle.program_defs.specs.declared.script.Script.{Script};
ghost use Rattle.program_defs.specs.Limits.{IsWithinLimits};
ghost use Rattle.weaver_core.specs.Sessions.{log_of_client, IsClientOf};
ghost use Rattle.weaver_locks.specs.declared.hand.Hand.{Hand};
ghost use Rattle.weaver_locks.specs.declared.shared.Shared.{Shared};
ghost use Rattle.weaver_locks.specs.Hands.{IsHand};
ghost use Rattle.weaver_core.specs.declared.walks.Running.{Running};
ghost use Rattle.weaver_hands.specs.declared.fault.HandFault.{HandFault};
ghost use Rattle.weaver_hands.specs.Leaving.{MadeNone};
ghost use Rattle.weaver_hands.specs.Messages.{AppliesAs, PullsAs};
ghost use Rattle.weaver_hands.specs.Programs.{FoundNotReady, IsRunning};
ghost use Rattle.weaver_hands.specs.Telling.{NopsAs, TellsAs};
ghost use Rattle.weaver_hands.specs.Transactions.{FoundBusy};
ghost use Rattle.weaver_workers.specs.Carrying.{OnlyCarries};
ghost use Rattle.weaver_workers.specs.ClientWork.{DoesOneCall, Stand};
ghost use Rattle.weaver_workers.specs.Keeping.{AreLocksOf, HasLanded, KeepsClient};

use crate::keeping::workers_keep_their_laws;

/// A hand goes on with a session for which it made a call, if the client noted it and is at the end of its log, and its
/// program runs. No transaction of a hand is in flight after it only carried, if none was before.
pub fn hands_go_on()
    ensures client { (shared : Shared) (script : Script) (number upto : ℕ) (old new : Stand) → IsWithinLimits script
        → AreLocksOf script shared → KeepsClient shared script number old.hand old.client → IsHand shared new.hand
        → ForSome new.client.running (IsRunning shared new.hand)
        → IsClientOf number new.client.session (log_of_client new.client)
        → DoesOneCall shared script number upto old new
        → KeepsClient shared script number new.hand new.client }
    ensures landed { (old new : Hand) → OnlyCarries old new → HasLanded old → HasLanded new }
{
    workers_keep_their_laws();
}

/// A hand only carries in a call that passes on a clock, sends an empty message, brings a message or has one processed,
/// whatever it answers. So it does in a transaction that found its gatekeeper busy, in a visit of a shard that was not
/// ready, and in a call that made nothing.
pub fn other_calls_only_carry()
    ensures tell { (shards : ℕ) (old new : Hand) (from to : ℕ) (result : Result (Unit {0}) HandFault)
        → TellsAs shards old new from to result → OnlyCarries old new }
    ensures nop { (shards : ℕ) (old new : Hand) (gate shard : ℕ) (result : Result (Unit {0}) HandFault)
        → NopsAs shards old new gate shard result → OnlyCarries old new }
    ensures pull { (shards : ℕ) (old new : Hand) (gate shard number : ℕ) (result : Result Bool HandFault)
        → PullsAs shards old new gate shard number result → OnlyCarries old new }
    ensures apply { (shards : ℕ) (old new : Hand) (shard gate : ℕ) (result : Result (Unit {0}) HandFault)
        → AppliesAs shards old new shard gate result → OnlyCarries old new }
    ensures busy { (shards : ℕ) (old new : Hand) (gate : ℕ) → FoundBusy shards old new gate → OnlyCarries old new }
    ensures unready { (gates shards : ℕ) (old new : Hand) (was is : Running) (shard gate : ℕ)
        → FoundNotReady gates shards old new was is shard gate → OnlyCarries old new }
    ensures nothing { (old new : Hand) → MadeNone old new → OnlyCarries old new }
{}
