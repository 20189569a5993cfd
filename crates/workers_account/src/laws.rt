//! What follows for what workers have done, as contracts without a body.
ghost use Rattle.std.specs.Prelude.{◌≡◌, ℕ, ◌<◌, ◌≤◌, ◌++◌, List, length, Contains, IsTrue, Some, slice_get, slice_index_or};
ghost use Rattle.vector_stamp.specs.declared.clock.Stamp.{Stamp};
ghost use Rattle.program_defs.specs.declared.script.Script.{Script};
ghost use Rattle.program_defs.specs.Limits.{IsWithinLimits};
ghost use Rattle.gatekeeper.specs.Gates.{GateView};
ghost use Rattle.shard_node.specs.Shards.{ShardView};
ghost use Rattle.weave_entries.specs.declared.oracle_log.OracleEntry.{OracleEntry};
ghost use Rattle.weave_entries.specs.declared.session_log.SessionEntry.{SessionEntry};
ghost use Rattle.weave_entries.specs.declared.store_log.StoreEntry.{StoreEntry};
ghost use Rattle.weave_entries.specs.SessionReplay.{begins_in, has_reply_in};
ghost use Rattle.weave_entries.specs.ShardRules.{IsShardLog};
ghost use Rattle.weave_entries.specs.StoreRule.{IsStoreLog};
ghost use Rattle.weave_account.specs.declared.account.Account.{Account};
ghost use Rattle.weave_account.specs.Account.{shard_log};
ghost use Rattle.weave_account.specs.GoesOn.{GoesOn};
ghost use Rattle.weave_account.specs.IsAccount.{IsAccount};
ghost use Rattle.seen_logs.specs.Seen.{VisitsOwnPrograms, without_sessions};
ghost use Rattle.weaver_core.specs.declared.client.Client.{Client};
ghost use Rattle.weaver_core.specs.Sessions.{log_of_client};
ghost use Rattle.weaver_locks.specs.declared.hand.Hand.{Hand};
ghost use Rattle.weaver_locks.specs.declared.shared.Shared.{Shared};
ghost use Rattle.weaver_locks.specs.Closing.{logs_of, seen_by_number, AreInOrder, MayStart};
ghost use Rattle.weaver_locks.specs.Hands.{seen_by, IsHand};
ghost use Rattle.weaver_locks.specs.Locks.{hands_of, start_of};
ghost use Rattle.weaver_workers.specs.ClientWork.{Goes, HasReplies, Stand};
ghost use Rattle.weaver_workers.specs.Keeping.{HasLanded, KeepsClient};
ghost use Rattle.workers_account.specs.Phase.{IsClosedBy, IsPhaseEnd, IsPhaseRun, IsPhaseStart, WorkerHasEnded};
ghost use Rattle.workers_account.specs.Ready.{IsAnsweredUpTo};
ghost use Rattle.workers_account.specs.SessionRuns.{HasNoRequest, WasRunForSession};

use crate::phase_laws::{phases_keep_their_laws, values_stay_by_their_laws};
use crate::read_laws::hands_read_by_their_laws;
use crate::ready_laws::phases_start_by_their_laws;
use weave_entries::laws::begun_and_replied_are_decided;

/// What a client's worker begins is of its phase, if at the start all requests of earlier phases had their replies: the
/// requests that its session's log gained come no earlier than the phase, and before its end.
pub fn begun_requests_are_of_the_phase()
    ensures { (shared : Shared) (script : Script) (number start upto : ℕ) (from at : Stand) (path : List Stand)
        (gained : List SessionEntry) → KeepsClient shared script number from.hand from.client
        → HasReplies start from.client → Goes shared script number upto from path at
        → log_of_client at.client ≡ log_of_client from.client ++ gained → (r : ℕ) (stamp : Stamp)
        → Contains (begins_in gained) (r, stamp) → (start ≤ r) × (r < upto) }
{
    begun_and_replied_are_decided();
    hands_read_by_their_laws();
}

/// In a phase each hand's visits are of programs that it began itself, which the closed logs need.
pub fn hands_of_a_phase_visit_their_own()
    ensures { (shared : Shared) (script : Script) (upto : ℕ) (start : Account) (was is : List Client)
        (hands : List Hand) → IsPhaseRun shared script upto start was is hands → (number : ℕ)
        → number < hands_of shared
        → VisitsOwnPrograms number (start_of shared) (seen_by_number hands number) }
{
    phases_keep_their_laws();
}

/// The parts that a phase of workers leaves can be joined to a core: the closed logs with the sessions' logs are an
/// account that goes on from the one at the start.
pub fn closed_parts_can_be_joined()
    ensures { (shared : Shared) (script : Script) (upto : ℕ) (start : Account) (was is : List Client)
        (hands : List Hand) (closed : Account) → IsPhaseRun shared script upto start was is hands
        → IsClosedBy shared script start is hands closed → IsPhaseEnd script upto start is closed }
{
    phases_keep_their_laws();
    values_stay_by_their_laws();
}

/// A phase was run for each session, however the session's worker ended, as the logs before and after the phase say. A
/// session without a request in the phase has all its replies.
pub fn sessions_run_as_their_workers_end()
    ensures ends { (shared : Shared) (script : Script) (upto : ℕ) (start : Account) (was is : List Client)
        (hands : List Hand) (closed : Account) → IsPhaseRun shared script upto start was is hands
        → IsClosedBy shared script start is hands closed → (session : ℕ)
        → WorkerHasEnded shared script upto is hands session → WasRunForSession script upto session start closed }
    ensures idle { (script : Script) (from upto session : ℕ) (start closed : Account)
        → HasNoRequest script from upto session → IsAnsweredUpTo script from start → GoesOn start closed
        → WasRunForSession script upto session start closed }
{
    hands_read_by_their_laws();
    phases_keep_their_laws();
    values_stay_by_their_laws();
}

/// Machines whose logs are an account may be put behind locks, if they are in order and keep their logs' rules.
pub fn split_machines_may_start()
    ensures { (script : Script) (start : Account) (gates : List GateView) (store : List StoreEntry)
        (oracle : List OracleEntry) (shards : List ShardView) → IsWithinLimits script → IsAccount script start
        → logs_of gates store oracle shards ≡ without_sessions start → length gates ≡ script.gates
        → length shards ≡ script.shards → AreInOrder gates shards → IsStoreLog store
        → ((shard : ℕ) → IsShardLog script.gates (shard_log start shard)) → MayStart gates store oracle shards }
{
    phases_start_by_their_laws();
}

/// At the start of a phase no transaction of a hand is in flight. A hand may go on with a session whose begun requests
/// all have their replies.
pub fn split_clients_are_ready()
    ensures idle { (script : Script) (start : Account) (shared : Shared) (clients : List Client) (hand : Hand)
        → IsPhaseStart script start shared clients → IsHand shared hand → seen_by hand ≡ start_of shared
        → HasLanded hand }
    ensures ready { (script : Script) (start : Account) (shared : Shared) (clients : List Client) (hand : Hand)
        (session : ℕ) (client : Client) → IsPhaseStart script start shared clients → IsHand shared hand
        → seen_by hand ≡ start_of shared → slice_get clients session ≡ Some client
        → ((r : ℕ) (stamp : Stamp) → Contains (begins_in (log_of_client client)) (r, stamp)
        → IsTrue (has_reply_in r (log_of_client client))) → KeepsClient shared script session hand client }
{
    phases_keep_their_laws();
    phases_start_by_their_laws();
    values_stay_by_their_laws();
}
