//! What follows for what was seen of logs, as contracts over the logs alone.
ghost use Rattle.std.specs.Prelude.{◌≡◌, ◌≢◌, ℕ, ◌<◌, ◌≤◌, List, [], ◌∷◌, length, Contains, slice_index_or};
ghost use Rattle.weave_data.specs.Limits.{most_gates};
ghost use Rattle.vector_stamp.specs.declared.clock.Clock.{Clock};
ghost use Rattle.vector_stamp.specs.declared.clock.Stamp.{Stamp};
ghost use Rattle.program_defs.specs.declared.script.Script.{Script};
ghost use Rattle.program_defs.specs.Limits.{IsWithinLimits};
ghost use Rattle.weave_entries.specs.declared.gate_log.GateDeed.{GateDeed};
ghost use Rattle.weave_entries.specs.declared.gate_log.GateEntry.{GateEntry};
ghost use Rattle.weave_entries.specs.declared.message.Addressed.{Addressed};
ghost use Rattle.weave_entries.specs.declared.oracle_log.OracleDeed.{OracleDeed};
ghost use Rattle.weave_entries.specs.declared.oracle_log.OracleEntry.{OracleEntry};
ghost use Rattle.weave_entries.specs.declared.shard_log.ShardDeed.{ShardDeed};
ghost use Rattle.weave_entries.specs.declared.shard_log.ShardEntry.{ShardEntry};
ghost use Rattle.weave_entries.specs.declared.store_log.StoreDeed.{StoreDeed};
ghost use Rattle.weave_entries.specs.declared.store_log.StoreEntry.{StoreEntry};
ghost use Rattle.weave_entries.specs.Logs.{AtEachEntry};
ghost use Rattle.weave_entries.specs.GateReplay.{BegunRequest, addressed_to, begun_in, clock_of, clocks_in, programs_of};
ghost use Rattle.weave_entries.specs.GateRules.{IsGateLog};
ghost use Rattle.weave_entries.specs.OracleRules.{IsOracleLog};
ghost use Rattle.weave_entries.specs.ShardReplay.{Visit};
ghost use Rattle.weave_entries.specs.ShardRules.{IsShardLog};
ghost use Rattle.weave_entries.specs.StoreRule.{IsStoreLog};
ghost use Rattle.weave_account.specs.declared.account.Account.{Account};
ghost use Rattle.weave_account.specs.Account.{Precedence, gate_log, is_ended, reads_of, shard_log};
ghost use Rattle.weave_account.specs.Clocks.{IsKnown};
ghost use Rattle.weave_account.specs.Gatekeepers.{BeginEachOnce, BeginsAs};
ghost use Rattle.weave_account.specs.IsAccount.{IsAccount};
ghost use Rattle.weave_account.specs.GoesOn.{GoesOn, IsBeginningOf};
ghost use Rattle.weave_account.specs.Oracle.{seen_last};
ghost use Rattle.weave_account.specs.Programs.{ProgramsClause};
ghost use Rattle.weave_account.specs.Seen.{HasSeen, HasSeenSent, IsMade};
ghost use Rattle.seen_logs.specs.Closed.{AreOfHands};
ghost use Rattle.seen_logs.specs.Entries.{account_of_logs, gate_entries, gate_pairs, oracle_entries, oracle_pairs, shard_entries, shard_pairs, store_entries, store_pairs};
ghost use Rattle.seen_logs.specs.FollowsScript.{BegunProgramsReadInTurn, FollowsScript};
ghost use Rattle.seen_logs.specs.References.{GateRefersAs, IsAskedAsSeen, OracleRefersAs, ShardRefersAs, StoreRefersAs};
ghost use Rattle.seen_logs.specs.Seen.{AddsAsSeen, AreBeginnings, AreLegal, GateRefersWithin, GatesGoOn, HasAsked, IsOwn, IsSeenByHand, IsWithin, OracleRefersWithin, ShardRefersWithin, ShardsGoOn, StoreRefersWithin, VisitsItsOwn, VisitsOwnPrograms, entries_since, without_sessions};

use crate::lower_laws::the_crates_below_keep_their_laws;
use weave_account::laws::store_logs_have_passed;
use weave_entries::laws::{
    a_log_goes_on, a_shard_log_goes_on, a_store_log_goes_on, an_oracle_log_goes_on,
};

/// What an entry refers to stays seen while more is seen of the logs to which entries of its log refer: of those of
/// gatekeepers, store and shards for a gatekeeper, of gatekeepers and oracle for the store, of gatekeepers for the
/// oracle, and of gatekeepers, store and oracle for a shard. If shards' logs are among them they keep their rules.
pub fn references_go_on()
    ensures gate { (gates shards : ℕ) (seen next : Account) → GatesGoOn seen next
        → IsBeginningOf seen.store next.store → ShardsGoOn seen next
        → ((shard : ℕ) → IsShardLog gates (shard_log next shard))
        → (before : List GateEntry) (author : ℕ) (deed : GateDeed)
        → GateRefersAs seen shards before author deed → GateRefersAs next shards before author deed }
    ensures store { (seen next : Account) → GatesGoOn seen next → IsBeginningOf seen.oracle next.oracle
        → (before : List StoreEntry) (author : ℕ) (deed : StoreDeed)
        → StoreRefersAs seen before author deed → StoreRefersAs next before author deed }
    ensures oracle { (seen next : Account) → GatesGoOn seen next
        → (deed : OracleDeed) → OracleRefersAs seen deed → OracleRefersAs next deed }
    ensures asked { (gates : ℕ) (seen next : Account) → IsBeginningOf seen.store next.store → ShardsGoOn seen next
        → ((shard : ℕ) → IsShardLog gates (shard_log next shard))
        → (entry : OracleEntry) → IsAskedAsSeen seen entry → IsAskedAsSeen next entry }
    ensures shard { (shards shard : ℕ) (seen next : Account) → GatesGoOn seen next
        → IsBeginningOf seen.store next.store → IsBeginningOf seen.oracle next.oracle
        → (before : List ShardEntry) (author : ℕ) (deed : ShardDeed)
        → ShardRefersAs seen shards shard before author deed → ShardRefersAs next shards shard before author deed }
{
    the_crates_below_keep_their_laws();
}

/// All that an account's entries refer to is in the account, if its shards' logs keep their rules. Its logs are what
/// each hand has seen that starts with them.
pub fn accounts_refer_within()
    ensures gates { (script : Script) (account : Account) → IsWithinLimits script → IsAccount script account
        → (home : ℕ) → GateRefersWithin script.shards account home }
    ensures store { (script : Script) (account : Account) → IsWithinLimits script → IsAccount script account
        → StoreRefersWithin account }
    ensures oracle { (script : Script) (account : Account) → IsWithinLimits script → IsAccount script account
        → OracleRefersWithin account }
    ensures asked { (script : Script) (account : Account) → IsAccount script account
        → (entry : OracleEntry) → Contains account.oracle entry → IsAskedAsSeen account entry }
    ensures shards { (script : Script) (account : Account) → IsWithinLimits script → IsAccount script account
        → ((shard : ℕ) → IsShardLog script.gates (shard_log account shard))
        → (shard : ℕ) → ShardRefersWithin script.shards account shard }
    ensures hand { (script : Script) (account : Account) → IsWithinLimits script → IsAccount script account
        → ((shard : ℕ) → IsShardLog script.gates (shard_log account shard))
        → (number : ℕ) → IsSeenByHand script.shards number (without_sessions account) (without_sessions account) }
{
    the_crates_below_keep_their_laws();
}

/// What was seen is within itself and within what is seen later, and so is an account that goes on. Sessions play no
/// part.
pub fn more_is_seen()
    ensures itself { (seen : Account) → IsWithin seen seen }
    ensures later { (seen next last : Account) → IsWithin seen next → IsWithin next last → IsWithin seen last }
    ensures account { (account next : Account) → GoesOn account next → IsWithin account next }
    ensures apart { (account : Account) → IsWithin account (without_sessions account) }
    ensures back { (account : Account) → IsWithin (without_sessions account) account }
{}

/// A log of records is the one that its pairs give back, and a log of pairs is the one that its records give back.
pub fn entries_come_back()
    ensures records_of_gate { (log : List GateEntry) → gate_entries (gate_pairs log) ≡ log }
    ensures pairs_of_gate { (log : List (ℕ × GateDeed)) → gate_pairs (gate_entries log) ≡ log }
    ensures records_of_store { (log : List StoreEntry) → store_entries (store_pairs log) ≡ log }
    ensures pairs_of_store { (log : List (ℕ × StoreDeed)) → store_pairs (store_entries log) ≡ log }
    ensures records_of_oracle { (log : List OracleEntry) → oracle_entries (oracle_pairs log) ≡ log }
    ensures pairs_of_oracle { (log : List (ℕ × OracleDeed)) → oracle_pairs (oracle_entries log) ≡ log }
    ensures records_of_shard { (log : List ShardEntry) → shard_entries (shard_pairs log) ≡ log }
    ensures pairs_of_shard { (log : List (ℕ × ShardDeed)) → shard_pairs (shard_entries log) ≡ log }
{}

/// An account of what was seen of the logs of locks has just those logs. If each of them goes on, more is seen.
pub fn accounts_have_logs_of_locks()
    ensures gate { (gates : List (List (ℕ × GateDeed))) (store : List (ℕ × StoreDeed)) (oracle : List (ℕ × OracleDeed))
        → (shards : List (List (ℕ × ShardDeed))) (home : ℕ)
        → gate_log (account_of_logs gates store oracle shards) home ≡ gate_entries (slice_index_or gates home []) }
    ensures shard { (gates : List (List (ℕ × GateDeed))) (store : List (ℕ × StoreDeed)) (oracle : List (ℕ × OracleDeed))
        → (shards : List (List (ℕ × ShardDeed))) (shard : ℕ)
        → shard_log (account_of_logs gates store oracle shards) shard ≡ shard_entries (slice_index_or shards shard []) }
    ensures more { (gates next_gates : List (List (ℕ × GateDeed))) (store next_store : List (ℕ × StoreDeed))
        → (oracle next_oracle : List (ℕ × OracleDeed)) (shards next_shards : List (List (ℕ × ShardDeed)))
        → AreBeginnings gates next_gates → IsBeginningOf store next_store → IsBeginningOf oracle next_oracle
        → AreBeginnings shards next_shards
        → IsWithin (account_of_logs gates store oracle shards)
        (account_of_logs next_gates next_store next_oracle next_shards) }
{}

/// If each log that was seen keeps its rules, so does each beginning of it.
pub fn beginnings_are_legal()
    ensures { (gates shards : ℕ) (seen next : Account) → IsWithin seen next → AreLegal gates shards next
        → AreLegal gates shards seen }
{
    a_log_goes_on();
    a_shard_log_goes_on();
    a_store_log_goes_on();
    an_oracle_log_goes_on();
}

/// What a machine has seen goes on: if what its entries refer to was seen, and what the new ones refer to is seen now,
/// then what all refer to is seen now. So a hand that has seen no less than a machine has seen what the machine's
/// entries refer to.
pub fn machines_note_more()
    ensures gate { (gates shards : ℕ) (seen next : Account) → GatesGoOn seen next
        → IsBeginningOf seen.store next.store → ShardsGoOn seen next
        → ((shard : ℕ) → IsShardLog gates (shard_log next shard)) → (home : ℕ) → GateRefersWithin shards seen home
        → AtEachEntry (λ before (entry : GateEntry). length (gate_log seen home) ≤ length before
        → GateRefersAs next shards before entry.author entry.deed) (gate_log next home)
        → GateRefersWithin shards next home }
    ensures store { (seen next : Account) → GatesGoOn seen next → IsBeginningOf seen.store next.store
        → IsBeginningOf seen.oracle next.oracle → StoreRefersWithin seen
        → AtEachEntry (λ before (entry : StoreEntry). length seen.store ≤ length before
        → StoreRefersAs next before entry.author entry.deed) next.store
        → StoreRefersWithin next }
    ensures oracle { (seen next : Account) → GatesGoOn seen next → IsBeginningOf seen.oracle next.oracle
        → OracleRefersWithin seen
        → AtEachEntry (λ before (entry : OracleEntry). length seen.oracle ≤ length before
        → OracleRefersAs next entry.deed) next.oracle
        → OracleRefersWithin next }
    ensures shard { (shards : ℕ) (seen next : Account) → GatesGoOn seen next
        → IsBeginningOf seen.store next.store → IsBeginningOf seen.oracle next.oracle → (shard : ℕ)
        → IsBeginningOf (shard_log seen shard) (shard_log next shard) → ShardRefersWithin shards seen shard
        → AtEachEntry (λ before (entry : ShardEntry). length (shard_log seen shard) ≤ length before
        → ShardRefersAs next shards shard before entry.author entry.deed) (shard_log next shard)
        → ShardRefersWithin shards next shard }
{
    the_crates_below_keep_their_laws();
}

/// What a hand has seen goes on, if what it made since then refers to what it has seen now.
pub fn hands_see_more()
    ensures { (gates shards number : ℕ) (start seen next : Account) → IsSeenByHand shards number start seen
        → IsWithin seen next → ((shard : ℕ) → IsShardLog gates (shard_log next shard))
        → AddsAsSeen shards number start seen next → IsSeenByHand shards number start next }
{
    the_crates_below_keep_their_laws();
}

/// A hand's visits are of its own programs at the start, when it has made none, and later if its new ones are.
pub fn own_visits_stay()
    ensures start { (number : ℕ) (start : Account) → VisitsOwnPrograms number start start }
    ensures on { (number : ℕ) (start seen next : Account) → IsWithin start seen → IsWithin seen next
        → VisitsOwnPrograms number start seen
        → ((shard : ℕ) → AtEachEntry (λ before (entry : ShardEntry).
        IsOwn number (shard_log seen shard) before entry.author → VisitsItsOwn number start next entry.deed)
        (shard_log next shard))
        → VisitsOwnPrograms number start next }
{}

/// If a visit asked for a pair, that update precedes its program by what the hand has seen. So no later visit of that
/// program has to ask for it again.
pub fn asked_pairs_precede()
    ensures { (shards number : ℕ) (start seen : Account) → IsSeenByHand shards number start seen
        → IsOracleLog seen.oracle → (shard : ℕ) (before : List ShardEntry) (visit : Visit)
        → HasAsked number start seen shard before visit → (update : Stamp)
        → seen_last before visit ≡ update ∷ [] → Precedence seen update visit.stamp }
{}

/// If what a gatekeeper's entries refer to was seen, each clock of its log is known by what was seen, and so is the
/// gatekeeper's clock.
pub fn clocks_count_within()
    ensures each { (shards : ℕ) (seen : Account) (home : ℕ) → GateRefersWithin shards seen home
        → IsGateLog home shards (gate_log seen home)
        → (clock : Clock) → Contains (clocks_in (gate_log seen home)) clock → IsKnown seen clock }
    ensures own { (shards : ℕ) (seen : Account) (home : ℕ) → GateRefersWithin shards seen home
        → home < most_gates → IsKnown seen (clock_of home (gate_log seen home)) }
{
    the_crates_below_keep_their_laws();
}

/// If what a gatekeeper's entries refer to was seen, each message that it sent is made of a judgement that was seen, or
/// is empty.
pub fn messages_are_made()
    ensures { (shards : ℕ) (seen : Account) (home : ℕ) → GateRefersWithin shards seen home
        → (shard : ℕ) (addressed : Addressed) → Contains (addressed_to shard (gate_log seen home)) addressed
        → IsMade shards seen.store shard addressed.message }
{}

/// If what a shard's entries refer to was seen, it has seen what the laws of accounts on heads, updates and collections
/// need.
pub fn shards_have_seen()
    ensures store { (gates shards : ℕ) (seen : Account) (shard : ℕ) → IsStoreLog seen.store
        → IsShardLog gates (shard_log seen shard) → ShardRefersWithin shards seen shard
        → HasSeen shards seen.store shard (shard_log seen shard) }
    ensures sent { (gates shards : ℕ) (seen : Account) (shard : ℕ) → gates ≤ most_gates
        → ((home : ℕ) → IsGateLog home shards (gate_log seen home))
        → IsShardLog gates (shard_log seen shard) → ShardRefersWithin shards seen shard
        → HasSeenSent gates shards seen shard (shard_log seen shard) }
{
    store_logs_have_passed();
}

/// At the end the logs of a run refer to nothing but themselves, if each entry was there at the start or is one that a
/// hand made and has seen. They may then be the start of another run.
pub fn closed_logs_refer_within()
    ensures { (gates shards hands : ℕ) (start : Account) (seen_by : ℕ → Account) (closed : Account)
        → length closed.gates ≤ most_gates → AreLegal gates shards closed
        → AreOfHands shards hands start seen_by closed
        → (number : ℕ) → IsSeenByHand shards number closed closed }
{
    the_crates_below_keep_their_laws();
}

/// If no request began twice, a program has read at the end what the hand has seen that began it, and has ended if that
/// hand has seen so. What began before the start has read what it had read then.
pub fn programs_read_what_was_seen()
    ensures reads { (gates shards hands : ℕ) (start : Account) (seen_by : ℕ → Account) (closed : Account)
        → length closed.gates ≤ most_gates → AreLegal gates shards closed
        → AreOfHands shards hands start seen_by closed → BeginEachOnce closed
        → (number home r : ℕ) (stamp : Stamp) → number < hands
        → Contains (programs_of (entries_since (gate_log start home) (gate_log (seen_by number) home)))
        (record { author = number; request = r; stamp = stamp }) → reads_of closed r ≡ reads_of (seen_by number) r }
    ensures ended { (gates shards hands : ℕ) (start : Account) (seen_by : ℕ → Account) (closed : Account)
        → length closed.gates ≤ most_gates → AreLegal gates shards closed
        → AreOfHands shards hands start seen_by closed → BeginEachOnce closed
        → (number home r : ℕ) (stamp : Stamp) → number < hands
        → Contains (programs_of (entries_since (gate_log start home) (gate_log (seen_by number) home)))
        (record { author = number; request = r; stamp = stamp }) → is_ended closed r ≡ is_ended (seen_by number) r }
    ensures at_start { (gates shards hands : ℕ) (start : Account) (seen_by : ℕ → Account) (closed : Account)
        → length closed.gates ≤ most_gates → AreLegal gates shards closed
        → AreOfHands shards hands start seen_by closed → BeginEachOnce closed
        → (home : ℕ) (begun : BegunRequest) → Contains (begun_in (gate_log start home)) begun
        → reads_of closed begun.request ≡ reads_of start begun.request }
{
    the_crates_below_keep_their_laws();
}

/// If what the shards' entries refer to was seen, a request that was begun as a program at none of the gatekeepers seen
/// has read nothing.
pub fn only_begun_programs_read()
    ensures { (shards : ℕ) (seen : Account) → ((shard : ℕ) → ShardRefersWithin shards seen shard) → (r : ℕ)
        → ((home : ℕ) (begun : BegunRequest) → Contains (programs_of (gate_log seen home)) begun → begun.request ≢ r)
        → reads_of seen r ≡ [] }
{}

/// It is enough that the programs read in turn that a gatekeeper began, if the logs keep their rules, refer to nothing
/// but themselves, and begin requests as the script has them. No other program has read anything or has ended.
pub fn begun_programs_are_enough()
    ensures { (script : Script) (account : Account) (number : ℕ) → AreLegal script.gates script.shards account
        → IsSeenByHand script.shards number (without_sessions account) (without_sessions account)
        → ((home : ℕ) → AtEachEntry (λ before (entry : GateEntry). BeginsAs script account home before entry.deed)
        (gate_log account home))
        → BegunProgramsReadInTurn script account → ProgramsClause script account }
{
    the_crates_below_keep_their_laws();
}

/// Logs that keep their rules and refer to nothing but themselves are an account of a script if they follow it.
pub fn logs_make_an_account()
    ensures { (script : Script) (account : Account) (number : ℕ) → AreLegal script.gates script.shards account
        → IsSeenByHand script.shards number (without_sessions account) (without_sessions account)
        → FollowsScript script account → IsAccount script account }
{
    the_crates_below_keep_their_laws();
}
