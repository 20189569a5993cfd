//! What follows for each log that keeps the rules, as contracts over the logs alone.
ghost use Rattle.std.specs.Prelude.{◌≡◌, ◌≢◌, ◌↔◌, ℕ, ◌+◌, ◌<◌, ◌≤◌, ◌==◌, true, cond, List, [], ◌∷◌, ◌++◌, map, take, length, Contains, IsTrue, Option, None, Some, is_some, Ok, Err};
ghost use Rattle.weave_data.specs.declared.name.Name.{Name};
ghost use Rattle.weave_data.specs.Limits.{most_gates};
ghost use Rattle.graph_ops.specs.declared.op.Op.{Op};
ghost use Rattle.graph_ops.specs.declared.op.Reason.{Reason};
ghost use Rattle.graph_ops.specs.declared.tx.Got.{Got};
ghost use Rattle.graph_ops.specs.PlainGraph.{PlainGraph, transaction};
ghost use Rattle.vector_stamp.specs.declared.clock.Clock.{Clock};
ghost use Rattle.vector_stamp.specs.declared.clock.Stamp.{Stamp};
ghost use Rattle.vector_stamp.specs.Order.{count_of, id_of, HasEightCounts, CountsNonePast, StampsRise, is_at_most, stamp_before, unordered};
ghost use Rattle.vector_stamp.specs.Coherence.{AreCoherent};
ghost use Rattle.vector_stamp.specs.Precedence.{GivenPair, IsAcyclic, precedes};
ghost use Rattle.vector_stamp.specs.Seeing.{seen_of, last_seen};
ghost use Rattle.vector_stamp.specs.Settling.{additions_from, pairs_of, SettledEntry};
ghost use Rattle.weave_entries.specs.declared.message.Addressed.{Addressed};
ghost use Rattle.weave_entries.specs.declared.message.Message.{Message};
ghost use Rattle.weave_entries.specs.declared.gate_log.GateEntry.{GateEntry};
ghost use Rattle.weave_entries.specs.declared.oracle_log.OracleEntry.{OracleEntry};
ghost use Rattle.weave_entries.specs.declared.session_log.SessionEntry.{SessionEntry};
ghost use Rattle.weave_entries.specs.GateReplay.{BegunRequest, next_stamp, clock_after, clock_of, stamps_by, stamps_of, begun_by, begun_in, txs_of, programs_of, ended_by, ended_in, flight_after, flight_of, running_after, running_of, messages_by, to_shard, addressed_to, channel_of, sent_in, clocks_in};
ghost use Rattle.weave_entries.specs.GateRules.{FitsAs, IsGateLog, HearsAs, HearsNoMore, HearsNonePast, BeginsEachOnce, CountsItsTicks, IsChannel, EndsEachOnce, EndsWhatItBegan};
ghost use Rattle.weave_entries.specs.OracleReplay.{oracle_entry_of, settled_entry, pairs_of_entry, pairs_of_log};
ghost use Rattle.weave_entries.specs.OracleRules.{IsRightEntry, IsOracleLog};
ghost use Rattle.weave_entries.specs.Sending.{IsCountsOf};
ghost use Rattle.weave_entries.specs.SessionReplay.{session_of, replied_count, begins_in, replied_in, has_begun_in, has_reply_in, IsSessionLog};
ghost use Rattle.weave_entries.specs.declared.shard_log.ShardEntry.{ShardEntry};
ghost use Rattle.weave_entries.specs.declared.shard_log.ShardDeed.TheVariants.{Arrived, Applied};
ghost use Rattle.weave_entries.specs.declared.store_log.StoreEntry.{StoreEntry};
ghost use Rattle.weave_entries.specs.declared.verdict.Counted.{Counted};
ghost use Rattle.weave_entries.specs.declared.verdict.Verdict.TheVariants.{Committed, Conflict, Refused};
ghost use Rattle.weave_entries.specs.ShardReplay.{arrival_by, arrivals_of, arrived_at, processed_by, processed_of, processed_count, updates_in, updates_of, visit_by, visits_of, dropped_after};
ghost use Rattle.weave_entries.specs.ShardRules.{dropped_of, update_stamps, updates_read, last_read, IsKeptFor, FitsShard, IsShardLog};
ghost use Rattle.weave_entries.specs.StoreReplay.{Commit, judged_by, judgements_of, commit_by, commits_of, names_vertex, count_naming, last_naming, graph_with_commit, graph_committed};
ghost use Rattle.weave_entries.specs.StoreRule.{LastCommit, lasts_of, counts_of, verdict_on, FitsStore, IsStoreLog};

use vector_stamp::laws::{
    clocks_keep_the_laws, no_cycle_arises, precedence_is_decided, settling_puts_all_before,
    stamps_are_ordered,
};

// Gatekeepers

/// A log goes on with each entry that is right after those before it, and its beginnings are logs of the gatekeeper
/// too.
pub fn a_log_goes_on()
    ensures at_first { (home shards : ℕ) → IsGateLog home shards [] }
    ensures right { (home shards : ℕ) (log : List GateEntry) (entry : GateEntry)
        → IsGateLog home shards log → FitsAs home shards log entry.author entry.deed
        → IsGateLog home shards (log ++ entry ∷ []) }
    ensures right_before { (home shards : ℕ) (log rest : List GateEntry)
        → IsGateLog home shards (log ++ rest) → IsGateLog home shards log }
    ensures hears { (home : ℕ) (log : List GateEntry) (entry : GateEntry)
        → HearsNoMore home log → HearsAs home log entry.deed → HearsNoMore home (log ++ entry ∷ []) }
{}

/// With one more entry the replay of a log goes on by that entry's deed.
pub fn the_replay_goes_on()
    ensures clock { (home : ℕ) (log : List GateEntry) (entry : GateEntry)
        → clock_of home (log ++ entry ∷ []) ≡ clock_after home (clock_of home log) entry.deed }
    ensures flight { (log : List GateEntry) (entry : GateEntry)
        → flight_of (log ++ entry ∷ []) ≡ flight_after (flight_of log) entry.author entry.deed }
    ensures running { (log : List GateEntry) (entry : GateEntry)
        → running_of (log ++ entry ∷ []) ≡ running_after (running_of log) entry.author entry.deed }
    ensures stamps { (log : List GateEntry) (entry : GateEntry)
        → stamps_of (log ++ entry ∷ []) ≡ stamps_of log ++ stamps_by entry.deed }
    ensures begun { (log : List GateEntry) (entry : GateEntry)
        → begun_in (log ++ entry ∷ []) ≡ begun_in log ++ begun_by entry.author entry.deed }
    ensures ended { (log : List GateEntry) (entry : GateEntry)
        → ended_in (log ++ entry ∷ []) ≡ ended_in log ++ ended_by entry.deed }
    ensures channel { (shard : ℕ) (log : List GateEntry) (entry : GateEntry)
        → channel_of shard (log ++ entry ∷ []) ≡ channel_of shard log
        ++ map (λ (addressed : Addressed). addressed.message) (to_shard shard (messages_by entry.deed)) }
{}

/// The clock never goes back. The stamps rise, are coherent and have their home. The own count is the number of the
/// gatekeeper's ticks in its epoch.
pub fn stamps_rise()
    ensures rise { (home shards : ℕ) (log : List GateEntry) → home < most_gates → IsGateLog home shards log
        → StampsRise (stamps_of log) }
    ensures under { (home shards : ℕ) (log : List GateEntry) → home < most_gates → IsGateLog home shards log
        → (stamp : Stamp) → Contains (stamps_of log) stamp → IsTrue (is_at_most stamp.clock (clock_of home log)) }
    ensures homes { (home shards : ℕ) (log : List GateEntry) → home < most_gates → IsGateLog home shards log
        → (stamp : Stamp) → Contains (stamps_of log) stamp → stamp.home ≡ home }
    ensures coherent { (home shards : ℕ) (log : List GateEntry) → home < most_gates → IsGateLog home shards log
        → AreCoherent (stamps_of log) }
    ensures ticks { (home shards : ℕ) (log : List GateEntry) → home < most_gates → IsGateLog home shards log
        → CountsItsTicks home log }
    ensures eight { (home shards : ℕ) (log : List GateEntry) → home < most_gates → IsGateLog home shards log
        → HasEightCounts (clock_of home log) }
    ensures eight_each { (home shards : ℕ) (log : List GateEntry) → home < most_gates → IsGateLog home shards log
        → (stamp : Stamp) → Contains (stamps_of log) stamp → HasEightCounts stamp.clock }
{
    clocks_keep_the_laws();
}

/// The own count, and how many messages were sent to a shard, are at most the number of entries.
pub fn counts_are_few()
    ensures own { (home shards : ℕ) (log : List GateEntry) → home < most_gates → IsGateLog home shards log
        → count_of home (clock_of home log) ≤ length log }
    ensures sent { (home shards shard : ℕ) (log : List GateEntry) → IsGateLog home shards log
        → length (channel_of shard log) ≤ length log }
{
    clocks_keep_the_laws();
}

/// Each channel's numbers run from 1, and its stamps rise. Nothing is sent to a shard that isn't there.
pub fn channels_rise()
    ensures channel { (home shards shard : ℕ) (log : List GateEntry) → home < most_gates → IsGateLog home shards log
        → IsChannel shard log }
    ensures beyond { (home shards shard : ℕ) (log : List GateEntry) → IsGateLog home shards log → shards ≤ shard
        → channel_of shard log ≡ [] }
{
    clocks_keep_the_laws();
}

/// The stamp of each message on each channel is before that of the transaction in flight, and before the gatekeeper's
/// next stamp.
pub fn messages_come_before()
    ensures flight { (home shards shard : ℕ) (log : List GateEntry) → home < most_gates → IsGateLog home shards log
        → (flight : BegunRequest) → flight_of log ≡ Some flight
        → (message : Message) → Contains (channel_of shard log) message
        → IsTrue (stamp_before message.stamp flight.stamp) }
    ensures next { (home shards shard : ℕ) (log : List GateEntry) → home < most_gates → IsGateLog home shards log
        → (message : Message) → Contains (channel_of shard log) message
        → IsTrue (stamp_before message.stamp (next_stamp home (clock_of home log))) }
{
    clocks_keep_the_laws();
}

/// What was begun, the transaction in flight, the programs that are running and the messages that were sent have stamps
/// that the gatekeeper made.
pub fn stamps_are_its_own()
    ensures begun { (log : List GateEntry) (begun : BegunRequest) → Contains (begun_in log) begun
        → Contains (stamps_of log) begun.stamp }
    ensures flight { (log : List GateEntry) (flight : BegunRequest) → flight_of log ≡ Some flight
        → Contains (stamps_of log) flight.stamp }
    ensures running { (log : List GateEntry) (program : BegunRequest) → Contains (running_of log) program
        → Contains (stamps_of log) program.stamp }
    ensures sent { (home shards shard : ℕ) (log : List GateEntry) → IsGateLog home shards log
        → (message : Message) → Contains (channel_of shard log) message → Contains (stamps_of log) message.stamp }
{}

/// A request is sent or finished after its begin, by the author of its begin, and at most once if no request is begun
/// twice.
pub fn requests_end()
    ensures begun { (home shards : ℕ) (log : List GateEntry) → IsGateLog home shards log → EndsWhatItBegan log }
    ensures once { (home shards : ℕ) (log : List GateEntry) → IsGateLog home shards log → BeginsEachOnce log
        → EndsEachOnce log }
{}

/// The transaction in flight is the one that was begun and not sent. The programs that are running are those that were
/// begun and not finished.
pub fn what_has_not_ended_goes_on()
    ensures flight { (home shards : ℕ) (log : List GateEntry) → IsGateLog home shards log → BeginsEachOnce log
        → (tx : BegunRequest)
        → (flight_of log ≡ Some tx) ↔ (Contains (txs_of log) tx × ¬ Contains (ended_in log) tx.request) }
    ensures running { (home shards : ℕ) (log : List GateEntry) → IsGateLog home shards log → BeginsEachOnce log
        → (program : BegunRequest) → Contains (running_of log) program
        ↔ (Contains (programs_of log) program × ¬ Contains (ended_in log) program.request) }
{}

/// The low mark of each message has eight counts. It is at most the message's stamp, and at most the stamp of each
/// program that is running at the end of the log.
pub fn low_marks_are_below()
    ensures eight { (home shards shard : ℕ) (log : List GateEntry) → home < most_gates → IsGateLog home shards log
        → (message : Message) → Contains (channel_of shard log) message → HasEightCounts message.low }
    ensures its_stamp { (home shards shard : ℕ) (log : List GateEntry) → home < most_gates → IsGateLog home shards log
        → (message : Message) → Contains (channel_of shard log) message
        → IsTrue (is_at_most message.low message.stamp.clock) }
    ensures running { (home shards shard : ℕ) (log : List GateEntry) → home < most_gates → IsGateLog home shards log
        → (message : Message) → Contains (channel_of shard log) message
        → (program : BegunRequest) → Contains (running_of log) program
        → IsTrue (is_at_most message.low program.stamp.clock) }
{
    clocks_keep_the_laws();
}

/// No clock of a log counts an event of a gatekeeper past the first `gates`, if none that is heard there does.
pub fn clocks_count_none_past()
    ensures own { (gates home shards : ℕ) (log : List GateEntry) → home < gates → IsGateLog home shards log
        → HearsNonePast gates home log → CountsNonePast gates (clock_of home log) }
    ensures each { (gates home shards : ℕ) (log : List GateEntry) → home < gates → IsGateLog home shards log
        → HearsNonePast gates home log
        → (clock : Clock) → Contains (clocks_in log) clock → CountsNonePast gates clock }
{
    clocks_keep_the_laws();
}

// Sessions

/// The requests of a session that have begun, and those that have their replies, are its first ones, in order. The
/// stamps of its begins rise.
pub fn sessions_go_in_turn()
    ensures begun { (number : ℕ) (requests : List ℕ) (log : List SessionEntry) → IsSessionLog number requests log
        → map (λ (begun : ℕ × Stamp). begun.0) (begins_in log) ≡ take (session_of requests log).begun requests }
    ensures replied { (number : ℕ) (requests : List ℕ) (log : List SessionEntry) → IsSessionLog number requests log
        → replied_in log ≡ take (replied_count (session_of requests log)) requests }
    ensures rise { (number : ℕ) (requests : List ℕ) (log : List SessionEntry) → IsSessionLog number requests log
        → StampsRise (map (λ (begun : ℕ × Stamp). begun.1) (begins_in log)) }
{
    stamps_are_ordered();
}

/// Whether a request of a session has begun or has its reply says whether it is among those.
pub fn begun_and_replied_are_decided()
    ensures begun { (request : ℕ) (log : List SessionEntry) → IsTrue (has_begun_in request log)
        ↔ Contains (map (λ (begun : ℕ × Stamp). begun.0) (begins_in log)) request }
    ensures replied { (request : ℕ) (log : List SessionEntry) → IsTrue (has_reply_in request log)
        ↔ Contains (replied_in log) request }
{}

// The store

/// A verdict counts the named vertices, in order of naming.
pub fn verdicts_count_what_is_named()
    ensures { (pairs : List GivenPair) (commits : List Commit) (stamp : Stamp) (ops : List Op)
        → IsCountsOf ops (verdict_on pairs commits stamp ops) }
{}

/// A store's log goes on with each entry that is right after those before it, and its beginnings are logs of the store
/// too.
pub fn a_store_log_goes_on()
    ensures at_first { IsStoreLog [] }
    ensures right { (log : List StoreEntry) (entry : StoreEntry)
        → IsStoreLog log → FitsStore log entry.deed → IsStoreLog (log ++ entry ∷ []) }
    ensures right_before { (log rest : List StoreEntry) → IsStoreLog (log ++ rest) → IsStoreLog log }
{}

/// With one more entry the replay of a store's log goes on by that entry's deed, and with one more commit the graph,
/// and the last commit and the count at each vertex.
pub fn the_store_replay_goes_on()
    ensures judgements { (log : List StoreEntry) (entry : StoreEntry)
        → judgements_of (log ++ entry ∷ []) ≡ judgements_of log ++ judged_by entry.author entry.deed ∷ [] }
    ensures commits { (log : List StoreEntry) (entry : StoreEntry)
        → commits_of (log ++ entry ∷ []) ≡ commits_of log ++ commit_by entry.deed }
    ensures last { (v : Name) (commits : List Commit) (commit : Commit) → last_naming v (commits ++ commit ∷ [])
        ≡ cond (names_vertex v commit) (Some commit) (last_naming v commits) }
    ensures count { (v : Name) (commits : List Commit) (commit : Commit) → count_naming v (commits ++ commit ∷ [])
        ≡ count_naming v commits + cond (names_vertex v commit) 1 0 }
    ensures graph { (commits : List Commit) (commit : Commit)
        → graph_committed (commits ++ commit ∷ []) ≡ graph_with_commit (graph_committed commits) commit }
{}

/// A commit has the next number and the counts of its operations, which pass with its answers on the graph that the
/// commits before it leave. A conflict is with the last commit at a named vertex, which the transaction precedes. A
/// refusal is that of the operations, and has the number of commits before it.
pub fn verdicts_say_what_was_judged()
    ensures number { (pairs : List GivenPair) (commits : List Commit) (stamp : Stamp) (ops : List Op)
        → (number : ℕ) (answers : List Got) (counts : List Counted)
        → verdict_on pairs commits stamp ops ≡ Committed number answers counts → number ≡ length commits + 1 }
    ensures counts { (pairs : List GivenPair) (commits : List Commit) (stamp : Stamp) (ops : List Op)
        → (number : ℕ) (answers : List Got) (counts : List Counted)
        → verdict_on pairs commits stamp ops ≡ Committed number answers counts → counts ≡ counts_of ops commits }
    ensures conflict { (pairs : List GivenPair) (commits : List Commit) (stamp : Stamp) (ops : List Op)
        → (vertex : Name) (newer : ℕ) → verdict_on pairs commits stamp ops ≡ Conflict vertex newer
        → (last : LastCommit) × (last.vertex ≡ vertex) × (last.commit.request ≡ newer)
        × Contains (lasts_of ops commits) last × IsTrue (precedes pairs stamp last.commit.stamp) }
    ensures passes { (pairs : List GivenPair) (commits : List Commit) (stamp : Stamp) (ops : List Op)
        → (number : ℕ) (answers : List Got) (counts : List Counted)
        → verdict_on pairs commits stamp ops ≡ Committed number answers counts
        → (graph : PlainGraph)
        × (transaction ops (graph_committed commits) ≡ Ok (record { graph = graph; gots = answers })) }
    ensures refused { (pairs : List GivenPair) (commits : List Commit) (stamp : Stamp) (ops : List Op)
        → (op : ℕ) (reason : Reason) (at : ℕ) → verdict_on pairs commits stamp ops ≡ Refused op reason at
        → (at ≡ length commits)
        × (transaction ops (graph_committed commits) ≡ Err (record { op = op; reason = reason })) }
{
    precedence_is_decided();
}

// Shards

/// A shard's log goes on with each entry that is right after those before it, and its beginnings are logs of the shard
/// too.
pub fn a_shard_log_goes_on()
    ensures at_first { (gates : ℕ) → IsShardLog gates [] }
    ensures right { (gates : ℕ) (log : List ShardEntry) (entry : ShardEntry)
        → IsShardLog gates log → FitsShard gates log entry.deed → IsShardLog gates (log ++ entry ∷ []) }
    ensures right_before { (gates : ℕ) (log rest : List ShardEntry)
        → IsShardLog gates (log ++ rest) → IsShardLog gates log }
{}

/// With one more entry the replay of a shard's log goes on by that entry's deed.
pub fn the_shard_replay_goes_on()
    ensures arrivals { (log : List ShardEntry) (entry : ShardEntry)
        → arrivals_of (log ++ entry ∷ []) ≡ arrivals_of log ++ arrival_by entry.deed }
    ensures processed { (log : List ShardEntry) (entry : ShardEntry)
        → processed_of (log ++ entry ∷ []) ≡ processed_of log ++ processed_by entry.deed }
    ensures visits { (log : List ShardEntry) (entry : ShardEntry)
        → visits_of (log ++ entry ∷ []) ≡ visits_of log ++ visit_by entry.author entry.deed }
    ensures dropped { (v : Name) (log : List ShardEntry) (entry : ShardEntry)
        → dropped_of v (log ++ entry ∷ []) ≡ dropped_after v log entry.deed (dropped_of v log) }
{}

/// If enough is kept, a program sees the same number of updates of a vertex, and the same last one, as if all were.
pub fn kept_updates_are_read_like_all()
    ensures updates { (pairs : List GivenPair) (program : Stamp) (v : Name) (log : List ShardEntry)
        → IsKeptFor program v log → updates_read pairs program v log ≡ seen_of pairs program (update_stamps v log) }
    ensures last { (pairs : List GivenPair) (program : Stamp) (v : Name) (log : List ShardEntry)
        → IsKeptFor program v log → last_read pairs program v log
        ≡ last_seen (seen_of pairs program (update_stamps v log)) (update_stamps v log) }
{}

/// A message that arrived stays under its number. It is there once it arrives, and no other deed and no other message
/// changes that.
pub fn arrivals_stay()
    ensures stay { (log : List ShardEntry) (entry : ShardEntry) (gate number : ℕ) (message : Message)
        → arrived_at gate number log ≡ Some message → arrived_at gate number (log ++ entry ∷ []) ≡ Some message }
    ensures new { (log : List ShardEntry) (author gate number : ℕ) (message : Message)
        → arrived_at gate number log ≡ None
        → arrived_at gate number (log ++ record { author = author; deed = Arrived gate number message } ∷ [])
        ≡ Some message }
    ensures others { (log : List ShardEntry) (author gate number : ℕ) (message : Message) (at_gate at_number : ℕ)
        → ((gate ≡ at_gate) × (number ≡ at_number) → ⊥)
        → arrived_at at_gate at_number (log ++ record { author = author; deed = Arrived gate number message } ∷ [])
        ≡ arrived_at at_gate at_number log }
    ensures still { (log : List ShardEntry) (entry : ShardEntry) → arrival_by entry.deed ≡ []
        → (gate number : ℕ) → arrived_at gate number (log ++ entry ∷ []) ≡ arrived_at gate number log }
{}

/// Each message that was processed had arrived. Processing one makes its channel's processed number one more, and its
/// parts the last updates of their vertices. No other deed changes either.
pub fn updates_go_on()
    ensures arrived { (gates : ℕ) (log : List ShardEntry) → IsShardLog gates log
        → (of : ℕ × ℕ) → Contains (processed_of log) of → is_some (arrived_at of.0 of.1 log) ≡ true }
    ensures few { (gate : ℕ) (log : List ShardEntry) → processed_count gate log ≤ length log }
    ensures count { (log : List ShardEntry) (author gate number at_gate : ℕ)
        → processed_count at_gate (log ++ record { author = author; deed = Applied gate number } ∷ [])
        ≡ processed_count at_gate log + cond (gate == at_gate) 1 0 }
    ensures count_still { (log : List ShardEntry) (entry : ShardEntry) → processed_by entry.deed ≡ []
        → (gate : ℕ) → processed_count gate (log ++ entry ∷ []) ≡ processed_count gate log }
    ensures applied { (gates : ℕ) (log : List ShardEntry) (author gate number : ℕ) (head : Message) (v : Name)
        → IsShardLog gates log → arrived_at gate number log ≡ Some head
        → updates_of v (log ++ record { author = author; deed = Applied gate number } ∷ [])
        ≡ updates_of v log ++ updates_in v head }
    ensures still { (gates : ℕ) (log : List ShardEntry) (entry : ShardEntry) (v : Name)
        → IsShardLog gates log → processed_by entry.deed ≡ []
        → updates_of v (log ++ entry ∷ []) ≡ updates_of v log }
{}

// The oracle

/// The oracle's entries are those of a judge's log.
pub fn oracle_entries_are_a_judges()
    ensures there { (entry : SettledEntry) → settled_entry (oracle_entry_of entry) ≡ entry }
    ensures back { (entry : OracleEntry) → oracle_entry_of (settled_entry entry) ≡ entry }
{}

/// An oracle's log goes on with each right entry, which adds the pairs of the oracle's rule; its beginnings are logs of
/// an oracle too.
pub fn an_oracle_log_goes_on()
    ensures at_first { IsOracleLog [] }
    ensures right { (log : List OracleEntry) (entry : OracleEntry) → IsOracleLog log
        → IsRightEntry (pairs_of_log log) (settled_entry entry) → IsOracleLog (log ++ entry ∷ []) }
    ensures right_before { (log rest : List OracleEntry) → IsOracleLog (log ++ rest) → IsOracleLog log }
    ensures pairs { (log : List OracleEntry) (entry : OracleEntry)
        → pairs_of_log (log ++ entry ∷ []) ≡ pairs_of_log log ++ pairs_of_entry (settled_entry entry) }
    ensures added { (pairs : List GivenPair) (entry : SettledEntry) → IsRightEntry pairs entry
        → pairs_of_entry entry ≡ pairs_of (additions_from 0 pairs entry.earlier entry.later) entry.later }
{
    settling_puts_all_before();
    no_cycle_arises();
}

/// No event precedes itself by the pairs of an oracle's log. Each pair is of two events that their stamps leave
/// unordered.
pub fn an_oracle_log_has_no_cycle()
    ensures acyclic { (log : List OracleEntry) → IsOracleLog log → IsAcyclic (pairs_of_log log) }
    ensures unordered { (log : List OracleEntry) → IsOracleLog log → (a b : Stamp) → Contains (pairs_of_log log) (a, b)
        → IsTrue (unordered a b) }
    ensures of_two { (log : List OracleEntry) → IsOracleLog log → (a b : Stamp) → Contains (pairs_of_log log) (a, b)
        → id_of a ≢ id_of b }
{
    settling_puts_all_before();
    no_cycle_arises();
}
