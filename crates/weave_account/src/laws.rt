//! What follows for the report of an account, as contracts over the logs alone.
ghost use Rattle.std.specs.Prelude.{◌≡◌, ◌≢◌, ◌↔◌, ◌⊎◌, ℕ, ◌<◌, ◌≤◌, Bool, false, List, [], ◌∷◌, ◌++◌, map, take, drop, length, not, ◌+◌, ◌-◌, ◌^◌, ◌==◌, AllPairs, Contains, IsTrue, IsSomeAnd, None, Some};
ghost use Rattle.std.specs.List.{flat_map};
ghost use Rattle.vector_stamp.specs.declared.clock.Stamp.{Stamp};
ghost use Rattle.vector_stamp.specs.Clocks.{clock_after_hearing, clock_after_tick, counts_no_more, meet_of};
ghost use Rattle.vector_stamp.specs.Coherence.{AreCoherent};
ghost use Rattle.vector_stamp.specs.Order.{id_of, is_at_most};
ghost use Rattle.vector_stamp.specs.declared.clock.Clock.{Clock};
ghost use Rattle.vector_stamp.specs.Precedence.{GivenPair, IsAcyclic, JoinsEvents};
ghost use Rattle.vector_stamp.specs.Settling.{SettledEntry};
ghost use Rattle.weave_data.specs.declared.name.Name.{Name};
ghost use Rattle.weave_data.specs.Names.{shard_of};
ghost use Rattle.graph_ops.specs.declared.part.Part.{Part};
ghost use Rattle.graph_ops.specs.Operations.{State};
ghost use Rattle.weave_entries.specs.declared.message.Addressed.{Addressed};
ghost use Rattle.weave_entries.specs.declared.message.Message.{Message};
ghost use Rattle.weave_entries.specs.declared.gate_log.GateEntry.{GateEntry};
ghost use Rattle.weave_entries.specs.declared.gate_log.GateDeed.{GateDeed};
ghost use Rattle.weave_entries.specs.declared.store_log.StoreEntry.{StoreEntry};
ghost use Rattle.weave_entries.specs.declared.session_log.SessionDeed.{SessionDeed};
ghost use Rattle.weave_entries.specs.declared.shard_log.ShardDeed.{ShardDeed};
ghost use Rattle.weave_entries.specs.declared.shard_log.ShardEntry.{ShardEntry};
ghost use Rattle.weave_entries.specs.declared.shard_log.ShardDeed.TheVariants.{Collected, Visited};
ghost use Rattle.weave_entries.specs.declared.oracle_log.OracleEntry.{OracleEntry};
ghost use Rattle.weave_entries.specs.GateReplay.{BegunRequest, addressed_to, clock_of, flight_of, has_ended_in, low_mark, running_of, ticks_of};
ghost use Rattle.weave_entries.specs.GateRules.{BeginsEachOnce, IsGateLog};
ghost use Rattle.weave_entries.specs.SessionReplay.{begins_in, has_begun_in, has_reply_in, next_request, session_of};
ghost use Rattle.weave_entries.specs.Sending.{IsCountsOf};
ghost use Rattle.weave_entries.specs.OracleReplay.{settled_entry};
ghost use Rattle.weave_entries.specs.ShardReplay.{Update, Visit, arrived_at, bound_of, head_of, reads_in, visits_of, updates_of, waits_at};
ghost use Rattle.weave_entries.specs.ShardRules.{IsKeptFor, IsTakable, PassesAt, dropped_of};
ghost use Rattle.weave_entries.specs.StoreReplay.{Commit, Judgement, judgements_of, commit_by, commits_naming, commits_of, count_naming, names_vertex};
ghost use Rattle.weave_entries.specs.StoreRule.{IsStoreLog};
ghost use Rattle.program_defs.specs.declared.program.Program.{Program};
ghost use Rattle.program_defs.specs.declared.script.Request.{Request};
ghost use Rattle.program_defs.specs.declared.script.Script.{Script};
ghost use Rattle.program_defs.specs.Works.{is_change, is_look};
ghost use Rattle.program_defs.specs.declared.script.Work.TheVariants.{Change};
ghost use Rattle.weave_data.specs.Facts.{AllHold};
ghost use Rattle.weave_data.specs.Limits.{most_gates};
ghost use Rattle.report_rules.specs.declared.report.Pair.{Pair};
ghost use Rattle.report_rules.specs.declared.report.Report.{Report};
ghost use Rattle.report_rules.specs.Lookups.{EveryReplyIsFinal, RequestPrecedes, is_in, is_some_and, request_at};
ghost use Rattle.report_rules.specs.Replay.{graph_at_place};
ghost use Rattle.report_rules.specs.Meetings.{MeetingsAreOrdered, PhasesAreKept};
ghost use Rattle.report_rules.specs.PrintedOrder.{IsInPrintedOrder};
ghost use Rattle.report_rules.specs.ReportOf.{IsReportOf};
ghost use Rattle.report_rules.specs.RightReport.{IsRightReport, replies_clause};
ghost use Rattle.weave_account.specs.declared.account.Account.{Account};
ghost use Rattle.weave_account.specs.Account.{IsBegunStamp, Precedence, all_begun, begun_stamps, commits_in, gate_log, is_ended, pairs_in, reads_of, session_log, shard_log, stamp_of};
ghost use Rattle.weave_account.specs.IsAccount.{IsAccount};
ghost use Rattle.program_defs.specs.Limits.{IsWithinLimits};
ghost use Rattle.weave_account.specs.NoLogs.{no_logs};
ghost use Rattle.weave_account.specs.Channels.{SendsAs};
ghost use Rattle.weave_account.specs.Clocks.{IsKnown};
ghost use Rattle.weave_account.specs.Collection.{IsBeforeABound};
ghost use Rattle.weave_account.specs.Gatekeepers.{BeginEachOnce, BeginsAs, last_stamp, request_before};
ghost use Rattle.weave_account.specs.GoesOn.{GoesOn, IsBeginningOf, visits_by};
ghost use Rattle.weave_account.specs.OnTheWay.{IsOnTheWay};
ghost use Rattle.weave_account.specs.OpenRequests.{IsOpenAt};
ghost use Rattle.weave_account.specs.Oracle.{HasItsEntry, IsAskedByCommit, IsAskedByVisit, marked_in};
ghost use Rattle.weave_account.specs.Pairs.{ArePairsOf, IsPairInAccount};
ghost use Rattle.weave_account.specs.PairsByPlace.{placed_pairs};
ghost use Rattle.weave_account.specs.Phases.{IsRunByPhases};
ghost use Rattle.weave_account.specs.Programs.{ReadsInTurn};
ghost use Rattle.weave_account.specs.Seen.{HasSeen, HasSeenSent, HavePassed, IsMade};
ghost use Rattle.weave_account.specs.Sessions.{RepliesAs, requests_of_session};
ghost use Rattle.weave_account.specs.Store.{InTurn, Judges};
ghost use Rattle.weave_account.specs.Shards.{ShardFitsAs, update_of};
ghost use Rattle.weave_account.specs.Report.{MatchesAccount, IsReportOfAccount};

use crate::lower_laws::the_crates_below_keep_their_laws;
use weave_entries::laws::{verdicts_say_what_was_judged, what_has_not_ended_goes_on};

/// The report of an account is right, a report of the script, and in the printed order. Of two requests that meet one
/// precedes the other.
pub fn account_is_right()
    ensures right { (script : Script) (account : Account) (report : Report) → IsWithinLimits script
        → IsAccount script account → IsReportOfAccount script account report → IsRightReport script report }
    ensures of_the_script { (script : Script) (account : Account) (report : Report) → IsWithinLimits script
        → IsAccount script account → IsReportOfAccount script account report → IsReportOf script report }
    ensures in_printed_order { (script : Script) (account : Account) (report : Report)
        → IsReportOfAccount script account report → IsInPrintedOrder report }
    ensures meetings { (script : Script) (account : Account) (report : Report) → IsWithinLimits script
        → IsAccount script account → IsReportOfAccount script account report → MeetingsAreOrdered script report }
{
    the_crates_below_keep_their_laws();
}

/// An account has one report: one list of replies, one of pairs, and one order.
pub fn account_has_one_report()
    ensures replies { (script : Script) (account : Account) (a b : Report) → IsWithinLimits script
        → IsAccount script account → IsReportOfAccount script account a → IsReportOfAccount script account b
        → a.replies ≡ b.replies }
    ensures pairs { (script : Script) (account : Account) (a b : Report) → IsWithinLimits script
        → IsAccount script account → IsReportOfAccount script account a → IsReportOfAccount script account b
        → a.pairs ≡ b.pairs }
    ensures order { (script : Script) (account : Account) (a b : Report) → IsWithinLimits script
        → IsAccount script account → IsReportOfAccount script account a → IsReportOfAccount script account b
        → a.order ≡ b.order }
{
    the_crates_below_keep_their_laws();
}

/// The report of a run by phases keeps the phases: no request of a later phase precedes one of an earlier phase, and
/// conflicts, commit numbers and refusals keep them too.
pub fn phases_are_kept()
    ensures { (script : Script) (account : Account) (report : Report) → IsWithinLimits script
        → IsAccount script account → IsRunByPhases script account → IsReportOfAccount script account report
        → PhasesAreKept script report }
{
    the_crates_below_keep_their_laws();
}

/// If each request has its reply in its session's log, each reply of the report is final.
pub fn replied_requests_are_final()
    ensures { (script : Script) (account : Account) (report : Report) → IsWithinLimits script
        → IsAccount script account → MatchesAccount script account report
        → ((r : ℕ) (request : Request) → request_at script r ≡ Some request
        → IsTrue (has_reply_in r (session_log account request.session)))
        → EveryReplyIsFinal report }
{
    the_crates_below_keep_their_laws();
}

/// A program is finished exactly if its session has its reply.
pub fn finished_exactly_if_replied()
    ensures { (script : Script) (account : Account) → IsWithinLimits script → IsAccount script account
        → (r : ℕ) (request : Request) → request_at script r ≡ Some request → IsTrue (is_look request.work)
        → IsTrue (is_ended account r) ↔ IsTrue (has_reply_in r (session_log account request.session)) }
{
    the_crates_below_keep_their_laws();
}

/// The printed order of an account's report may be asked for: the clause on replies holds, and no request precedes
/// itself.
pub fn account_may_be_ordered()
    ensures replies { (script : Script) (account : Account) (report : Report) → IsWithinLimits script
        → IsAccount script account → MatchesAccount script account report → AllHold (replies_clause script report) }
    ensures acyclic { (script : Script) (account : Account) (report : Report) → IsWithinLimits script
        → IsAccount script account → MatchesAccount script account report
        → (r : ℕ) → ¬ RequestPrecedes report r r }
{
    the_crates_below_keep_their_laws();
}

/// Empty logs are an account: where a run starts.
pub fn empty_logs_are_an_account()
    ensures { (script : Script) → IsAccount script (no_logs script) }
{}

/// The stamps of all begun requests are coherent, and no two have one id: in an account, and as far as the gatekeepers'
/// logs were seen. No event precedes itself.
pub fn begun_stamps_are_coherent()
    ensures coherent { (script : Script) (account : Account) → IsWithinLimits script → IsAccount script account
        → AreCoherent (begun_stamps account) }
    ensures seen { (shards : ℕ) (seen : Account) → length seen.gates ≤ most_gates
        → ((home : ℕ) → IsGateLog home shards (gate_log seen home))
        → AreCoherent (begun_stamps seen) }
    ensures acyclic { (script : Script) (account : Account) → IsWithinLimits script → IsAccount script account
        → IsAcyclic (pairs_in account) }
    ensures ids_differ { (script : Script) (account : Account) → IsWithinLimits script → IsAccount script account
        → AllPairs (λ (a b : BegunRequest). id_of a.stamp ≢ id_of b.stamp) (all_begun account) }
    ensures differ { (script : Script) (account : Account) → IsWithinLimits script → IsAccount script account
        → (a b : BegunRequest) → Contains (all_begun account) a → Contains (all_begun account) b → a.request ≢ b.request
        → id_of a.stamp ≢ id_of b.stamp }
    ensures seen_ids { (shards : ℕ) (seen : Account) → length seen.gates ≤ most_gates
        → ((home : ℕ) → IsGateLog home shards (gate_log seen home))
        → AllPairs (λ (a b : BegunRequest). id_of a.stamp ≢ id_of b.stamp) (all_begun seen) }
{
    the_crates_below_keep_their_laws();
}

/// The stamps in the logs of store, oracle, shards and sessions are those of begun requests.
pub fn stamps_are_begun()
    ensures judged { (script : Script) (account : Account) → IsWithinLimits script → IsAccount script account
        → (judged : Judgement) → Contains (judgements_of account.store) judged → IsBegunStamp account judged.stamp }
    ensures paired { (script : Script) (account : Account) → IsWithinLimits script → IsAccount script account
        → JoinsEvents (begun_stamps account) (pairs_in account) }
    ensures settled { (script : Script) (account : Account) → IsWithinLimits script → IsAccount script account
        → (entry : OracleEntry) → Contains account.oracle entry
        → (stamp : Stamp) → Contains ((settled_entry entry).later ∷ (settled_entry entry).earlier) stamp
        → IsBegunStamp account stamp }
    ensures updates { (script : Script) (account : Account) → IsWithinLimits script → IsAccount script account
        → (v : Name) (shard : ℕ) (update : Update) → Contains (updates_of v (shard_log account shard)) update
        → IsBegunStamp account update.stamp }
    ensures visits { (script : Script) (account : Account) → IsWithinLimits script → IsAccount script account
        → (shard : ℕ) (visit : Visit) → Contains (visits_of (shard_log account shard)) visit
        → IsBegunStamp account visit.stamp }
    ensures last { (script : Script) (account : Account) → IsWithinLimits script → IsAccount script account
        → (session : ℕ) (stamp : Stamp) → (session_of [] (session_log account session)).last ≡ Some stamp
        → IsBegunStamp account stamp }
{
    the_crates_below_keep_their_laws();
}

/// What was judged is the transaction of its request, begun by its author with its stamp, and its verdict counts the
/// vertices that it names. It comes before the transaction of its session that is in flight.
pub fn judgements_are_of_requests()
    ensures work { (script : Script) (account : Account) → IsWithinLimits script → IsAccount script account
        → (judged : Judgement) → Contains (judgements_of account.store) judged
        → IsSomeAnd (request_at script judged.request) (λ (request : Request). request.work ≡ Change judged.ops) }
    ensures begun { (script : Script) (account : Account) → IsWithinLimits script → IsAccount script account
        → (judged : Judgement) → Contains (judgements_of account.store) judged → Contains (all_begun account)
        (record { author = judged.author; request = judged.request; stamp = judged.stamp }) }
    ensures counts { (script : Script) (account : Account) → IsWithinLimits script → IsAccount script account
        → (judged : Judgement) → Contains (judgements_of account.store) judged
        → IsCountsOf judged.ops judged.verdict }
    ensures before { (script : Script) (account : Account) → IsWithinLimits script → IsAccount script account
        → (home : ℕ) (flight : BegunRequest) → flight_of (gate_log account home) ≡ Some flight
        → (judged : Judgement) → Contains (judgements_of account.store) judged → judged.request ≢ flight.request
        → InTurn script judged.request flight.request }
{
    the_crates_below_keep_their_laws();
}

/// At each gatekeeper a request begins once. What is in flight is a transaction of its gatekeeper's, and a transaction
/// that has begun was sent unless it is in flight.
pub fn requests_end_or_go_on()
    ensures once { (script : Script) (account : Account) → IsWithinLimits script → IsAccount script account
        → (home : ℕ) → BeginsEachOnce (gate_log account home) }
    ensures flights { (script : Script) (account : Account) → IsWithinLimits script → IsAccount script account
        → (home : ℕ) (flight : BegunRequest) → flight_of (gate_log account home) ≡ Some flight
        → IsSomeAnd (request_at script flight.request)
        (λ (request : Request). (request.gate ≡ home) × IsTrue (is_change request.work)) }
    ensures sent { (script : Script) (account : Account) → IsWithinLimits script → IsAccount script account
        → (r : ℕ) (request : Request) → request_at script r ≡ Some request → IsTrue (is_change request.work)
        → IsTrue (has_begun_in r (session_log account request.session))
        → has_ended_in r (gate_log account request.gate) ≡ not (is_some_and
        (λ (flight : BegunRequest). flight.request == r) (flight_of (gate_log account request.gate))) }
{
    the_crates_below_keep_their_laws();
}

/// What a gatekeeper's log leaves unsent and unfinished is known by the sessions that began it: the programs that run
/// are those that have begun and have no reply; the transaction in flight is the one that has begun and was not sent.
pub fn sessions_have_what_is_open()
    ensures programs { (script : Script) (account : Account) → IsWithinLimits script → IsAccount script account
        → (home : ℕ) (begun : BegunRequest) → Contains (running_of (gate_log account home)) begun
        → IsOpenAt script account home is_look begun }
    ensures no_other_programs { (script : Script) (account : Account) → IsWithinLimits script
        → IsAccount script account → (r : ℕ) (request : Request) → request_at script r ≡ Some request
        → IsTrue (is_look request.work) → IsTrue (has_begun_in r (session_log account request.session))
        → has_reply_in r (session_log account request.session) ≡ false
        → (begun : BegunRequest) × Contains (running_of (gate_log account request.gate)) begun
        × (begun.request ≡ r) × (stamp_of account r ≡ Some begun.stamp) }
    ensures flight { (script : Script) (account : Account) → IsWithinLimits script → IsAccount script account
        → (home : ℕ) (begun : BegunRequest) → flight_of (gate_log account home) ≡ Some begun
        → IsOpenAt script account home is_change begun }
    ensures no_other_flight { (script : Script) (account : Account) → IsWithinLimits script
        → IsAccount script account → (r : ℕ) (request : Request) → request_at script r ≡ Some request
        → IsTrue (is_change request.work) → IsTrue (has_begun_in r (session_log account request.session))
        → has_ended_in r (gate_log account request.gate) ≡ false
        → (begun : BegunRequest) × (flight_of (gate_log account request.gate) ≡ Some begun)
        × (begun.request ≡ r) }
{
    the_crates_below_keep_their_laws();
    what_has_not_ended_goes_on();
}

/// The requests of a session rise, and each request is one of its session. The request before it there is an earlier
/// one.
pub fn requests_of_a_session_rise()
    ensures rise { (script : Script) (session : ℕ)
        → AllPairs (λ (a b : ℕ). a < b) (requests_of_session script session) }
    ensures among { (script : Script) (r : ℕ) (request : Request) → request_at script r ≡ Some request
        → Contains (requests_of_session script request.session) r }
    ensures earlier { (script : Script) (r before : ℕ) → request_before script r ≡ Some before → before < r }
{}

/// A session's next request begins after what the session's log began last, which is the request before it in the
/// script.
pub fn sessions_follow_gatekeepers()
    ensures { (script : Script) (account : Account) → IsWithinLimits script → IsAccount script account
        → (r : ℕ) (request : Request) → request_at script r ≡ Some request
        → let log = session_log account request.session in
        next_request (session_of (requests_of_session script request.session) log) ≡ Some r
        → last_stamp script account r ≡ (session_of [] log).last }
{
    the_crates_below_keep_their_laws();
}

/// The clocks of all logs are known, and that of each gatekeeper. A gatekeeper may hear each known clock: it counts no
/// more of its events than it made. Hearing, meets and low marks keep what is known, in any logs, and so does a tick
/// that was made.
pub fn clocks_are_known()
    ensures gatekeepers { (script : Script) (account : Account) → IsWithinLimits script → IsAccount script account
        → (home : ℕ) → IsKnown account (clock_of home (gate_log account home)) }
    ensures begun { (script : Script) (account : Account) → IsWithinLimits script → IsAccount script account
        → (begun : BegunRequest) → Contains (all_begun account) begun → IsKnown account begun.stamp.clock }
    ensures judged { (script : Script) (account : Account) → IsWithinLimits script → IsAccount script account
        → (judged : Judgement) → Contains (judgements_of account.store) judged → IsKnown account judged.stamp.clock }
    ensures settled { (script : Script) (account : Account) → IsWithinLimits script → IsAccount script account
        → (entry : OracleEntry) → Contains account.oracle entry
        → (stamp : Stamp) → Contains ((settled_entry entry).later ∷ (settled_entry entry).earlier) stamp
        → IsKnown account stamp.clock }
    ensures messages { (script : Script) (account : Account) → IsWithinLimits script → IsAccount script account
        → (shard home number : ℕ) (message : Message) → arrived_at home number (shard_log account shard) ≡ Some message
        → IsKnown account message.stamp.clock × IsKnown account message.low }
    ensures visits { (script : Script) (account : Account) → IsWithinLimits script → IsAccount script account
        → (shard : ℕ) (visit : Visit) → Contains (visits_of (shard_log account shard)) visit
        → IsKnown account visit.stamp.clock }
    ensures bounds { (script : Script) (account : Account) → IsWithinLimits script → IsAccount script account
        → (shard : ℕ) (bound : Clock) → bound_of script.gates (shard_log account shard) ≡ Some bound
        → IsKnown account bound }
    ensures sessions { (script : Script) (account : Account) → IsWithinLimits script → IsAccount script account
        → (session r : ℕ) (stamp : Stamp) → Contains (begins_in (session_log account session)) (r, stamp)
        → IsKnown account stamp.clock }
    ensures collected { (script : Script) (account : Account) → IsWithinLimits script → IsAccount script account
        → (shard : ℕ) (before after : List ShardEntry) (author : ℕ) (bound : Clock) → shard_log account shard
        ≡ before ++ record { author = author; deed = Collected (Some bound) } ∷ after → IsKnown account bound }
    ensures sent { (script : Script) (account : Account) → IsWithinLimits script → IsAccount script account
        → (shard home : ℕ) (addressed : Addressed) → Contains (addressed_to shard (gate_log account home)) addressed
        → IsKnown account addressed.message.stamp.clock × IsKnown account addressed.message.low }
    ensures may_be_heard { (shards home : ℕ) (account : Account) → home < most_gates
        → IsGateLog home shards (gate_log account home) → (clock : Clock) → IsKnown account clock
        → IsTrue (counts_no_more home (clock_of home (gate_log account home)) clock) }
    ensures heard { (account : Account) (home : ℕ) → home < most_gates → (clock heard : Clock) → IsKnown account clock
        → IsKnown account heard → IsKnown account (clock_after_hearing home clock heard) }
    ensures met { (account : Account) (a b : Clock) → IsKnown account a → IsKnown account b
        → IsKnown account (meet_of a b) }
    ensures low { (account : Account) (stamp : Stamp) (running : List BegunRequest) → IsKnown account stamp.clock
        → ((begun : BegunRequest) → Contains running begun → IsKnown account begun.stamp.clock)
        → IsKnown account (low_mark stamp running) }
    ensures ticked { (script : Script) (account next : Account) → GoesOn account next → (home : ℕ) → home < most_gates
        → (clock : Clock) → IsKnown account clock
        → ticks_of clock.epoch (gate_log next home) ≡ ticks_of clock.epoch (gate_log account home) + 1
        → IsKnown next (clock_after_tick home clock) }
{
    the_crates_below_keep_their_laws();
}

/// Of two commits that name a vertex the earlier one precedes the later one.
pub fn commits_are_ordered()
    ensures { (script : Script) (account : Account) → IsWithinLimits script → IsAccount script account → (v : Name)
        → AllPairs (λ (a b : Commit). Precedence account a.stamp b.stamp) (commits_naming v (commits_in account)) }
{
    the_crates_below_keep_their_laws();
}

/// An account has what the laws on heads, updates and collections need: what a hand can have seen of it in a hold.
pub fn accounts_were_seen()
    ensures shards { (script : Script) (account : Account) → IsWithinLimits script → IsAccount script account
        → (shard : ℕ) → HasSeen script.shards account.store shard (shard_log account shard) }
    ensures channels { (script : Script) (account : Account) → IsWithinLimits script → IsAccount script account
        → (shard home : ℕ) (addressed : Addressed) → Contains (addressed_to shard (gate_log account home)) addressed
        → IsMade script.shards account.store shard addressed.message }
    ensures sent { (script : Script) (account : Account) → IsWithinLimits script → IsAccount script account
        → (shard : ℕ) → HasSeenSent script.gates script.shards account shard (shard_log account shard) }
{
    the_crates_below_keep_their_laws();
}

/// Each commit in a store's log passed after the commits before it. This much of what a hand has seen is known of the
/// store alone.
pub fn store_logs_have_passed()
    ensures { (store : List StoreEntry) → IsStoreLog store → HavePassed store }
{
    verdicts_say_what_was_judged();
}

/// The updates applied to a vertex are the first commits that name it, in the order of their numbers: in an account,
/// and by what was seen of the store's log.
pub fn updates_are_commits()
    ensures seen { (shards : ℕ) (store : List StoreEntry) (shard : ℕ) (log : List ShardEntry)
        → HasSeen shards store shard log → (v : Name) → shard_of v shards ≡ shard → updates_of v log
        ≡ map (update_of v) (take (length (updates_of v log)) (commits_naming v (commits_of store))) }
    ensures whole { (script : Script) (account : Account) → IsWithinLimits script → IsAccount script account
        → (v : Name) → let updates = updates_of v (shard_log account (shard_of v script.shards)) in
        updates ≡ map (update_of v) (take (length updates) (commits_naming v (commits_in account))) }
{
    the_crates_below_keep_their_laws();
}

/// A head of a channel whose counts agree passes on the newest states of its vertices, which its shard keeps: in an
/// account, and by what was seen of the store's log.
pub fn heads_pass()
    ensures seen_passes { (shards : ℕ) (store : List StoreEntry) (shard : ℕ) (log : List ShardEntry)
        → HasSeen shards store shard log → (home : ℕ) (head : Message) → head_of home log ≡ Some head
        → waits_at head log ≡ None → PassesAt log head }
    ensures seen_kept_here { (shards : ℕ) (store : List StoreEntry) (shard : ℕ) (log : List ShardEntry)
        → HasSeen shards store shard log → (home : ℕ) (head : Message) → head_of home log ≡ Some head
        → (part : Part) → Contains head.parts part → shard_of part.vertex shards ≡ shard }
    ensures passes { (script : Script) (account : Account) → IsWithinLimits script → IsAccount script account
        → (shard home : ℕ) (head : Message) → head_of home (shard_log account shard) ≡ Some head
        → waits_at head (shard_log account shard) ≡ None → PassesAt (shard_log account shard) head }
    ensures kept_here { (script : Script) (account : Account) → IsWithinLimits script → IsAccount script account
        → (shard home : ℕ) (head : Message) → head_of home (shard_log account shard) ≡ Some head
        → (part : Part) → Contains head.parts part → shard_of part.vertex script.shards ≡ shard }
{
    the_crates_below_keep_their_laws();
}

/// A message that was sent can be taken by its shard: its vertices are distinct, its counts are at most the number of
/// commits, and the shard keeps its vertices. So can each message that is made of a judgement that was seen.
pub fn messages_can_be_taken()
    ensures seen_apart { (shards : ℕ) (store : List StoreEntry) (shard : ℕ) (log : List ShardEntry)
        → HasSeen shards store shard log → (message : Message) → IsMade shards store shard message
        → AllPairs (λ (one other : Part). one.vertex ≢ other.vertex) message.parts }
    ensures seen_counted { (shards : ℕ) (store : List StoreEntry) (shard : ℕ) (log : List ShardEntry)
        → HasSeen shards store shard log → (message : Message) → IsMade shards store shard message
        → (part : Part) → Contains message.parts part → part.before ≤ length (commits_of store) }
    ensures seen_kept_here { (shards : ℕ) (store : List StoreEntry) (shard : ℕ) (message : Message)
        → IsMade shards store shard message
        → (part : Part) → Contains message.parts part → shard_of part.vertex shards ≡ shard }
    ensures seen_takable { (shards : ℕ) (store : List StoreEntry) (shard : ℕ) (log : List ShardEntry)
        → HasSeen shards store shard log → length (commits_of store) < 2 ^ 64 - 1
        → (message : Message) → IsMade shards store shard message → IsTakable message }
    ensures takable { (script : Script) (account : Account) → IsWithinLimits script → IsAccount script account
        → length (commits_in account) < 2 ^ 64 - 1 → (shard home : ℕ) (addressed : Addressed)
        → Contains (addressed_to shard (gate_log account home)) addressed → IsTakable addressed.message }
    ensures apart { (script : Script) (account : Account) → IsWithinLimits script → IsAccount script account
        → (shard home : ℕ) (addressed : Addressed) → Contains (addressed_to shard (gate_log account home)) addressed
        → AllPairs (λ (one other : Part). one.vertex ≢ other.vertex) addressed.message.parts }
    ensures counted { (script : Script) (account : Account) → IsWithinLimits script → IsAccount script account
        → (shard home : ℕ) (addressed : Addressed) → Contains (addressed_to shard (gate_log account home)) addressed
        → (part : Part) → Contains addressed.message.parts part → part.before ≤ length (commits_in account) }
    ensures kept_here { (script : Script) (account : Account) → IsWithinLimits script → IsAccount script account
        → (shard home : ℕ) (addressed : Addressed) → Contains (addressed_to shard (gate_log account home)) addressed
        → (part : Part) → Contains addressed.message.parts part → shard_of part.vertex script.shards ≡ shard }
{
    the_crates_below_keep_their_laws();
}

/// Each commit is on its way to the shard of each vertex that it names: it is in flight, or its message is on the
/// channel with the number of commits at the vertex before it.
pub fn commits_are_on_the_way()
    ensures { (script : Script) (account : Account) → IsWithinLimits script → IsAccount script account
        → (before after : List StoreEntry) (entry : StoreEntry) → account.store ≡ before ++ entry ∷ after
        → (commit : Commit) → commit_by entry.deed ≡ commit ∷ [] → (v : Name) → IsTrue (names_vertex v commit)
        → IsOnTheWay script account commit v (count_naming v (commits_of before)) }
{
    the_crates_below_keep_their_laws();
}

/// Of the commits that name a vertex, a program's visit saw those that precede it: the first ones. The program
/// precedes all others, whether the shard had applied them or not.
pub fn visits_see_what_precedes()
    ensures seen { (script : Script) (account : Account) → IsWithinLimits script → IsAccount script account
        → (shard : ℕ) (before after : List ShardEntry) (author r updates : ℕ) (stamp : Stamp) (v : Name)
        → (settled : Bool) → shard_log account shard
        ≡ before ++ record { author = author; deed = Visited r stamp v updates settled } ∷ after
        → (commit : Commit) → Contains (take updates (commits_naming v (commits_in account))) commit
        → Precedence account commit.stamp stamp }
    ensures others { (script : Script) (account : Account) → IsWithinLimits script → IsAccount script account
        → (shard : ℕ) (before after : List ShardEntry) (author r updates : ℕ) (stamp : Stamp) (v : Name)
        → (settled : Bool) → shard_log account shard
        ≡ before ++ record { author = author; deed = Visited r stamp v updates settled } ∷ after
        → (commit : Commit) → Contains (drop updates (commits_naming v (commits_in account))) commit
        → Precedence account stamp commit.stamp }
{
    the_crates_below_keep_their_laws();
}

/// What a listed program read is the graph at its place in the order.
pub fn programs_read_the_graph_at_their_place()
    ensures { (script : Script) (account : Account) (report : Report) → IsWithinLimits script
        → IsAccount script account → IsReportOfAccount script account report
        → (r : ℕ) → IsTrue (is_in r report.order) → (read : Name × State) → Contains (reads_of account r) read
        → read.1 ≡ graph_at_place script report r read.0 }
{
    the_crates_below_keep_their_laws();
}

/// Collections leave what running programs see. A shard's bound is at most the stamp of each program that is running.
/// If a shard dropped versions of a vertex, the oldest one that it keeps is before a bound, and before each such
/// program. So it is in an account, and by what was seen of the logs of gatekeepers and store.
pub fn collections_leave_what_programs_see()
    ensures seen_bounds { (gates shards : ℕ) (seen : Account) (shard : ℕ) (log : List ShardEntry)
        → HasSeenSent gates shards seen shard log → (home : ℕ) → home < gates
        → (program : BegunRequest) → Contains (running_of (gate_log seen home)) program
        → (bound : Clock) → bound_of gates log ≡ Some bound → IsTrue (is_at_most bound program.stamp.clock) }
    ensures seen_kept { (gates shards : ℕ) (seen : Account) (shard : ℕ) (log : List ShardEntry)
        → HasSeen shards seen.store shard log → HasSeenSent gates shards seen shard log → (home : ℕ) → home < gates
        → (program : BegunRequest) → Contains (running_of (gate_log seen home)) program
        → (v : Name) → shard_of v shards ≡ shard → IsKeptFor program.stamp v log }
    ensures bounds { (script : Script) (account : Account) → IsWithinLimits script → IsAccount script account
        → (home : ℕ) (program : BegunRequest) → Contains (running_of (gate_log account home)) program
        → (shard : ℕ) (before after : List ShardEntry) → shard_log account shard ≡ before ++ after
        → (bound : Clock) → bound_of script.gates before ≡ Some bound
        → IsTrue (is_at_most bound program.stamp.clock) }
    ensures oldest { (script : Script) (account : Account) → IsWithinLimits script → IsAccount script account
        → (v : Name) → let log = shard_log account (shard_of v script.shards) in
        0 < dropped_of v log → IsBeforeABound v log }
    ensures kept { (script : Script) (account : Account) → IsWithinLimits script → IsAccount script account
        → (home : ℕ) (program : BegunRequest) → Contains (running_of (gate_log account home)) program
        → (v : Name) → IsKeptFor program.stamp v (shard_log account (shard_of v script.shards)) }
{
    the_crates_below_keep_their_laws();
}

/// The pairs that are computed from the logs, by place, are those of the account.
pub fn placed_pairs_are_the_pairs()
    ensures { (script : Script) (account : Account) → IsWithinLimits script → IsAccount script account
        → ArePairsOf account (placed_pairs account) (pairs_in account) }
{
    the_crates_below_keep_their_laws();
}

/// What is said of entries stays true while other logs go on, and so does what is known of begun requests, clocks,
/// precedence and pairs. A program whose visits are the same reads the same.
pub fn facts_stay_true()
    ensures precedence { (script : Script) (account next : Account) → GoesOn account next
        → (a b : Stamp) → Precedence account a b → Precedence next a b }
    ensures clocks { (script : Script) (account next : Account) → GoesOn account next
        → (clock : Clock) → IsKnown account clock → IsKnown next clock }
    ensures begun { (script : Script) (account next : Account) → GoesOn account next
        → (begun : BegunRequest) → Contains (all_begun account) begun → Contains (all_begun next) begun }
    ensures stamps { (script : Script) (account next : Account) → GoesOn account next → BeginEachOnce next
        → (r : ℕ) (stamp : Stamp) → stamp_of account r ≡ Some stamp → stamp_of next r ≡ Some stamp }
    ensures begins { (script : Script) (account next : Account) → IsWithinLimits script → IsAccount script account
        → GoesOn account next → BeginEachOnce next
        → (home : ℕ) (before after : List GateEntry) (entry : GateEntry)
        → gate_log account home ≡ before ++ entry ∷ after → BeginsAs script next home before entry.deed }
    ensures judgements { (script : Script) (account next : Account) → GoesOn account next
        → (before : List StoreEntry) (judged : Judgement)
        → Judges script account before judged → Judges script next before judged }
    ensures sends { (script : Script) (account next : Account) → GoesOn account next
        → (before : List GateEntry) (author : ℕ) (deed : GateDeed)
        → SendsAs account script.shards before author deed → SendsAs next script.shards before author deed }
    ensures shards { (script : Script) (account next : Account) → GoesOn account next
        → (shard : ℕ) (before : List ShardEntry) (deed : ShardDeed)
        → ShardFitsAs script account shard before deed → ShardFitsAs script next shard before deed }
    ensures replies { (script : Script) (account next : Account) → GoesOn account next
        → (deed : SessionDeed) → RepliesAs account deed → RepliesAs next deed }
    ensures asked { (script : Script) (account next : Account) → IsWithinLimits script → IsAccount script account
        → GoesOn account next → (settled : SettledEntry)
        → IsAskedByCommit account settled ⊎ IsAskedByVisit account settled
        → IsAskedByCommit next settled ⊎ IsAskedByVisit next settled }
    ensures marked { (script : Script) (account next : Account) → IsWithinLimits script → IsAccount script account
        → GoesOn account next → (shard : ℕ) (visit : Visit) → Contains (visits_of (shard_log account shard)) visit
        → HasItsEntry account (shard_log account shard) visit → HasItsEntry next (shard_log next shard) visit }
    ensures reads { (script : Script) (account next : Account) → IsWithinLimits script → IsAccount script account
        → GoesOn account next → (r shard : ℕ)
        → IsBeginningOf (reads_in r (shard_log account shard)) (reads_in r (shard_log next shard)) }
    ensures same_reads { (script : Script) (account next : Account) → IsWithinLimits script
        → IsAccount script account → GoesOn account next → (r : ℕ)
        → ((shard : ℕ) → visits_by r (shard_log next shard) ≡ visits_by r (shard_log account shard))
        → reads_of next r ≡ reads_of account r }
    ensures as_many_reads { (script : Script) (account next : Account) → IsWithinLimits script
        → IsAccount script account → GoesOn account next → (r : ℕ)
        → ((shard : ℕ) → length (reads_in r (shard_log next shard)) ≡ length (reads_in r (shard_log account shard)))
        → reads_of next r ≡ reads_of account r }
    ensures same_marked { (script : Script) (account next : Account) → IsWithinLimits script
        → IsAccount script account → GoesOn account next
        → ((shard : ℕ) → visits_of (shard_log next shard) ≡ visits_of (shard_log account shard))
        → flat_map marked_in next.shards ≡ flat_map marked_in account.shards }
    ensures programs { (script : Script) (account next : Account) → IsWithinLimits script
        → IsAccount script account → GoesOn account next → (r : ℕ) (program : Program)
        → ((shard : ℕ) → visits_by r (shard_log next shard) ≡ visits_by r (shard_log account shard))
        → is_ended next r ≡ is_ended account r
        → ReadsInTurn (reads_of account r) program (IsTrue (is_ended account r))
        → ReadsInTurn (reads_of next r) program (IsTrue (is_ended next r)) }
    ensures pairs { (script : Script) (account next : Account) → GoesOn account next → BeginEachOnce next
        → (pair : Pair) (given : GivenPair) → IsPairInAccount account pair given → IsPairInAccount next pair given }
{
    the_crates_below_keep_their_laws();
}
