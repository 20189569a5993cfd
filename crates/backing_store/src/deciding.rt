//! The verdict on a transaction.
ghost use Rattle.std.specs.Prelude.{◌≡◌, ◌≢◌, ◌<◌, ◌^◌, ◌∷◌, ◌++◌, ◌⊎◌, [], List, length, All, Contains, IsTrue, IsSome, is_some, slice_index_or, slice_index, IfOk, OnErr};
ghost use Rattle.vector_stamp.specs.declared.clock.Stamp.{Stamp};
ghost use Rattle.vector_stamp.specs.Order.{id_of};
ghost use Rattle.vector_stamp.specs.Coherence.{AreCoherent};
ghost use Rattle.vector_stamp.specs.Settling.{refused_place, additions, additions_from, places_of, pairs_of, entries_of_call};
ghost use Rattle.graph_ops.specs.Graphs.{plain_of};
ghost use Rattle.graph_ops.specs.PlainGraph.{PlainGraph, TxOutcome};
ghost use Rattle.weave_entries.specs.declared.verdict.Verdict.TheVariants.{Conflict};
ghost use Rattle.backing_store.specs.JudgeCalls.{if_permitted};
ghost use Rattle.backing_store.specs.Trying.{IsTrial, IsBefore, verdict_asked, graph_asked, graph_after_verdict};
ghost use Rattle.backing_store.specs.Keeping.{first_newer as newer_of};
ghost use Rattle.backing_store.specs.Commits.{of_commit};
ghost use Rattle.weave_entries.specs.StoreReplay.{Commit};
ghost use Rattle.weave_entries.specs.StoreRule.{ops_bound, verdict_on};

use crate::asked::Asked;
use crate::judge_calls::ask;
use crate::lasts::{Lasts, counts_at, first_newer};
use crate::trying::{Tried, keep, take_back, try_ops};
use graph_ops::{Graph, Op};
use std::alloc::{AllocError, Global};
use vector_stamp::{Judge, Stamp};
use weave_data::Name;
use weave_entries::Verdict;

/// A verdict, twice: one goes into the log and one to the caller.
#[derive(Drop)]
pub(crate) struct Decided {
    pub logged: Verdict,
    pub answer: Verdict,
}

/// A conflict with the last commit at a vertex.
pub(crate) fn conflict(vertex: Name, newer: u32) -> Decided
    ensures logged { result.logged ≡ Conflict vertex newer }
    ensures answer { result.answer ≡ result.logged }
{
    Decided {
        logged: Verdict::Conflict { vertex, newer },
        answer: Verdict::Conflict { vertex, newer },
    }
}

/// Asks the judge, which keeps pairs only if the operations passed.
/// If it refuses a place there is a conflict. Then the operations are taken back, and also if it is out of memory.
pub(crate) fn decide<J: Judge>(
    alloc: Global,
    author: u32,
    judge: &mut J,
    asked: &Asked,
    stamp: Stamp,
    graph: &mut Graph,
    tried: Tried,
) -> Result<Decided, AllocError>
    requires few { length asked.now.stamps < 2 ^ 32 }
    requires vertices { length asked.now.vertices ≡ length asked.now.stamps }
    requires newer { length asked.now.newer ≡ length asked.now.stamps }
    requires other_ids { All (λ event. id_of event ≢ id_of stamp) asked.now.stamps }
    requires coherent { AreCoherent (stamp ∷ asked.now.stamps ++ J.known judge.old) }
    requires answer { tried.answer ≡ tried.logged }
    ensures logged { IfOk result (λ decided. decided.logged
        ≡ verdict_asked (refused_place (J.pairs judge.old) asked.now.stamps stamp)
        asked.now.vertices asked.now.newer tried.logged) }
    ensures answer { IfOk result (λ decided. decided.answer ≡ decided.logged) }
    ensures graph { (outcome : TxOutcome) (old : PlainGraph) → IsTrial outcome old (plain_of graph.old) tried.pending
        → IfOk result (λ decided. plain_of graph.new
        ≡ graph_asked (refused_place (J.pairs judge.old) asked.now.stamps stamp) old outcome) }
    ensures back { (outcome : TxOutcome) (old : PlainGraph) → IsTrial outcome old (plain_of graph.old) tried.pending
        → OnErr result (plain_of graph.new ≡ old) }
    ensures pairs { IfOk result (λ decided. J.pairs judge.new ≡ J.pairs judge.old
        ++ if_permitted (refused_place (J.pairs judge.old) asked.now.stamps stamp)
        (pairs_of (additions (is_some tried.pending) (J.pairs judge.old) asked.now.stamps stamp) stamp)) }
    ensures judge_logged { IfOk result (λ decided. IsTrue J.keeps_log → J.log_of judge.new ≡ J.log_of judge.old
        ++ if_permitted (refused_place (J.pairs judge.old) asked.now.stamps stamp)
        (entries_of_call author asked.now.stamps stamp
        (places_of (additions (is_some tried.pending) (J.pairs judge.old) asked.now.stamps stamp)))) }
    ensures known { (one : Stamp) → Contains (J.known judge.new) one
        → Contains (J.known judge.old) one ⊎ Contains (stamp ∷ asked.now.stamps) one }
    ensures stay_known { (one : Stamp) → Contains (J.known judge.old) one → Contains (J.known judge.new) one }
    ensures not_asked { asked.now.stamps ≡ [] → judge.new ≡ judge.old }
    ensures unchanged { OnErr result (judge.new ≡ judge.old) }
{
    let Tried {
        logged,
        answer,
        pending,
    } = tried;
    let stamps = asked.stamps.as_slice();
    match ask(alloc, author, judge, stamps, stamp, pending.is_some()) {
        Ok(None) => {
            keep(graph, pending);
            Ok(Decided { logged, answer })
        }
        Ok(Some(place)) => {
            take_back(alloc, graph, pending);
            Ok(conflict_at(asked, place))
        }
        Err(error) => {
            take_back(alloc, graph, pending);
            Err(error)
        }
    }
}

// The conflict at a place of what was asked.
fn conflict_at(asked: &Asked, place: u32) -> Decided
    requires vertices { place < length asked.now.vertices }
    requires newer { place < length asked.now.newer }
    ensures logged { result.logged
        ≡ Conflict (slice_index_or asked.now.vertices place []) (slice_index asked.now.newer place) }
    ensures answer { result.answer ≡ result.logged }
{
    let place = place as usize;
    conflict(
        asked.vertices.as_slice()[place],
        asked.newer.as_slice()[place],
    )
}

/// Judges a transaction by the rule of the store. The graph is changed by a commit alone.
pub(crate) fn judge_tx<J: Judge>(
    alloc: Global,
    author: u32,
    judge: &mut J,
    lasts: &Lasts,
    graph: &mut Graph,
    made: u64,
    names: &[Name],
    asked: &Asked,
    stamp: Stamp,
    ops: &[Op],
) -> Result<Decided, AllocError>
    requires few_ops { length ops.now < ops_bound }
    requires room { made < 2 ^ 63 }
    requires few { length asked.now.stamps < 2 ^ 32 }
    requires vertices { length asked.now.vertices ≡ length asked.now.stamps }
    requires newer { length asked.now.newer ≡ length asked.now.stamps }
    requires other_ids { All (λ event. id_of event ≢ id_of stamp) asked.now.stamps }
    requires coherent { AreCoherent (stamp ∷ asked.now.stamps ++ J.known judge.old) }
    ensures logged { (commits : List Commit)
        → IsBefore (plain_of graph.old) lasts.now.entries made names.now asked.now stamp ops.now commits
        → IfOk result (λ decided. decided.logged ≡ verdict_on (J.pairs judge.old) commits stamp ops.now) }
    ensures answer { IfOk result (λ decided. decided.answer ≡ decided.logged) }
    ensures graph { IfOk result (λ decided. plain_of graph.new
        ≡ graph_after_verdict decided.logged (plain_of graph.old) ops.now) }
    ensures back { OnErr result (plain_of graph.new ≡ plain_of graph.old) }
    ensures pairs { IfOk result (λ decided. J.pairs judge.new ≡ J.pairs judge.old
        ++ of_commit decided.logged (pairs_of (additions_from 0 (J.pairs judge.old) asked.now.stamps stamp) stamp)) }
    ensures judge_logged { IfOk result (λ decided. IsTrue J.keeps_log → J.log_of judge.new ≡ J.log_of judge.old
        ++ of_commit decided.logged (entries_of_call author asked.now.stamps stamp
        (places_of (additions_from 0 (J.pairs judge.old) asked.now.stamps stamp)))) }
    ensures known { (one : Stamp) → Contains (J.known judge.new) one
        → Contains (J.known judge.old) one ⊎ Contains (stamp ∷ asked.now.stamps) one }
    ensures stay_known { (one : Stamp) → Contains (J.known judge.old) one → Contains (J.known judge.new) one }
    ensures newer { IsSome (newer_of lasts.now.entries stamp names.now) → judge.new ≡ judge.old }
    ensures not_asked { asked.now.stamps ≡ [] → judge.new ≡ judge.old }
    ensures unchanged { OnErr result (judge.new ≡ judge.old) }
{
    if let Some((vertex, newer)) = first_newer(lasts, names, &stamp) {
        return Ok(conflict(vertex, newer));
    }
    let counts = counts_at(alloc, lasts, names)?;
    let tried = try_ops(alloc, graph, made, counts, ops)?;
    decide(alloc, author, judge, asked, stamp, graph, tried)
}
