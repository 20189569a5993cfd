//! What can be relied on about chains of replicas, as contracts without a body.
ghost use Rattle.std.specs.Prelude.{◌≡◌, ◌<◌, ℕ, List, [], ◌∷◌, ◌++◌, ◌⊎◌, length, Some, IsTrue, Contains, slice_get};
ghost use Rattle.vector_stamp.specs.declared.clock.Stamp.{Stamp};
ghost use Rattle.vector_stamp.specs.Precedence.{JoinsEvents, precedes};
ghost use Rattle.oracle_chain.specs.declared.ask.Ask.{Ask};
ghost use Rattle.oracle_chain.specs.declared.ask.Outcome.{Outcome};
ghost use Rattle.oracle_chain.specs.Replay.{pairs_after, outcomes_of, outcome_by, SaysBefore};
ghost use Rattle.oracle_chain.specs.Chain.{ReplicaChainView, tail_asks, stamps_known, pairs_of_chain};
ghost use Rattle.oracle_chain.specs.Calls.{new_chain, Call, stamps_called, after_call, after_calls, after_settle};
ghost use Rattle.oracle_chain.specs.IsReplicaChain.{IsPrefixOf, IsReplicaChain, MayAsk, MayCall, MayCallAll, AreOrdered};
ghost use Rattle.oracle_chain.specs.Judging.{GivesOutcome, SettlesAs, settle_calls};

use vector_stamp::laws::{
    more_pairs_more_precedence, no_cycle_arises, parts_and_unions_are_coherent,
    precedence_is_decided, settling_puts_all_before,
};

/// Over any list of calls a chain stays one: so the list of each live replica is a prefix of that of each live replica
/// before it.
pub fn calls_keep_the_chain()
    ensures new { (replicas : ℕ) → 0 < replicas → IsReplicaChain (new_chain replicas) }
    ensures one_call { (chain : ReplicaChainView) (call : Call) → IsReplicaChain chain → MayCall chain call
        → IsReplicaChain (after_call chain call) }
    ensures calls { (chain : ReplicaChainView) (calls : List Call) → IsReplicaChain chain → MayCallAll chain calls
        → IsReplicaChain (after_calls chain calls) }
    ensures prefixes { (chain : ReplicaChainView) (calls : List Call) → IsReplicaChain chain → MayCallAll chain calls
        → AreOrdered (after_calls chain calls).replicas }
{
    parts_and_unions_are_coherent();
}

/// A new chain knows no stamp, and only those of the ask that a call brings become known by it.
pub fn stamps_come_with_asks()
    ensures new { (replicas : ℕ) → stamps_known (new_chain replicas).replicas ≡ [] }
    ensures called { (chain : ReplicaChainView) (call : Call) → IsReplicaChain chain → MayCall chain call
        → (stamp : Stamp) → Contains (stamps_known (after_call chain call).replicas) stamp
        → Contains (stamps_known chain.replicas) stamp ⊎ Contains (stamps_called call) stamp }
{
    parts_and_unions_are_coherent();
}

/// The outcome at a position is the one that a single oracle gives to the ask there, after the asks before it.
pub fn outcomes_are_a_single_oracles()
    ensures { (before after : List Ask) (ask : Ask)
        → slice_get (outcomes_of (before ++ ask ∷ after)) (length before)
        ≡ Some (outcome_by (pairs_after before) ask) }
{}

/// A list from which an outcome was given is a prefix of every later tail's list. So what was given is given from then
/// on, and no pair goes.
pub fn tails_go_on()
    ensures lists { (chain : ReplicaChainView) (calls : List Call) → IsReplicaChain chain → MayCallAll chain calls
        → IsPrefixOf (tail_asks chain.replicas) (tail_asks (after_calls chain calls).replicas) }
    ensures outcomes { (chain : ReplicaChainView) (calls : List Call) → IsReplicaChain chain → MayCallAll chain calls
        → (position : ℕ) (ask : Ask) (outcome : Outcome) → GivesOutcome chain position ask outcome
        → GivesOutcome (after_calls chain calls) position ask outcome }
    ensures pairs { (chain : ReplicaChainView) (calls : List Call) → IsReplicaChain chain → MayCallAll chain calls
        → IsPrefixOf (pairs_after (tail_asks chain.replicas))
        (pairs_after (tail_asks (after_calls chain calls).replicas)) }
    ensures said { (chain : ReplicaChainView) (calls : List Call) → IsReplicaChain chain → MayCallAll chain calls
        → (position : ℕ) (ask : Ask) (outcome : Outcome) (a b : Stamp) → GivesOutcome chain position ask outcome
        → SaysBefore ask outcome a b
        → IsTrue (precedes (pairs_after (tail_asks (after_calls chain calls).replicas)) a b) }
{
    parts_and_unions_are_coherent();
    settling_puts_all_before();
    more_pairs_more_precedence();
    no_cycle_arises();
    precedence_is_decided();
}

/// No two given outcomes, of one time or of two, order one pair both ways.
pub fn no_pair_is_ordered_both_ways()
    ensures { (chain : ReplicaChainView) (calls : List Call) → IsReplicaChain chain → MayCallAll chain calls
        → (p q : ℕ) (first second : Ask) (one other : Outcome) (a b : Stamp)
        → GivesOutcome chain p first one → GivesOutcome (after_calls chain calls) q second other
        → SaysBefore first one a b → ¬ SaysBefore second other b a }
{
    parts_and_unions_are_coherent();
    settling_puts_all_before();
    more_pairs_more_precedence();
    no_cycle_arises();
    precedence_is_decided();
}

/// A chain is a judge, whose pairs are those after all asks of the head's list.
pub fn a_chain_settles_as_a_judge()
    ensures settles { (chain : ReplicaChainView) (ask : Ask) → IsReplicaChain chain → MayAsk chain ask
        → SettlesAs chain ask (outcome_by (pairs_of_chain chain) ask) (after_settle chain ask) }
    ensures pairs_known { (chain : ReplicaChainView)
        → JoinsEvents (stamps_known chain.replicas) (pairs_of_chain chain) }
    ensures pairs_stay { (chain : ReplicaChainView) (ask : Ask) (calls : List Call)
        → IsReplicaChain chain → MayAsk chain ask → MayCallAll (after_settle chain ask) calls
        → IsPrefixOf (pairs_of_chain (after_settle chain ask))
        (pairs_of_chain (after_calls (after_settle chain ask) calls)) }
    ensures tail_pairs_stay { (chain : ReplicaChainView) (calls : List Call)
        → IsReplicaChain chain → MayCallAll chain calls
        → IsPrefixOf (pairs_after (tail_asks chain.replicas)) (pairs_of_chain (after_calls chain calls)) }
{
    parts_and_unions_are_coherent();
}

/// A settle is a list of calls: the head accepts the ask, and down the chain each live replica gets what it lacks from
/// the live one before it.
pub fn a_settle_is_its_calls()
    ensures { (chain : ReplicaChainView) (ask : Ask) → IsReplicaChain chain → MayAsk chain ask
        → after_calls chain (settle_calls chain ask) ≡ after_settle chain ask }
{
    parts_and_unions_are_coherent();
}
