//! Laws on what a store's log says.
ghost use Rattle.std.specs.Prelude.{◌≡◌, ◌≤◌, ◌++◌, ℕ, List, map, length, All, Contains, IsTrue};
ghost use Rattle.vector_stamp.specs.declared.clock.Stamp.{Stamp};
ghost use Rattle.graph_ops.specs.declared.op.Op.{Op};
ghost use Rattle.weave_entries.specs.declared.store_log.StoreEntry.{StoreEntry};
ghost use Rattle.vector_stamp.specs.Precedence.{GivenPair, precedes};
ghost use Rattle.graph_ops.specs.declared.tx.Got.{Got};
ghost use Rattle.weave_entries.specs.declared.verdict.Counted.{Counted};
ghost use Rattle.weave_entries.specs.declared.verdict.Verdict.{Verdict};
ghost use Rattle.weave_entries.specs.declared.verdict.Verdict.TheVariants.{Committed};
ghost use Rattle.weave_entries.specs.OracleReplay.{oracle_entry_of};
ghost use Rattle.weave_entries.specs.StoreReplay.{Commit, commits_of};
ghost use Rattle.weave_entries.specs.StoreRule.{LastCommit, verdict_on, entries_of_settling, settled_if};
ghost use Rattle.backing_store.specs.Commits.{asked_at, lasts_at, verdict_at, pairs_added, entries_added, stamps_judged, stamps_kept};

use vector_stamp::laws::{precedence_is_decided, settling_puts_all_before};

/// The judge is asked of stamps that are kept, and what is kept was judged.
pub fn what_is_asked_is_kept()
    ensures asked { (log : List StoreEntry) (stamp one : Stamp) (ops : List Op)
        → Contains (asked_at log stamp ops) one → Contains (stamps_kept (commits_of log)) one }
    ensures kept { (log : List StoreEntry) (one : Stamp)
        → Contains (stamps_kept (commits_of log)) one → Contains (stamps_judged log) one }
{}

/// Each count of a verdict is at most the number of commits before it, and there are no more commits than entries.
pub fn counts_are_at_most_the_commits()
    ensures counts { (pairs : List GivenPair) (commits : List Commit) (stamp : Stamp) (ops : List Op)
        → (number : ℕ) (answers : List Got) (counts : List Counted)
        → verdict_on pairs commits stamp ops ≡ Committed number answers counts
        → All (λ (counted : Counted). counted.before ≤ length commits) counts }
    ensures commits { (log : List StoreEntry) → length (commits_of log) ≤ length log }
{}

/// The rule of the store and the contract of `commit` give the same entries of the oracle's log.
pub fn one_rule_of_what_is_added()
    ensures { (verdict : Verdict) (author : ℕ) (pairs : List GivenPair) (earlier : List Stamp) (later : Stamp)
        → settled_if verdict (entries_of_settling author pairs earlier later)
        ≡ map oracle_entry_of (entries_added verdict author pairs earlier later) }
{}

/// A commit comes after the last commit at each vertex that it names, by the judge's pairs and those that the commit
/// adds.
pub fn commits_come_after_the_last()
    ensures { (pairs : List GivenPair) (log : List StoreEntry) (stamp : Stamp) (ops : List Op)
        → (number : ℕ) (answers : List Got) (counts : List Counted)
        → verdict_at pairs log stamp ops ≡ Committed number answers counts
        → (last : LastCommit) → Contains (lasts_at log ops) last → IsTrue (precedes
        (pairs ++ pairs_added (Committed number answers counts) pairs (asked_at log stamp ops) stamp)
        last.commit.stamp stamp) }
{
    precedence_is_decided();
    settling_puts_all_before();
}
