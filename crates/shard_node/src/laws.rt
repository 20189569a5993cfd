//! What follows from the definitions, as contracts without a body.
ghost use Rattle.std.specs.Prelude.{◌≡◌, ℕ, ◌-◌, ◌<◌, ◌≤◌, List, [], slice_get, IsTrue, Some};
ghost use Rattle.vector_stamp.specs.declared.clock.Stamp.{Stamp};
ghost use Rattle.vector_stamp.specs.Precedence.{GivenPair, precedes};
ghost use Rattle.weave_data.specs.declared.name.Name.{Name};
ghost use Rattle.weave_entries.specs.declared.shard_log.ShardEntry.{ShardEntry};
ghost use Rattle.weave_entries.specs.ShardReplay.{Update, updates_of};
ghost use Rattle.weave_entries.specs.ShardRules.{dropped_of, updates_read, pairs_after_visit};

use vector_stamp::laws::{
    precedence_is_decided, settling_puts_all_before, the_last_update_read_is_seen,
};

/// A visit splits the updates of a vertex. The last one that the program read precedes it, by the judge's pairs after
/// the visit, and it precedes all later ones, by those before the visit.
pub fn visits_split_the_updates()
    ensures read { (pairs : List GivenPair) (program : Stamp) (v : Name) (log : List ShardEntry) (last : Update)
        → dropped_of v log < updates_read pairs program v log
        → slice_get (updates_of v log) (updates_read pairs program v log - 1) ≡ Some last
        → IsTrue (precedes (pairs_after_visit pairs program v log) last.stamp program) }
    ensures skipped { (pairs : List GivenPair) (program : Stamp) (v : Name) (log : List ShardEntry)
        → (place : ℕ) (later : Update) → updates_read pairs program v log ≤ place
        → slice_get (updates_of v log) place ≡ Some later
        → IsTrue (precedes pairs program later.stamp) }
{
    precedence_is_decided();
    settling_puts_all_before();
    the_last_update_read_is_seen();
}
