//! The laws of the crates below, in one.
ghost use Rattle.shard_lock.specs.LowerLaws.{LawsForShardNotes};
ghost use Rattle.shard_lock.specs.VisitLaws.{VisitLaws};

use seen_logs::laws::{
    beginnings_are_legal, machines_note_more, references_go_on, shards_have_seen,
};
use shard_node::laws::visits_split_the_updates;
use vector_stamp::laws::{
    more_pairs_more_precedence, precedence_is_decided, settling_puts_all_before,
    the_last_update_read_is_seen,
};
use weave_account::laws::{
    begun_stamps_are_coherent, collections_leave_what_programs_see, heads_pass, updates_are_commits,
};
use weave_entries::laws::kept_updates_are_read_like_all;

/// The laws of the crates below that this crate relies on.
pub(crate) fn the_crates_below_keep_their_laws()
    ensures { LawsForShardNotes }
{
    beginnings_are_legal();
    heads_pass();
    machines_note_more();
    references_go_on();
    shards_have_seen();
}

/// The laws that a visit relies on.
pub(crate) fn visits_are_right()
    ensures { VisitLaws }
{
    begun_stamps_are_coherent();
    collections_leave_what_programs_see();
    kept_updates_are_read_like_all();
    more_pairs_more_precedence();
    precedence_is_decided();
    settling_puts_all_before();
    shards_have_seen();
    the_last_update_read_is_seen();
    updates_are_commits();
    visits_split_the_updates();
}
