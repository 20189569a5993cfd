//! The laws of the crates below on what a visit asks for, in one.
ghost use Rattle.weaver_locks.specs.AskLaws.{AskLaws};

use vector_stamp::laws::{more_pairs_more_precedence, precedence_is_decided};
use weave_entries::laws::{kept_updates_are_read_like_all, updates_go_on};

/// The laws of the crates below that a visit in a hold relies on.
pub(crate) fn visits_keep_their_laws()
    ensures { AskLaws }
{
    kept_updates_are_read_like_all();
    more_pairs_more_precedence();
    precedence_is_decided();
    updates_go_on();
}
