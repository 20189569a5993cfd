//! The laws of the crates below, in one.
ghost use Rattle.weaver_locks.specs.HoldLaws.{HoldLaws};

use crate::hand_laws::hands_keep_their_laws;
use seen_logs::laws::{asked_pairs_precede, references_go_on};

/// The laws of the crates below that a hold relies on.
pub(crate) fn the_crates_below_keep_their_laws()
    ensures { HoldLaws }
{
    asked_pairs_precede();
    hands_keep_their_laws();
    references_go_on();
}
