//! The laws of the crates below, in one.
ghost use Rattle.gate_lock.specs.LowerLaws.{LawsForGateNotes};

use seen_logs::laws::{
    beginnings_are_legal, clocks_count_within, machines_note_more, messages_are_made,
    references_go_on,
};
use weave_account::laws::clocks_are_known;
use weave_entries::laws::{a_log_goes_on, channels_rise};

/// The laws of the crates below that this crate relies on.
pub(crate) fn the_crates_below_keep_their_laws()
    ensures { LawsForGateNotes }
{
    a_log_goes_on();
    beginnings_are_legal();
    channels_rise();
    clocks_are_known();
    clocks_count_within();
    machines_note_more();
    messages_are_made();
    references_go_on();
}
