//! The laws of the crates below on what a hand reads and leaves alone, in one.
ghost use Rattle.workers_account.specs.ReadLaws.{ReadLaws};

use graph_ops::laws::each_vertex_is_named_once;
use program_defs::laws::visits_go_on;
use weave_entries::laws::sessions_go_in_turn;
use weaver_hands::laws::{
    calls_leave_others_alone, hands_visit_their_own_programs, programs_left_alone_go_on,
};

/// The laws of the crates below that reads and replies rely on.
pub(crate) fn hands_read_by_their_laws()
    ensures { ReadLaws }
{
    each_vertex_is_named_once();
    visits_go_on();
    sessions_go_in_turn();
    calls_leave_others_alone();
    hands_visit_their_own_programs();
    programs_left_alone_go_on();
}
