//! What worked reports break, as contracts without a body.
ghost use Rattle.report_rules.specs.Meetings.{MeetingsAreOrdered, PhasesAreKept};
ghost use Rattle.report_rows.specs.Worked.{apart_in_phases, conflict_across_phases, later_phase_first, numbers_turned_round, refused_after_a_later_phase, refused_before_an_earlier_phase, show_and_create, shown_unordered, two_phases, unordered_writers};

use vector_stamp::laws::precedence_is_decided;

/// Two transactions, or a transaction and a program, that meet at a vertex and whose stamps are unordered need a pair.
pub fn meetings_need_an_order()
    ensures writers { ¬ MeetingsAreOrdered two_phases unordered_writers }
    ensures program { ¬ MeetingsAreOrdered show_and_create shown_unordered }
{
    precedence_is_decided();
}

/// Of two phases, each of one transaction: the later one must not precede the earlier one, conflict with it, have the
/// lower commit number, or be refused before its commit. The earlier one must not be refused after the commit of the
/// later one.
pub fn phases_are_apart()
    ensures precedence { ¬ PhasesAreKept two_phases later_phase_first }
    ensures conflict { ¬ PhasesAreKept two_phases conflict_across_phases }
    ensures numbers { ¬ PhasesAreKept apart_in_phases numbers_turned_round }
    ensures refused_early { ¬ PhasesAreKept two_phases refused_before_an_earlier_phase }
    ensures refused_late { ¬ PhasesAreKept two_phases refused_after_a_later_phase }
{
    precedence_is_decided();
}
