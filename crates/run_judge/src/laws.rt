//! Laws of what `run` promises.
ghost use Rattle.std.specs.Prelude.{◌≡◌, ◌↔◌, []};
ghost use Rattle.weave_data.specs.Facts.{AllHold};
ghost use Rattle.program_defs.specs.declared.script.Script.{Script};
ghost use Rattle.report_rules.specs.declared.report.Report.{Report};
ghost use Rattle.report_rules.specs.Lookups.{EveryReplyIsFinal};
ghost use Rattle.report_rules.specs.Meetings.{MeetingsAreOrdered, PhasesAreKept};
ghost use Rattle.report_rules.specs.PrintedOrder.{IsPrintedOrder};
ghost use Rattle.report_rules.specs.RightReport.{replies_clause};
ghost use Rattle.run_judge.specs.Promises.{final_replies_clause, meetings_clause, no_steps_clause, phases_clause, printed_order_clause};

/// Each clause holds exactly if what the headline of `run` says of it is true; that on phases if the clause on replies
/// holds.
pub fn clauses_say_what_run_promises()
    ensures printed_order { (report : Report) → AllHold (printed_order_clause report)
        ↔ IsPrintedOrder report report.order }
    ensures meetings { (script : Script) (report : Report) → AllHold (meetings_clause script report)
        ↔ MeetingsAreOrdered script report }
    ensures phases { (script : Script) (report : Report) → AllHold (replies_clause script report)
        → AllHold (phases_clause script report) ↔ PhasesAreKept script report }
    ensures final_replies { (report : Report) → AllHold (final_replies_clause report) ↔ EveryReplyIsFinal report }
    ensures no_steps { (report : Report) → AllHold (no_steps_clause report) ↔ (report.answers ≡ []) }
{}
