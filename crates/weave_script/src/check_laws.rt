//! What holds of every text of a script that a report follows.
ghost use Rattle.std.specs.Prelude.{◌≡◌, ◌≤◌, ◌<◌, ◌++◌, ◌∷◌, [], length, Ok, Err};
ghost use Rattle.program_defs.specs.declared.script.Script.{Script};
ghost use Rattle.report_rules.specs.ReportOf.{IsReportOf};
ghost use Rattle.report_rules.specs.declared.report.Report.{Report};
ghost use Rattle.weave_report.specs.ReportText.{report_text};
ghost use Rattle.weave_report.specs.TextOf.{IsReportTextOf, IsTypedReport, IsTypedScript, HasDistinctNames};
ghost use Rattle.weave_text.specs.Lines.{Bytes};
ghost use Rattle.weave_script.specs.CheckFaults.{IsFirstCheckFault};
ghost use Rattle.weave_script.specs.CheckReading.{check_text};
ghost use Rattle.weave_script.specs.CheckText.{IsCheckTextOf};
ghost use Rattle.weave_script.specs.ReadText.{Fault};
ghost use Rattle.weave_script.specs.ScriptLines.{IsTextOf, script_text};
ghost use Rattle.weave_script.specs.Scripts.{IsScript};
ghost use Rattle.weave_script.specs.Limits.{IsLong, IsShort};

use crate::fault::Cause;
use weave_report::{
    printed_text_is_text, read_texts_are_texts, refusals_are_first, text_is_of_one_report,
};
use weave_text::{
    clean_lines_come_back, lines_follow_one_another, numbers_come_back, words_are_clean,
};

/// What is read is a text of that script and that report, and every text of both that isn't too long is read as them.
/// What is refused and isn't too long is a text of no script and report.
pub fn checks_are_read()
    ensures read { (bytes : Bytes) (script : Script) (report : Report)
        → check_text bytes ≡ Ok (script, report) → IsCheckTextOf bytes script report }
    ensures short { (bytes : Bytes) (script : Script) (report : Report)
        → check_text bytes ≡ Ok (script, report) → IsShort bytes }
    ensures every_text { (bytes : Bytes) (script : Script) (report : Report) → IsShort bytes
        → IsCheckTextOf bytes script report → check_text bytes ≡ Ok (script, report) }
    ensures refused { (bytes : Bytes) (fault : Fault) (script : Script) (report : Report) → IsShort bytes
        → check_text bytes ≡ Err fault → ¬ IsCheckTextOf bytes script report }
{
    numbers_come_back();
    read_texts_are_texts();
}

/// No text is of two scripts, nor of two reports.
pub fn checks_are_of_one_report()
    ensures { (bytes : Bytes) (a b : Script) (told other : Report)
        → IsCheckTextOf bytes a told → IsCheckTextOf bytes b other → (a ≡ b) × (told ≡ other) }
{
    numbers_come_back();
    text_is_of_one_report();
}

/// A script's printed text and then that of a report of it are a text of both, and are read as them if they aren't
/// too long.
pub fn printed_checks_come_back()
    ensures text { (script : Script) (report : Report) → IsScript script → IsReportOf script report
        → IsTypedReport report → IsCheckTextOf (script_text script ++ report_text script report) script report }
    ensures read { (script : Script) (report : Report) → IsScript script → IsReportOf script report
        → IsTypedReport report → IsShort (script_text script ++ report_text script report)
        → check_text (script_text script ++ report_text script report) ≡ Ok (script, report) }
{
    checks_are_read();
    clean_lines_come_back();
    words_are_clean();
    printed_text_is_text();
}

/// A text of a script that ends with a line feed, and then a text of a report, are a text of both.
pub fn report_texts_follow_script_texts()
    ensures { (front text : Bytes) (script : Script) (report : Report) → IsTextOf (front ++ 10 ∷ []) script
        → IsReportTextOf script text report → IsCheckTextOf (front ++ 10 ∷ text) script report }
{
    lines_follow_one_another();
}

/// The fault that is reported of a text that isn't too long is its first one, be it the script's or the report's, and
/// lines are counted from the first one of all. It is reported whenever there is one. A text that is too long is
/// refused as a whole.
pub fn check_faults_are_first()
    ensures first { (bytes : Bytes) (fault : Fault) → IsShort bytes
        → check_text bytes ≡ Err fault → IsFirstCheckFault bytes fault }
    ensures told { (bytes : Bytes) (fault : Fault) → IsShort bytes
        → IsFirstCheckFault bytes fault → check_text bytes ≡ Err fault }
    ensures too_long { (bytes : Bytes) → IsLong bytes
        → check_text bytes ≡ Err (record { line = 0; cause = Cause.TooLong }) }
{
    numbers_come_back();
    refusals_are_first();
}

/// A valid script has requests of distinct names, and all its fields are in range.
pub fn script_names_are_distinct()
    ensures told { (script : Script) → IsScript script → HasDistinctNames script }
    ensures typed { (script : Script) → IsScript script → IsTypedScript script }
{}
