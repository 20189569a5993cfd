//! Laws of the texts of reports.
ghost use Rattle.std.specs.Prelude.{◌≡◌, ℕ, List, Ok, Err};
ghost use Rattle.program_defs.specs.declared.script.Script.{Script};
ghost use Rattle.report_rules.specs.ReportOf.{IsReportOf};
ghost use Rattle.report_rules.specs.declared.report.Report.{Report};
ghost use Rattle.weave_report.specs.declared.read.parts.Reading.{Reading};
ghost use Rattle.weave_report.specs.FirstRefusal.{IsFirstRefusal};
ghost use Rattle.weave_report.specs.Reading.{Refusal, after_lines, report_in, report_start};
ghost use Rattle.weave_report.specs.ReportText.{report_text};
ghost use Rattle.weave_report.specs.TextOf.{HasDistinctNames, IsReportTextOf, IsTypedReport, IsTypedScript};
ghost use Rattle.weave_text.specs.Cutting.{lines_of};
ghost use Rattle.weave_text.specs.Lines.{Bytes};

use crate::text_laws::texts_keep_the_laws;

/// A text is read as a report exactly if it is a text of that report. A refused text is a text of none.
pub fn read_texts_are_texts()
    ensures read { (script : Script) (first_line : ℕ) (bytes : List ℕ) (report : Report)
        → HasDistinctNames script → IsTypedScript script
        → report_in script first_line bytes ≡ Ok report → IsReportTextOf script bytes report }
    ensures complete { (script : Script) (first_line : ℕ) (bytes : List ℕ) (report : Report)
        → HasDistinctNames script → IsTypedScript script
        → IsReportTextOf script bytes report → report_in script first_line bytes ≡ Ok report }
    ensures refused { (script : Script) (first_line : ℕ) (bytes : List ℕ) (refusal : Refusal) (report : Report)
        → HasDistinctNames script → IsTypedScript script
        → report_in script first_line bytes ≡ Err refusal → ¬ IsReportTextOf script bytes report }
{
    texts_keep_the_laws();
}

/// What is printed of a report is a text of it.
pub fn printed_text_is_text()
    ensures { (script : Script) (report : Report) → HasDistinctNames script → IsTypedScript script
        → IsReportOf script report → IsTypedReport report → IsReportTextOf script (report_text script report) report }
{
    texts_keep_the_laws();
}

/// What is printed of a report is read as that report, whatever the number of its first line.
pub fn printed_reports_come_back()
    ensures { (script : Script) (report : Report) (first_line : ℕ) → HasDistinctNames script → IsTypedScript script
        → IsReportOf script report → IsTypedReport report
        → report_in script first_line (report_text script report) ≡ Ok report }
{
    texts_keep_the_laws();
}

/// No text is of two reports.
pub fn text_is_of_one_report()
    ensures { (script : Script) (bytes : List ℕ) (a b : Report) → HasDistinctNames script → IsTypedScript script
        → IsReportTextOf script bytes a → IsReportTextOf script bytes b → a ≡ b }
{
    texts_keep_the_laws();
}

/// The refusal that is reported is the first one: the lines before it are accepted, and after them its line is refused
/// for that cause, or the text ends before the report does. It is reported whenever there is one.
pub fn refusals_are_first()
    ensures lines { (script : Script) (n : ℕ) (from : Reading) (lines : List Bytes) (refusal : Refusal)
        → after_lines script n from lines ≡ Err refusal → IsFirstRefusal script n from lines refusal }
    ensures text { (script : Script) (first_line : ℕ) (bytes : Bytes) (refusal : Refusal)
        → report_in script first_line bytes ≡ Err refusal
        → IsFirstRefusal script first_line report_start (lines_of bytes) refusal }
    ensures told { (script : Script) (n : ℕ) (from : Reading) (lines : List Bytes) (refusal : Refusal)
        → IsFirstRefusal script n from lines refusal → after_lines script n from lines ≡ Err refusal }
{}
