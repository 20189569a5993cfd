//! Laws of right reports.

ghost use Rattle.std.specs.Prelude.{◌≡◌, ℕ, List};
ghost use Rattle.program_defs.specs.declared.script.Script.{Script};
ghost use Rattle.weave_data.specs.Facts.{BreaksFirstAt};
ghost use Rattle.report_rules.specs.declared.report.Report.{Report};
ghost use Rattle.report_rules.specs.declared.report.Clause.{Clause};
ghost use Rattle.report_rules.specs.PrintedOrder.{IsPrintedOrder};
ghost use Rattle.report_rules.specs.RightReport.{BreaksFirst, IsRightReport, facts_of};

/// A right report breaks no clause at any place.
pub fn right_report_breaks_nowhere()
    ensures { (script : Script) (report : Report) → IsRightReport script report
        → (clause : Clause) (place : ℕ) → ¬ BreaksFirstAt (facts_of script report clause) place }
{}

/// One clause at most breaks first, at one place.
pub fn wrong_report_breaks_first_once()
    ensures { (script : Script) (report : Report) (a b : Clause) (m n : ℕ)
        → BreaksFirst script report a m → BreaksFirst script report b n → (a ≡ b) × (m ≡ n) }
{}

/// A report has one printed order at most.
pub fn printed_order_is_one()
    ensures { (report : Report) (a b : List ℕ) → IsPrintedOrder report a → IsPrintedOrder report b → a ≡ b }
{}

/// The printed order of a report is that of its replies and pairs: its own order and its answers play no part.
pub fn orders_are_of_replies_and_pairs()
    ensures { (a b : Report) → a.replies ≡ b.replies → a.pairs ≡ b.pairs
        → (order : List ℕ) → IsPrintedOrder a order → IsPrintedOrder b order }
{}
