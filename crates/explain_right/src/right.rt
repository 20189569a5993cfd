//! What is said of a right report.
ghost use Rattle.std.specs.Prelude.{IsTrue};
ghost use Rattle.order_witness.specs.Judgement.{has_numbered_operations};
ghost use Rattle.report_rules.specs.RightReport.{IsRightReport};

use crate::counts::count_words;
use crate::origin::origin_words;
use crate::promises::{
    final_words, heading_words, is_kept, meeting_words, order_words, phase_words,
};
use explain_case::Case;
use explain_lines::say_line;
use run_judge::judge_run;
use std::alloc::{AllocError, Global};
use weave_text::Text;

/// Says whether `run` or `trace` writes such a report, how its requests ended, whether it keeps what `run` promises
/// besides, and what may be otherwise in a right report.
pub fn right_words(alloc: Global, text: &mut Text, case: &Case) -> Result<(), AllocError>
    requires right { IsRightReport case.now.script.now case.now.report.now }
    requires numbered { IsTrue (has_numbered_operations case.now.script.now) }
{
    say_line(
        text,
        "The report is right for the script: all eight clauses hold.",
        &[],
    )?;
    let faults = judge_run(alloc, case.script, case.report)?;
    let has_answers = faults.steps.is_some();
    let is_kept = is_kept(&faults);
    origin_words(text, case, has_answers, is_kept)?;
    count_words(text, case)?;
    heading_words(text, has_answers, is_kept)?;
    if !is_kept {
        order_words(alloc, text, case, faults.order)?;
        meeting_words(text, case, faults.meetings)?;
        phase_words(text, case, faults.phases)?;
        return final_words(text, case, faults.replies);
    }
    say_line(text, OPEN, &[])
}

const OPEN: &str =
    "A right report may also have: other stamps that order the requests in the same way; no `settled` line if the \
    stamps and the other pairs give its order; the commit numbers in another order, if the refusals allow it; another \
    M of a refusal (`at M`) that holds there too; other `did` lines, or none.";
