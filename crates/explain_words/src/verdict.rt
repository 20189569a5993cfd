//! What is said of a script and a report that were read.
ghost use Rattle.std.specs.Prelude.{◌≡◌, ℕ, IsTrue, IfOk, OnOk};
ghost use Rattle.order_witness.specs.Judgement.{has_numbered_operations};
ghost use Rattle.report_rules.specs.RightReport.{BreaksFirst, IsRightReport};
ghost use Rattle.weave_script.specs.Scripts.{IsScript};

use explain_case::Case;
use explain_lines::walk;
use explain_right::right_words;
use explain_wrong::wrong_words;
use order_witness::{Judged, judge_report};
use program_defs::Script;
use report_rules::{Clause, Report};
use std::alloc::{AllocError, Global};
use weave_script::scripts_are_small;
use weave_text::Text;

/// Whether the report of a script that was read is right, and else the first clause that breaks, and where.
pub fn judged(alloc: Global, script: &Script, report: &Report) -> Result<Judged, AllocError>
    requires { IsScript script.now }
    ensures yes { IfOk result (λ judged. judged ≡ Judged.Yes → IsRightReport script.now report.now) }
    ensures no { IfOk result (λ judged. (clause : Clause) (place : ℕ) → judged ≡ Judged.No clause place
        → BreaksFirst script.now report.now clause place) }
    ensures numbered { OnOk result (IsTrue (has_numbered_operations script.now)) }
{
    scripts_are_small();
    judge_report(alloc, script, report)
}

/// Why the report of a script that was read is right, or isn't; `input` is their text.
pub(crate) fn verdict_words<'a>(
    alloc: Global,
    input: &'a [u8],
    script: &'a Script,
    report: &'a Report,
) -> Result<Vec<u8>, AllocError>
    requires { IsScript script.now }
{
    let verdict = judged(alloc, script, report)?;
    let mut text = Text::new(alloc);
    let spots = walk(alloc, input, u32::MAX, true)?;
    let case = Case {
        input,
        script,
        report,
        spots: &spots,
    };
    match verdict {
        Judged::Yes => right_words(alloc, &mut text, &case)?,
        Judged::No { clause, place } => wrong_words(alloc, &mut text, &case, clause, place)?,
    }
    Ok(text.into_bytes())
}
