//! What `load` writes.
ghost use Rattle.std.specs.Prelude.{◌≡◌, ◌≤◌, ◌*◌, ℕ, List, length, IfOk, OnOk};
ghost use Rattle.weave_data.specs.Limits.{most_requests};
ghost use Rattle.load_maker.specs.Generated.{script_of};
ghost use Rattle.report_rules.specs.RightReport.{IsRightReport};
ghost use Rattle.step_rules.specs.CoreState.{start_state};
ghost use Rattle.weave_script.specs.Scripts.{IsScript};
ghost use Rattle.weaver_top.specs.Answers.{IsAnswerTo};
ghost use Rattle.weaver_top.specs.LoadProgress.{IsLoaded};
ghost use Rattle.weaver_top.specs.Loads.{TellsLoad};
ghost use Rattle.weaver_top.specs.Summaries.{summary_text};

use crate::answer::Answer;
use crate::command::Command;
use crate::load_laws::the_crates_below_keep_their_laws;
use crate::status::Status;
use crate::summary::summary_text;
use crate::trace_command::traced;
use load_maker::make;
use order_witness::{Judged, judge_report};
use program_defs::Script;
use report_rules::Report;
use std::alloc::{AllocError, Global};
use weave_drive::drive;
use weave_script::scripts_are_small;
use weaver_core::Core;

/// The summary of the report of a generated script, after its steps and with every request answered.
pub(crate) fn load_on(alloc: Global, seed: u64, size: u32) -> Result<Answer, AllocError>
    requires { (1 ≤ size) × (size ≤ most_requests) }
    ensures { (input : List ℕ) → IfOk result (IsAnswerTo (Command.Load seed size) input) }
{
    Ok(Answer {
        status: Status::Done,
        text: summary_of(alloc, seed, size)?,
    })
}

// Makes the script, does its steps, answers every request, and sums up the report.
fn summary_of(alloc: Global, seed: u64, size: u32) -> Result<Vec<u8>, AllocError>
    requires { (1 ≤ size) × (size ≤ most_requests) }
    ensures { IfOk result (λ text. TellsLoad seed size text.items) }
{
    scripts_are_small();
    let script = make(alloc, seed, size)?;
    let mut core = Core::start(alloc, script)?;
    summary_of_core(alloc, seed, size, &mut core)
}

// Does the steps of the core of a seed's script, answers every request, and sums up the report.
fn summary_of_core(
    alloc: Global,
    seed: u64,
    size: u32,
    core: &mut Core,
) -> Result<Vec<u8>, AllocError>
    requires size { size ≤ most_requests }
    requires script { core.old.script ≡ script_of seed size }
    requires valid { IsScript core.old.script }
    requires start { core.old.state ≡ start_state core.old.script }
    ensures { IfOk result (λ text. TellsLoad seed size text.items) }
{
    the_crates_below_keep_their_laws();
    load(alloc, core, size)?;
    let report = core.report(alloc)?;
    let text = judged_summary(alloc, seed, size, core.script(), &report)?;
    Ok(text)
}

// Does the steps of a core's script, and answers every request, of which there are `size`.
fn load(alloc: Global, core: &mut Core, size: u32) -> Result<(), AllocError>
    requires size { length core.old.script.requests ≡ size }
    requires valid { IsScript core.old.script }
    requires start { core.old.state ≡ start_state core.old.script }
    ensures script { OnOk result (core.new.script ≡ core.old.script) }
    ensures loaded { OnOk result (IsLoaded core.new.script core.new.state) }
{
    the_crates_below_keep_their_laws();
    traced(alloc, core)?;
    core.script();
    drive(alloc, core, size)?;
    Ok(())
}

// The summary of a right report, once it was judged.
fn judged_summary(
    alloc: Global,
    seed: u64,
    size: u32,
    script: &Script,
    report: &Report,
) -> Result<Vec<u8>, AllocError>
    requires size { size ≤ most_requests }
    requires valid { IsScript script.now }
    requires right { IsRightReport script.now report.now }
    ensures { IfOk result (λ text. text.items ≡ summary_text seed size (4 * size) report.now) }
{
    scripts_are_small();
    match judge_report(alloc, script, report)? {
        Judged::Yes => summary_text(alloc, seed, size, report),
        Judged::No { .. } => unreachable!(),
    }
}
