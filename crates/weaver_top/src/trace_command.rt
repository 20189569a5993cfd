//! What `trace` answers to an input.
ghost use Rattle.std.specs.Prelude.{◌≡◌, ◌≤◌, ◌<◌, ℕ, List, length, Some, IfOk, OnOk};
ghost use Rattle.std.specs.List.{AllByRecursion};
ghost use Rattle.step_rules.specs.CoreState.{start_state};
ghost use Rattle.step_rules.specs.IsCore.{IsStepOf};
ghost use Rattle.step_rules.specs.Trace.{trace_of};
ghost use Rattle.weave_script.specs.Scripts.{IsScript, steps_of};
ghost use Rattle.weave_script.specs.ScriptLines.{IsTextOf};
ghost use Rattle.weaver_top.specs.Answers.{AnswersScript, IsAnswerTo};
ghost use Rattle.weaver_top.specs.StepReports.{IsReportOfSteps};
ghost use Rattle.weave_script.specs.Limits.{IsShort};

use crate::answer::{Answer, refusal};
use crate::command::Command;
use crate::status::Status;
use program_defs::{Script, Step};
use report_rules::laws::orders_are_of_replies_and_pairs;
use report_rules::{Report, StepAnswer};
use std::alloc::{AllocError, Global};
use step_rules::laws::replies_finish_programs;
use weave_account::laws::account_is_right;
use weave_data::Items;
use weave_report::{print_report, printed_text_is_text};
use weave_script::{
    ScriptFault, read_script, report_texts_follow_script_texts, script_names_are_distinct,
    scripts_are_small, texts_are_of_one_script, texts_are_read,
};
use weaver_core::Core;

/// Reads the script, does its steps, and prints their report; or says why the input is refused.
pub(crate) fn trace_on(alloc: Global, input: &[u8]) -> Result<Answer, AllocError>
    requires { IsShort input.now }
    ensures { IfOk result (IsAnswerTo Command.Trace input.now) }
{
    texts_are_read();
    texts_are_of_one_script();
    match read_script(alloc, input) {
        Ok(script) => answer_for(alloc, script),
        Err(ScriptFault::Refused { line, cause }) => refusal(alloc, line, cause.text()),
        Err(ScriptFault::Memory) => Err(AllocError),
    }
}

// Does the steps of the script.
fn answer_for(alloc: Global, script: Script) -> Result<Answer, AllocError>
    requires { IsScript script }
    ensures { IfOk result (AnswersScript Command.Trace script) }
{
    scripts_are_small();
    let mut core = Core::start(alloc, script)?;
    answer_of_steps(alloc, &mut core)
}

// Does the steps of a core's script, and prints their report.
fn answer_of_steps(alloc: Global, core: &mut Core) -> Result<Answer, AllocError>
    requires valid { IsScript core.old.script }
    requires start { core.old.state ≡ start_state core.old.script }
    ensures { IfOk result (AnswersScript Command.Trace core.old.script) }
{
    account_is_right();
    replies_finish_programs();
    scripts_are_small();
    script_names_are_distinct();
    printed_text_is_text();
    report_texts_follow_script_texts();
    let report = report_of_steps(alloc, core)?;
    let text = print_report(alloc, core.script(), &report)?;
    Ok(Answer {
        status: Status::Done,
        text,
    })
}

// Does the steps of a core's script, and makes their report.
fn report_of_steps(alloc: Global, core: &mut Core) -> Result<Report, AllocError>
    requires start { core.old.state ≡ start_state core.old.script }
    requires steps { AllByRecursion (IsStepOf core.old.script) (steps_of core.old.script.steps) }
    ensures script { OnOk result (core.new.script ≡ core.old.script) }
    ensures report { IfOk result (IsReportOfSteps core.old.script) }
{
    orders_are_of_replies_and_pairs();
    let answers = traced(alloc, core)?;
    // Shows that the logs are an account.
    core.script();
    let mut report = core.report(alloc)?;
    report.answers = answers;
    Ok(report)
}

/// Does the steps of the core's script, one after another, and gives their answers.
pub(crate) fn traced(alloc: Global, core: &mut Core) -> Result<Items<StepAnswer>, AllocError>
    requires start { core.old.state ≡ start_state core.old.script }
    requires steps { AllByRecursion (IsStepOf core.old.script) (steps_of core.old.script.steps) }
    ensures script { OnOk result (core.new.script ≡ core.old.script) }
    ensures state { OnOk result (core.new.state ≡ (trace_of core.old.script (steps_of core.old.script.steps)).state) }
    ensures answers { IfOk result (λ answers. answers
        ≡ (trace_of core.old.script (steps_of core.old.script.steps)).answers) }
{
    let count = steps_of(core.script()).len();
    let mut answers = Items::from_vec(Vec::with_capacity(alloc, count)?);
    for index in 0..count {
        let step = steps_of(core.script())[index];
        let answer = core.step(alloc, &step)?;
        answers.push(answer)?;
    }
    Ok(answers)
}

// The steps of a script.
fn steps_of(script: &Script) -> &[Step]
    ensures { result.now ≡ steps_of script.now.steps }
{
    match &script.steps {
        Some(steps) => steps.as_slice(),
        None => &[],
    }
}
