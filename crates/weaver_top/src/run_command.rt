//! What `run` answers to an input.
ghost use Rattle.std.specs.Prelude.{◌≡◌, ◌≤◌, ℕ, List, length, IfOk};
ghost use Rattle.step_rules.specs.CoreState.{start_state};
ghost use Rattle.weave_script.specs.Scripts.{IsScript};
ghost use Rattle.weave_script.specs.ScriptLines.{IsTextOf};
ghost use Rattle.weaver_top.specs.Answers.{AnswersScript, IsAnswerTo, TellsOfLogs};
ghost use Rattle.weaver_top.specs.ByWorkers.{TellsByWorkers};
ghost use Rattle.weaver_top.specs.PhaseByPhase.{IsWholeRun};
ghost use Rattle.weave_script.specs.Limits.{IsShort};

use crate::answer::{Answer, refusal};
use crate::command::Command;
use crate::on_threads::run_on_threads;
use crate::phases::run;
use crate::status::Status;
use program_defs::Script;
use std::alloc::{AllocError, Global};
use std::sync::Wait;
use std::thread::Threads;
use weave_account::laws::{account_is_right, phases_are_kept, replied_requests_are_final};
use weave_report::{print_report, printed_text_is_text};
use weave_script::{
    ScriptFault, read_script, report_texts_follow_script_texts, script_names_are_distinct,
    scripts_are_small, texts_are_of_one_script, texts_are_read,
};
use weaver_core::Core;
use weaver_workers::Pace;

/// Reads the script, runs it, and prints its report; or says why the input is refused.
pub(crate) fn report_on(alloc: Global, input: &[u8]) -> Result<Answer, AllocError>
    requires { IsShort input.now }
    ensures { IfOk result (IsAnswerTo Command.Run input.now) }
{
    texts_are_read();
    texts_are_of_one_script();
    match read_script(alloc, input) {
        Ok(script) => answer_for(alloc, script),
        Err(ScriptFault::Refused { line, cause }) => refusal(alloc, line, cause.text()),
        Err(ScriptFault::Memory) => Err(AllocError),
    }
}

// Runs the script.
fn answer_for(alloc: Global, script: Script) -> Result<Answer, AllocError>
    requires { IsScript script }
    ensures { IfOk result (AnswersScript Command.Run script) }
{
    scripts_are_small();
    let mut core = Core::start(alloc, script)?;
    answer_of_run(alloc, &mut core)
}

// Runs the script of a core, and prints its report.
fn answer_of_run(alloc: Global, core: &mut Core) -> Result<Answer, AllocError>
    requires valid { IsScript core.old.script }
    requires start { core.old.state ≡ start_state core.old.script }
    ensures { IfOk result (AnswersScript Command.Run core.old.script) }
{
    run(alloc, core)?;
    let answer = answer_of(alloc, core)?;
    Ok(answer)
}

/// Reads the script, runs it by workers on threads, and prints its report; or says why the input is refused. It may
/// wait.
pub(crate) fn report_on_threads<R: Threads + Wait + Sync, P: Pace>(
    rt: &R,
    alloc: Global,
    input: &[u8],
    pace: &P,
) -> Result<Answer, AllocError>
    requires { IsShort input.now }
    ensures right { IfOk result (IsAnswerTo Command.Run input.now) }
    ensures workers { IfOk result (λ answer. answer.status ≡ Status.Done
        → TellsByWorkers input.now answer.text.items) }
{
    texts_are_read();
    texts_are_of_one_script();
    match read_script(alloc, input) {
        Ok(script) => answer_on_threads(rt, alloc, script, pace),
        Err(ScriptFault::Refused { line, cause }) => refusal(alloc, line, cause.text()),
        Err(ScriptFault::Memory) => Err(AllocError),
    }
}

// Runs the script by workers on threads.
fn answer_on_threads<R: Threads + Wait + Sync, P: Pace>(
    rt: &R,
    alloc: Global,
    script: Script,
    pace: &P,
) -> Result<Answer, AllocError>
    requires { IsScript script }
    ensures right { IfOk result (AnswersScript Command.Run script) }
    ensures workers { IfOk result (λ answer. (input : List ℕ) → IsTextOf input script
        → TellsByWorkers input answer.text.items) }
{
    let core = run_on_threads(rt, alloc, script, pace)?;
    answer_of(alloc, &core)
}

// Prints the report of a core whose script was run.
fn answer_of(alloc: Global, core: &Core) -> Result<Answer, AllocError>
    requires valid { IsScript core.now.script }
    requires whole { IsWholeRun core.now.script core.now.state.account }
    ensures right { IfOk result (AnswersScript Command.Run core.now.script) }
    ensures of_logs { IfOk result (TellsOfLogs core.now.script core.now.state.account) }
{
    account_is_right();
    phases_are_kept();
    replied_requests_are_final();
    scripts_are_small();
    script_names_are_distinct();
    printed_text_is_text();
    report_texts_follow_script_texts();
    let report = core.report(alloc)?;
    let text = print_report(alloc, core.script(), &report)?;
    Ok(Answer {
        status: Status::Done,
        text,
    })
}
