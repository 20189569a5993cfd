//! The script's steps, and then a drive until each request has its reply.
ghost use Rattle.std.specs.Prelude.{◌≡◌, IsTrue};
ghost use Rattle.step_rules.specs.IsCore.{IsStepOf};
ghost use Rattle.weave_script.specs.Scripts.{IsScript};

use crate::ended::{Ended, done, refused};
use program_defs::{Script, Step};
use std::alloc::{AllocError, Global};
use weave_data::Items;
use weave_drive::drive;
use weave_report::{Report, StepAnswer, print_report};
use weave_script::{read_script, scripts_are_small, texts_are_of_one_script};
use weaver_core::Core;

/// The report of a core that does the script's steps and is driven on, with the steps' answers; or the line and the
/// cause for which the script is refused.
pub fn drive_on(alloc: Global, input: &[u8]) -> Result<Ended, AllocError> {
    texts_are_of_one_script();
    match read_script(alloc, input) {
        Ok(script) => start_and_drive(alloc, script),
        Err(fault) => refused(alloc, fault),
    }
}

fn start_and_drive(alloc: Global, script: Script) -> Result<Ended, AllocError>
    requires { IsScript script }
{
    scripts_are_small();
    match Core::start(alloc, script) {
        Ok(mut core) => step_and_drive(alloc, &mut core),
        Err(error) => Err(error),
    }
}

fn step_and_drive(alloc: Global, core: &mut Core) -> Result<Ended, AllocError> {
    let answers = do_steps(alloc, core)?;
    let requests = u32::try_from(core.script().requests.as_slice().len()).unwrap_or(0);
    drive(alloc, core, requests)?;
    report_with(alloc, core, answers)
}

// Does the script's steps, one after another, and gives their answers.
fn do_steps(alloc: Global, core: &mut Core) -> Result<Items<StepAnswer>, AllocError> {
    let mut answers = Items::new(alloc);
    for at in 0..usize::MAX {
        let Some(step) = step_at(core.script(), at) else {
            break;
        };
        if is_step_of(core.script(), &step) {
            answers.push(core.step(alloc, &step)?)?;
        }
    }
    Ok(answers)
}

fn step_at(script: &Script, at: usize) -> Option<Step> {
    script.steps.as_ref()?.as_slice().get(at).copied()
}

// Whether the step is one on a request, at a gatekeeper or at a shard of the script.
fn is_step_of(script: &Script, step: &Step) -> bool
    ensures { IsTrue result → IsStepOf script.now step.now }
{
    let requests = script.requests.as_slice();
    match *step {
        Step::Begin { request } | Step::Visit { request } | Step::Reply { request } => {
            (request as usize) < requests.len()
        }
        Step::Judge { gate } | Step::Send { gate } | Step::Say { gate } => gate < script.gates,
        Step::Hear { gate, notice } => gate < script.gates && 1 <= notice,
        Step::Nop { gate, shard } => gate < script.gates && shard < script.shards,
        Step::Deliver {
            gate,
            shard,
            number,
        } => gate < script.gates && shard < script.shards && 1 <= number,
        Step::Apply { shard, gate } => shard < script.shards && gate < script.gates,
        Step::Epoch { gate, epoch } | Step::Restart { gate, epoch } => {
            gate < script.gates && 1 <= epoch && epoch <= 1_000_000
        }
        Step::Collect { shard } => shard < script.shards,
    }
}

fn report_with(
    alloc: Global,
    core: &Core,
    answers: Items<StepAnswer>,
) -> Result<Ended, AllocError> {
    match core.report(alloc) {
        Ok(report) => printed(alloc, core.script(), report, answers),
        Err(error) => Err(error),
    }
}

fn printed(
    alloc: Global,
    script: &Script,
    report: Report,
    answers: Items<StepAnswer>,
) -> Result<Ended, AllocError> {
    let mut report = report;
    report.answers = answers;
    match print_report(alloc, script, &report) {
        Ok(text) => Ok(done(text)),
        Err(error) => Err(error),
    }
}
