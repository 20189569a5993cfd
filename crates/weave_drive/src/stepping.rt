//! Single steps.
ghost use Rattle.std.specs.Prelude.{◌≡◌, ℕ, IsTrue, IfOk, OnErr};
ghost use Rattle.step_rules.specs.IsCore.{IsStepOf};
ghost use Rattle.weaver_core.specs.Cores.{DoesStep};
ghost use Rattle.weave_drive.specs.Driving.{Drives, is_driving};
ghost use Rattle.step_rules.specs.Trace.{is_ok};
ghost use Rattle.weave_drive.specs.Progress.{AreCores, is_known};

use program_defs::Step;
use report_rules::StepAnswer;
use std::alloc::{AllocError, Global};
use weaver_core::Core;

// Does a step. A driving step drives the core.
pub(crate) fn step(alloc: Global, core: &mut Core, step: Step) -> Result<StepAnswer, AllocError>
    requires { IsStepOf core.old.script step }
    ensures done { IfOk result (λ answer. DoesStep step core.old core.new answer) }
    ensures cores { IfOk result (λ answer. AreCores core.old core.new) }
    ensures refused { OnErr result (core.new ≡ core.old) }
    ensures drives { (upto : ℕ) → IsTrue (is_driving upto step) → Drives upto core.old core.new }
{
    core.script();
    let answer = core.step(alloc, &step)?;
    core.script();
    Ok(answer)
}

// Whether the step was done.
pub(crate) fn is_done(answer: &StepAnswer) -> bool
    ensures { result ≡ is_ok answer.now }
{
    match answer {
        StepAnswer::Ok => true,
        _ => false,
    }
}

// Whether the message was sent.
pub(crate) fn is_sent(answer: &StepAnswer) -> bool
    ensures { result ≡ is_known answer.now }
{
    match answer {
        StepAnswer::Ok => true,
        StepAnswer::Repeat => true,
        _ => false,
    }
}
