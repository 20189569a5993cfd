//! What the tests of a core have in common: a core of a script's text, its steps, and its report.
ghost use Rattle.std.specs.Prelude.{IsTrue};
ghost use Rattle.step_rules.specs.IsCore.{IsStepOf};

use crate::judging::judge;
use order_witness::Judged;
use program_defs::{Script, Step};
use report_rules::StepAnswer;
use std::alloc::Global;
use std::process::Abort;
use weave_drive::drive;
use weave_report::print_report;
use weave_script::read_script;
use weaver_core::Core;

// Whether the step is one on a request, at a gatekeeper or at a shard of the script.
fn is_step_of(script: &Script, step: &Step) -> bool
    ensures { IsTrue result → IsStepOf script.now step.now }
{
    let requests = script.requests.as_slice();
    match *step {
        Step::Begin { request } | Step::Visit { request } | Step::Reply { request } => {
            (request as usize) < requests.len()
        }
        Step::Judge { gate } | Step::Send { gate } | Step::Say { gate } => gate < script.gates,
        Step::Hear { gate, notice } => gate < script.gates && 1 <= notice,
        Step::Nop { gate, shard } => gate < script.gates && shard < script.shards,
        Step::Deliver {
            gate,
            shard,
            number,
        } => gate < script.gates && shard < script.shards && 1 <= number,
        Step::Apply { shard, gate } => shard < script.shards && gate < script.gates,
        Step::Epoch { gate, epoch } | Step::Restart { gate, epoch } => {
            gate < script.gates && 1 <= epoch && epoch <= 1_000_000
        }
        Step::Collect { shard } => shard < script.shards,
    }
}

/// A core at the start of the script of this text.
pub fn core_of(rt: &impl Abort, alloc: Global, text: &str) -> Core {
    let Ok(script) = read_script(alloc, text.as_bytes()) else {
        panic!(rt; "no script: {text}");
    };
    assert!(rt; script.is_within_limits());
    Core::start(alloc, script).expect(rt, "memory")
}

/// The steps of a script.
pub fn steps_of(script: &Script) -> &[Step] {
    match &script.steps {
        Some(steps) => steps.as_slice(),
        None => &[],
    }
}

/// Does a step.
pub fn step(rt: &impl Abort, alloc: Global, core: &mut Core, step: Step) -> StepAnswer {
    assert!(rt; is_step_of(core.script(), &step));
    core.step(alloc, &step).expect(rt, "memory")
}

/// Does the script's steps from one place to another: whether each was done.
pub fn do_steps(rt: &impl Abort, alloc: Global, core: &mut Core, from: usize, to: usize) -> bool {
    let mut is_done = true;
    for place in from..to {
        let Some(next) = steps_of(core.script()).get(place) else {
            panic!(rt; "no step {place}");
        };
        let next = *next;
        let answer = step(rt, alloc, core, next);
        is_done = is_done && matches!(answer, StepAnswer::Ok);
    }
    is_done
}

/// Drives the core until each of the first requests has its reply.
pub fn drive_to(rt: &impl Abort, alloc: Global, core: &mut Core, upto: u32) {
    assert!(rt; upto as usize <= core.script().requests.as_slice().len());
    drive(alloc, core, upto).expect(rt, "memory");
}

/// The text of the report, which is right.
pub fn text_of(rt: &impl Abort, alloc: Global, core: &Core) -> Vec<u8> {
    let report = core.report(alloc).expect(rt, "memory");
    assert!(rt; judge(rt, alloc, core.script(), &report) == Judged::Yes);
    print_report(alloc, core.script(), &report).expect(rt, "memory")
}
