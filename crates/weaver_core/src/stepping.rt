//! A step of the machines, and what is kept of the programs after it.
ghost use Rattle.std.specs.Prelude.{◌≡◌, ◌<◌, None, Some, length, IfOk, OnErr, true};
ghost use Rattle.std.specs.Option.{ForSome, option_map};
ghost use Rattle.program_defs.specs.declared.script.Step.TheVariants as step;
ghost use Rattle.report_rules.specs.declared.report.StepAnswer.TheVariants as answer;
ghost use Rattle.report_rules.specs.Lookups.{request_at};
ghost use Rattle.program_defs.specs.Limits.{IsWithinLimits};
ghost use Rattle.program_defs.specs.declared.script.Request.{Request};
ghost use Rattle.step_rules.specs.Answers.{answer_of};
ghost use Rattle.step_rules.specs.IsCore.{IsStepOf};
ghost use Rattle.step_rules.specs.Requests.{last_begun};
ghost use Rattle.step_rules.specs.Trace.{is_ok};
ghost use Rattle.weaver_core.specs.Cores.{AreOf, AreSameMachines, MachinesDo};
ghost use Rattle.weaver_core.specs.Splitting.{AreAllByLog};
ghost use Rattle.weaver_core.specs.declared.walks.Running.{Running};
ghost use Rattle.weaver_core.specs.Walks.{IsChangeAt, IsLook, IsLookAt, IsOtherStep, IsRunningIn, begun_with};

use crate::machines::Machines;
use crate::staying::what_stays;
use crate::walks::Running;
use path_program::AnyProgram;
use program_defs::laws::order_of_reads_is_free;
use program_defs::{Program, Script, Step, Work};
use report_rules::StepAnswer;
use std::alloc::{AllocError, Global};
use vector_stamp::Stamp;
use weave_account::laws::requests_of_a_session_rise;
use weave_entries::laws::{begun_and_replied_are_decided, sessions_go_in_turn};

/// Does a step. The sessions' values stay as the logs say. The one error is out of memory.
pub(crate) fn step_in(
    alloc: Global,
    script: &Script,
    machines: &mut Machines,
    step: &Step,
) -> Result<StepAnswer, AllocError>
    requires are { AreOf script.now machines.old }
    requires programs { AreAllByLog script.now machines.old.state.account machines.old.values }
    requires there { IsStepOf script.now step.now }
    ensures done { IfOk result (λ answer. MachinesDo script.now step.now machines.old machines.new answer) }
    ensures refused { OnErr result (AreSameMachines machines.old machines.new) }
    ensures programs { AreAllByLog script.now machines.new.state.account machines.new.values }
{
    match *step {
        Step::Begin { request } => begin_with(alloc, script, machines, request),
        Step::Visit { request } => visit_with(alloc, script, machines, request),
        Step::Reply { request } => reply_with(alloc, script, machines, request),
        Step::Judge { .. }
        | Step::Send { .. }
        | Step::Say { .. }
        | Step::Hear { .. }
        | Step::Nop { .. }
        | Step::Deliver { .. }
        | Step::Apply { .. }
        | Step::Collect { .. }
        | Step::Epoch { .. }
        | Step::Restart { .. } => other_step(alloc, script, machines, step),
    }
}

// Does a step that is not of a request.
fn other_step(
    alloc: Global,
    script: &Script,
    machines: &mut Machines,
    step: &Step,
) -> Result<StepAnswer, AllocError>
    requires are { AreOf script.now machines.old }
    requires programs { AreAllByLog script.now machines.old.state.account machines.old.values }
    requires there { IsStepOf script.now step.now }
    requires other { IsOtherStep step.now }
    ensures done { IfOk result (λ answer. MachinesDo script.now step.now machines.old machines.new answer) }
    ensures refused { OnErr result (AreSameMachines machines.old machines.new) }
    ensures programs { AreAllByLog script.now machines.new.state.account machines.new.values }
{
    what_stays();
    begun_and_replied_are_decided();
    sessions_go_in_turn();
    machines.step(alloc, script, step)
}

// `begin R`: the walk of a program is made first.
fn begin_with(
    alloc: Global,
    script: &Script,
    machines: &mut Machines,
    request: u32,
) -> Result<StepAnswer, AllocError>
    requires are { AreOf script.now machines.old }
    requires programs { AreAllByLog script.now machines.old.state.account machines.old.values }
    requires there { request < length script.now.requests }
    ensures done { IfOk result (λ answer. MachinesDo script.now (step.Begin request) machines.old machines.new answer) }
    ensures refused { OnErr result (AreSameMachines machines.old machines.new) }
    ensures programs { AreAllByLog script.now machines.new.state.account machines.new.values }
{
    match &script.requests.as_slice()[request as usize].work {
        Work::Change(_) => begin_change(alloc, script, machines, request),
        Work::Look(program) => begin_program(alloc, script, machines, request, program),
    }
}

fn begin_change(
    alloc: Global,
    script: &Script,
    machines: &mut Machines,
    request: u32,
) -> Result<StepAnswer, AllocError>
    requires are { AreOf script.now machines.old }
    requires programs { AreAllByLog script.now machines.old.state.account machines.old.values }
    requires there { request < length script.now.requests }
    requires change { IsChangeAt script.now request }
    ensures done { IfOk result (λ answer. MachinesDo script.now (step.Begin request) machines.old machines.new answer) }
    ensures refused { OnErr result (AreSameMachines machines.old machines.new) }
    ensures programs { AreAllByLog script.now machines.new.state.account machines.new.values }
{
    what_stays();
    begun_and_replied_are_decided();
    sessions_go_in_turn();
    machines.begin(alloc, script, request)
}

fn begin_program(
    alloc: Global,
    script: &Script,
    machines: &mut Machines,
    request: u32,
    program: &Program,
) -> Result<StepAnswer, AllocError>
    requires are { AreOf script.now machines.old }
    requires programs { AreAllByLog script.now machines.old.state.account machines.old.values }
    requires there { request < length script.now.requests }
    requires look { IsLookAt script.now request program.now }
    ensures done { IfOk result (λ answer. MachinesDo script.now (step.Begin request) machines.old machines.new answer) }
    ensures refused { OnErr result (AreSameMachines machines.old machines.new) }
    ensures programs { AreAllByLog script.now machines.new.state.account machines.new.values }
{
    what_stays();
    begun_and_replied_are_decided();
    requests_of_a_session_rise();
    sessions_go_in_turn();
    let walk = AnyProgram::new(alloc, program)?;
    let answer = machines.begin(alloc, script, request)?;
    if !is_done(&answer) {
        return Ok(answer);
    }
    let session = session_of(script, request);
    let stamp = machines.last(session);
    machines.put(session, begun_with(request, stamp, walk));
    Ok(answer)
}

// Whether the step was done.
fn is_done(answer: &StepAnswer) -> bool
    ensures { result ≡ is_ok answer.now }
{
    match answer {
        StepAnswer::Ok => true,
        _ => false,
    }
}

// The session of a request.
fn session_of(script: &Script, request: u32) -> u32
    requires { request < length script.now.requests }
    ensures { (asked : Request) → request_at script.now request ≡ Some asked → result ≡ asked.session }
{
    script.requests.as_slice()[request as usize].session
}

// The program that was begun with this stamp by the core itself.
fn begun_with(request: u32, stamp: Option<Stamp>, walk: AnyProgram) -> Option<Running>
    ensures { result ≡ begun_with request stamp walk }
{
    match stamp {
        None => None,
        Some(stamp) => Some(Running {
            request,
            stamp,
            walk,
        }),
    }
}

// `visit R`, if the request has begun and has no reply: its program, if it is one, is the one that is running in its
// session.
fn visit_with(
    alloc: Global,
    script: &Script,
    machines: &mut Machines,
    request: u32,
) -> Result<StepAnswer, AllocError>
    requires are { AreOf script.now machines.old }
    requires programs { AreAllByLog script.now machines.old.state.account machines.old.values }
    requires there { request < length script.now.requests }
    ensures done { IfOk result (λ answer. MachinesDo script.now (step.Visit request) machines.old machines.new answer) }
    ensures refused { OnErr result (AreSameMachines machines.old machines.new) }
    ensures programs { AreAllByLog script.now machines.new.state.account machines.new.values }
{
    what_stays();
    begun_and_replied_are_decided();
    requests_of_a_session_rise();
    sessions_go_in_turn();
    if !machines.is_open(script, request) {
        return Ok(StepAnswer::Idle);
    }
    let session = session_of(script, request);
    let mut running = machines.take(session);
    let answer = visit_taken(alloc, script, machines, &mut running, request);
    machines.put(session, running);
    answer
}

fn visit_taken(
    alloc: Global,
    script: &Script,
    machines: &mut Machines,
    running: &mut Option<Running>,
    request: u32,
) -> Result<StepAnswer, AllocError>
    requires are { AreOf script.now machines.old }
    requires runs { ForSome running.old (IsRunningIn script.now machines.old.state.account request) }
    requires idle { running.old ≡ None → answer_of script.now machines.old.state (step.Visit request) ≡ answer.Idle }
    ensures done { IfOk result (λ answer. MachinesDo script.now (step.Visit request) machines.old machines.new answer) }
    ensures refused { OnErr result (machines.new ≡ machines.old) }
    ensures values { machines.new.values ≡ machines.old.values }
    ensures runs { ForSome running.new (IsRunningIn script.now machines.new.state.account request) }
    ensures same { option_map (λ (one : Running). one.stamp) running.new
        ≡ option_map (λ (one : Running). one.stamp) running.old }
{
    match running {
        Some(running) => machines.visit(alloc, script, request, running),
        None => Ok(StepAnswer::Idle),
    }
}

// `reply R`: a program is finished.
fn reply_with(
    alloc: Global,
    script: &Script,
    machines: &mut Machines,
    request: u32,
) -> Result<StepAnswer, AllocError>
    requires are { AreOf script.now machines.old }
    requires programs { AreAllByLog script.now machines.old.state.account machines.old.values }
    requires there { request < length script.now.requests }
    ensures done { IfOk result (λ answer. MachinesDo script.now (step.Reply request) machines.old machines.new answer) }
    ensures refused { OnErr result (AreSameMachines machines.old machines.new) }
    ensures programs { AreAllByLog script.now machines.new.state.account machines.new.values }
{
    match &script.requests.as_slice()[request as usize].work {
        Work::Change(_) => reply_to_change(alloc, script, machines, request),
        Work::Look(_) => reply_to_program(alloc, script, machines, request),
    }
}

fn reply_to_change(
    alloc: Global,
    script: &Script,
    machines: &mut Machines,
    request: u32,
) -> Result<StepAnswer, AllocError>
    requires are { AreOf script.now machines.old }
    requires programs { AreAllByLog script.now machines.old.state.account machines.old.values }
    requires there { request < length script.now.requests }
    requires change { IsChangeAt script.now request }
    ensures done { IfOk result (λ answer. MachinesDo script.now (step.Reply request) machines.old machines.new answer) }
    ensures refused { OnErr result (AreSameMachines machines.old machines.new) }
    ensures programs { AreAllByLog script.now machines.new.state.account machines.new.values }
{
    what_stays();
    begun_and_replied_are_decided();
    requests_of_a_session_rise();
    sessions_go_in_turn();
    machines.reply(alloc, script, request)
}

fn reply_to_program(
    alloc: Global,
    script: &Script,
    machines: &mut Machines,
    request: u32,
) -> Result<StepAnswer, AllocError>
    requires are { AreOf script.now machines.old }
    requires programs { AreAllByLog script.now machines.old.state.account machines.old.values }
    requires there { request < length script.now.requests }
    requires look { IsLook script.now request }
    ensures done { IfOk result (λ answer. MachinesDo script.now (step.Reply request) machines.old machines.new answer) }
    ensures refused { OnErr result (AreSameMachines machines.old machines.new) }
    ensures programs { AreAllByLog script.now machines.new.state.account machines.new.values }
{
    what_stays();
    begun_and_replied_are_decided();
    order_of_reads_is_free();
    requests_of_a_session_rise();
    sessions_go_in_turn();
    machines.finish(alloc, script, request)
}
