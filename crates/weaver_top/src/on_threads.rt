//! A script run by workers on threads, phase by phase.
ghost use Rattle.std.specs.Prelude.{◌≡◌, ◌≤◌, ◌<◌, ◌+◌, ◌^◌, length, IfOk, OnErr};
ghost use Rattle.step_rules.specs.CoreState.{start_state};
ghost use Rattle.weave_script.specs.Scripts.{IsScript, RiseTo};
ghost use Rattle.weaver_workers.specs.Phases.{phase_end, phase_start};
ghost use Rattle.weaver_top.specs.ByWorkers.{AreRunByWorkers, IsPhaseOfWorkers};
ghost use Rattle.weaver_top.specs.PhaseByPhase.{EndsAt, IsRunUpTo, IsWholeRun};

use crate::lower_laws::the_crates_below_keep_their_laws;
use crate::phases::end_phase;
use program_defs::Script;
use std::alloc::{AllocError, Global};
use std::sync::Wait;
use std::thread::Threads;
use weave_phase::run_phase;
use weave_script::scripts_are_small;
use weaver_core::Core;
use weaver_workers::{Pace, end_of_phase, start_of_phase};

/// A core of the script, in which each request has its reply. The phases ended in turn: workers on threads ran each,
/// then the core was driven until each request of it had its reply, and the shards dropped old versions. The script's
/// steps play no part. It may wait.
pub(crate) fn run_on_threads<R: Threads + Wait + Sync, P: Pace>(
    rt: &R,
    alloc: Global,
    script: Script,
    pace: &P,
) -> Result<Core, AllocError>
    requires { IsScript script }
    ensures script { IfOk result (λ core. core.script ≡ script) }
    ensures whole { IfOk result (λ core. IsWholeRun script core.state.account) }
    ensures workers { IfOk result (λ core. AreRunByWorkers script (length script.phases + 1) core.state.account) }
{
    the_crates_below_keep_their_laws();
    scripts_are_small();
    let phases = count_phases(&script)?;
    let core = Core::start(alloc, script)?;
    let core = end_phases(rt, alloc, core, phases, pace)?;
    let core = run_and_end(rt, alloc, core, phases, pace)?;
    Ok(core)
}

// How many `phase` lines the script has. It refuses 2^32 or more, which no text has that is short enough to be read.
fn count_phases(script: &Script) -> Result<u32, AllocError>
    ensures count { IfOk result (λ count. count ≡ length script.now.phases) }
    ensures too_many { OnErr result (2 ^ 32 ≤ length script.now.phases) }
{
    let count = script.phases.as_slice().len();
    if count > u32::MAX as usize {
        return Err(AllocError);
    }
    Ok(count as u32)
}

// Each phase that ends at a `phase` line ends in turn.
fn end_phases<R: Threads + Wait + Sync, P: Pace>(
    rt: &R,
    alloc: Global,
    core: Core,
    phases: u32,
    pace: &P,
) -> Result<Core, AllocError>
    requires start { core.state ≡ start_state core.script }
    requires rise { RiseTo 0 (length core.script.requests) core.script.phases }
    requires count { phases ≡ length core.script.phases }
    ensures script { IfOk result (λ next. next.script ≡ core.script) }
    ensures run { IfOk result (λ next. IsRunUpTo core.script phases (phase_start core.script phases)
        next.state.account) }
    ensures workers { IfOk result (λ next. AreRunByWorkers core.script phases next.state.account) }
{
    the_crates_below_keep_their_laws();
    let mut core = core;
    for phase in 0..phases {
        core = end_next(rt, alloc, core, phase, pace)?;
    }
    Ok(core)
}

// One more phase ends.
fn end_next<R: Threads + Wait + Sync, P: Pace>(
    rt: &R,
    alloc: Global,
    core: Core,
    phase: u32,
    pace: &P,
) -> Result<Core, AllocError>
    requires there { phase < length core.script.phases }
    requires rise { RiseTo 0 (length core.script.requests) core.script.phases }
    requires run { IsRunUpTo core.script phase (phase_start core.script phase) core.state.account }
    requires workers { AreRunByWorkers core.script phase core.state.account }
    ensures script { IfOk result (λ next. next.script ≡ core.script) }
    ensures run { IfOk result (λ next. IsRunUpTo core.script (phase + 1) (phase_start core.script (phase + 1))
        next.state.account) }
    ensures workers { IfOk result (λ next. AreRunByWorkers core.script (phase + 1) next.state.account) }
{
    the_crates_below_keep_their_laws();
    core.script();
    let core = run_and_end(rt, alloc, core, phase, pace)?;
    Ok(core)
}

// A phase runs on threads, and ends. Nothing is done for a phase without requests.
fn run_and_end<R: Threads + Wait + Sync, P: Pace>(
    rt: &R,
    alloc: Global,
    core: Core,
    phase: u32,
    pace: &P,
) -> Result<Core, AllocError>
    requires number { phase ≤ length core.script.phases }
    requires rise { RiseTo 0 (length core.script.requests) core.script.phases }
    requires run { IsRunUpTo core.script phase (phase_start core.script phase) core.state.account }
    ensures script { IfOk result (λ next. next.script ≡ core.script) }
    ensures ends { IfOk result (λ next. EndsAt core.script (phase_end core.script phase) core.state.account
        next.state.account) }
    ensures workers { IfOk result (λ next. IsPhaseOfWorkers core.script phase core.state.account next.state.account) }
{
    the_crates_below_keep_their_laws();
    let from = start_of_phase(core.script(), phase);
    let end = end_of_phase(core.script(), phase);
    if end <= from {
        return Ok(core);
    }
    let mut core = run_phase(rt, alloc, core, phase, pace)?;
    // Shows that the logs are an account.
    core.script();
    end_phase(alloc, &mut core, end)?;
    Ok(core)
}
