//! A script run by driving a core, phase by phase.
ghost use Rattle.std.specs.Prelude.{◌≡◌, ◌≤◌, ◌<◌, ◌+◌, ℕ, length, slice_get, Some, IfOk, OnOk};
ghost use Rattle.program_defs.specs.Limits.{IsWithinLimits};
ghost use Rattle.step_rules.specs.CoreState.{start_state};
ghost use Rattle.weave_script.specs.Scripts.{IsScript, RiseTo};
ghost use Rattle.weaver_top.specs.PhaseByPhase.{EndsAt, IsRunUpTo, IsWholeRun, RunsBelow};

use crate::lower_laws::the_crates_below_keep_their_laws;
use program_defs::Step;
use std::alloc::{AllocError, Global};
use weave_drive::drive;
use weave_script::scripts_are_small;
use weaver_core::Core;

/// Each request of the core's script gets its reply. The core is driven to the end of each phase in turn, and then
/// through the last one; after each the shards drop old versions. The script's steps play no part.
pub(crate) fn run(alloc: Global, core: &mut Core) -> Result<(), AllocError>
    requires valid { IsScript core.old.script }
    requires start { core.old.state ≡ start_state core.old.script }
    ensures script { OnOk result (core.new.script ≡ core.old.script) }
    ensures whole { OnOk result (IsWholeRun core.old.script core.new.state.account) }
{
    the_crates_below_keep_their_laws();
    scripts_are_small();
    end_phases(alloc, core)?;
    let all = count_of(core);
    end_phase(alloc, core, all)?;
    Ok(())
}

// Each phase that ends at a `phase` line ends in turn.
fn end_phases(alloc: Global, core: &mut Core) -> Result<(), AllocError>
    requires start { core.old.state ≡ start_state core.old.script }
    requires rise { RiseTo 0 (length core.old.script.requests) core.old.script.phases }
    ensures script { OnOk result (core.new.script ≡ core.old.script) }
    ensures run { OnOk result ((bound : ℕ)
        × IsRunUpTo core.old.script (length core.old.script.phases) bound core.new.state.account) }
{
    the_crates_below_keep_their_laws();
    let mut bound = 0;
    for phase in 0..core.script().phases.as_slice().len() {
        bound = end_next(alloc, core, phase, bound)?;
    }
    Ok(())
}

// One more phase ends: the bound from then on. Nothing is done for a phase without requests.
fn end_next(alloc: Global, core: &mut Core, phase: usize, bound: u32) -> Result<u32, AllocError>
    requires there { phase < length core.old.script.phases }
    requires rise { RiseTo 0 (length core.old.script.requests) core.old.script.phases }
    requires run { IsRunUpTo core.old.script phase bound core.old.state.account }
    ensures script { OnOk result (core.new.script ≡ core.old.script) }
    ensures run { IfOk result (λ end. IsRunUpTo core.old.script (phase + 1) end core.new.state.account) }
{
    the_crates_below_keep_their_laws();
    let end = end_of(core, phase);
    if end <= bound {
        return Ok(bound);
    }
    end_phase(alloc, core, end)?;
    Ok(end)
}

// The number of the first request after a phase.
fn end_of(core: &Core, phase: usize) -> u32
    requires { phase < length core.now.script.phases }
    ensures is { slice_get core.now.script.phases phase ≡ Some result }
    ensures limits { IsWithinLimits core.now.script }
{
    core.script().phases.as_slice()[phase]
}

/// The phase of the requests below the bound ends: the core is driven until each of them has its reply, and then the
/// shards drop old versions.
pub(crate) fn end_phase(alloc: Global, core: &mut Core, bound: u32) -> Result<(), AllocError>
    requires { bound ≤ length core.old.script.requests }
    ensures script { OnOk result (core.new.script ≡ core.old.script) }
    ensures ends { OnOk result (EndsAt core.old.script bound core.old.state.account core.new.state.account) }
{
    the_crates_below_keep_their_laws();
    core.script();
    drive(alloc, core, bound)?;
    collect_all(alloc, core)?;
    Ok(())
}

// Each shard drops old versions.
fn collect_all(alloc: Global, core: &mut Core) -> Result<(), AllocError>
    ensures script { OnOk result (core.new.script ≡ core.old.script) }
    ensures runs { OnOk result ((bound : ℕ)
        → RunsBelow core.old.script bound core.old.state.account core.new.state.account) }
{
    the_crates_below_keep_their_laws();
    let shards = core.script().shards;
    for shard in 0..shards {
        collect(alloc, core, shard)?;
    }
    Ok(())
}

// The shard drops old versions.
fn collect(alloc: Global, core: &mut Core, shard: u32) -> Result<(), AllocError>
    requires { shard < core.old.script.shards }
    ensures script { OnOk result (core.new.script ≡ core.old.script) }
    ensures runs { OnOk result ((bound : ℕ)
        → RunsBelow core.old.script bound core.old.state.account core.new.state.account) }
{
    the_crates_below_keep_their_laws();
    core.script();
    core.step(alloc, &Step::Collect { shard })?;
    core.script();
    Ok(())
}

// How many requests there are.
fn count_of(core: &Core) -> u32
    ensures { result ≡ length core.now.script.requests }
{
    core.script().requests.as_slice().len() as u32
}
