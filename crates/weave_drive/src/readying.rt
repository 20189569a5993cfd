//! A shard becomes ready for a program.
ghost use Rattle.std.specs.Prelude.{◌<◌, ℕ, OnOk};
ghost use Rattle.weave_account.specs.Account.{NoneInFlight};
ghost use Rattle.weave_drive.specs.Driving.{Drives};
ghost use Rattle.weave_drive.specs.Progress.{MakesReady, Nudges};

use crate::applying::apply_all;
use crate::delivering::deliver_to;
use crate::lower_laws::the_crates_below_keep_their_laws;
use crate::stepping::step;
use program_defs::Step;
use std::alloc::{AllocError, Global};
use weaver_core::Core;

// The gatekeeper hears what the program's one says now, and sends an empty message to the shard, stamped after all that
// the program's one has stamped.
fn nudge(alloc: Global, core: &mut Core, home: u32, gate: u32, shard: u32) -> Result<(), AllocError>
    requires home { home < core.old.script.gates }
    requires gate { gate < core.old.script.gates }
    requires shard { shard < core.old.script.shards }
    requires quiet { NoneInFlight core.old.state.account }
    ensures drives { Drives 0 core.old core.new }
    ensures nudges { OnOk result (Nudges home gate shard core.old.state.account core.new.state.account) }
{
    the_crates_below_keep_their_laws();
    step(alloc, core, Step::Say { gate: home })?;
    let notice = core.notices();
    step(alloc, core, Step::Hear { gate, notice })?;
    step(alloc, core, Step::Nop { gate, shard })?;
    Ok(())
}

// Each gatekeeper sends such a message.
fn nudge_all(alloc: Global, core: &mut Core, home: u32, shard: u32) -> Result<(), AllocError>
    requires home { home < core.old.script.gates }
    requires shard { shard < core.old.script.shards }
    requires quiet { NoneInFlight core.old.state.account }
    ensures drives { Drives 0 core.old core.new }
    ensures nudges { OnOk result ((gate : ℕ) → gate < core.old.script.gates
        → Nudges home gate shard core.old.state.account core.new.state.account) }
{
    the_crates_below_keep_their_laws();
    let gates = core.script().gates;
    for gate in 0..gates {
        nudge(alloc, core, home, gate, shard)?;
    }
    Ok(())
}

// The shard is ready for each program that was begun at the gatekeeper.
pub(crate) fn make_ready(
    alloc: Global,
    core: &mut Core,
    home: u32,
    shard: u32,
) -> Result<(), AllocError>
    requires home { home < core.old.script.gates }
    requires shard { shard < core.old.script.shards }
    requires quiet { NoneInFlight core.old.state.account }
    ensures drives { Drives 0 core.old core.new }
    ensures ready { OnOk result (MakesReady core.old.script home shard core.old.state.account core.new.state.account) }
{
    the_crates_below_keep_their_laws();
    core.script();
    nudge_all(alloc, core, home, shard)?;
    deliver_to(alloc, core, shard)?;
    apply_all(alloc, core, shard)?;
    Ok(())
}
