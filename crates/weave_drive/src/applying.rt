//! Messages that arrived are processed.
ghost use Rattle.std.specs.Prelude.{◌<◌, IfOk, OnOk};
ghost use Rattle.weave_account.specs.Account.{NoneInFlight};
ghost use Rattle.drive_rules.specs.Heads.{AllArrived};
ghost use Rattle.weave_drive.specs.Driving.{Drives};
ghost use Rattle.weave_drive.specs.Progress.{AppliesChannel, AppliesAll, AppliesRound};

use crate::lower_laws::the_crates_below_keep_their_laws;
use crate::stepping::{is_done, step};
use program_defs::Step;
use std::alloc::{AllocError, Global};
use weaver_core::Core;

// The head of the channel is processed, if it can be: whether it was.
fn apply(alloc: Global, core: &mut Core, shard: u32, gate: u32) -> Result<bool, AllocError>
    requires gate { gate < core.old.script.gates }
    requires shard { shard < core.old.script.shards }
    ensures drives { Drives 0 core.old core.new }
    ensures applies { IfOk result (AppliesChannel core.old.script.gates shard gate core.old.state core.new.state) }
{
    the_crates_below_keep_their_laws();
    let answer = step(alloc, core, Step::Apply { shard, gate })?;
    Ok(is_done(&answer))
}

// Heads of the channel are processed while they can be: whether one was.
fn apply_channel(alloc: Global, core: &mut Core, shard: u32, gate: u32) -> Result<bool, AllocError>
    requires gate { gate < core.old.script.gates }
    requires shard { shard < core.old.script.shards }
    ensures drives { Drives 0 core.old core.new }
    ensures applies { IfOk result (AppliesChannel core.old.script.gates shard gate core.old.state core.new.state) }
{
    let mut moved = false;
    while apply(alloc, core, shard, gate)? {
        moved = true;
    }
    Ok(moved)
}

// A round over all channels to the shard: whether a message was processed.
fn apply_round(alloc: Global, core: &mut Core, shard: u32) -> Result<bool, AllocError>
    requires shard { shard < core.old.script.shards }
    ensures drives { Drives 0 core.old core.new }
    ensures applies { IfOk result
        (AppliesRound core.old.script.gates shard core.old.script.gates core.old.state core.new.state) }
{
    let gates = core.script().gates;
    let mut moved = false;
    for gate in 0..gates {
        let applied = apply_channel(alloc, core, shard, gate)?;
        moved = moved | applied;
    }
    Ok(moved)
}

// All that arrived at the shard is processed.
pub(crate) fn apply_all(alloc: Global, core: &mut Core, shard: u32) -> Result<(), AllocError>
    requires shard { shard < core.old.script.shards }
    requires quiet { NoneInFlight core.old.state.account }
    requires arrived { AllArrived core.old.state.account shard }
    ensures drives { Drives 0 core.old core.new }
    ensures applies { OnOk result (AppliesAll shard core.old.state.account core.new.state.account) }
{
    the_crates_below_keep_their_laws();
    core.script();
    while apply_round(alloc, core, shard)? {}
    Ok(())
}
