//! Messages that were sent arrive.
ghost use Rattle.std.specs.Prelude.{◌≡◌, ◌+◌, ◌-◌, ◌<◌, ◌≤◌, ◌^◌, IfOk, OnErr, OnOk};
ghost use Rattle.weave_drive.specs.Driving.{Drives};
ghost use Rattle.weave_drive.specs.Progress.{DeliversMessage, DeliversAll, DeliversTo};

use crate::lower_laws::the_crates_below_keep_their_laws;
use crate::stepping::{is_sent, step};
use program_defs::Step;
use std::alloc::{AllocError, Global};
use weaver_core::Core;

// The message of this number arrives, if it was sent: whether it was.
fn deliver(
    alloc: Global,
    core: &mut Core,
    gate: u32,
    shard: u32,
    number: u64,
) -> Result<bool, AllocError>
    requires gate { gate < core.old.script.gates }
    requires shard { shard < core.old.script.shards }
    requires number { 1 ≤ number }
    ensures drives { Drives 0 core.old core.new }
    ensures delivers { IfOk result (DeliversMessage gate shard number core.old.state.account core.new.state.account) }
{
    let message = Step::Deliver {
        gate,
        shard,
        number,
    };
    let answer = step(alloc, core, message)?;
    Ok(is_sent(&answer))
}

// The number after it. The one error is out of memory: a channel with more messages than numbers can't be kept.
fn number_after(number: u64) -> Result<u64, AllocError>
    ensures next { IfOk result (λ next. next ≡ number + 1) }
    ensures memory { OnErr result (number ≡ 2 ^ 64 - 1) }
{
    if number == u64::MAX {
        return Err(AllocError);
    }
    Ok(number + 1)
}

// All that the gatekeeper sent to the shard arrives, from the message on that the shard processes next.
//
// What has arrived and waits is asked for once more. After a delivery all that arrived is processed, so that is only
// what waits when driving begins.
fn deliver_all(alloc: Global, core: &mut Core, gate: u32, shard: u32) -> Result<(), AllocError>
    requires gate { gate < core.old.script.gates }
    requires shard { shard < core.old.script.shards }
    ensures drives { Drives 0 core.old core.new }
    ensures delivers { OnOk result (DeliversAll gate shard core.old.state.account core.new.state.account) }
{
    the_crates_below_keep_their_laws();
    core.script();
    let mut number = core.next_message(shard, gate);
    while deliver(alloc, core, gate, shard, number)? {
        number = number_after(number)?;
    }
    Ok(())
}

// All that was sent to the shard arrives.
pub(crate) fn deliver_to(alloc: Global, core: &mut Core, shard: u32) -> Result<(), AllocError>
    requires shard { shard < core.old.script.shards }
    ensures drives { Drives 0 core.old core.new }
    ensures delivers { OnOk result (DeliversTo shard core.old.state.account core.new.state.account) }
{
    the_crates_below_keep_their_laws();
    let gates = core.script().gates;
    for gate in 0..gates {
        deliver_all(alloc, core, gate, shard)?;
    }
    Ok(())
}
