//! `hear G K` and `epoch G E`: what changes a gatekeeper's clock without an event.
ghost use Rattle.std.specs.Prelude.{◌≡◌, ◌<◌, length, IfOk, OnErr};
ghost use Rattle.shard_queue.specs.Outbox.{sent_as};
ghost use Rattle.weaver_core.specs.Clocks.{Hears, Raises};

use crate::gates::Gates;
use gatekeeper::GateFault;
use report_rules::StepAnswer;
use std::alloc::{AllocError, Global};
use vector_stamp::Clock;

/// The notice of this number is heard, if there is one. The one error is out of memory.
pub(crate) fn hear_in(
    alloc: Global,
    gates: &mut Gates,
    notices: &[Clock],
    gate: u32,
    notice: u64,
) -> Result<StepAnswer, AllocError>
    requires { gate < length gates.old.logs }
    ensures hears { IfOk result (Hears gates.old gates.new notices.now gate notice) }
    ensures refused { OnErr result (gates.new ≡ gates.old) }
{
    let Some(clock) = notice_at(notices, notice) else {
        return Ok(StepAnswer::Unknown);
    };
    gates.hear(alloc, gate, &clock)?;
    Ok(StepAnswer::Ok)
}

/// The gatekeeper is in that epoch, if it is above its own. The one error is out of memory.
pub(crate) fn raise_in(
    alloc: Global,
    gates: &mut Gates,
    gate: u32,
    epoch: u64,
) -> Result<StepAnswer, AllocError>
    requires { gate < length gates.old.logs }
    ensures raises { IfOk result (Raises gates.old gates.new gate epoch) }
    ensures refused { OnErr result (gates.new ≡ gates.old) }
{
    match gates.raise(alloc, gate, epoch) {
        Ok(()) => Ok(StepAnswer::Ok),
        Err(GateFault::Old) => Ok(StepAnswer::Old),
        Err(_) => Err(AllocError),
    }
}

// The notice of this number, from 1, if there is one.
fn notice_at(notices: &[Clock], notice: u64) -> Option<Clock>
    ensures { result ≡ sent_as notice notices.now }
{
    if notice == 0 || notice > notices.len() as u64 {
        return None;
    }
    Some(notices[(notice - 1) as usize])
}
