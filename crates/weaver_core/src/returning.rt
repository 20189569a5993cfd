//! A gatekeeper that is kept in a list stops, and returns in its place.
ghost use Rattle.std.specs.Prelude.{◌≡◌, ◌≤◌, ◌<◌, not, nat_lt, OnOk, OnErr};
ghost use Rattle.weave_entries.specs.declared.gate_log.GateDeed.TheVariants as deed;
ghost use Rattle.weave_entries.specs.GateReplay.{clock_of};
ghost use Rattle.gatekeeper.specs.Answers.{IsRefusedWhere};
ghost use Rattle.gatekeeper.specs.Gates.{Adds};
ghost use Rattle.gatekeeper.specs.Stopping.{AreLeftOpen};
ghost use Rattle.weaver_core.specs.GateTable.{IsSameGate};

use core::mem::replace_with;
use gatekeeper::{Gate, GateFault, Open};
use std::alloc::Global;

// The new epoch, and what is handed in again.
#[derive(Drop)]
struct HandedIn {
    epoch: u64,
    flight: Option<u32>,
    running: Vec<Open>,
}

/// The gatekeeper stops, and returns in that epoch, if that is above its own. The room for its entry is taken first.
pub(crate) fn restart_at(
    gate: &mut Gate,
    alloc: Global,
    epoch: u64,
    flight: Option<u32>,
    running: Vec<Open>,
) -> Result<(), GateFault>
    requires left { AreLeftOpen flight running.items gate.old.log }
    ensures raised { OnOk result (Adds gate.old gate.new 0 (deed.Raised epoch)) }
    ensures old { IsRefusedWhere GateFault.Old
        (not (nat_lt (clock_of gate.old.home gate.old.log).epoch epoch)) result }
    ensures refused { OnErr result (IsSameGate gate.old gate.new) }
{
    gate.reserve(alloc, 1)?;
    if epoch <= gate.say().epoch {
        return Err(GateFault::Old);
    }
    come_back_in_place(
        gate,
        HandedIn {
            epoch,
            flight,
            running,
        },
    );
    Ok(())
}

// It takes no memory.
fn come_back_in_place(gate: &mut Gate, handed: HandedIn)
    requires room { 1 ≤ gate.old.spare }
    requires epoch { (clock_of gate.old.home gate.old.log).epoch < handed.epoch }
    requires left { AreLeftOpen handed.flight handed.running.items gate.old.log }
    ensures { Adds gate.old gate.new 0 (deed.Raised handed.epoch) }
{
    replace_with(gate, handed, come_back);
}

fn come_back(gate: Gate, handed: HandedIn) -> (Gate, ())
    requires room { 1 ≤ gate.spare }
    requires epoch { (clock_of gate.home gate.log).epoch < handed.epoch }
    requires left { AreLeftOpen handed.flight handed.running.items gate.log }
    ensures { Adds gate result.0 0 (deed.Raised handed.epoch) }
{
    let HandedIn {
        epoch,
        flight,
        running,
    } = handed;
    (Gate::returned(gate.stop(), 0, epoch, flight, running), ())
}
