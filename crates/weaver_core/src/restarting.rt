//! `restart G E`: a gatekeeper stops and returns. What it had begun is handed in again by the sessions.
ghost use Rattle.std.specs.Prelude.{◌≡◌, ◌<◌, length, IfOk, OnErr};
ghost use Rattle.gatekeeper.specs.Stopping.{AreLeftOpen};
ghost use Rattle.weaver_core.specs.Clocks.{Raises};
ghost use Rattle.weaver_core.specs.GateTable.{gate_log_at};
ghost use Rattle.weaver_core.specs.Restarting.{open_flight, open_programs};

use crate::gates::Gates;
use crate::sessions::Clients;
use gatekeeper::GateFault;
use program_defs::Request;
use report_rules::StepAnswer;
use std::alloc::{AllocError, Global};

/// The gatekeeper stops, and returns in that epoch, if that is above its own. The list of its open programs is made
/// first. The one error is out of memory.
pub(crate) fn restart_in(
    alloc: Global,
    gates: &mut Gates,
    clients: &Clients,
    requests: &[Request],
    gate: u32,
    epoch: u64,
) -> Result<StepAnswer, AllocError>
    requires there { gate < length gates.old.logs }
    requires left { AreLeftOpen (open_flight requests.now gate (gate_log_at gates.old gate) clients.now.logs)
        (open_programs requests.now gate clients.now.logs) (gate_log_at gates.old gate) }
    ensures raises { IfOk result (Raises gates.old gates.new gate epoch) }
    ensures refused { OnErr result (gates.new ≡ gates.old) }
{
    let running = clients.open_programs(alloc, requests, gate)?;
    let flight = clients.open_flight(gates, requests, gate);
    match gates.restart(alloc, gate, epoch, flight, running) {
        Ok(()) => Ok(StepAnswer::Ok),
        Err(GateFault::Old) => Ok(StepAnswer::Old),
        Err(_) => Err(AllocError),
    }
}
