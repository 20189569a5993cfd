//! Transactions in flight are judged and sent.
ghost use Rattle.std.specs.Prelude.{◌≡◌, ◌<◌, None, OnOk};
ghost use Rattle.weave_entries.specs.GateReplay.{flight_of};
ghost use Rattle.weave_account.specs.Account.{gate_log, NoneInFlight};
ghost use Rattle.weave_drive.specs.Driving.{Drives};

use crate::lower_laws::the_crates_below_keep_their_laws;
use crate::stepping::step;
use program_defs::Step;
use std::alloc::{AllocError, Global};
use weaver_core::Core;

// The flight at the gatekeeper ends, if there is one.
pub(crate) fn end_flight(alloc: Global, core: &mut Core, gate: u32) -> Result<(), AllocError>
    requires { gate < core.old.script.gates }
    ensures drives { Drives 0 core.old core.new }
    ensures ends { OnOk result (flight_of (gate_log core.new.state.account gate) ≡ None) }
{
    step(alloc, core, Step::Judge { gate })?;
    step(alloc, core, Step::Send { gate })?;
    Ok(())
}

// All flights end.
pub(crate) fn end_flights(alloc: Global, core: &mut Core) -> Result<(), AllocError>
    ensures drives { Drives 0 core.old core.new }
    ensures quiet { OnOk result (NoneInFlight core.new.state.account) }
{
    the_crates_below_keep_their_laws();
    let gates = core.script().gates;
    for gate in 0..gates {
        end_flight(alloc, core, gate)?;
    }
    Ok(())
}
