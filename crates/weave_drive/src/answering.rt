//! Each request in turn has its reply.
ghost use Rattle.std.specs.Prelude.{◌≡◌, ◌+◌, ◌<◌, ◌≤◌, true, false, length, OnOk, None, Some};
ghost use Rattle.program_defs.specs.Works as works;
ghost use Rattle.report_rules.specs.Lookups.{request_at};
ghost use Rattle.weave_entries.specs.GateReplay.{flight_of};
ghost use Rattle.weave_account.specs.Account.{gate_log, NoneInFlight};
ghost use Rattle.weave_drive.specs.Driving.{AreReplied, Drives, DrivesGates, IsDriven};
ghost use Rattle.weave_drive.specs.Progress.{AreAnsweredBelow, IsReading, HasNoNextVertex};
ghost use Rattle.weave_drive.specs.Staying.{ReportStays};

use crate::flights::{end_flight, end_flights};
use crate::looking::look;
use crate::lower_laws::the_crates_below_keep_their_laws;
use crate::stepping::step;
use program_defs::{Request, Step, Work};
use std::alloc::{AllocError, Global};
use weaver_core::Core;

// The request of this number.
fn asked(core: &Core, request: u32) -> &Request
    requires { request < length core.now.script.requests }
    ensures { request_at core.now.script request ≡ Some result.now }
{
    &core.script().requests.as_slice()[request as usize]
}

// Whether the work is a transaction.
fn is_change(work: &Work) -> bool
    ensures { result ≡ works.is_change work.now }
{
    match work {
        Work::Change(_) => true,
        Work::Look(_) => false,
    }
}

// A request that has begun at this gatekeeper is sent, or read: a transaction or a program.
fn end_request(
    alloc: Global,
    core: &mut Core,
    home: u32,
    request: u32,
    change: bool,
) -> Result<(), AllocError>
    requires home { home < core.old.script.gates }
    requires reading { change ≡ false → IsReading core.old.script request home core.old.state.account }
    requires quiet { change ≡ false → NoneInFlight core.old.state.account }
    ensures drives { Drives 0 core.old core.new }
    ensures sent { OnOk result (change ≡ true → flight_of (gate_log core.new.state.account home) ≡ None) }
    ensures read { OnOk result (change ≡ false → HasNoNextVertex core.old.script request core.new.state.account) }
{
    if change {
        end_flight(alloc, core, home)?;
        return Ok(());
    }
    look(alloc, core, home, request)?;
    Ok(())
}

// The request begins, unless it has, and has its reply.
fn answer(alloc: Global, core: &mut Core, request: u32) -> Result<(), AllocError>
    requires there { request < length core.old.script.requests }
    requires answered { AreAnsweredBelow core.old.script request core.old.state.account }
    ensures drives { Drives (request + 1) core.old core.new }
    ensures answered { OnOk result (AreAnsweredBelow core.old.script (request + 1) core.new.state.account) }
{
    the_crates_below_keep_their_laws();
    let found = asked(core, request);
    let home = found.gate;
    let change = is_change(&found.work);
    step(alloc, core, Step::Begin { request })?;
    end_request(alloc, core, home, request, change)?;
    step(alloc, core, Step::Reply { request })?;
    Ok(())
}

/// Drives the core by ordinary steps until each request below `upto` has its reply (Weaver, PVLDB 9(11) 2016).
///
/// It begins no request from `upto` on and raises no epoch, and what the core's report said stays. It ends from each
/// core. The one error is out of memory, and then the core is as some of those steps left it.
pub fn drive(alloc: Global, core: &mut Core, upto: u32) -> Result<(), AllocError>
    requires { upto ≤ length core.old.script.requests }
    ensures script { core.new.script ≡ core.old.script }
    ensures driven { IsDriven core.old.script upto core.old.state core.new.state }
    ensures replied { OnOk result (AreReplied core.old.script upto core.new.state.account) }
    ensures gates { DrivesGates upto core.old.state.account core.new.state.account }
    ensures stays { ReportStays core.old.script core.old.state.account core.new.state.account }
{
    the_crates_below_keep_their_laws();
    core.script();
    drive_all(alloc, core, upto)
}

// Flights end, and then each request in turn has its reply, from the first one on that has none.
fn drive_all(alloc: Global, core: &mut Core, upto: u32) -> Result<(), AllocError>
    requires { upto ≤ length core.old.script.requests }
    ensures drives { Drives upto core.old core.new }
    ensures replied { OnOk result (AreReplied core.old.script upto core.new.state.account) }
{
    end_flights(alloc, core)?;
    let first = core.first_unanswered();
    for request in first..upto {
        answer(alloc, core, request)?;
    }
    Ok(())
}
