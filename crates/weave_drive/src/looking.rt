//! A program reads its vertices.
ghost use Rattle.std.specs.Prelude.{◌<◌, length, IfOk, OnOk};
ghost use Rattle.weave_account.specs.Account.{NoneInFlight};
ghost use Rattle.weave_drive.specs.Driving.{Drives};
ghost use Rattle.weave_drive.specs.Progress.{IsReading, HasNoNextVertex, ReadsOnward};

use crate::lower_laws::the_crates_below_keep_their_laws;
use crate::readying::make_ready;
use crate::stepping::step;
use program_defs::Step;
use report_rules::StepAnswer;
use std::alloc::{AllocError, Global};
use weaver_core::Core;

// The program's next vertex is visited, or its shard becomes ready: whether there was one.
fn visit(alloc: Global, core: &mut Core, home: u32, request: u32) -> Result<bool, AllocError>
    requires reading { IsReading core.old.script request home core.old.state.account }
    requires quiet { NoneInFlight core.old.state.account }
    ensures drives { Drives 0 core.old core.new }
    ensures visits { IfOk result
        (ReadsOnward core.old.script request home core.old.state.account core.new.state.account) }
{
    the_crates_below_keep_their_laws();
    core.script();
    match step(alloc, core, Step::Visit { request })? {
        StepAnswer::Ok => Ok(true),
        StepAnswer::Again { shard, .. } => {
            make_ready(alloc, core, home, shard)?;
            Ok(true)
        }
        _ => Ok(false),
    }
}

// The program reads all its vertices.
pub(crate) fn look(
    alloc: Global,
    core: &mut Core,
    home: u32,
    request: u32,
) -> Result<(), AllocError>
    requires reading { IsReading core.old.script request home core.old.state.account }
    requires quiet { NoneInFlight core.old.state.account }
    ensures drives { Drives 0 core.old core.new }
    ensures whole { OnOk result (HasNoNextVertex core.old.script request core.new.state.account) }
{
    the_crates_below_keep_their_laws();
    core.script();
    while visit(alloc, core, home, request)? {}
    Ok(())
}
