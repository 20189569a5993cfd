//! A program of a session: begun, read on, and finished with its reply.
ghost use Rattle.std.specs.Prelude.{◌≡◌, ℕ, ◌<◌, length, IfOk, None, Some};
ghost use Rattle.program_defs.specs.Limits.{IsWithinLimits};
ghost use Rattle.program_defs.specs.declared.script.Request.{Request};
ghost use Rattle.program_defs.specs.declared.script.Work.TheVariants as work;
ghost use Rattle.report_rules.specs.Lookups.{request_at};
ghost use Rattle.weaver_core.specs.Sessions.{IsInTurn};
ghost use Rattle.weaver_workers.specs.ClientWork.{WorkerGoesOn};
ghost use Rattle.weaver_workers.specs.Keeping.{AreLocksOf, KeepsClient};
ghost use Rattle.weaver_workers.specs.Turning.{stand, tried_by, ProgramHasReadAll, RunsIn, Tries};

use crate::bringing::Brought;
use crate::keeping::workers_keep_their_laws;
use crate::reading::{Read, read_all};
use crate::tried::Tried;
use path_program::AnyProgram;
use program_defs::{Program, Script};
use report_rules::{Reply, ReplyState};
use std::alloc::{AllocError, Global};
use std::sync::Wait;
use weaver_core::{Client, Running};
use weaver_hands::{finish, start};
use weaver_locks::{Hand, Shared};

/// The session's next request, which is this program, is begun. It may wait. The one error is out of memory.
pub(crate) fn start_look<R: Wait>(
    rt: &R,
    alloc: Global,
    hand: &mut Hand,
    client: &mut Client,
    shared: &Shared,
    script: &Script,
    number: u32,
    request: u32,
    program: &Program,
) -> Result<(), AllocError>
    requires limits { IsWithinLimits script.now }
    requires locks { AreLocksOf script.now shared.now }
    requires keeps { KeepsClient shared.now script.now number hand.old client.old }
    requires there { request < length script.now.requests }
    requires turn { IsInTurn client.old.session request }
    requires work { (asked : Request) → request_at script.now request ≡ Some asked
        → asked.work ≡ work.Look program.now }
    ensures goes { IfOk result (λ done. (upto : ℕ) → request < upto
        → WorkerGoesOn shared.now script.now number upto (stand hand.old client.old) (stand hand.new client.new)) }
    ensures runs { IfOk result (λ done. RunsIn shared.now (stand hand.new client.new)) }
{
    workers_keep_their_laws();
    let asked = &script.requests.as_slice()[request as usize];
    client.reserve()?;
    let walk = AnyProgram::new(alloc, program)?;
    let last = client.session.last();
    match start(rt, alloc, hand, shared, request, asked.gate, last) {
        Ok(stamp) => {
            client.begun(number, request, stamp);
            client.running = Some(Running {
                request,
                stamp,
                walk,
            });
            Ok(())
        }
        Err(_) => Err(AllocError),
    }
}

/// The running program reads on. If it reads all, it is finished, and the session has its reply. It may wait. The one
/// error is out of memory.
pub(crate) fn look_on<R: Wait>(
    rt: &R,
    alloc: Global,
    hand: &mut Hand,
    client: &mut Client,
    shared: &Shared,
    script: &Script,
    number: u32,
    brought: &mut Brought,
) -> Result<Tried, AllocError>
    requires locks { AreLocksOf script.now shared.now }
    requires keeps { KeepsClient shared.now script.now number hand.old client.old }
    requires runs { RunsIn shared.now (stand hand.old client.old) }
    ensures { IfOk result (λ tried. (upto : ℕ)
        → Tries shared.now script.now number upto (stand hand.old client.old) (stand hand.new client.new) tried) }
{
    workers_keep_their_laws();
    let read = read_all(rt, alloc, hand, client, shared, script.gates, brought)?;
    if let Some(tried) = tried_so(read) {
        return Ok(tried);
    }
    finish_look(rt, alloc, hand, client, shared, script, number)
}

// The try ended, since a shard was not ready.
fn tried_so(read: Read) -> Option<Tried>
    ensures { result ≡ tried_by read }
{
    match read {
        Read::Over => None,
        Read::More => None,
        Read::NotYet { shard, gate } => Some(Tried::NotYet { shard, gate }),
    }
}

// The running program, which has read all that it visits, is finished, and the session has its reply.
fn finish_look<R: Wait>(
    rt: &R,
    alloc: Global,
    hand: &mut Hand,
    client: &mut Client,
    shared: &Shared,
    script: &Script,
    number: u32,
) -> Result<Tried, AllocError>
    requires keeps { KeepsClient shared.now script.now number hand.old client.old }
    requires over { ProgramHasReadAll (stand hand.old client.old) }
    ensures { IfOk result (λ tried. (upto : ℕ)
        → Tries shared.now script.now number upto (stand hand.old client.old) (stand hand.new client.new) tried) }
{
    workers_keep_their_laws();
    let _ = script;
    client.reserve()?;
    let Some(running) = &client.running else {
        unreachable!();
    };
    let request = running.request;
    let stamp = running.stamp;
    match finish(rt, alloc, hand, shared, running) {
        Ok(answer) => {
            client.replied(
                number,
                Reply {
                    request,
                    stamp: Some(stamp),
                    state: ReplyState::Finished(answer),
                },
            );
            Ok(Tried::Replied)
        }
        Err(_) => Err(AllocError),
    }
}
