//! A client's worker: it goes through its session's requests of a phase.
ghost use Rattle.std.specs.Prelude.{◌≡◌, ℕ, ◌<◌, length, IfOk, Some};
ghost use Rattle.program_defs.specs.Limits.{IsWithinLimits};
ghost use Rattle.weaver_core.specs.Sessions.{log_of_client, requests_in, unanswered_in, IsAClient};
ghost use Rattle.weaver_workers.specs.ClientWork.{WorkerEndsAs, WorkerGoesOn};
ghost use Rattle.weaver_workers.specs.Keeping.{AreLocksOf, KeepsClient};
ghost use Rattle.weaver_workers.specs.Turning.{below_in, busy_turns, ended_after, stand, Tries};

use crate::bringing::Brought;
use crate::changing::try_change;
use crate::ended::Ended;
use crate::keeping::workers_keep_their_laws;
use crate::looking::{look_on, start_look};
use crate::pace::{Pace, WorkKind};
use crate::tried::Tried;
use program_defs::{Script, Work};
use std::alloc::{AllocError, Global};
use std::sync::Wait;
use weaver_core::Client;
use weaver_locks::{Hand, Shared};

/// A client stops when it has found its gatekeeper busy in this many turns one after another.
const MOST_BUSY: u32 = 16;

/// Goes through the session's requests before `upto`, one try of one request a turn. It stops if a transaction was
/// in flight at its request's gatekeeper in 16 turns one after another, or if a shard was not ready after a nudge.
/// It may wait. The one error is out of memory.
pub(crate) fn go_session<R: Wait, P: Pace>(
    rt: &R,
    alloc: Global,
    hand: &mut Hand,
    client: &mut Client,
    shared: &Shared,
    script: &Script,
    number: u32,
    upto: u32,
    pace: &P,
) -> Result<Ended, AllocError>
    requires limits { IsWithinLimits script.now }
    requires locks { AreLocksOf script.now shared.now }
    requires keeps { KeepsClient shared.now script.now number hand.old client.old }
    ensures goes { IfOk result (λ ended. WorkerGoesOn shared.now script.now number upto (stand hand.old client.old)
        (stand hand.new client.new)) }
    ensures ends { IfOk result (WorkerEndsAs shared.now script.now upto (stand hand.new client.new)) }
{
    workers_keep_their_laws();
    let mut brought = Brought::new(alloc)?;
    let mut turn: u32 = 0;
    let mut busy: u32 = 0;
    for _ in rt.forever() {
        let Some(request) = next_below(client, upto) else {
            return Ok(Ended::Done);
        };
        pace.before(WorkKind::Client, number, turn);
        let tried = try_next(
            rt,
            alloc,
            hand,
            client,
            shared,
            script,
            number,
            request,
            &mut brought,
        )?;
        pace.after(WorkKind::Client, number, turn);
        turn = turn.wrapping_add(1);
        busy = busy_after(busy, tried);
        if let Some(ended) = ended_by(tried, busy) {
            return Ok(ended);
        }
    }
    unreachable!()
}

// The session's first request without a reply, if it comes before `upto`.
fn next_below(client: &Client, upto: u32) -> Option<u32>
    requires { IsAClient client.now }
    ensures next { result ≡ below_in upto client.now }
{
    match client.first_unanswered() {
        None => None,
        Some(request) => { if request < upto { Some(request) } else { None } }
    }
}

// In how many turns one after another the gatekeeper was busy.
fn busy_after(busy: u32, tried: Tried) -> u32
    ensures { result ≡ busy_turns busy tried }
{
    match tried {
        Tried::Busy { .. } => busy.saturating_add(1),
        Tried::Replied | Tried::NotYet { .. } => 0,
    }
}

// How the worker ends after this try, if it ends.
fn ended_by(tried: Tried, busy: u32) -> Option<Ended>
    ensures { result ≡ ended_after tried busy }
{
    match tried {
        Tried::Replied => None,
        Tried::Busy { gate } => {
            if busy < MOST_BUSY {
                None
            } else {
                Some(Ended::Busy { gate })
            }
        }
        Tried::NotYet { shard, gate } => Some(Ended::NotYet { shard, gate }),
    }
}

// Tries the session's first request without a reply.
fn try_next<R: Wait>(
    rt: &R,
    alloc: Global,
    hand: &mut Hand,
    client: &mut Client,
    shared: &Shared,
    script: &Script,
    number: u32,
    request: u32,
    brought: &mut Brought,
) -> Result<Tried, AllocError>
    requires limits { IsWithinLimits script.now }
    requires locks { AreLocksOf script.now shared.now }
    requires keeps { KeepsClient shared.now script.now number hand.old client.old }
    requires there { request < length script.now.requests }
    requires next { unanswered_in (requests_in client.old) (log_of_client client.old) ≡ Some request }
    ensures { IfOk result (λ tried. (upto : ℕ) → request < upto
        → Tries shared.now script.now number upto (stand hand.old client.old) (stand hand.new client.new) tried) }
{
    workers_keep_their_laws();
    if client.running.is_some() {
        return look_on(rt, alloc, hand, client, shared, script, number, brought);
    }
    match &script.requests.as_slice()[request as usize].work {
        Work::Change(ops) => try_change(
            rt,
            alloc,
            hand,
            client,
            shared,
            script,
            number,
            request,
            ops.as_slice(),
        ),
        Work::Look(program) => {
            start_look(
                rt, alloc, hand, client, shared, script, number, request, program,
            )?;
            look_on(rt, alloc, hand, client, shared, script, number, brought)
        }
    }
}
