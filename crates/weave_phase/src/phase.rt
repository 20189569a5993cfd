//! A phase of a script, run by workers on threads.
ghost use Rattle.std.specs.Prelude.{ℕ, ◌<◌, ◌≤◌, AllPairs, Contains, IfOk, length};
ghost use Rattle.weave_data.specs.Limits.{most_sessions};
ghost use Rattle.weave_account.specs.Account.{NoneInFlight};
ghost use Rattle.weaver_workers.specs.Phases.{phase_end, phase_start};
ghost use Rattle.weaver_workers.specs.Workers.{HasPhase};
ghost use Rattle.workers_account.specs.Ready.{IsAnsweredUpTo};
ghost use Rattle.workers_account.specs.SessionRuns.{HasNoRequest};
ghost use Rattle.weave_phase.specs.Parts.{AreReadyParts, PartsGoOn};
ghost use Rattle.weave_phase.specs.RunsPhase.{RunsPhase};

use crate::lower_laws::phases_keep_their_laws;
use crate::rules::{shows_shards, shows_store};
use crate::running::run_all;
use crate::seats::{seat_all, unseat_all};
use crate::sessions::sessions_of;
use crate::slots::{from_slots, into_slots};
use std::alloc::{AllocError, Global};
use std::sync::Wait;
use std::thread::Threads;
use weaver_core::{Core, Split};
use weaver_locks::{Closed, Shared};
use weaver_workers::{Pace, end_of_phase, start_of_phase};

/// Runs a phase, numbered from 0, on as many threads as it has workers: one for each session with requests in it, each
/// gatekeeper and each shard. A phase without requests has none. It may wait.
///
/// Each session then has the replies to all its requests before the end of the phase, or the logs show one of two
/// reasons to stop. Its next request is a transaction, and at some time in the phase, after all that its gatekeeper had
/// begun for the session, one of another session was in flight there, begun in the phase. Or its program was begun in
/// the phase and has no reply, each gatekeeper but the program's home has heard of it, and at some time in the phase,
/// after what it read there, the shard of the vertex that it visits next was not ready for it. That the client tried
/// meanwhile, no log shows. What is left is for whoever drives the core afterwards.
///
/// Two requests that were begun in the phase have the same author exactly if they are of the same session. All that a
/// drive begins has one author.
///
/// The one error is out of memory, and then the core is gone.
pub fn run_phase<R: Threads + Wait + Sync, P: Pace>(
    rt: &R,
    alloc: Global,
    core: Core,
    phase: u32,
    pace: &P,
) -> Result<Core, AllocError>
    requires phase { HasPhase core.script phase }
    requires landed { NoneInFlight core.state.account }
    requires before { IsAnsweredUpTo core.script (phase_start core.script phase) core.state.account }
    ensures { IfOk result (RunsPhase (phase_end core.script phase) core) }
{
    let from = start_of_phase(core.script(), phase);
    let upto = end_of_phase(core.script(), phase);
    if upto <= from {
        return Ok(core);
    }
    let split = core.split();
    shows_store(&split.store);
    shows_shards(split.shards.as_slice());
    let sessions = sessions_of(alloc, &split.script, from, upto)?;
    let left = run_parts(rt, alloc, split, phase, sessions.as_slice(), pace)?;
    Ok(Core::join(left))
}

// Runs a phase on the parts of a core, with workers for these sessions. All others have no request in the phase.
fn run_parts<R: Threads + Wait + Sync, P: Pace>(
    rt: &R,
    alloc: Global,
    split: Split,
    phase: u32,
    sessions: &[u32],
    pace: &P,
) -> Result<Split, AllocError>
    requires parts { AreReadyParts phase split }
    requires rising { AllPairs (λ (a b : ℕ). a < b) sessions.now }
    requires few { (session : ℕ) → Contains sessions.now session → session < most_sessions }
    requires count { length sessions.now ≤ most_sessions }
    requires all { (session : ℕ) → ¬ Contains sessions.now session
        → HasNoRequest split.script (phase_start split.script phase) (phase_end split.script phase) session }
    ensures { IfOk result (PartsGoOn phase split) }
{
    phases_keep_their_laws();
    let Split {
        script,
        gates,
        store,
        oracle,
        shards,
        clients,
        notices,
    } = split;
    let count = sessions.len() as u32 + script.gates + script.shards;
    let (shared, hands) = Shared::new(alloc, gates, store, oracle, shards, count)?;
    let mut slots = into_slots(alloc, clients)?;
    let mut seats = seat_all(alloc, hands, &mut slots, sessions, script.gates)?;
    run_all(
        rt,
        alloc,
        &shared,
        &script,
        phase,
        seats.as_mut_slice(),
        pace,
    )?;
    let hands = unseat_all(alloc, seats, &mut slots, sessions)?;
    let clients = from_slots(alloc, slots)?;
    let Closed {
        gates,
        store,
        oracle,
        shards,
    } = shared.close(hands);
    Ok(Split {
        script,
        gates,
        store,
        oracle,
        shards,
        clients,
        notices,
    })
}
