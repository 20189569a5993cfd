//! A worker of a phase: a client, a gatekeeper or a shard.
ghost use Rattle.std.specs.Prelude.{ℕ, ◌<◌, IfOk};
ghost use Rattle.program_defs.specs.Limits.{IsWithinLimits};
ghost use Rattle.weaver_workers.specs.Keeping.{AreLocksOf, KeepsClient};
ghost use Rattle.weaver_workers.specs.Phases.{phase_end};
ghost use Rattle.weaver_workers.specs.Turning.{stand};
ghost use Rattle.weaver_workers.specs.Workers.{ClientWorks, GateWorks, HasPhase, IsIdleHand, IsReadyForPhase, IsReadyClient, ShardWorks, Works};

use crate::bounds::{end_of_phase, program_turns, start_of_phase, turns_of};
use crate::bringing::{Brought, turn_shard};
use crate::client_work::go_session;
use crate::ended::Ended;
use crate::gate_work::turn_gate;
use crate::hearing::no_clocks;
use crate::keeping::workers_keep_their_laws;
use crate::pace::{Pace, WorkKind};
use program_defs::Script;
use std::alloc::{AllocError, Global};
use std::sync::Wait;
use weaver_core::Client;
use weaver_locks::{Hand, Shared};

/// A worker of a phase, with its hand.
#[derive(Drop)]
pub enum Worker {
    /// A session's client, with the requests of one session of the script.
    ClientWork { hand: Hand, client: Client },
    /// A gatekeeper's worker, below the number of gatekeepers.
    GateWork { hand: Hand, gate: u32 },
    /// A shard's worker, below the number of shards.
    ShardWork { hand: Hand, shard: u32 },
}

impl Worker {
    /// Does the worker's part of a phase, numbered from 0, of which the script has one more than it has `phase` lines.
    ///
    /// A client goes through its session's requests up to the end of the phase. A gatekeeper takes four turns for each
    /// request of the phase, in which it hears the others, and in the first four for each program sends empty messages
    /// too. A shard takes as many turns as that, takes in in each what was sent, and processes it if any of it is new.
    /// `pace` is called before and after each turn that isn't out of memory. It may wait. The one error is out of
    /// memory; then the entries that it made stay, and nothing is promised of the worker.
    pub fn go<R: Wait, P: Pace>(
        &mut self,
        rt: &R,
        alloc: Global,
        shared: &Shared,
        script: &Script,
        phase: u32,
        pace: &P,
    ) -> Result<Ended, AllocError>
        requires limits { IsWithinLimits script.now }
        requires phase { HasPhase script.now phase }
        requires locks { AreLocksOf script.now shared.now }
        requires ready { IsReadyForPhase shared.now script.now phase self.old }
        ensures { IfOk result (Works shared.now script.now phase self.old self.new) }
    {
        match self {
            Worker::ClientWork { hand, client } => {
                go_client(rt, alloc, hand, client, shared, script, phase, pace)
            }
            Worker::GateWork { hand, gate } => {
                go_gate(rt, alloc, hand, *gate, shared, script, phase, pace)
            }
            Worker::ShardWork { hand, shard } => {
                go_shard(rt, alloc, hand, *shard, shared, script, phase, pace)
            }
        }
    }
}

// A client's part of a phase.
fn go_client<R: Wait, P: Pace>(
    rt: &R,
    alloc: Global,
    hand: &mut Hand,
    client: &mut Client,
    shared: &Shared,
    script: &Script,
    phase: u32,
    pace: &P,
) -> Result<Ended, AllocError>
    requires limits { IsWithinLimits script.now }
    requires locks { AreLocksOf script.now shared.now }
    requires ready { IsReadyClient shared.now script.now phase hand.old client.old }
    ensures { IfOk result (λ ended. (number : ℕ) → KeepsClient shared.now script.now number hand.old client.old
        → ClientWorks shared.now script.now number (phase_end script.now phase) (stand hand.old client.old)
        (stand hand.new client.new) ended) }
{
    workers_keep_their_laws();
    let upto = end_of_phase(script, phase);
    let Some(first) = client.first_unanswered() else {
        return Ok(Ended::Done);
    };
    let asked = &script.requests.as_slice()[first as usize];
    let number = asked.session;
    go_session(rt, alloc, hand, client, shared, script, number, upto, pace)
}

// A gatekeeper's part of a phase.
fn go_gate<R: Wait, P: Pace>(
    rt: &R,
    alloc: Global,
    hand: &mut Hand,
    gate: u32,
    shared: &Shared,
    script: &Script,
    phase: u32,
    pace: &P,
) -> Result<Ended, AllocError>
    requires limits { IsWithinLimits script.now }
    requires phase { HasPhase script.now phase }
    requires locks { AreLocksOf script.now shared.now }
    requires idle { IsIdleHand shared.now hand.old }
    requires gate { gate < script.now.gates }
    ensures { IfOk result (GateWorks shared.now script.now phase gate hand.old hand.new) }
{
    workers_keep_their_laws();
    let from = start_of_phase(script, phase);
    let upto = end_of_phase(script, phase);
    let sending = program_turns(script, from, upto);
    let mut last = no_clocks(alloc)?;
    for turn in 0..turns_of(from, upto) {
        pace.before(WorkKind::Gate, gate, turn);
        turn_gate(
            rt,
            alloc,
            hand,
            shared,
            script.gates,
            script.shards,
            gate,
            turn < sending,
            &mut last,
        )?;
        pace.after(WorkKind::Gate, gate, turn);
    }
    Ok(Ended::Done)
}

// A shard's part of a phase.
fn go_shard<R: Wait, P: Pace>(
    rt: &R,
    alloc: Global,
    hand: &mut Hand,
    shard: u32,
    shared: &Shared,
    script: &Script,
    phase: u32,
    pace: &P,
) -> Result<Ended, AllocError>
    requires limits { IsWithinLimits script.now }
    requires phase { HasPhase script.now phase }
    requires locks { AreLocksOf script.now shared.now }
    requires idle { IsIdleHand shared.now hand.old }
    requires shard { shard < script.now.shards }
    ensures { IfOk result (ShardWorks shared.now shard hand.old hand.new) }
{
    workers_keep_their_laws();
    let mut brought = Brought::new(alloc)?;
    let from = start_of_phase(script, phase);
    let upto = end_of_phase(script, phase);
    for turn in 0..turns_of(from, upto) {
        pace.before(WorkKind::Shard, shard, turn);
        turn_shard(rt, alloc, hand, shared, script.gates, shard, &mut brought)?;
        pace.after(WorkKind::Shard, shard, turn);
    }
    Ok(Ended::Done)
}
