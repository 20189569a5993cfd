//! A running program reads vertex after vertex.
ghost use Rattle.std.specs.Prelude.{◌≡◌, ◌≤◌, false, IfOk, IsSome, OnErr, Some};
ghost use Rattle.path_program.specs.AnyPrograms.{next_read};
ghost use Rattle.weaver_core.specs.declared.walks.Running.{Running};
ghost use Rattle.weaver_hands.specs.declared.fault.HandFault.TheVariants.{Memory};
ghost use Rattle.weaver_hands.specs.Programs.{IsRunning};
ghost use Rattle.weaver_locks.specs.Hands.{IsHand};
ghost use Rattle.weaver_locks.specs.Locks.{gate_count, shard_count};
ghost use Rattle.weaver_workers.specs.Turning.{is_more, read_of_fault, stand, unready_in, KeepsOn, ReadAfterNudgeAs, ReadAs, RefusesVisit, RunsAfterRead, RunsIn, ReadsNextVertex};

use crate::bringing::Brought;
use crate::keeping::workers_keep_their_laws;
use crate::nudging::nudge;
use node_program::NodeProgram;
use std::alloc::{AllocError, Global};
use std::sync::Wait;
use weaver_core::{Client, Running};
use weaver_hands::{HandFault, visit};
use weaver_locks::{Hand, Shared};

/// What came of a program's next read.
#[derive(Clone, Copy, PartialEq, Eq)]
pub(crate) enum Read {
    /// It has no next vertex.
    Over,
    /// It was read.
    More,
    /// The shard was not ready, as far as this gatekeeper is concerned.
    NotYet { shard: u32, gate: u32 },
}

/// The running program reads vertex after vertex, until it has read all or one is not ready after a nudge. It may wait.
/// The one error is out of memory.
pub(crate) fn read_all<R: Wait>(
    rt: &R,
    alloc: Global,
    hand: &mut Hand,
    client: &mut Client,
    shared: &Shared,
    gates: u32,
    brought: &mut Brought,
) -> Result<Read, AllocError>
    requires hand { IsHand shared.now hand.old }
    requires gates { gates ≤ gate_count shared.now }
    requires runs { RunsIn shared.now (stand hand.old client.old) }
    ensures hand { IfOk result (λ read. IsHand shared.now hand.new) }
    ensures runs { IfOk result (λ read. RunsIn shared.now (stand hand.new client.new)) }
    ensures goes { IfOk result (λ read. KeepsOn shared.now (stand hand.old client.old) (stand hand.new client.new)) }
    ensures read { IfOk result (ReadAfterNudgeAs shared.now gates (stand hand.new client.new)) }
    ensures ended { IfOk result (λ read. is_more read ≡ false) }
{
    workers_keep_their_laws();
    for _ in rt.forever() {
        let read = read_or_nudge(rt, alloc, hand, client, shared, gates, brought)?;
        if !goes_on(read) {
            return Ok(read);
        }
    }
    unreachable!()
}

// Whether a vertex was read.
fn goes_on(read: Read) -> bool
    ensures { result ≡ is_more read }
{
    match read {
        Read::Over => false,
        Read::More => true,
        Read::NotYet { .. } => false,
    }
}

// The running program reads its next vertex; if it is not ready, once more after a nudge.
fn read_or_nudge<R: Wait>(
    rt: &R,
    alloc: Global,
    hand: &mut Hand,
    client: &mut Client,
    shared: &Shared,
    gates: u32,
    brought: &mut Brought,
) -> Result<Read, AllocError>
    requires hand { IsHand shared.now hand.old }
    requires gates { gates ≤ gate_count shared.now }
    requires runs { RunsIn shared.now (stand hand.old client.old) }
    ensures hand { IfOk result (λ read. IsHand shared.now hand.new) }
    ensures runs { IfOk result (λ read. RunsIn shared.now (stand hand.new client.new)) }
    ensures goes { IfOk result (λ read. KeepsOn shared.now (stand hand.old client.old) (stand hand.new client.new)) }
    ensures read { IfOk result (ReadAfterNudgeAs shared.now gates (stand hand.new client.new)) }
{
    workers_keep_their_laws();
    let read = read_next(rt, alloc, hand, client, shared)?;
    let Some(shard) = unready(read) else {
        return Ok(read);
    };
    let home = home_of(client);
    nudge(rt, alloc, hand, shared, gates, home, shard, brought)?;
    read_next(rt, alloc, hand, client, shared)
}

// The shard that was not ready.
fn unready(read: Read) -> Option<u32>
    ensures { result ≡ unready_in read }
{
    match read {
        Read::Over => None,
        Read::More => None,
        Read::NotYet { shard, .. } => Some(shard),
    }
}

// The gatekeeper of the running program.
fn home_of(client: &Client) -> u32
    ensures { (running : Running) → client.now.running ≡ Some running → result ≡ running.stamp.home }
{
    match &client.running {
        Some(running) => running.stamp.home,
        None => 0,
    }
}

// The running program reads its next vertex, if it has one and the vertex's shard is ready.
fn read_next<R: Wait>(
    rt: &R,
    alloc: Global,
    hand: &mut Hand,
    client: &mut Client,
    shared: &Shared,
) -> Result<Read, AllocError>
    requires hand { IsHand shared.now hand.old }
    requires runs { RunsIn shared.now (stand hand.old client.old) }
    ensures hand { IfOk result (λ read. IsHand shared.now hand.new) }
    ensures runs { IfOk result (λ read. RunsIn shared.now (stand hand.new client.new)) }
    ensures goes { IfOk result (λ read. KeepsOn shared.now (stand hand.old client.old) (stand hand.new client.new)) }
    ensures read { IfOk result (ReadAs shared.now (stand hand.new client.new)) }
    ensures still { IfOk result (RunsAfterRead (stand hand.old client.old) (stand hand.new client.new)) }
{
    workers_keep_their_laws();
    let Some(running) = &mut client.running else {
        unreachable!();
    };
    visit_next(rt, alloc, hand, shared, running)
}

// The program reads its next vertex, if it has one and the vertex's shard is ready.
fn visit_next<R: Wait>(
    rt: &R,
    alloc: Global,
    hand: &mut Hand,
    shared: &Shared,
    running: &mut Running,
) -> Result<Read, AllocError>
    requires hand { IsHand shared.now hand.old }
    requires running { IsRunning shared.now hand.old running.old }
    ensures hand { IsHand shared.now hand.new }
    ensures running { IsRunning shared.now hand.new running.new }
    ensures read { IfOk result (ReadsNextVertex (gate_count shared.now) (shard_count shared.now) hand.old hand.new
        running.old running.new) }
{
    match running.walk.next_vertex() {
        None => Ok(Read::Over),
        Some(_) => visit_vertex(rt, alloc, hand, shared, running),
    }
}

// The program reads its next vertex, if the vertex's shard is ready.
fn visit_vertex<R: Wait>(
    rt: &R,
    alloc: Global,
    hand: &mut Hand,
    shared: &Shared,
    running: &mut Running,
) -> Result<Read, AllocError>
    requires hand { IsHand shared.now hand.old }
    requires running { IsRunning shared.now hand.old running.old }
    requires next { IsSome (next_read running.old.walk) }
    ensures hand { IsHand shared.now hand.new }
    ensures running { IsRunning shared.now hand.new running.new }
    ensures read { IfOk result (ReadsNextVertex (gate_count shared.now) (shard_count shared.now) hand.old hand.new
        running.old running.new) }
{
    match visit(rt, alloc, hand, shared, running) {
        Ok(()) => Ok(Read::More),
        Err(fault) => not_yet(fault),
    }
}

// What came of a read that was refused so. The one error is out of memory.
fn not_yet(fault: HandFault) -> Result<Read, AllocError>
    requires { RefusesVisit fault }
    ensures read { IfOk result (λ read. read_of_fault fault ≡ Some read) }
    ensures memory { OnErr result (fault ≡ Memory) }
{
    match fault {
        HandFault::NotYet { shard, gate } => Ok(Read::NotYet { shard, gate }),
        HandFault::Busy | HandFault::Empty | HandFault::Waits { .. } | HandFault::Memory => {
            Err(AllocError)
        }
    }
}
