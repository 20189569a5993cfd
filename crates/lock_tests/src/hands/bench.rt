//! Locks with the workers of their hands: opened, worked with, and closed.
ghost use Rattle.std.specs.Prelude.{◌≡◌, ◌≤◌, map, vec_len};
ghost use Rattle.weave_data.specs.Limits.{most_gates, most_shards};
ghost use Rattle.weaver_locks.specs.Locks.{gate_count, hands_of, shard_count};
ghost use Rattle.lock_tests.specs.ReadyWorkers.{AreWorkers, hand_of_worker, worker_of};

use crate::hands::calls::workers_keep_their_laws;
use crate::hands::worker::Worker;
use crate::machines::new_locks;
use std::alloc::Global;
use std::process::Abort;
use weave_data::Items;
use weaver_locks::{Closed, Hand, Shared};

fn new_worker(alloc: Global, hand: Hand) -> Worker
    ensures { result ≡ worker_of hand }
{
    Worker {
        hand,
        next: 0,
        last: None,
        walk: None,
        ended: Items::new(alloc),
    }
}

fn workers_of(rt: &impl Abort, alloc: Global, hands: Vec<Hand>) -> Vec<Worker>
    ensures { result.items ≡ map worker_of hands.items }
{
    let mut workers = Vec::new(alloc);
    for hand in hands {
        workers.push(new_worker(alloc, hand)).expect(rt, "memory");
    }
    workers
}

fn hands_in(rt: &impl Abort, alloc: Global, workers: Vec<Worker>) -> Vec<Hand>
    ensures { result.items ≡ map hand_of_worker workers.items }
{
    let mut hands = Vec::new(alloc);
    for worker in workers {
        hands.push(worker.hand).expect(rt, "memory");
    }
    hands
}

/// New machines behind locks, and the workers of this many hands.
pub fn open(
    rt: &impl Abort,
    alloc: Global,
    gates: u32,
    shards: u32,
    hands: u32,
) -> (Shared, Vec<Worker>)
    requires some_gate { 1 ≤ gates }
    requires few_gates { gates ≤ most_gates }
    requires some_shard { 1 ≤ shards }
    requires few_shards { shards ≤ most_shards }
    requires hands { 1 ≤ hands }
    ensures gates { gate_count result.0 ≡ gates }
    ensures shards { shard_count result.0 ≡ shards }
    ensures workers { AreWorkers result.0 result.1.items }
    ensures count { vec_len result.1 ≡ hands_of result.0 }
{
    workers_keep_their_laws();
    let (shared, dealt) = new_locks(rt, alloc, gates, shards, hands);
    let workers = workers_of(rt, alloc, dealt);
    (shared, workers)
}

/// Takes the machines out.
pub fn close(rt: &impl Abort, alloc: Global, shared: Shared, workers: Vec<Worker>) -> Closed
    requires workers { AreWorkers shared workers.items }
    requires count { vec_len workers ≡ hands_of shared }
{
    let hands = hands_in(rt, alloc, workers);
    shared.close(hands)
}
