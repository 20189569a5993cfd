//! What is left after hands worked on threads: each entry is there once, each hand's in its order, and the counts are
//! right.
ghost use Rattle.std.specs.Prelude.{◌<◌};

use crate::bench::{close, open};
use crate::threads::work_all;
use std::alloc::Global;
use std::process::Abort;
use std::sync::Wait;
use std::thread::Threads;
use weave_entries::{GateDeed, GateEntry, ShardDeed, ShardEntry, StoreDeed, StoreEntry, Verdict};

// The place of a hand among four.
fn hand_of(rt: &impl Abort, author: u32) -> usize
    ensures { result < 4 }
{
    if author >= 4 {
        panic!(rt; "no such hand");
    }
    author as usize
}

// Each hand's judgements are of its requests in turn, and the commits are numbered from 1.
fn check_judgements(rt: &impl Abort, log: &[StoreEntry], turns: u32) {
    let (mut next, mut commits) = ([0, 1, 2, 3], 0u64);
    for entry in log {
        let hand = hand_of(rt, entry.author);
        let StoreDeed::Judged {
            request,
            verdict,
            ..
        } = &entry.deed;
        assert!(rt; *request == next[hand]);
        next[hand] = request.saturating_add(4);
        if let Verdict::Committed { number, .. } = verdict {
            commits = commits.saturating_add(1);
            assert!(rt; *number == commits);
        }
    }
    assert!(rt; commits > 0);
    let end = turns.saturating_mul(4);
    assert!(rt;
        next == [
            end,
            end.saturating_add(1),
            end.saturating_add(2),
            end.saturating_add(3)
        ]
    );
}

// How many transactions were sent. Each was begun just before by the same hand, and each hand's are in turn.
fn check_flights(rt: &impl Abort, log: &[GateEntry], next: &mut [u32; 4]) -> usize {
    let (mut flight, mut sent) = (None, 0usize);
    for entry in log {
        let hand = hand_of(rt, entry.author);
        match &entry.deed {
            GateDeed::BeganTx { request, .. } => {
                assert!(rt; flight.is_none() && *request == next[hand]);
                flight = Some(*request);
                next[hand] = request.saturating_add(4);
            }
            GateDeed::Sent { request, .. } => {
                assert!(rt; flight == Some(*request) && request % 4 == entry.author);
                flight = None;
                sent = sent.saturating_add(1);
            }
            _ => {}
        }
    }
    assert!(rt; flight.is_none());
    sent
}

// The numbers of what arrived and was processed, from each of two gatekeepers, are each one more than the last one.
fn check_arrivals(rt: &impl Abort, log: &[ShardEntry]) {
    let mut applied = [0u64; 2];
    for entry in log {
        hand_of(rt, entry.author);
        if let ShardDeed::Applied { gate, number } = &entry.deed {
            let gate = *gate as usize;
            assert!(rt; gate < 2 && *number == applied[gate].saturating_add(1));
            applied[gate] = *number;
        }
    }
    let mut arrived = 0u64;
    for (place, entry) in log.iter().enumerate() {
        if let ShardDeed::Arrived { gate, number, .. } = &entry.deed {
            assert!(rt; !has_arrived(&log[..place], *gate, *number));
            arrived = arrived.saturating_add(1);
        }
    }
    assert!(rt; applied[0].saturating_add(applied[1]) <= arrived);
}

fn has_arrived(log: &[ShardEntry], at: u32, which: u64) -> bool {
    log.iter().any(|entry| match &entry.deed {
        ShardDeed::Arrived { gate, number, .. } => *gate == at && *number == which,
        _ => false,
    })
}

// Four hands with this many transactions each.
fn four_hands<R: Threads + Wait + Sync + Abort>(rt: &R, alloc: Global, threads: usize, turns: u32)
    requires { 0 < threads }
{
    let (shared, mut players) = open(rt, alloc, 2, 1, 4);
    work_all(rt, alloc, &shared, &mut players, threads, turns);
    let closed = close(rt, alloc, shared, players);
    check_judgements(rt, closed.store.log(), turns);
    let mut next = [0, 1, 2, 3];
    let mut sent = 0usize;
    for gate in &closed.gates {
        sent = sent.saturating_add(check_flights(rt, gate.log(), &mut next));
    }
    assert!(rt; sent == (turns as usize).saturating_mul(4) && closed.store.log().len() == sent);
    for shard in &closed.shards {
        check_arrivals(rt, shard.log());
    }
}

#[test]
fn four_hands_on_two_threads(rt: HostRuntime) {
    four_hands(&rt, rt.alloc(), 2, 200);
}

#[test]
fn four_hands_on_four_threads(rt: HostRuntime) {
    four_hands(&rt, rt.alloc(), 4, 200);
}
