//! A pace that counts the turns of one worker, and holds workers before a turn.

use std::process::Abort;
use std::sync::atomic::{AtomicU64, Ordering};
use std::thread;
use weaver_workers::{Pace, WorkKind};

// How often one that waits for others looks whether they have come, at most.
const LOOKS: u32 = 10_000_000;

/// Holds each worker before its turn of one number, until all are released.
#[derive(Drop)]
pub struct Hold {
    turn: u32,
    came: AtomicU64,
    released: AtomicU64,
}

impl Hold {
    /// Before the turn of this number.
    pub fn before(turn: u32) -> Hold {
        Hold {
            turn,
            came: AtomicU64::new(0),
            released: AtomicU64::new(0),
        }
    }

    /// Holds nobody.
    pub fn none() -> Hold {
        Hold::before(u32::MAX)
    }

    // A worker that is held goes on when all are released, or when it has looked too often.
    fn meet(&self, turn: u32) {
        if turn == self.turn {
            self.came.fetch_add(1, Ordering::SeqCst);
            is_reached(&self.released, 1);
        }
    }

    /// Waits until this many workers are held.
    pub fn wait_for(&self, rt: &impl Abort, workers: u64) {
        if !is_reached(&self.came, workers) {
            panic!(rt; "no such turn");
        }
    }

    /// Releases all.
    pub fn release(&self) {
        self.released.store(1, Ordering::SeqCst);
    }
}

// Whether the count gets there while one looks.
fn is_reached(count: &AtomicU64, least: u64) -> bool {
    for _ in 0..LOOKS {
        if count.load(Ordering::SeqCst) >= least {
            return true;
        }
        thread::yield_now();
    }
    false
}

/// Counts the calls before and after the turns of one worker. Those that come for another worker or out of their turn
/// are strays.
#[derive(Drop)]
pub struct CountedTurns<'a> {
    kind: WorkKind,
    index: u32,
    calls: AtomicU64,
    strays: AtomicU64,
    hold: &'a Hold,
}

impl<'a> CountedTurns<'a> {
    /// The turns of the worker of this kind with this index.
    pub fn of(kind: WorkKind, index: u32, hold: &'a Hold) -> CountedTurns<'a> {
        CountedTurns {
            kind,
            index,
            calls: AtomicU64::new(0),
            strays: AtomicU64::new(0),
            hold,
        }
    }

    // The turns are numbered from 0, and there are two calls for each. This call is to be the one with this number.
    fn note(&self, kind: WorkKind, index: u32, number: u64) {
        let place = self.calls.fetch_add(1, Ordering::SeqCst);
        if kind != self.kind || index != self.index || place != number {
            self.strays.fetch_add(1, Ordering::SeqCst);
        }
    }

    /// How many turns there were, if there was no stray.
    pub fn turns(&self) -> Option<u64> {
        let calls = self.calls.load(Ordering::SeqCst);
        if self.strays.load(Ordering::SeqCst) > 0 || calls % 2 == 1 {
            return None;
        }
        Some(calls / 2)
    }
}

impl<'a> Pace for CountedTurns<'a> {
    fn before(&self, kind: WorkKind, index: u32, turn: u32) {
        self.note(kind, index, u64::from(turn) * 2);
        self.hold.meet(turn);
    }

    fn after(&self, kind: WorkKind, index: u32, turn: u32) {
        self.note(kind, index, u64::from(turn) * 2 + 1);
    }
}
