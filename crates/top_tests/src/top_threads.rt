//! That each worker of a phase has a thread of its own: each is held before its first turn until all have come to
//! theirs.
use crate::top_calls::call;
use std::alloc::{AllocError, Global};
use std::sync::Wait;
use std::sync::atomic::{AtomicU64, Ordering};
use std::test::Fail;
use std::thread;
use std::thread::Threads;
use weaver_top::{Pace, Status, WorkKind};

// How often a worker that is held looks whether all have come, at most.
const LOOKS: u32 = 200_000;

// One request of each of eight sessions, at two gatekeepers and one shard: three transactions at each gatekeeper, and
// two programs.
const EIGHT_SESSIONS: &[u8] = b"weaver 1 2 1\n\
    tx t0 8 0\ncreate v0\nend\n\
    tx t1 9 1\ncreate v1\nend\n\
    tx t2 10 0\ncreate v2\nend\n\
    tx t3 11 1\ncreate v3\nend\n\
    tx t4 12 0\ncreate v4\nend\n\
    tx t5 13 1\ncreate v5\nend\n\
    prog p6 14 0 show v\n\
    prog p7 15 1 show v\n";

// How many workers it has.
const WORKERS: u64 = 11;

// The sum of the numbers of its sessions, its gatekeepers and its shard.
const NUMBERS: u64 = 93;

// Holds each worker before its first turn until all have come, or until it has looked that often.
#[derive(Drop)]
struct Meeting {
    came: AtomicU64,
    numbers: AtomicU64,
    left: AtomicU64,
}

impl Meeting {
    fn new() -> Meeting {
        Meeting {
            came: AtomicU64::new(0),
            numbers: AtomicU64::new(0),
            left: AtomicU64::new(0),
        }
    }

    // Looks until all have come.
    fn hold(&self) {
        for _ in 0..LOOKS {
            if self.came.load(Ordering::SeqCst) == WORKERS {
                return;
            }
            thread::yield_now();
        }
        self.left.fetch_add(1, Ordering::SeqCst);
    }

    // Whether all came under their numbers, and none went on before the last one had come.
    fn was_held(&self) -> bool {
        self.came.load(Ordering::SeqCst) == WORKERS
            && self.numbers.load(Ordering::SeqCst) == NUMBERS
            && self.left.load(Ordering::SeqCst) == 0
    }
}

impl Pace for Meeting {
    fn before(&self, _kind: WorkKind, index: u32, turn: u32) {
        if turn == 0 {
            self.numbers.fetch_add(u64::from(index), Ordering::SeqCst);
            self.came.fetch_add(1, Ordering::SeqCst);
            self.hold();
        }
    }

    fn after(&self, _kind: WorkKind, _index: u32, _turn: u32) {}
}

// A run in which a worker went on before all had come may only have been slow; so it is done again, this often at most.
const TRIES: u32 = 10;

// Whether all workers met in a run of the script. With fewer threads than workers they never do.
fn all_meet<R: Threads + Wait + Sync>(rt: &R, alloc: Global) -> Result<bool, AllocError> {
    for _ in 0..TRIES {
        let pace = Meeting::new();
        let (status, _report) = call(rt, alloc, "run", EIGHT_SESSIONS, &pace)?;
        if status == Status::Done && pace.was_held() {
            return Ok(true);
        }
    }
    Ok(false)
}

#[test]
fn eight_sessions_have_a_thread_each(rt: HostRuntime) -> Result<(), Fail> {
    assert!(rt; all_meet(&rt, rt.alloc())?);
    Ok(())
}
