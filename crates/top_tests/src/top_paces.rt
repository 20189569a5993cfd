//! That `run` uses its workers: the clients of two sessions run side by side, and what they do in which order decides
//! what their requests find. Each worker of a gatekeeper or a shard takes its turns.
use crate::top_calls::call;
use std::alloc::{AllocError, Global};
use std::sync::Wait;
use std::sync::atomic::{AtomicU64, Ordering};
use std::test::Fail;
use std::thread;
use std::thread::Threads;
use weaver_top::{Pace, Status, WorkKind};

// How often a client that is held looks whether another has had a turn, at most.
const LOOKS: u32 = 10_000;

// Two sessions that both create one vertex: at two gatekeepers, and at one.
const BOTH_CREATE: [&[u8]; 2] = [
    b"weaver 1 2 1\ntx t1 0 0\ncreate v\nend\ntx t2 1 1\ncreate v\nend\n",
    b"weaver 1 1 1\ntx t1 0 0\ncreate v\nend\ntx t2 1 0\ncreate v\nend\n",
];

// Holds a client before its turn until another one has had a turn: the client of this session before its first turn, or
// the first client that comes.
#[derive(Drop)]
struct Holding {
    session: Option<u32>,
    came: AtomicU64,
    had_turns: AtomicU64,
    released: AtomicU64,
}

impl Holding {
    fn new(session: Option<u32>) -> Holding {
        Holding {
            session,
            came: AtomicU64::new(0),
            had_turns: AtomicU64::new(0),
            released: AtomicU64::new(0),
        }
    }

    // Whether the client that comes is the one to be held.
    fn is_held(&self, index: u32, turn: u32) -> bool {
        let first = self.came.fetch_add(1, Ordering::SeqCst) == 0;
        match self.session {
            None => first,
            Some(session) => index == session && turn == 0,
        }
    }

    // Looks until a client has had a turn.
    fn hold(&self) {
        for _ in 0..LOOKS {
            if self.had_turns.load(Ordering::SeqCst) > 0 {
                self.released.store(1, Ordering::SeqCst);
                return;
            }
            thread::yield_now();
        }
    }

    // Whether the held client went on because another one had had a turn.
    fn was_released(&self) -> bool {
        self.released.load(Ordering::SeqCst) == 1
    }
}

impl Pace for Holding {
    fn before(&self, kind: WorkKind, index: u32, turn: u32) {
        if kind == WorkKind::Client && self.is_held(index, turn) {
            self.hold();
        }
    }

    fn after(&self, kind: WorkKind, _index: u32, _turn: u32) {
        if kind == WorkKind::Client {
            self.had_turns.fetch_add(1, Ordering::SeqCst);
        }
    }
}

// A run in which no client went on because of another may only have been slow; so it is done again, this often at most.
const TRIES: u32 = 20;

// Runs the script with a client held, until one goes on because another one had a turn; the report of that run. A
// serial body never gives one.
fn run_held<R: Threads + Wait + Sync>(
    rt: &R,
    alloc: Global,
    script: &[u8],
    session: Option<u32>,
) -> Result<Option<Vec<u8>>, AllocError> {
    for _ in 0..TRIES {
        let pace = Holding::new(session);
        let (status, report) = call(rt, alloc, "run", script, &pace)?;
        if status == Status::Done && pace.was_released() {
            return Ok(Some(report));
        }
    }
    Ok(None)
}

#[test]
fn clients_run_side_by_side(rt: HostRuntime) -> Result<(), Fail> {
    for script in BOTH_CREATE {
        let report = run_held(&rt, rt.alloc(), script, None)?;
        assert!(rt; report.is_some());
    }
    Ok(())
}

// Whether a line of the report begins and ends so.
fn has_line(report: &[u8], start: &[u8], end: &[u8]) -> bool {
    for line in report.split(|byte| *byte == b'\n') {
        if line.starts_with(start) && line.ends_with(end) {
            return true;
        }
    }
    false
}

// Runs the script with the client of this session held: its request is refused, and the other one committed.
fn other_is_first<R: Threads + Wait + Sync>(
    rt: &R,
    alloc: Global,
    script: &[u8],
    session: u32,
    held: &[u8],
    other: &[u8],
) -> Result<bool, AllocError> {
    let Some(report) = run_held(rt, alloc, script, Some(session))? else {
        return Ok(false);
    };
    let refused = has_line(report.as_slice(), held, b" refused 1 exists at 1");
    Ok(refused && has_line(report.as_slice(), other, b" committed 1"))
}

// A body that takes the requests in an order of its own gives the same replies whoever is held.
#[test]
fn who_comes_first_is_committed(rt: HostRuntime) -> Result<(), Fail> {
    for script in BOTH_CREATE {
        assert!(rt; other_is_first(&rt, rt.alloc(), script, 0, b"tx t1 ", b"tx t2 ")?);
        assert!(rt; other_is_first(&rt, rt.alloc(), script, 1, b"tx t2 ", b"tx t1 ")?);
    }
    Ok(())
}

// How often workers began a turn, by what they are, and how often one ended.
#[derive(Drop)]
struct Counting {
    clients: AtomicU64,
    first_gate: AtomicU64,
    second_gate: AtomicU64,
    shard: AtomicU64,
    ended: AtomicU64,
}

impl Counting {
    fn new() -> Counting {
        Counting {
            clients: AtomicU64::new(0),
            first_gate: AtomicU64::new(0),
            second_gate: AtomicU64::new(0),
            shard: AtomicU64::new(0),
            ended: AtomicU64::new(0),
        }
    }

    // The gatekeepers', the shard's and the clients' turns, and those that ended.
    fn turns(&self) -> [u64; 5] {
        [
            self.first_gate.load(Ordering::SeqCst),
            self.second_gate.load(Ordering::SeqCst),
            self.shard.load(Ordering::SeqCst),
            self.clients.load(Ordering::SeqCst),
            self.ended.load(Ordering::SeqCst),
        ]
    }
}

impl Pace for Counting {
    fn before(&self, kind: WorkKind, index: u32, _turn: u32) {
        let counted = match kind {
            WorkKind::Client => &self.clients,
            WorkKind::Shard => &self.shard,
            WorkKind::Gate => if index == 0 {
                &self.first_gate
            } else {
                &self.second_gate
            },
        };
        counted.fetch_add(1, Ordering::SeqCst);
    }

    fn after(&self, _kind: WorkKind, _index: u32, _turn: u32) {
        self.ended.fetch_add(1, Ordering::SeqCst);
    }
}

// Two requests, a phase without any, and a third request: at two gatekeepers that never wait for each other, and one
// shard.
const THREE_PHASES: &[u8] =
    b"weaver 1 2 1\ntx t1 0 0\ncreate v\nend\ntx t2 1 1\ncreate w\nend\nphase\nphase\ntx t3 0 1\nget v\nend\n";

// Four turns for each request of a phase, and one try of each request.
#[test]
fn each_worker_takes_its_turns(rt: HostRuntime) -> Result<(), Fail> {
    let pace = Counting::new();
    let (status, _report) = call(&rt, rt.alloc(), "run", THREE_PHASES, &pace)?;
    assert!(rt; status == Status::Done);
    assert!(rt; pace.turns() == [12, 12, 12, 3, 39]);
    Ok(())
}

// One session at one gatekeeper and one shard.
const ONE_SESSION: &[u8] = b"weaver 1 1 1\ntx t1 0 0\ncreate v\nend\n";

#[test]
fn one_session_has_its_workers(rt: HostRuntime) -> Result<(), Fail> {
    let pace = Counting::new();
    let (status, _report) = call(&rt, rt.alloc(), "run", ONE_SESSION, &pace)?;
    assert!(rt; status == Status::Done);
    assert!(rt; pace.turns() == [4, 0, 4, 1, 9]);
    Ok(())
}

// A thousand requests of two sessions, at two gatekeepers that never wait for each other, and one shard; 200 a phase.
// In the last phase one session alone has requests.
fn large_phases(alloc: Global) -> Result<Vec<u8>, AllocError> {
    let mut text = Vec::from_slice(alloc, b"weaver 1 2 1\n")?;
    for number in 0..1_000u32 {
        if number % 200 == 0 {
            text.extend_from_slice(b"phase\n")?;
        }
        let side = if number < 800 { number % 2 } else { 0 };
        let lines = format!(in alloc; "tx t{number} {side} {side}\ncreate v{number}\nend\n")?;
        text.extend_from_slice(lines.as_str().as_bytes())?;
    }
    Ok(text)
}

// Whichever phase it is and however many requests it has, its workers do all of it.
#[test]
fn large_phases_are_done_by_workers(rt: HostRuntime) -> Result<(), Fail> {
    let pace = Counting::new();
    let script = large_phases(rt.alloc())?;
    let (status, _report) = call(&rt, rt.alloc(), "run", script.as_slice(), &pace)?;
    assert!(rt; status == Status::Done);
    assert!(rt; pace.turns() == [4_000, 4_000, 4_000, 1_000, 13_000]);
    Ok(())
}
