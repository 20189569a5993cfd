//! Locks with the seats of their hands: opened, and closed.
ghost use Rattle.std.specs.Prelude.{◌≡◌, ◌<◌, ◌≤◌, ℕ, All, length, map, slice_index_or, vec_len};
ghost use Rattle.weave_account.specs.Sessions.{requests_of_session};
ghost use Rattle.weave_data.specs.Limits.{most_requests};
ghost use Rattle.weaver_locks.specs.declared.hand.Hand.{Hand};
ghost use Rattle.weaver_locks.specs.Hands.{hand_number};
ghost use Rattle.weaver_locks.specs.Locks.{hands_of};
ghost use Rattle.lock_tests.specs.Turns.{hand_of_seat, hand_of_work, IsBench, IsNewClient, IsHandOfNewLocks, IsReadySeat};

use crate::bench::new_player;
use crate::calls::{gate_of, shard_of};
use crate::hands::calls::workers_keep_their_laws;
use crate::machines::new_locks;
use crate::turns::seat::Seat;
use program_defs::Script;
use session_stamp::Session;
use std::alloc::Global;
use std::process::Abort;
use std::sync::Wait;
use weave_account::laws::requests_of_a_session_rise;
use weaver_core::Client;
use weaver_locks::{Closed, Hand, Shared};
use weaver_workers::{Worker, end_of_phase};

/// What a hand is to work for.
#[derive(Clone, Copy)]
pub enum Post {
    /// The client of this session.
    Client(u32),
    Gate(u32),
    Shard(u32),
    /// No worker: the hand makes calls of its own.
    Player,
}

// The requests of a session, in script order.
fn requests_of(rt: &impl Abort, alloc: Global, script: &Script, session: u32) -> Vec<u32>
    requires { length script.now.requests ≤ most_requests }
    ensures { result.items ≡ requests_of_session script.now session }
{
    let requests = script.requests.as_slice();
    let mut found = Vec::new(alloc);
    for r in 0..requests.len() as u32 {
        if requests[r as usize].session == session {
            found.push(r).expect(rt, "memory");
        }
    }
    found
}

// A session's client, before its first request.
fn new_client(rt: &impl Abort, alloc: Global, script: &Script, session: u32) -> Client
    requires { length script.now.requests ≤ most_requests }
    ensures { IsNewClient script.now session result }
{
    let requests = requests_of(rt, alloc, script, session);
    Client {
        session: Session::new(requests),
        running: None,
        replies: Vec::new(alloc),
        log: Vec::new(alloc),
    }
}

// The seat of a new hand.
fn seat_of<R: Wait + Abort>(
    rt: &R,
    alloc: Global,
    shared: &Shared,
    script: &Script,
    hand: Hand,
    post: Post,
) -> Seat
    requires bench { IsBench script.now shared.now }
    requires new { IsHandOfNewLocks shared.now hand }
    ensures { IsReadySeat script.now shared.now result }
{
    workers_keep_their_laws();
    requests_of_a_session_rise();
    match post {
        Post::Client(session) => {
            let client = new_client(rt, alloc, script, session);
            Seat::AtWork(Worker::ClientWork { hand, client })
        }
        Post::Gate(gate) => {
            let gate = gate_of(rt, gate);
            Seat::AtWork(Worker::GateWork { hand, gate })
        }
        Post::Shard(shard) => {
            let shard = shard_of(rt, shared, shard);
            Seat::AtWork(Worker::ShardWork { hand, shard })
        }
        Post::Player => Seat::Playing(new_player(hand)),
    }
}

// A seat for each hand.
fn seats_of<R: Wait + Abort>(
    rt: &R,
    alloc: Global,
    shared: &Shared,
    script: &Script,
    hands: Vec<Hand>,
    posts: &[Post],
) -> Vec<Seat>
    requires bench { IsBench script.now shared.now }
    requires new { All (IsHandOfNewLocks shared.now) hands.items }
    ensures ready { All (IsReadySeat script.now shared.now) result.items }
    ensures count { vec_len result ≡ vec_len hands }
{
    let mut seats = Vec::new(alloc);
    for hand in hands {
        let Some(post) = posts.get(seats.len()) else {
            panic!(rt; "no post");
        };
        let seat = seat_of(rt, alloc, shared, script, hand, *post);
        seats.push(seat).expect(rt, "memory");
    }
    seats
}

/// New machines of the script behind locks, and a seat for each post. The hands are numbered in the order of the posts.
pub fn open<R: Wait + Abort>(
    rt: &R,
    alloc: Global,
    script: &Script,
    posts: &[Post],
) -> (Shared, Vec<Seat>)
    ensures bench { IsBench script.now result.0 }
    ensures ready { All (IsReadySeat script.now result.0) result.1.items }
    ensures count { vec_len result.1 ≡ hands_of result.0 }
{
    if !script.is_within_limits() {
        panic!(rt; "the script is too large");
    }
    if end_of_phase(script, 0) as usize > script.requests.as_slice().len() || script.gates != 2 {
        panic!(rt; "no first phase, or not two gatekeepers");
    }
    let count = posts.len();
    if count == 0 || count > 16 {
        panic!(rt; "no such number of hands");
    }
    let (shared, hands) = new_locks(rt, alloc, script.gates, script.shards, count as u32);
    let seats = seats_of(rt, alloc, &shared, script, hands, posts);
    (shared, seats)
}

fn hand_of(seat: Seat) -> Hand
    ensures { result ≡ hand_of_seat seat }
{
    match seat {
        Seat::AtWork(worker) => hand_of_work(worker),
        Seat::Playing(player) => player.worker.hand,
    }
}

fn hand_of_work(worker: Worker) -> Hand
    ensures { result ≡ hand_of_work worker }
{
    match worker {
        Worker::ClientWork { hand, client: _ } => hand,
        Worker::GateWork { hand, gate: _ } => hand,
        Worker::ShardWork { hand, shard: _ } => hand,
    }
}

// The hands, each in the place of its number.
fn hands_in(rt: &impl Abort, alloc: Global, seats: Vec<Seat>) -> Vec<Hand>
    ensures hands { result.items ≡ map hand_of_seat seats.items }
    ensures numbers { (k : ℕ) (h : Hand) → k < vec_len result → hand_number (slice_index_or result.items k h) ≡ k }
{
    let mut hands = Vec::new(alloc);
    for seat in seats {
        let hand = hand_of(seat);
        if hand.number() as usize != hands.len() {
            panic!(rt; "the hand is in the place of another");
        }
        hands.push(hand).expect(rt, "memory");
    }
    hands
}

/// Takes the machines out.
pub fn close(
    rt: &impl Abort,
    alloc: Global,
    shared: Shared,
    script: &Script,
    seats: Vec<Seat>,
) -> Closed
    requires ready { All (IsReadySeat script.now shared) seats.items }
    requires count { vec_len seats ≡ hands_of shared }
{
    let _ = script;
    let hands = hands_in(rt, alloc, seats);
    shared.close(hands)
}
