//! Hands on threads, each with transactions of its own on vertices in common. No schedule is assumed, and no time is
//! measured.
ghost use Rattle.std.specs.Prelude.{◌≡◌, ◌<◌, ℕ, All, length, slice_index_or, vec_len};
ghost use Rattle.weaver_locks.specs.Hands.{hand_number};
ghost use Rattle.weaver_locks.specs.Locks.{gate_count};
ghost use Rattle.lock_tests.specs.Workers.{ArePlayers, IsPlayer};

use crate::play::play;
use crate::values::{Call, Do};
use crate::worker::Player;
use std::alloc::Global;
use std::process::Abort;
use std::sync::Wait;
use std::thread;
use std::thread::Threads;
use weaver_locks::Shared;

// Begins a transaction, once no other one is in flight at the gatekeeper.
fn begin_when_free<R: Wait + Abort>(
    rt: &R,
    alloc: Global,
    shared: &Shared,
    player: &mut Player,
    gate: u32,
    request: u32,
)
    requires gates { gate_count shared.now ≡ 2 }
    requires player { IsPlayer shared.now player.old }
    ensures player { IsPlayer shared.now player.new }
    ensures number { hand_number player.new.worker.hand ≡ hand_number player.old.worker.hand }
{
    for _ in rt.forever() {
        let said = play(
            rt,
            alloc,
            shared,
            player,
            &Call::BeginTxAfter(gate, request),
        );
        if said.as_slice() != b"busy".as_slice() {
            return;
        }
    }
    unreachable!()
}

// Begins a transaction, has it judged and sends it.
fn transact<R: Wait + Abort>(
    rt: &R,
    alloc: Global,
    shared: &Shared,
    player: &mut Player,
    gate: u32,
    request: u32,
    deed: Do,
)
    requires gates { gate_count shared.now ≡ 2 }
    requires player { IsPlayer shared.now player.old }
    ensures player { IsPlayer shared.now player.new }
    ensures number { hand_number player.new.worker.hand ≡ hand_number player.old.worker.hand }
{
    begin_when_free(rt, alloc, shared, player, gate, request);
    play(rt, alloc, shared, player, &Call::Commit(&[deed]));
    let sent = play(rt, alloc, shared, player, &Call::Send);
    assert!(rt; sent.as_slice() == b"ok".as_slice());
}

// A gatekeeper hears another.
fn tell<R: Wait + Abort>(
    rt: &R,
    alloc: Global,
    shared: &Shared,
    player: &mut Player,
    from: u32,
    to: u32,
)
    requires gates { gate_count shared.now ≡ 2 }
    requires player { IsPlayer shared.now player.old }
    ensures player { IsPlayer shared.now player.new }
    ensures number { hand_number player.new.worker.hand ≡ hand_number player.old.worker.hand }
{
    play(rt, alloc, shared, player, &Call::Say(from));
    play(rt, alloc, shared, player, &Call::Hear(to));
}

// Brings a message to the shard if it was sent, and answers the number of the next one.
fn bring<R: Wait + Abort>(
    rt: &R,
    alloc: Global,
    shared: &Shared,
    player: &mut Player,
    gate: u32,
    number: u64,
) -> u64
    requires gates { gate_count shared.now ≡ 2 }
    requires player { IsPlayer shared.now player.old }
    ensures player { IsPlayer shared.now player.new }
    ensures number { hand_number player.new.worker.hand ≡ hand_number player.old.worker.hand }
{
    let found = play(rt, alloc, shared, player, &Call::Fetch(gate, 0, number));
    if found.as_slice() == b"none".as_slice() {
        return number;
    }
    play(rt, alloc, shared, player, &Call::Arrive);
    play(rt, alloc, shared, player, &Call::Apply(0, gate));
    number.saturating_add(1)
}

// What the transactions of a turn do: they make, change, read and delete one of five vertices.
fn deed_of(turn: u32) -> Do {
    let vertex = b'a' + (turn / 4 % 5) as u8;
    match turn % 4 {
        0 => Do::Create(vertex),
        1 => Do::Set(vertex),
        2 => Do::Get(vertex),
        _ => Do::Delete(vertex),
    }
}

/// The transactions of a hand, with clocks and messages between. Its requests are its number, and each fourth number
/// from there.
fn work<R: Wait + Abort>(
    rt: &R,
    alloc: Global,
    shared: &Shared,
    player: &mut Player,
    number: u32,
    turns: u32,
)
    requires gates { gate_count shared.now ≡ 2 }
    requires player { IsPlayer shared.now player.old }
    ensures player { IsPlayer shared.now player.new }
    ensures number { hand_number player.new.worker.hand ≡ hand_number player.old.worker.hand }
{
    let (home, other) = (number % 2, (number % 2) ^ 1);
    let (mut at_home, mut at_other) = (1, 1);
    for turn in 0..turns {
        let request = turn.saturating_mul(4).saturating_add(number);
        transact(
            rt,
            alloc,
            shared,
            player,
            home,
            request,
            deed_of(turn.saturating_add(number)),
        );
        at_home = bring(rt, alloc, shared, player, home, at_home);
        at_other = bring(rt, alloc, shared, player, other, at_other);
        if turn % 4 == 3 {
            tell(rt, alloc, shared, player, other, home);
        }
    }
}

/// Each hand works, on this many threads, or on fewer if no more can be made.
pub fn work_side_by_side<R: Threads + Wait + Sync + Abort>(
    rt: &R,
    alloc: Global,
    shared: &Shared,
    players: &mut [Player],
    threads: usize,
    turns: u32,
)
    requires threads { 0 < threads }
    requires gates { gate_count shared.now ≡ 2 }
    requires players { All (IsPlayer shared.now) players.old }
    ensures ready { All (IsPlayer shared.now) players.new }
    ensures numbers { (k : ℕ) (p : _) → k < length players.old
        → hand_number (slice_index_or players.new k p).worker.hand
        ≡ hand_number (slice_index_or players.old k p).worker.hand }
{
    thread::for_each_mut(
        rt,
        players,
        threads,
        &|place, player: &mut Player|
            requires { (gate_count shared.now ≡ 2) × IsPlayer shared.now player.old }
            ensures { IsPlayer shared.entry.now player.new
                × (hand_number player.new.worker.hand ≡ hand_number player.old.worker.hand) }
        {
            work(rt, alloc, shared, player, (place % 4) as u32, turns);
        },
    );
}

/// All hands work, and are then players as they were.
pub fn work_all<R: Threads + Wait + Sync + Abort>(
    rt: &R,
    alloc: Global,
    shared: &Shared,
    players: &mut Vec<Player>,
    threads: usize,
    turns: u32,
)
    requires threads { 0 < threads }
    requires gates { gate_count shared.now ≡ 2 }
    requires players { ArePlayers shared.now players.old.items }
    ensures players { ArePlayers shared.now players.new.items }
    ensures count { vec_len players.new ≡ vec_len players.old }
{
    work_side_by_side(rt, alloc, shared, players.as_mut_slice(), threads, turns);
}
