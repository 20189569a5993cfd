//! Locks with the players of their hands: opened, played with, and closed.
ghost use Rattle.std.specs.Prelude.{◌≡◌, ◌≤◌, map, vec_len};
ghost use Rattle.weave_data.specs.Limits.{most_gates, most_shards};
ghost use Rattle.weaver_locks.specs.Locks.{gate_count, hands_of, shard_count};
ghost use Rattle.lock_tests.specs.Workers.{ArePlayers, hand_of_player, player_of};

use crate::machines::new_locks;
use crate::play::play;
use crate::values::{Call, Row};
use crate::worker::{Player, Step, Worker};
use std::alloc::Global;
use std::process::Abort;
use std::sync::Wait;
use weaver_locks::{Closed, Hand, Shared};

/// The player of a new hand.
pub fn new_player(hand: Hand) -> Player
    ensures { result ≡ player_of hand }
{
    let worker = Worker {
        hand,
        next: 0,
        last: None,
        said: None,
        walk: None,
        ended: None,
    };
    Player {
        worker,
        step: Step::Any,
    }
}

fn players_of(rt: &impl Abort, alloc: Global, hands: Vec<Hand>) -> Vec<Player>
    ensures { result.items ≡ map player_of hands.items }
{
    let mut players = Vec::new(alloc);
    for hand in hands {
        players.push(new_player(hand)).expect(rt, "memory");
    }
    players
}

fn hands_in(rt: &impl Abort, alloc: Global, players: Vec<Player>) -> Vec<Hand>
    ensures { result.items ≡ map hand_of_player players.items }
{
    let mut hands = Vec::new(alloc);
    for player in players {
        hands.push(player.worker.hand).expect(rt, "memory");
    }
    hands
}

/// New machines behind locks, and the players of this many hands.
pub fn open(
    rt: &impl Abort,
    alloc: Global,
    gates: u32,
    shards: u32,
    hands: u32,
) -> (Shared, Vec<Player>)
    requires some_gate { 1 ≤ gates }
    requires few_gates { gates ≤ most_gates }
    requires some_shard { 1 ≤ shards }
    requires few_shards { shards ≤ most_shards }
    requires hands { 1 ≤ hands }
    ensures gates { gate_count result.0 ≡ gates }
    ensures shards { shard_count result.0 ≡ shards }
    ensures players { ArePlayers result.0 result.1.items }
    ensures count { vec_len result.1 ≡ hands_of result.0 }
{
    let (shared, dealt) = new_locks(rt, alloc, gates, shards, hands);
    let players = players_of(rt, alloc, dealt);
    (shared, players)
}

// Makes a call of the hand with this number, and compares its answer.
fn play_row<R: Wait + Abort>(
    rt: &R,
    alloc: Global,
    shared: &Shared,
    players: &mut Vec<Player>,
    who: usize,
    call: &Call,
    expected: &str,
)
    requires gates { gate_count shared.now ≡ 2 }
    requires players { ArePlayers shared.now players.old.items }
    ensures players { ArePlayers shared.now players.new.items }
    ensures count { vec_len players.new ≡ vec_len players.old }
{
    if who >= players.len() {
        panic!(rt; "no such hand");
    }
    let said = play(rt, alloc, shared, &mut players[who], call);
    assert!(rt; said.as_slice() == expected.as_bytes(), "{expected}");
}

/// Makes the calls of a table, each with its answer.
pub fn play_rows<R: Wait + Abort>(
    rt: &R,
    alloc: Global,
    shared: &Shared,
    players: &mut Vec<Player>,
    rows: &[Row],
)
    requires gates { gate_count shared.now ≡ 2 }
    requires players { ArePlayers shared.now players.old.items }
    ensures players { ArePlayers shared.now players.new.items }
    ensures count { vec_len players.new ≡ vec_len players.old }
{
    for (who, call, expected) in rows {
        play_row(rt, alloc, shared, players, *who, call, expected);
    }
}

/// Takes the machines out.
pub fn close(rt: &impl Abort, alloc: Global, shared: Shared, players: Vec<Player>) -> Closed
    requires players { ArePlayers shared players.items }
    requires count { vec_len players ≡ hands_of shared }
{
    let hands = hands_in(rt, alloc, players);
    shared.close(hands)
}
