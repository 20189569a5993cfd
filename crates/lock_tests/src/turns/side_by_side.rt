//! Calls of hands side by side. A worker is held before one of its turns until another hand has made its calls.
ghost use Rattle.std.specs.Prelude.{◌<◌, All, length, vec_len, ◌≡◌};
ghost use Rattle.lock_tests.specs.Turns.{IsBench, IsReadySeat};

use crate::hands::right_report::script_of;
use crate::turns::bench::{Post, close, open};
use crate::turns::pace::Hold;
use crate::turns::play::{Call, Row, play};
use crate::turns::rows::{check_logs, play_rows};
use crate::turns::seat::Seat;
use crate::values;
use crate::values::Do;
use program_defs::Script;
use std::alloc::Global;
use std::process::Abort;
use std::sync::Wait;
use std::thread;
use std::thread::Threads;
use weaver_locks::{Closed, Shared};
use weaver_workers::WorkKind;

// The tables of calls that are made side by side.
#[derive(Clone, Copy)]
enum Table {
    BusyTurns,
    LateTurns,
}

// The hand at this place makes its calls of these.
fn play_own<R: Wait + Abort>(
    rt: &R,
    alloc: Global,
    shared: &Shared,
    script: &Script,
    seat: &mut Seat,
    place: usize,
    rows: &[Row],
    hold: &Hold,
)
    requires bench { IsBench script.now shared.now }
    requires ready { IsReadySeat script.now shared.now seat.old }
    ensures { IsReadySeat script.now shared.now seat.new }
{
    for (who, call) in rows {
        if *who == place {
            play(rt, alloc, shared, script, seat, call, hold);
        }
    }
}

// The hand at this place makes its calls of a table.
fn play_of<R: Wait + Abort>(
    rt: &R,
    alloc: Global,
    shared: &Shared,
    script: &Script,
    seat: &mut Seat,
    place: usize,
    table: Table,
    hold: &Hold,
)
    requires bench { IsBench script.now shared.now }
    requires ready { IsReadySeat script.now shared.now seat.old }
    ensures { IsReadySeat script.now shared.now seat.new }
{
    match table {
        Table::BusyTurns => play_own(
            rt,
            alloc,
            shared,
            script,
            seat,
            place,
            &BUSY_TURNS_CALLS,
            hold,
        ),
        Table::LateTurns => play_own(
            rt,
            alloc,
            shared,
            script,
            seat,
            place,
            &LATE_TURNS_CALLS,
            hold,
        ),
    }
}

// Each hand makes its calls, on a thread of its own.
fn play_side_by_side<R: Threads + Wait + Sync + Abort>(
    rt: &R,
    alloc: Global,
    shared: &Shared,
    script: &Script,
    seats: &mut [Seat],
    table: Table,
    hold: &Hold,
)
    requires some { 0 < length seats.old }
    requires bench { IsBench script.now shared.now }
    requires ready { All (IsReadySeat script.now shared.now) seats.old }
    ensures ready { All (IsReadySeat script.now shared.now) seats.new }
{
    let threads = seats.len();
    thread::for_each_mut(
        rt,
        seats,
        threads,
        &|place, seat: &mut Seat|
            requires { IsBench script.now shared.now × IsReadySeat script.now shared.now seat.old }
            ensures { IsReadySeat script.entry.now shared.entry.now seat.new }
        {
            play_of(rt, alloc, shared, script, seat, place, table, hold);
        },
    );
}

// All hands make their calls side by side.
fn play_all<R: Threads + Wait + Sync + Abort>(
    rt: &R,
    alloc: Global,
    shared: &Shared,
    script: &Script,
    seats: &mut Vec<Seat>,
    table: Table,
    hold: &Hold,
)
    requires bench { IsBench script.now shared.now }
    requires ready { All (IsReadySeat script.now shared.now) seats.old.items }
    ensures ready { All (IsReadySeat script.now shared.now) seats.new.items }
    ensures count { vec_len seats.new ≡ vec_len seats.old }
{
    if seats.len() == 0 {
        panic!(rt; "no hand");
    }
    play_side_by_side(rt, alloc, shared, script, seats.as_mut_slice(), table, hold);
}

// Makes the first calls in turn and the others side by side, with workers held before this turn. The machines at the
// end.
fn play_table<R: Threads + Wait + Sync + Abort>(
    rt: &R,
    alloc: Global,
    text: &[u8],
    posts: &[Post],
    first: &[Row],
    table: Table,
    turn: u32,
) -> Closed {
    let script = script_of(rt, alloc, text);
    let (shared, mut seats) = open(rt, alloc, &script, posts);
    play_rows(rt, alloc, &shared, &script, &mut seats, first);
    let hold = Hold::before(turn);
    play_all(rt, alloc, &shared, &script, &mut seats, table, &hold);
    close(rt, alloc, shared, &script, seats)
}

// A thousand transactions at the second gatekeeper and one at the first, all of one session.
fn many_transactions(rt: &impl Abort, alloc: Global) -> Vec<u8> {
    let mut text = Vec::from_slice(alloc, b"weaver 1 2 1\n").expect(rt, "memory");
    for number in 0..1_001u32 {
        let gate = if number < 1_000 { 1 } else { 0 };
        let lines = format!(in alloc; "tx t{number} 3 {gate}\ncreate v{number}\nend\n").expect(
            rt, "memory",
        );
        text.extend_from_slice(lines.as_str().as_bytes())
            .expect(rt, "memory");
    }
    text
}

const BUSY_TURNS_POSTS: [Post; 3] = [Post::Player, Post::Player, Post::Client(3)];

// A transaction is in flight at each gatekeeper.
const BUSY_TURNS_FIRST: [Row; 2] = [
    (0, Call::Play(values::Call::BeginTx(1, 2_000), "0:1:0,1")),
    (1, Call::Play(values::Call::BeginTx(0, 2_000), "0:0:1,0")),
];

// The one at the second gatekeeper is sent before the client's eleventh turn there. So ten turns found it busy, and a
// thousand did not. Only the turns after these count: sixteen at the first gatekeeper.
const BUSY_TURNS_CALLS: [Row; 5] = [
    (
        2,
        Call::Go(WorkKind::Client, 3, "Busy { gate: 0 } after 1026"),
    ),
    (0, Call::Await(1)),
    (
        0,
        Call::Play(values::Call::Commit(&[Do::Create(b'v')]), "committed 1 v 0"),
    ),
    (0, Call::Play(values::Call::Send, "ok")),
    (0, Call::Release),
];

#[test]
fn busy_turns_are_one_after_another(rt: HostRuntime) {
    let text = many_transactions(&rt, rt.alloc());
    play_table(
        &rt,
        rt.alloc(),
        text.as_slice(),
        &BUSY_TURNS_POSTS,
        &BUSY_TURNS_FIRST,
        Table::BusyTurns,
        10,
    );
}

const LATE_TURNS: &str = "weaver 1 2 1\n\
    tx t0 3 0\n\
    create v\n\
    end\n\
    tx t1 3 0\n\
    create w\n\
    end\n";

const LATE_TURNS_POSTS: [Post; 3] = [Post::Client(3), Post::Gate(1), Post::Shard(0)];

// The client's transactions come when the second gatekeeper and the shard have had seven turns, in which there was
// nothing to hear but the first gatekeeper's first clock, and nothing to bring.
const LATE_TURNS_CALLS: [Row; 5] = [
    (1, Call::Go(WorkKind::Gate, 1, "Done after 8")),
    (2, Call::Go(WorkKind::Shard, 0, "Done after 8")),
    (0, Call::Await(2)),
    (0, Call::Go(WorkKind::Client, 3, "Done after 2")),
    (0, Call::Release),
];

const LATE_TURNS_LOGS: &str = "gate\n\
    0 transaction 0 0:0:1,0\n\
    0 sent 0 to 0 1 [0 0:0:1,0 low 0:1,0; v 0 create v]\n\
    0 transaction 1 0:0:2,0\n\
    0 sent 1 to 0 2 [1 0:0:2,0 low 0:2,0; w 0 create w]\n\
    gate\n\
    1 heard 0:0,0\n\
    1 heard 0:2,0\n\
    store\n\
    0 judged 0 0:0:1,0 create v; asked; committed 1 v 0\n\
    0 judged 1 0:0:2,0 create w; asked; committed 2 w 0\n\
    oracle\n\
    shard\n\
    2 arrived 0 1 [0 0:0:1,0 low 0:1,0; v 0 create v]\n\
    2 arrived 0 2 [1 0:0:2,0 low 0:2,0; w 0 create w]\n\
    2 applied 0 1\n\
    2 applied 0 2\n";

#[test]
fn late_turns_hear_bring_and_process(rt: HostRuntime) {
    let closed = play_table(
        &rt,
        rt.alloc(),
        LATE_TURNS.as_bytes(),
        &LATE_TURNS_POSTS,
        &[],
        Table::LateTurns,
        7,
    );
    check_logs(&rt, rt.alloc(), &closed, LATE_TURNS_LOGS);
}
