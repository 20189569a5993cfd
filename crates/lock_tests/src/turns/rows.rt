//! The calls of workers in turn, each client with how it ends, and the logs at the end.
ghost use Rattle.std.specs.Prelude.{◌≡◌, All, vec_len};
ghost use Rattle.lock_tests.specs.Turns.{IsBench, IsReadySeat};

use crate::hands::right_report::script_of;
use crate::log_texts::text_of_logs;
use crate::turns::bench::{Post, close, open};
use crate::turns::pace::Hold;
use crate::turns::play::{Call, Row, play};
use crate::turns::seat::Seat;
use crate::values;
use program_defs::Script;
use std::alloc::Global;
use std::process::Abort;
use std::sync::Wait;
use weaver_locks::{Closed, Shared};
use weaver_workers::WorkKind;

// Makes a call of the hand with this number.
fn play_row<R: Wait + Abort>(
    rt: &R,
    alloc: Global,
    shared: &Shared,
    script: &Script,
    seats: &mut Vec<Seat>,
    who: usize,
    call: &Call,
    hold: &Hold,
)
    requires bench { IsBench script.now shared.now }
    requires ready { All (IsReadySeat script.now shared.now) seats.old.items }
    ensures ready { All (IsReadySeat script.now shared.now) seats.new.items }
    ensures count { vec_len seats.new ≡ vec_len seats.old }
{
    if who >= seats.len() {
        panic!(rt; "no such hand");
    }
    play(rt, alloc, shared, script, &mut seats[who], call, hold);
}

/// Makes calls in turn, by the hands that the rows name.
pub fn play_rows<R: Wait + Abort>(
    rt: &R,
    alloc: Global,
    shared: &Shared,
    script: &Script,
    seats: &mut Vec<Seat>,
    rows: &[Row],
)
    requires bench { IsBench script.now shared.now }
    requires ready { All (IsReadySeat script.now shared.now) seats.old.items }
    ensures ready { All (IsReadySeat script.now shared.now) seats.new.items }
    ensures count { vec_len seats.new ≡ vec_len seats.old }
{
    let hold = Hold::none();
    for (who, call) in rows {
        play_row(rt, alloc, shared, script, seats, *who, call, &hold);
    }
}

/// Whether the logs of the machines are these.
pub fn check_logs(rt: &impl Abort, alloc: Global, closed: &Closed, logs: &str) {
    let text = text_of_logs(alloc, closed).expect(rt, "memory");
    assert!(rt;
        text.as_slice() == logs.as_bytes(),
        "other logs than {logs}"
    );
}

// Makes the calls, and compares the logs.
fn check_table<R: Wait + Abort>(
    rt: &R,
    alloc: Global,
    text: &str,
    posts: &[Post],
    rows: &[Row],
    logs: &str,
) {
    let script = script_of(rt, alloc, text.as_bytes());
    let (shared, mut seats) = open(rt, alloc, &script, posts);
    play_rows(rt, alloc, &shared, &script, &mut seats, rows);
    let closed = close(rt, alloc, shared, &script, seats);
    check_logs(rt, alloc, &closed, logs);
}

const THREE_UPDATES: &str = "weaver 1 2 2\n\
    tx t0 5 1\n\
    create v\n\
    end\n\
    tx t1 3 0\n\
    set v k a\n\
    end\n\
    tx t2 3 0\n\
    set v k b\n\
    end\n\
    tx t3 3 0\n\
    set v k c\n\
    end\n";

const THREE_UPDATES_POSTS: [Post; 5] = [
    Post::Client(5),
    Post::Client(3),
    Post::Gate(0),
    Post::Gate(1),
    Post::Shard(0),
];

// A vertex is created at the second gatekeeper, and updated three times at the first. A gatekeeper hears the other in
// each turn, and sends in one of two. All four messages and an empty one arrive in the shard's first turn, and the
// updates wait there for the creation. Its second turn finds nothing new. A nudge of the other shard has an empty
// message of each gatekeeper arrive there, the second of which has heard the first.
const THREE_UPDATES_CALLS: [Row; 7] = [
    (0, Call::Go(WorkKind::Client, 5, "Done after 1")),
    (1, Call::Go(WorkKind::Client, 3, "Done after 3")),
    (2, Call::TurnGate(0, false)),
    (3, Call::TurnGate(1, true)),
    (4, Call::TurnShard(0)),
    (4, Call::TurnShard(0)),
    (3, Call::Nudge(0, 1)),
];

const THREE_UPDATES_LOGS: &str = "gate\n\
    1 transaction 1 0:0:1,0\n\
    1 sent 1 to 0 1 [1 0:0:1,0 low 0:1,0; v 1 set v k a]\n\
    1 transaction 2 0:0:2,0\n\
    1 sent 2 to 0 2 [2 0:0:2,0 low 0:2,0; v 2 set v k b]\n\
    1 transaction 3 0:0:3,0\n\
    1 sent 3 to 0 3 [3 0:0:3,0 low 0:3,0; v 3 set v k c]\n\
    2 heard 0:0,1\n\
    3 nop 1 1 0:0:4,1 low 0:4,1\n\
    gate\n\
    0 transaction 0 0:1:0,1\n\
    0 sent 0 to 0 1 [0 0:1:0,1 low 0:0,1; v 0 create v]\n\
    3 heard 0:3,1\n\
    3 nop 0 2 0:1:3,2 low 0:3,2\n\
    3 nop 1 1 0:1:3,3 low 0:3,3\n\
    3 heard 0:4,1\n\
    3 nop 1 2 0:1:4,4 low 0:4,4\n\
    store\n\
    0 judged 0 0:1:0,1 create v; asked; committed 1 v 0\n\
    1 judged 1 0:0:1,0 set v k a; asked v; committed 2 v 1\n\
    1 judged 2 0:0:2,0 set v k b; asked; committed 3 v 2\n\
    1 judged 3 0:0:3,0 set v k c; asked; committed 4 v 3\n\
    oracle\n\
    1 put 0:1:0,1 before 0:0:1,0 at 0\n\
    shard\n\
    4 arrived 0 2 [2 0:0:2,0 low 0:2,0; v 2 set v k b]\n\
    4 arrived 0 1 [1 0:0:1,0 low 0:1,0; v 1 set v k a]\n\
    4 arrived 0 3 [3 0:0:3,0 low 0:3,0; v 3 set v k c]\n\
    4 arrived 1 2 [empty 0:1:3,2 low 0:3,2]\n\
    4 arrived 1 1 [0 0:1:0,1 low 0:0,1; v 0 create v]\n\
    4 applied 1 1\n\
    4 applied 1 2\n\
    4 applied 0 1\n\
    4 applied 0 2\n\
    4 applied 0 3\n\
    shard\n\
    3 arrived 0 1 [empty 0:0:4,1 low 0:4,1]\n\
    3 arrived 1 2 [empty 0:1:4,4 low 0:4,4]\n\
    3 arrived 1 1 [empty 0:1:3,3 low 0:3,3]\n\
    3 applied 0 1\n\
    3 applied 1 1\n\
    3 applied 1 2\n";

#[test]
fn turns_send_bring_and_process(rt: HostRuntime) {
    check_table(
        &rt,
        rt.alloc(),
        THREE_UPDATES,
        &THREE_UPDATES_POSTS,
        &THREE_UPDATES_CALLS,
        THREE_UPDATES_LOGS,
    );
}

const WHOLE_PHASE: &str = "weaver 1 2 2\n\
    tx t0 3 0\n\
    create v\n\
    create w\n\
    end\n\
    prog p 5 1 show w\n";

const WHOLE_PHASE_POSTS: [Post; 6] = [
    Post::Client(3),
    Post::Gate(0),
    Post::Gate(1),
    Post::Shard(0),
    Post::Shard(1),
    Post::Client(5),
];

// Each worker does its whole part after the others: eight turns of each gatekeeper and each shard, for two requests. A
// gatekeeper hears the other once, since that one's clock stays the same, and sends to each shard in four turns, for
// one program. Then the program finds the second shard not ready, and is done after one nudge of that shard.
const WHOLE_PHASE_CALLS: [Row; 6] = [
    (0, Call::Go(WorkKind::Client, 3, "Done after 1")),
    (1, Call::Go(WorkKind::Gate, 0, "Done after 8")),
    (2, Call::Go(WorkKind::Gate, 1, "Done after 8")),
    (3, Call::Go(WorkKind::Shard, 0, "Done after 8")),
    (4, Call::Go(WorkKind::Shard, 1, "Done after 8")),
    (5, Call::Go(WorkKind::Client, 5, "Done after 1")),
];

const WHOLE_PHASE_LOGS: &str = "gate\n\
    0 transaction 0 0:0:1,0\n\
    0 sent 0 to 0 1 [0 0:0:1,0 low 0:1,0; v 0 create v] to 1 1 [0 0:0:1,0 low 0:1,0; w 0 create w]\n\
    1 heard 0:0,0\n\
    1 nop 0 2 0:0:2,0 low 0:2,0\n\
    1 nop 1 2 0:0:3,0 low 0:3,0\n\
    1 nop 0 3 0:0:4,0 low 0:4,0\n\
    1 nop 1 3 0:0:5,0 low 0:5,0\n\
    1 nop 0 4 0:0:6,0 low 0:6,0\n\
    1 nop 1 4 0:0:7,0 low 0:7,0\n\
    1 nop 0 5 0:0:8,0 low 0:8,0\n\
    1 nop 1 5 0:0:9,0 low 0:9,0\n\
    5 heard 0:9,9\n\
    5 nop 1 6 0:0:10,9 low 0:10,9\n\
    gate\n\
    2 heard 0:9,0\n\
    2 nop 0 1 0:1:9,1 low 0:9,1\n\
    2 nop 1 1 0:1:9,2 low 0:9,2\n\
    2 nop 0 2 0:1:9,3 low 0:9,3\n\
    2 nop 1 2 0:1:9,4 low 0:9,4\n\
    2 nop 0 3 0:1:9,5 low 0:9,5\n\
    2 nop 1 3 0:1:9,6 low 0:9,6\n\
    2 nop 0 4 0:1:9,7 low 0:9,7\n\
    2 nop 1 4 0:1:9,8 low 0:9,8\n\
    5 program 1 0:1:9,9\n\
    5 nop 1 5 0:1:9,10 low 0:9,9\n\
    5 finished 1\n\
    store\n\
    0 judged 0 0:0:1,0 create v create w; asked; committed 1 v 0 w 0\n\
    oracle\n\
    shard\n\
    3 arrived 0 2 [empty 0:0:2,0 low 0:2,0]\n\
    3 arrived 0 1 [0 0:0:1,0 low 0:1,0; v 0 create v]\n\
    3 arrived 0 3 [empty 0:0:4,0 low 0:4,0]\n\
    3 arrived 0 4 [empty 0:0:6,0 low 0:6,0]\n\
    3 arrived 0 5 [empty 0:0:8,0 low 0:8,0]\n\
    3 arrived 1 2 [empty 0:1:9,3 low 0:9,3]\n\
    3 arrived 1 1 [empty 0:1:9,1 low 0:9,1]\n\
    3 arrived 1 3 [empty 0:1:9,5 low 0:9,5]\n\
    3 arrived 1 4 [empty 0:1:9,7 low 0:9,7]\n\
    3 applied 0 1\n\
    3 applied 0 2\n\
    3 applied 0 3\n\
    3 applied 0 4\n\
    3 applied 0 5\n\
    3 applied 1 1\n\
    3 applied 1 2\n\
    3 applied 1 3\n\
    3 applied 1 4\n\
    shard\n\
    4 arrived 0 2 [empty 0:0:3,0 low 0:3,0]\n\
    4 arrived 0 1 [0 0:0:1,0 low 0:1,0; w 0 create w]\n\
    4 arrived 0 3 [empty 0:0:5,0 low 0:5,0]\n\
    4 arrived 0 4 [empty 0:0:7,0 low 0:7,0]\n\
    4 arrived 0 5 [empty 0:0:9,0 low 0:9,0]\n\
    4 arrived 1 2 [empty 0:1:9,4 low 0:9,4]\n\
    4 arrived 1 1 [empty 0:1:9,2 low 0:9,2]\n\
    4 arrived 1 3 [empty 0:1:9,6 low 0:9,6]\n\
    4 arrived 1 4 [empty 0:1:9,8 low 0:9,8]\n\
    4 applied 0 1\n\
    4 applied 0 2\n\
    4 applied 0 3\n\
    4 applied 0 4\n\
    4 applied 0 5\n\
    4 applied 1 1\n\
    4 applied 1 2\n\
    4 applied 1 3\n\
    4 applied 1 4\n\
    5 arrived 0 6 [empty 0:0:10,9 low 0:10,9]\n\
    5 arrived 1 5 [empty 0:1:9,10 low 0:9,9]\n\
    5 applied 0 6\n\
    5 applied 1 5\n\
    5 visited 1 0:1:9,9 w 1 ordered\n";

#[test]
fn each_worker_does_its_part(rt: HostRuntime) {
    check_table(
        &rt,
        rt.alloc(),
        WHOLE_PHASE,
        &WHOLE_PHASE_POSTS,
        &WHOLE_PHASE_CALLS,
        WHOLE_PHASE_LOGS,
    );
}

const ONE_IN_FLIGHT: &str = "weaver 1 2 1\n\
    tx t0 3 1\n\
    create v\n\
    end\n\
    prog p 5 0 show v\n\
    tx t2 7 1\n\
    create w\n\
    end\n";

const ONE_IN_FLIGHT_POSTS: [Post; 4] = [
    Post::Player,
    Post::Client(3),
    Post::Client(5),
    Post::Gate(1),
];

// A transaction is in flight at the second gatekeeper throughout. A client gives up after 16 turns there. The
// gatekeeper hears the other, but sends no empty message, so a program stays without one from it.
const ONE_IN_FLIGHT_CALLS: [Row; 4] = [
    (0, Call::Play(values::Call::BeginTx(1, 2), "0:1:0,1")),
    (
        1,
        Call::Go(WorkKind::Client, 3, "Busy { gate: 1 } after 16"),
    ),
    (3, Call::TurnGate(1, true)),
    (
        2,
        Call::Go(WorkKind::Client, 5, "NotYet { shard: 0, gate: 1 } after 1"),
    ),
];

const ONE_IN_FLIGHT_LOGS: &str = "gate\n\
    2 program 1 0:0:1,0\n\
    2 nop 0 1 0:0:2,0 low 0:1,0\n\
    gate\n\
    0 transaction 2 0:1:0,1\n\
    3 heard 0:0,0\n\
    2 heard 0:2,0\n\
    store\n\
    oracle\n\
    shard\n\
    2 arrived 0 1 [empty 0:0:2,0 low 0:1,0]\n\
    2 applied 0 1\n";

#[test]
fn a_transaction_in_flight_is_in_the_way(rt: HostRuntime) {
    check_table(
        &rt,
        rt.alloc(),
        ONE_IN_FLIGHT,
        &ONE_IN_FLIGHT_POSTS,
        &ONE_IN_FLIGHT_CALLS,
        ONE_IN_FLIGHT_LOGS,
    );
}
