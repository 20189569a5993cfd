//! The calls of hands in turn, each with its answer, and the logs at the end.
ghost use Rattle.std.specs.Prelude.{◌≤◌};
ghost use Rattle.weave_data.specs.Limits.{most_shards};

use crate::bench::{close, open, play_rows};
use crate::log_texts::text_of_logs;
use crate::values::{Call, Do, Row};
use std::alloc::Global;
use std::process::Abort;
use std::sync::Wait;

// Makes the calls on two gatekeepers and this many shards by two hands, and compares the logs.
fn check_table<R: Wait + Abort>(rt: &R, alloc: Global, shards: u32, rows: &[Row], logs: &str)
    requires some_shard { 1 ≤ shards }
    requires few_shards { shards ≤ most_shards }
{
    let (shared, mut players) = open(rt, alloc, 2, shards, 2);
    play_rows(rt, alloc, &shared, &mut players, rows);
    let closed = close(rt, alloc, shared, players);
    let text = text_of_logs(alloc, &closed).expect(rt, "memory");
    assert!(rt;
        text.as_slice() == logs.as_bytes(),
        "other logs than {logs}"
    );
}

// Two transactions with unordered stamps, and a program after the second. The oracle puts the first before the second,
// and the second before the program.
const WRITERS_AND_READER: [Row; 40] = [
    (0, Call::BeginTx(0, 0), "0:0:1,0"),
    (1, Call::BeginTx(0, 1), "busy"),
    (1, Call::Nop(0, 0), "busy"),
    (0, Call::Commit(&[Do::Create(b'v')]), "committed 1 v 0"),
    (0, Call::Send, "ok"),
    (1, Call::BeginTx(1, 1), "0:1:0,1"),
    (1, Call::Commit(&[Do::Set(b'v')]), "committed 2 v 1"),
    (1, Call::Send, "ok"),
    (
        1,
        Call::Fetch(1, 0, 1),
        "[1 0:1:0,1 low 0:0,1; v 1 set v k x]",
    ),
    (1, Call::Arrive, "kept"),
    (1, Call::Fetch(1, 0, 2), "none"),
    (1, Call::Apply(0, 1), "waits for v"),
    (1, Call::Apply(0, 0), "empty"),
    (
        0,
        Call::Fetch(0, 0, 1),
        "[0 0:0:1,0 low 0:1,0; v 0 create v]",
    ),
    (0, Call::Arrive, "kept"),
    (
        1,
        Call::Fetch(0, 0, 1),
        "[0 0:0:1,0 low 0:1,0; v 0 create v]",
    ),
    (1, Call::Arrive, "repeat"),
    (0, Call::Apply(0, 0), "ok"),
    (1, Call::Apply(0, 1), "ok"),
    (0, Call::BeginProgram(0, 2, b'v'), "0:0:2,0"),
    (0, Call::Visit, "again for 0"),
    (0, Call::Say(0), "0:2,0"),
    (0, Call::Hear(1), "ok"),
    (0, Call::Nop(0, 0), "2"),
    (0, Call::Nop(1, 0), "2"),
    (0, Call::Fetch(0, 0, 2), "[empty 0:0:3,0 low 0:2,0]"),
    (0, Call::Arrive, "kept"),
    (0, Call::Visit, "again for 1"),
    (0, Call::Fetch(1, 0, 2), "[empty 0:1:2,2 low 0:2,2]"),
    (0, Call::Arrive, "kept"),
    (0, Call::Visit, "record k=x"),
    (0, Call::Finish(0), "ok"),
    (0, Call::Finish(0), "idle"),
    (0, Call::Finish(1), "idle"),
    (1, Call::Fetch(0, 0, 3), "none"),
    (1, Call::Apply(0, 0), "ok"),
    (1, Call::Apply(0, 1), "ok"),
    (1, Call::Apply(0, 0), "empty"),
    (1, Call::Say(0), "0:3,0"),
    (1, Call::Say(1), "0:2,2"),
];

const WRITERS_AND_READER_LOGS: &str =
    "gate\n0 transaction 0 0:0:1,0\n0 sent 0 to 0 1 [0 0:0:1,0 low 0:1,0; v 0 create v]\n0 program 2 0:0:2,0\n0 nop 0 2 0:0:3,0 low 0:2,0\n0 finished 2\ngate\n1 transaction 1 0:1:0,1\n1 sent 1 to 0 1 [1 0:1:0,1 low 0:0,1; v 1 set v k x]\n0 heard 0:2,0\n0 nop 0 2 0:1:2,2 low 0:2,2\nstore\n0 judged 0 0:0:1,0 create v; asked; committed 1 v 0\n1 judged 1 0:1:0,1 set v k x; asked v; committed 2 v 1\noracle\n1 put 0:0:1,0 before 0:1:0,1 at 0\n0 put 0:1:0,1 before 0:0:2,0 at 0\nshard\n1 arrived 1 1 [1 0:1:0,1 low 0:0,1; v 1 set v k x]\n0 arrived 0 1 [0 0:0:1,0 low 0:1,0; v 0 create v]\n0 applied 0 1\n1 applied 1 1\n0 arrived 0 2 [empty 0:0:3,0 low 0:2,0]\n0 arrived 1 2 [empty 0:1:2,2 low 0:2,2]\n0 visited 2 0:0:2,0 v 2 settled\n1 applied 0 2\n1 applied 1 2\n";

#[test]
fn two_writers_and_a_reader(rt: HostRuntime) {
    check_table(
        &rt,
        rt.alloc(),
        1,
        &WRITERS_AND_READER,
        WRITERS_AND_READER_LOGS,
    );
}

// Two shards. A transaction is refused, one conflicts with a newer one, and stamps are after the last ones that their
// hand began. A program sees a vertex that was deleted.
const ABORTED_AND_DELETED: [Row; 52] = [
    (0, Call::BeginTx(0, 0), "0:0:1,0"),
    (
        0,
        Call::Commit(&[Do::Create(b'v'), Do::Create(b'w'), Do::Get(b'w')]),
        "committed 1 v 0 w 0 got 3 record",
    ),
    (0, Call::Send, "ok"),
    (1, Call::BeginTx(1, 1), "0:1:0,1"),
    (
        1,
        Call::Commit(&[Do::Create(b'v')]),
        "refused 1 exists at 1",
    ),
    (1, Call::Send, "ok"),
    (1, Call::BeginTx(1, 2), "0:1:0,2"),
    (0, Call::Say(1), "0:0,2"),
    (0, Call::Hear(0), "ok"),
    (0, Call::BeginTxAfter(0, 3), "0:0:2,2"),
    (0, Call::Commit(&[Do::Set(b'v')]), "committed 2 v 1"),
    (0, Call::Send, "ok"),
    (1, Call::Commit(&[Do::Set(b'v')]), "conflict v 3"),
    (1, Call::Send, "ok"),
    (0, Call::BeginTxAfter(1, 4), "0:1:2,3"),
    (
        0,
        Call::Commit(&[Do::Delete(b'w'), Do::Get(b'w')]),
        "committed 3 w 1 got 2 absent",
    ),
    (0, Call::Send, "ok"),
    (0, Call::BeginProgramAfter(0, 5, b'w'), "0:0:3,3"),
    (0, Call::Visit, "again for 0"),
    (
        1,
        Call::Fetch(0, 1, 1),
        "[0 0:0:1,0 low 0:1,0; w 0 create w get w]",
    ),
    (1, Call::Arrive, "kept"),
    (0, Call::Visit, "again for 0"),
    (1, Call::Nop(0, 1), "2"),
    (1, Call::Fetch(0, 1, 2), "[empty 0:0:4,3 low 0:3,3]"),
    (1, Call::Arrive, "kept"),
    (0, Call::Visit, "again for 0"),
    (1, Call::Apply(1, 0), "ok"),
    (0, Call::Visit, "again for 1"),
    (
        1,
        Call::Fetch(1, 1, 1),
        "[4 0:1:2,3 low 0:2,3; w 1 delete w get w]",
    ),
    (1, Call::Arrive, "kept"),
    (1, Call::Apply(1, 1), "ok"),
    (1, Call::Apply(1, 1), "empty"),
    (0, Call::Visit, "again for 1"),
    (1, Call::Say(0), "0:4,3"),
    (1, Call::Hear(1), "ok"),
    (1, Call::Nop(1, 1), "2"),
    (1, Call::Fetch(1, 1, 2), "[empty 0:1:4,4 low 0:4,4]"),
    (1, Call::Arrive, "kept"),
    (0, Call::Visit, "absent"),
    (0, Call::Finish(0), "ok"),
    (0, Call::Finish(0), "idle"),
    (
        1,
        Call::Fetch(0, 0, 2),
        "[3 0:0:2,2 low 0:2,2; v 1 set v k x]",
    ),
    (1, Call::Arrive, "kept"),
    (1, Call::Apply(0, 0), "empty"),
    (
        1,
        Call::Fetch(0, 0, 1),
        "[0 0:0:1,0 low 0:1,0; v 0 create v]",
    ),
    (1, Call::Arrive, "kept"),
    (1, Call::Apply(0, 0), "ok"),
    (1, Call::Apply(0, 0), "ok"),
    (1, Call::Fetch(1, 0, 1), "none"),
    (1, Call::BeginProgram(1, 6, b'v'), "0:1:4,5"),
    (1, Call::Nop(1, 0), "1"),
    (1, Call::Visit, "again for 0"),
];

const ABORTED_AND_DELETED_LOGS: &str =
    "gate\n0 transaction 0 0:0:1,0\n0 sent 0 to 0 1 [0 0:0:1,0 low 0:1,0; v 0 create v] to 1 1 [0 0:0:1,0 low 0:1,0; w 0 create w get w]\n0 heard 0:0,2\n0 transaction 3 0:0:2,2\n0 sent 3 to 0 2 [3 0:0:2,2 low 0:2,2; v 1 set v k x]\n0 program 5 0:0:3,3\n1 nop 1 2 0:0:4,3 low 0:3,3\n0 finished 5\ngate\n1 transaction 1 0:1:0,1\n1 sent 1\n1 transaction 2 0:1:0,2\n1 sent 2\n0 transaction 4 0:1:2,3\n0 sent 4 to 1 1 [4 0:1:2,3 low 0:2,3; w 1 delete w get w]\n1 heard 0:4,3\n1 nop 1 2 0:1:4,4 low 0:4,4\n1 program 6 0:1:4,5\n1 nop 0 1 0:1:4,6 low 0:4,5\nstore\n0 judged 0 0:0:1,0 create v create w get w; asked; committed 1 v 0 w 0 got 3 record\n1 judged 1 0:1:0,1 create v; asked v; refused 1 exists at 1\n0 judged 3 0:0:2,2 set v k x; asked; committed 2 v 1\n1 judged 2 0:1:0,2 set v k x; asked; conflict v 3\n0 judged 4 0:1:2,3 delete w get w; asked; committed 3 w 1 got 2 absent\noracle\nshard\n1 arrived 0 2 [3 0:0:2,2 low 0:2,2; v 1 set v k x]\n1 arrived 0 1 [0 0:0:1,0 low 0:1,0; v 0 create v]\n1 applied 0 1\n1 applied 0 2\nshard\n1 arrived 0 1 [0 0:0:1,0 low 0:1,0; w 0 create w get w]\n1 arrived 0 2 [empty 0:0:4,3 low 0:3,3]\n1 applied 0 1\n1 arrived 1 1 [4 0:1:2,3 low 0:2,3; w 1 delete w get w]\n1 applied 1 1\n1 arrived 1 2 [empty 0:1:4,4 low 0:4,4]\n0 visited 5 0:0:3,3 w 2 ordered\n";

#[test]
fn aborted_transactions_and_a_deleted_vertex(rt: HostRuntime) {
    check_table(
        &rt,
        rt.alloc(),
        2,
        &ABORTED_AND_DELETED,
        ABORTED_AND_DELETED_LOGS,
    );
}
