//! The calls of two hands in turn, each with its answer, and the report of the logs at the end.
ghost use Rattle.std.specs.Prelude.{◌≡◌, vec_len};
ghost use Rattle.weaver_locks.specs.Locks.{gate_count};
ghost use Rattle.lock_tests.specs.ReadyWorkers.{AreWorkers};

use crate::hands::bench::{close, open};
use crate::hands::play::{Call, Row, play};
use crate::hands::right_report::{answers_of, right_report, script_of};
use crate::hands::worker::Worker;
use program_defs::Script;
use std::alloc::Global;
use std::process::Abort;
use std::sync::Wait;
use weaver_locks::Shared;

// Makes a call of the hand with this number, and compares its answer.
fn play_row<R: Wait + Abort>(
    rt: &R,
    alloc: Global,
    shared: &Shared,
    script: &Script,
    workers: &mut Vec<Worker>,
    who: usize,
    call: &Call,
    expected: &str,
)
    requires gates { gate_count shared.now ≡ 2 }
    requires workers { AreWorkers shared.now workers.old.items }
    ensures workers { AreWorkers shared.now workers.new.items }
    ensures count { vec_len workers.new ≡ vec_len workers.old }
{
    if who >= workers.len() {
        panic!(rt; "no such hand");
    }
    let said = play(rt, alloc, shared, script, &mut workers[who], call);
    assert!(rt; said.as_slice() == expected.as_bytes(), "{expected}");
}

fn play_rows<R: Wait + Abort>(
    rt: &R,
    alloc: Global,
    shared: &Shared,
    script: &Script,
    workers: &mut Vec<Worker>,
    rows: &[Row],
)
    requires gates { gate_count shared.now ≡ 2 }
    requires workers { AreWorkers shared.now workers.old.items }
    ensures workers { AreWorkers shared.now workers.new.items }
    ensures count { vec_len workers.new ≡ vec_len workers.old }
{
    for (who, call, expected) in rows {
        play_row(rt, alloc, shared, script, workers, *who, call, expected);
    }
}

// Makes the calls of two hands. Then the oracle's log has this many entries, and this is the report.
fn check_table<R: Wait + Abort>(
    rt: &R,
    alloc: Global,
    text: &str,
    rows: &[Row],
    settled: usize,
    report: &str,
) {
    let script = script_of(rt, alloc, text.as_bytes());
    let shards = script.shards;
    if shards == 0 || shards > 16 {
        panic!(rt; "no such number of shards");
    }
    let (shared, mut workers) = open(rt, alloc, 2, shards, 2);
    play_rows(rt, alloc, &shared, &script, &mut workers, rows);
    let ended = answers_of(rt, alloc, workers.as_slice());
    let closed = close(rt, alloc, shared, workers);
    assert!(rt; closed.oracle.log().len() == settled);
    let printed = right_report(rt, alloc, &script, &closed, ended.as_slice());
    assert!(rt; printed.as_slice() == report.as_bytes(), "{report}");
}

const WRITERS_AND_READER: &str =
    "weaver 1 2 1\ntx t1 0 0\ncreate v\nend\ntx t2 1 1\nset v k x\nend\nprog p 2 0 show v\n";

// Two transactions with unordered stamps, and a program after the second. The second one's message arrives first, and
// waits. The oracle puts the first before the second, and the second before the program.
const WRITERS_AND_READER_CALLS: [Row; 18] = [
    (0, Call::Transact(0), "0:0:1,0 committed 1 v 0"),
    (1, Call::Transact(1), "0:1:0,1 committed 2 v 1"),
    (1, Call::Pull(1, 0, 1), "true"),
    (1, Call::Pull(1, 0, 2), "false"),
    (1, Call::Apply(0, 1), "waits v"),
    (1, Call::Apply(0, 0), "empty"),
    (0, Call::Pull(0, 0, 1), "true"),
    (0, Call::Apply(0, 0), "ok"),
    (1, Call::Apply(0, 1), "ok"),
    (0, Call::Start(2), "0:0:2,0"),
    (0, Call::Visit, "not yet 0 0"),
    (0, Call::SayAndHear(0, 1), "ok"),
    (0, Call::Nop(0, 0), "ok"),
    (0, Call::Nop(1, 0), "ok"),
    (0, Call::Pull(0, 0, 2), "true"),
    (0, Call::Pull(1, 0, 2), "true"),
    (0, Call::Visit, "ok"),
    (0, Call::Finish, "record k=x"),
];

const WRITERS_AND_READER_REPORT: &str =
    "report 1\ntx t1 0:0:1,0 committed 1\ntx t2 0:1:0,1 committed 2\nprog p 0:0:2,0 done record k=x\nsettled v t1 t2\nsettled v t2 p\norder t1 t2 p\nend\n";

#[test]
fn two_writers_and_a_reader(rt: HostRuntime) {
    check_table(
        &rt,
        rt.alloc(),
        WRITERS_AND_READER,
        &WRITERS_AND_READER_CALLS,
        2,
        WRITERS_AND_READER_REPORT,
    );
}

const PATH_BEFORE_DELETION: &str =
    "weaver 1 2 2\ntx t0 0 0\ncreate v\nlink v e w\ncreate w\nend\ntx t1 1 1\ncreate v\nend\ntx t2 0 1\nset w k x\nend\nprog p 1 0 path v w 3\ntx t4 0 0\ndelete w\nend\ntx t5 2 1\nset v k x\nend\ntx t6 0 1\nget v\nend\nprog q 3 0 around v 2\n";

// Two shards, v on the first and w on the second. A transaction is refused. A program begins before w is deleted, and
// goes on while messages are brought by both hands, two of them twice and one before its turn. At the end a transaction
// is in flight at the second gatekeeper, and a program waits for it.
const PATH_BEFORE_DELETION_CALLS: [Row; 52] = [
    (0, Call::Transact(0), "0:0:1,0 committed 1 v 0 w 0"),
    (1, Call::Transact(1), "0:1:0,1 refused 1 exists at 1"),
    (0, Call::TransactAfter(2), "0:1:1,2 committed 2 w 1"),
    (1, Call::StartAfter(3), "0:0:2,1"),
    (0, Call::TransactAfter(4), "0:0:3,2 committed 3 w 2"),
    (1, Call::Visit, "not yet 0 0"),
    (0, Call::Pull(0, 0, 1), "true"),
    (1, Call::Pull(0, 0, 1), "true"),
    (0, Call::Pull(0, 0, 2), "false"),
    (1, Call::Visit, "not yet 0 0"),
    (1, Call::Apply(0, 0), "ok"),
    (0, Call::Apply(0, 0), "empty"),
    (1, Call::Visit, "not yet 0 0"),
    (1, Call::Nop(0, 0), "ok"),
    (1, Call::Visit, "not yet 0 0"),
    (1, Call::Pull(0, 0, 2), "true"),
    (1, Call::Visit, "not yet 0 1"),
    (1, Call::SayAndHear(0, 1), "ok"),
    (1, Call::Nop(1, 0), "ok"),
    (0, Call::Pull(1, 0, 1), "true"),
    (1, Call::Visit, "ok"),
    (1, Call::Visit, "not yet 1 0"),
    (0, Call::Pull(0, 1, 2), "true"),
    (0, Call::Apply(1, 0), "empty"),
    (1, Call::Pull(0, 1, 1), "true"),
    (1, Call::Visit, "not yet 1 0"),
    (0, Call::Apply(1, 0), "ok"),
    (1, Call::Visit, "not yet 1 1"),
    (0, Call::Apply(1, 0), "waits w"),
    (0, Call::Pull(1, 1, 1), "true"),
    (1, Call::Pull(1, 1, 1), "true"),
    (1, Call::Visit, "not yet 1 1"),
    (1, Call::Apply(1, 1), "ok"),
    (1, Call::Apply(1, 0), "ok"),
    (0, Call::Apply(1, 0), "empty"),
    (1, Call::Nop(1, 1), "ok"),
    (1, Call::Pull(1, 1, 2), "true"),
    (1, Call::Visit, "ok"),
    (1, Call::Finish, "path v w"),
    (1, Call::Begin(5), "0:1:4,5"),
    (0, Call::Transact(6), "busy"),
    (0, Call::Nop(1, 1), "busy"),
    (0, Call::Nop(1, 0), "busy"),
    (0, Call::Pull(1, 1, 3), "false"),
    (0, Call::SayAndHear(1, 0), "ok"),
    (0, Call::StartAfter(7), "0:0:5,5"),
    (0, Call::Visit, "not yet 0 0"),
    (0, Call::Nop(0, 0), "ok"),
    (0, Call::Pull(0, 0, 3), "true"),
    (0, Call::Visit, "not yet 0 0"),
    (0, Call::Apply(0, 0), "ok"),
    (0, Call::Visit, "not yet 0 1"),
];

const PATH_BEFORE_DELETION_REPORT: &str =
    "report 1\ntx t0 0:0:1,0 committed 1\ntx t1 0:1:0,1 refused 1 exists at 1\ntx t2 0:1:1,2 committed 2\nprog p 0:0:2,1 done path v w\ntx t4 0:0:3,2 committed 3\ntx t5 0:1:4,5 begun\ntx t6 unbegun\nprog q 0:0:5,5 running\nsettled w t2 p\norder t0 t2 p t4\nend\n";

#[test]
fn a_path_before_a_deletion(rt: HostRuntime) {
    check_table(
        &rt,
        rt.alloc(),
        PATH_BEFORE_DELETION,
        &PATH_BEFORE_DELETION_CALLS,
        1,
        PATH_BEFORE_DELETION_REPORT,
    );
}
