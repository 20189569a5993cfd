//! What a core keeps and counts after some steps, which no report shows, and a core that is taken apart and joined
//! again.

use crate::cores::{core_of, do_steps, drive_to, step, text_of};
use program_defs::Step;
use std::alloc::Global;
use std::process::Abort;
use weave_data::Name;
use weaver_core::Core;

// How many versions of a vertex shard 0 keeps.
fn kept(rt: &impl Abort, core: &Core, v: &str) -> u64 {
    assert!(rt; core.script().shards > 0);
    let name = Name::parse(v.as_bytes()).expect(rt, "no name");
    core.kept(0, name) as u64
}

// The number of the message that shard 0 processes next on the channel of gatekeeper 0.
fn next_message(rt: &impl Abort, core: &Core) -> u64 {
    assert!(rt; core.script().shards > 0 && core.script().gates > 0);
    core.next_message(0, 0)
}

// Two writers with unordered stamps.
const WRITERS: &str =
    "weaver 1 2 1\ntx t 0 0\ncreate v\nend\ntx u 1 1\nset v k x\nend\nsteps\nbegin t\nnop 0 0\njudge 0\nsend 0\nreply t\nbegin u\nsay 1\nhear 0 1\nhear 0 2\njudge 1\nsend 1\ndeliver 1 0 1\napply 0 1\ndeliver 0 0 1\napply 0 0\napply 0 1\nepoch 0 1\n";

// A program that begins while a transaction is in flight at its gatekeeper.
const PROGRAM: &str =
    "weaver 1 1 1\ntx t 0 0\ncreate v\nend\nprog u 1 0 show v\nsteps\nvisit u\nreply u\nbegin t\nbegin u\nbegin u\nvisit t\njudge 0\nsend 0\nreply u\ndeliver 0 0 1\napply 0 0\nvisit u\nnop 0 0\ndeliver 0 0 2\nvisit u\nvisit u\nreply u\nreply u\nvisit u\n";

// A program looks for a walk to w, which is deleted, and collections, while it is running and once it has ended.
const DELETED: &str =
    "weaver 1 1 1\ntx t1 0 0\ncreate v\nlink v e w\ncreate w\nend\nprog p 1 0 reach v w\ntx t2 0 0\ndelete w\nend\nsteps\nbegin t1\njudge 0\nsend 0\nreply t1\nbegin p\nbegin t2\njudge 0\nsend 0\ndeliver 0 0 1\ndeliver 0 0 2\napply 0 0\napply 0 0\nvisit p\ncollect 0\nvisit p\nreply p\nnop 0 0\ndeliver 0 0 3\napply 0 0\ncollect 0\nreply t2\n";

// w is created and deleted, with a later message of the gatekeeper: at one gatekeeper, and with a second, silent one.
const ALONE: &str =
    "weaver 1 1 1\ntx t1 0 0\ncreate v\nlink v e w\ncreate w\nend\nprog p 1 0 reach v w\ntx t2 0 0\ndelete w\nend\nsteps\nbegin t1\njudge 0\nsend 0\nreply t1\nbegin t2\njudge 0\nsend 0\nnop 0 0\ndeliver 0 0 1\ndeliver 0 0 2\ndeliver 0 0 3\napply 0 0\napply 0 0\napply 0 0\ncollect 0\n";

const SILENT: &str =
    "weaver 1 2 1\ntx t1 0 0\ncreate v\nlink v e w\ncreate w\nend\nprog p 1 0 reach v w\ntx t2 0 0\ndelete w\nend\nsteps\nbegin t1\njudge 0\nsend 0\nreply t1\nbegin t2\njudge 0\nsend 0\nnop 0 0\ndeliver 0 0 1\ndeliver 0 0 2\ndeliver 0 0 3\napply 0 0\napply 0 0\napply 0 0\ncollect 0\n";

// A program begins after the first of three transactions, and all three are applied before it reads.
const LOW_MARK: &str =
    "weaver 1 1 1\ntx t1 0 0\ncreate v\nend\nprog p 1 0 show v\ntx t2 0 0\nset v k x\nend\ntx t3 0 0\nset v k x\nend\nsteps\nbegin t1\njudge 0\nsend 0\nreply t1\nbegin p\nbegin t2\njudge 0\nsend 0\nreply t2\nbegin t3\njudge 0\nsend 0\ndeliver 0 0 1\ndeliver 0 0 2\ndeliver 0 0 3\napply 0 0\napply 0 0\napply 0 0\ncollect 0\nvisit p\nreply p\nnop 0 0\ndeliver 0 0 4\napply 0 0\ncollect 0\n";

// A gatekeeper stops while a program runs, and its next low mark is of the epoch before.
const RESTARTED: &str =
    "weaver 1 1 1\ntx t1 0 0\ncreate v\nend\nprog p 1 0 show v\ntx t2 0 0\nset v k x\nend\nsteps\nbegin t1\njudge 0\nsend 0\nreply t1\nbegin p\nbegin t2\njudge 0\nsend 0\nrestart 0 1\nnop 0 0\ndeliver 0 0 1\ndeliver 0 0 2\ndeliver 0 0 3\napply 0 0\napply 0 0\napply 0 0\ncollect 0\nvisit p\nreply p\n";

// A script, how many of its steps are done, a vertex, and then: how many versions of it are kept, the first request
// without a reply, the next message, and how many notices there are.
const COUNTS: [(&str, usize, &str, [u64; 4]); 13] = [
    (WRITERS, 17, "v", [2, 1, 2, 1]),
    (PROGRAM, 8, "v", [0, 0, 1, 0]),
    (PROGRAM, 19, "v", [1, 0, 2, 0]),
    (DELETED, 0, "w", [0, 0, 1, 0]),
    // The program may still read w as it was.
    (DELETED, 14, "w", [2, 1, 3, 0]),
    (DELETED, 20, "w", [1, 2, 4, 0]),
    (DELETED, 21, "w", [1, 3, 4, 0]),
    (ALONE, 15, "w", [1, 1, 4, 0]),
    // As long as a gatekeeper is silent nothing is dropped.
    (SILENT, 15, "w", [2, 1, 4, 0]),
    // The low mark of the last message is that of the program, not its own stamp: all versions stay until it has ended.
    (LOW_MARK, 19, "v", [3, 1, 4, 0]),
    (LOW_MARK, 21, "v", [3, 3, 4, 0]),
    (LOW_MARK, 25, "v", [1, 3, 5, 0]),
    // The program was not forgotten by the gatekeeper that returned.
    (RESTARTED, 19, "v", [2, 2, 4, 0]),
];

fn counts_of(rt: &impl Abort, core: &Core, v: &str) -> [u64; 4] {
    let first = u64::from(core.first_unanswered());
    [
        kept(rt, core, v),
        first,
        next_message(rt, core),
        core.notices(),
    ]
}

fn counts_after(rt: &impl Abort, alloc: Global, text: &str, steps: usize, v: &str) -> [u64; 4] {
    let mut core = core_of(rt, alloc, text);
    do_steps(rt, alloc, &mut core, 0, steps);
    counts_of(rt, &core, v)
}

#[test]
fn counts_of_a_core(rt: HostRuntime) {
    for (text, steps, v, wanted) in COUNTS {
        let counts = counts_after(&rt, rt.alloc(), text, steps, v);
        assert!(rt;
            counts.as_slice() == wanted.as_slice(),
            "{steps} steps of {text}"
        );
    }
}

// v is created, and then changed and shown fifty times, at the gatekeepers in turn.
fn fifty_changes(rt: &impl Abort, alloc: Global, gates: u32, reader: u32) -> String {
    let start = format!(in alloc; "weaver 1 {gates} 1\ntx t 0 0\ncreate v\nend\n");
    let mut text = start.expect(rt, "memory");
    for phase in 0..50u32 {
        let gate = phase.checked_rem(gates).unwrap_or(0);
        let lines = format!(in alloc;
            "tx t{phase} 0 {gate}\nset v k x\nend\nprog p{phase} {reader} {gate} show v\n"
        );
        let lines = lines.expect(rt, "memory");
        text.push_str(lines.as_str()).expect(rt, "memory");
    }
    text
}

// Thirteen steps for each change and what shows it, after six for the creation.
fn add_steps(rt: &impl Abort, alloc: Global, text: &mut String) {
    let start = "steps\nbegin t\njudge 0\nsend 0\nreply t\ndeliver 0 0 1\napply 0 0\n";
    text.push_str(start).expect(rt, "memory");
    for phase in 0..50u32 {
        let (first, second) = (2 * phase + 2, 2 * phase + 3);
        let lines = format!(in alloc;
            "begin t{phase}\njudge 0\nsend 0\nreply t{phase}\nbegin p{phase}\nnop 0 0\ndeliver 0 0 {first}\ndeliver 0 0 {second}\napply 0 0\napply 0 0\nvisit p{phase}\nreply p{phase}\ncollect 0\n"
        );
        let lines = lines.expect(rt, "memory");
        text.push_str(lines.as_str()).expect(rt, "memory");
    }
}

// Does a phase after another, and then one version of v is kept.
fn do_phases(rt: &impl Abort, alloc: Global, core: &mut Core) {
    assert!(rt; do_steps(rt, alloc, core, 0, 6));
    for phase in 0..50usize {
        let from = 13 * phase + 6;
        assert!(rt; do_steps(rt, alloc, core, from, from + 13));
        assert!(rt; kept(rt, core, "v") == 1);
    }
    assert!(rt; core.first_unanswered() == 101);
}

fn core_of_phases(rt: &impl Abort, alloc: Global) -> Core {
    let mut text = fifty_changes(rt, alloc, 1, 1);
    add_steps(rt, alloc, &mut text);
    core_of(rt, alloc, text.as_str())
}

// However often a vertex changes, no more than one version is kept at the end of a phase.
#[test]
fn fifty_phases(rt: HostRuntime) {
    let mut core = core_of_phases(&rt, rt.alloc());
    do_phases(&rt, rt.alloc(), &mut core);
}

// Drives the core from phase to phase. With collections at most four versions of v are kept at the end of each.
fn drive_phases(rt: &impl Abort, alloc: Global, core: &mut Core, collects: bool) {
    for phase in 0..50u32 {
        drive_to(rt, alloc, core, 2 * phase + 3);
        if collects {
            step(rt, alloc, core, Step::Collect { shard: 0 });
            assert!(rt; kept(rt, core, "v") <= 4);
        }
    }
}

// How many versions of v are kept in the end, and the report.
fn driven_phases(rt: &impl Abort, alloc: Global, collects: bool) -> (u64, Vec<u8>) {
    let mut core = core_in_turn(rt, alloc);
    drive_phases(rt, alloc, &mut core, collects);
    (kept(rt, &core, "v"), text_of(rt, alloc, &core))
}

fn core_in_turn(rt: &impl Abort, alloc: Global) -> Core {
    let text = fifty_changes(rt, alloc, 2, 0);
    core_of(rt, alloc, text.as_str())
}

// A run without collections keeps all 51 versions. The report is the same.
#[test]
fn fifty_phases_with_collections(rt: HostRuntime) {
    let (few, text) = driven_phases(&rt, rt.alloc(), true);
    let (all, other) = driven_phases(&rt, rt.alloc(), false);
    assert!(rt; few <= 4 && all == 51);
    assert!(rt; text == other);
}

// A transaction commits, a program begins with a stamp that is unordered with it, and the shard gets ready for it; the
// oracle puts the transaction before the program, which has then read v; the program is finished.
const SHOWN_ELSEWHERE: &str =
    "weaver 1 2 1\ntx t 0 0\ncreate v\nend\nprog p 1 1 show v\nsteps\nbegin t\njudge 0\nsend 0\nreply t\nbegin p\nsay 1\nhear 0 1\nnop 0 0\nnop 1 0\ndeliver 0 0 1\napply 0 0\ndeliver 0 0 2\ndeliver 1 0 1\nvisit p\nreply p\n";

// The core after some steps, taken apart and joined.
fn joined_after(rt: &impl Abort, alloc: Global, core: Core, from: usize, to: usize) -> Core {
    let mut core = core;
    do_steps(rt, alloc, &mut core, from, to);
    assert!(rt; core.none_in_flight());
    Core::join(core.split())
}

fn whole_text(rt: &impl Abort, alloc: Global, end: usize) -> Vec<u8> {
    let mut core = core_of(rt, alloc, SHOWN_ELSEWHERE);
    assert!(rt; do_steps(rt, alloc, &mut core, 0, end));
    text_of(rt, alloc, &core)
}

// The report after so many steps, of a core that was apart before the visit, after it, and in the end.
fn apart_text(rt: &impl Abort, alloc: Global, end: usize) -> Vec<u8> {
    let ready = joined_after(rt, alloc, core_of(rt, alloc, SHOWN_ELSEWHERE), 0, 13);
    let read = joined_after(rt, alloc, ready, 13, end.min(14));
    let ended = joined_after(rt, alloc, read, 14, end);
    text_of(rt, alloc, &ended)
}

// The core is apart before the running program's visit, and after it, and its report is that of a core that never was.
// What that report says in the end is a worked case of `trace`.
#[test]
fn a_program_runs_on_after_a_join(rt: HostRuntime) {
    for end in [13, 14, 15] {
        let apart = apart_text(&rt, rt.alloc(), end);
        assert!(rt; apart == whole_text(&rt, rt.alloc(), end));
    }
}
