//! Cores that lists of steps leave in hard places, driven until the first requests have their replies. Driven on until
//! all have theirs they are worked cases of `drive on`.

use crate::cores::{core_of, do_steps, drive_to, steps_of, text_of};
use std::alloc::Global;
use std::process::Abort;
use weaver_core::Core;

// Two chains of links are written side by side at three gatekeepers, and read while they grow.
const CHAINS: &str =
    "weaver 1 3 4\ntx t0 0 0\ncreate a\ncreate b\nlink a e b\nend\ntx t1 1 1\ncreate c\nlink c f a\nend\nprog p2 2 2 show a\ntx t3 3 2\nset a k x\nset b k x\nend\ntx t4 1 1\nset a k x\nset b k x\nend\nprog p5 4 0 reach a b\nprog p6 5 2 reach c b\ntx t7 2 2\nset a k x\nset b k x\nend\nprog p8 0 0 reach b c\n";

// Steps, how many requests have their replies then, and the report.
const DRIVEN: [(&str, u32, &str); 6] = [
    // No step was done, and no request above the bound begins.
    (
        "",
        4,
        "report 1\ntx t0 0:0:1,0,0 committed 1\ntx t1 0:1:0,1,0 committed 2\nprog p2 0:2:0,0,1 done record e>b\ntx t3 0:2:0,0,3 committed 3\ntx t4 unbegun\nprog p5 unbegun\nprog p6 unbegun\ntx t7 unbegun\nprog p8 unbegun\nsettled a t0 p2\norder t0 t1 p2 t3\nend\n",
    ),
    // Transactions in flight: one without its verdict, one with it, and one above the bound.
    (
        "steps\nbegin t0\nbegin t1\njudge 1\nbegin t3\n",
        3,
        "report 1\ntx t0 0:0:1,0,0 committed 2\ntx t1 0:1:0,1,0 committed 1\nprog p2 0:2:0,0,2 done record k=x e>b\ntx t3 0:2:0,0,1 committed 3\ntx t4 unbegun\nprog p5 unbegun\nprog p6 unbegun\ntx t7 unbegun\nprog p8 unbegun\nsettled a t0 t3\norder t0 t1 t3 p2\nend\n",
    ),
    // Messages that wait for others, which have not arrived. The vertex a is kept by shard 1, b by shard 2.
    (
        "steps\nbegin t0\njudge 0\nsend 0\nnop 0 1\nnop 0 2\nbegin t3\njudge 2\nsend 2\ndeliver 2 1 1\ndeliver 2 2 1\ndeliver 0 1 2\ndeliver 0 2 2\nbegin t1\n",
        3,
        "report 1\ntx t0 0:0:1,0,0 committed 1\ntx t1 0:1:0,1,0 committed 3\nprog p2 0:2:0,0,2 done record k=x e>b\ntx t3 0:2:0,0,1 committed 2\ntx t4 unbegun\nprog p5 unbegun\nprog p6 unbegun\ntx t7 unbegun\nprog p8 unbegun\nsettled a t0 t3\norder t0 t1 t3 p2\nend\n",
    ),
    // The program p2 is finished, and finds no vertex a. Then t0, t1, t3, t4 and t7 are sent, and some of their
    // messages arrive: at shard 1 the head of gatekeeper 1 waits for a message of gatekeeper 2, and at shard 2 the head
    // of gatekeeper 2 for one of gatekeeper 1.
    (
        "steps\nbegin p2\nsay 2\nhear 0 1\nhear 1 1\nnop 0 1\nnop 1 1\nnop 2 1\ndeliver 0 1 1\ndeliver 1 1 1\ndeliver 2 1 1\nvisit p2\nreply p2\nbegin t0\njudge 0\nsend 0\nbegin t1\njudge 1\nsend 1\nreply t1\nbegin t3\njudge 2\nsend 2\nbegin t4\njudge 1\nsend 1\nbegin t7\njudge 2\nsend 2\napply 1 1\ndeliver 1 1 2\ndeliver 0 2 1\napply 2 0\ndeliver 2 2 1\napply 2 2\ndeliver 2 2 2\napply 1 1\napply 2 2\n",
        5,
        "report 1\ntx t0 0:0:2,0,1 committed 1\ntx t1 0:1:0,2,1 committed 2\nprog p2 0:2:0,0,1 done absent\ntx t3 0:2:0,0,3 committed 3\ntx t4 0:1:0,3,1 committed 4\nprog p5 unbegun\nprog p6 unbegun\ntx t7 0:2:0,0,4 committed 5\nprog p8 unbegun\nsettled a t0 t3\nsettled a t3 t4\nsettled a t4 t7\norder p2 t0 t1 t3 t4 t7\nend\n",
    ),
    // Epochs that were raised at some gatekeepers alone, before and after a program's begin.
    (
        "steps\nepoch 0 3\nbegin t0\nepoch 2 7\njudge 0\nsend 0\nbegin p2\nbegin p5\nepoch 0 9\nbegin p6\nbegin t1\n",
        6,
        "report 1\ntx t0 3:0:1,0,0 committed 1\ntx t1 0:1:0,1,0 committed 2\nprog p2 7:2:0,0,1 done record e>b\ntx t3 7:2:0,0,4 committed 3\ntx t4 7:1:0,2,2 committed 4\nprog p5 3:0:2,0,0 done yes\nprog p6 7:2:0,0,2 running\ntx t7 unbegun\nprog p8 unbegun\nsettled a t3 t4\norder t1 t0 p5 p2 t3 t4\nend\n",
    ),
    // A program that has read its start, a, and not yet b, and one that has read nothing, with a write in flight.
    (
        "steps\nbegin t0\njudge 0\nsend 0\nbegin p5\nbegin p6\nsay 0\nhear 1 1\nhear 2 1\nnop 0 1\nnop 1 1\nnop 2 1\ndeliver 0 1 1\napply 1 0\ndeliver 0 1 2\ndeliver 1 1 1\ndeliver 2 1 1\nvisit p5\nbegin t3\njudge 2\n",
        5,
        "report 1\ntx t0 0:0:1,0,0 committed 1\ntx t1 0:1:2,2,0 committed 3\nprog p2 0:2:2,0,4 done record k=x e>b\ntx t3 0:2:2,0,3 committed 2\ntx t4 0:1:2,4,4 committed 4\nprog p5 0:0:2,0,0 running\nprog p6 0:2:0,0,1 running\ntx t7 unbegun\nprog p8 unbegun\norder t0 t1 t3 p2 t4\nend\n",
    ),
];

fn core_of_chains(rt: &impl Abort, alloc: Global, steps: &str) -> Core {
    let text = format!(in alloc; "{CHAINS}{steps}").expect(rt, "memory");
    core_of(rt, alloc, text.as_str())
}

// Does all steps of the script, and drives the core.
fn do_and_drive(rt: &impl Abort, alloc: Global, core: &mut Core, upto: u32) {
    let count = steps_of(core.script()).len();
    do_steps(rt, alloc, core, 0, count);
    drive_to(rt, alloc, core, upto);
}

fn driven_text(rt: &impl Abort, alloc: Global, steps: &str, upto: u32) -> Vec<u8> {
    let mut core = core_of_chains(rt, alloc, steps);
    do_and_drive(rt, alloc, &mut core, upto);
    text_of(rt, alloc, &core)
}

#[test]
fn driven_up_to_a_bound(rt: HostRuntime) {
    for (steps, upto, wanted) in DRIVEN {
        let written = driven_text(&rt, rt.alloc(), steps, upto);
        assert!(rt; written.as_slice() == wanted.as_bytes(), "{wanted}");
    }
}
