//! Printed orders: of the requests that may be next the one of the least home is taken, and what is not committed or
//! finished is left out.

use crate::judging::read;
use order_witness::{has_order, order_of};
use report_rules::Report;
use std::alloc::Global;
use weave_data::Items;

// Three sessions: the first creates a, the second creates b, the third reads b.
const THREE: &str =
    "weaver 1 3 1\ntx t0 0 0\ncreate a\nend\ntx t1 1 2\ncreate b\nend\ntx t2 2 1\nget b\nend\n";

// Two writes of a session at the second gatekeeper, and between them a program at the first one.
const BETWEEN_WRITES: &str =
    "weaver 1 2 1\ntx t0 0 1\ncreate v\nend\nprog p 1 0 show v\ntx t1 0 1\nset v k x\nend\n";

// Two sessions, each at a gatekeeper of its own: the first creates a vertex, the second sets a key of it.
const TWO: &str = "weaver 1 2 1\ntx t0 0 0\ncreate v\nend\ntx t1 1 1\nset v k x\nend\n";

// Scripts with a report, and whether it has a printed order, which is then that of the text.
const ORDERS: [(&str, &str, bool); 9] = [
    // By the pair t1 precedes t2, and by stamps t2 precedes t0.
    (
        THREE,
        "report 1\ntx t0 0:0:1,1,0 committed 1\ntx t1 0:2:0,0,1 committed 2\ntx t2 0:1:0,1,0 committed 3\ngot 1 record\nsettled b t1 t2\norder t1 t2 t0\nend\n",
        true,
    ),
    // Stamps alone: of t1 and t2, which may both be first, t2 has the least home.
    (
        THREE,
        "report 1\ntx t0 0:0:1,1,0 committed 1\ntx t1 0:2:0,0,1 committed 2\ntx t2 0:1:0,1,0 committed 3\ngot 1 record\norder t2 t0 t1\nend\n",
        true,
    ),
    // t2 has no verdict.
    (
        THREE,
        "report 1\ntx t0 0:0:1,1,0 committed 1\ntx t1 0:2:0,0,1 committed 2\ntx t2 0:1:0,1,0 begun\norder t0 t1\nend\n",
        true,
    ),
    // t0 has not begun.
    (
        THREE,
        "report 1\ntx t0 unbegun\ntx t1 0:2:0,0,1 committed 2\ntx t2 0:1:0,1,0 committed 3\ngot 1 record\norder t2 t1\nend\n",
        true,
    ),
    // A pair puts the program after the first write. It is listed once it is finished.
    (
        BETWEEN_WRITES,
        "report 1\ntx t0 0:1:0,1 committed 1\nprog p 0:0:1,0 done record\ntx t1 0:1:1,2 committed 2\nsettled v t0 p\norder t0 p t1\nend\n",
        true,
    ),
    (
        BETWEEN_WRITES,
        "report 1\ntx t0 0:1:0,1 committed 1\nprog p 0:0:1,0 running\ntx t1 0:1:1,2 committed 2\nsettled v t0 p\norder t0 t1\nend\n",
        true,
    ),
    // The pairs make a cycle.
    (
        TWO,
        "report 1\ntx t0 0:0:1,0 committed 1\ntx t1 0:1:0,1 committed 2\nsettled v t0 t1\nsettled v t1 t0\norder\nend\n",
        false,
    ),
    // The replies are the other way round.
    (
        TWO,
        "report 1\ntx t1 0:1:0,1 committed 2\ntx t0 0:0:1,0 committed 1\norder\nend\n",
        false,
    ),
    // A reply is missing.
    (
        TWO,
        "report 1\ntx t0 0:0:1,0 committed 1\norder\nend\n",
        false,
    ),
];

// The report without its order, and the order.
fn without_order(alloc: Global, report: Report) -> (Report, Items<u32>) {
    let Report {
        replies,
        pairs,
        order,
        answers,
    } = report;
    let unordered = Report {
        replies,
        pairs,
        order: Items::new(alloc),
        answers,
    };
    (unordered, order)
}

#[test]
fn printed_orders(rt: HostRuntime) {
    let alloc = rt.alloc();
    for (script, text, is_printed) in ORDERS {
        let (script, report) = read(&rt, alloc, script, text);
        let (unordered, wanted) = without_order(alloc, report);
        let has = has_order(alloc, &script, &unordered).expect(&rt, "memory");
        assert!(rt; has == is_printed, "{text}");
        if has {
            let order = order_of(alloc, &script, &unordered).expect(&rt, "memory");
            assert!(rt; order.as_slice() == wanted.as_slice(), "{text}");
        }
    }
}
