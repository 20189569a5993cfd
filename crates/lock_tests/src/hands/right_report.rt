//! The report of closed machines, printed, and judged as `check` judges it.

use crate::hands::pairs::pairs_of;
use crate::hands::replies::replies_of;
use crate::hands::worker::{Ended, Worker};
use order_witness::{Judged, has_numbered_operations, has_order, judge_report, order_of};
use program_defs::Script;
use report_rules::Report;
use std::alloc::Global;
use std::process::Abort;
use weave_data::{Copied, Items};
use weave_report::print_report;
use weave_script::{print_script, read_check, read_script};
use weave_text::Text;
use weaver_locks::Closed;

/// The script of a text.
pub fn script_of(rt: &impl Abort, alloc: Global, text: &[u8]) -> Script {
    match read_script(alloc, text) {
        Ok(script) => script,
        Err(_) => panic!(rt; "no script"),
    }
}

/// What the programs of these workers answered.
pub fn answers_of(rt: &impl Abort, alloc: Global, workers: &[Worker]) -> Vec<Ended> {
    let mut ended = Vec::new(alloc);
    for worker in workers {
        add_answers(rt, alloc, worker.ended.as_slice(), &mut ended);
    }
    ended
}

fn add_answers(rt: &impl Abort, alloc: Global, programs: &[Ended], ended: &mut Vec<Ended>) {
    for program in programs {
        let one = Ended {
            request: program.request,
            answer: program.answer.copy(alloc).expect(rt, "memory"),
        };
        ended.push(one).expect(rt, "memory");
    }
}

/// The printed report of closed machines, if it is right for the script.
pub fn right_report(
    rt: &impl Abort,
    alloc: Global,
    script: &Script,
    closed: &Closed,
    ended: &[Ended],
) -> Vec<u8> {
    let replies = replies_of(rt, alloc, script, closed, ended);
    let pairs = pairs_of(rt, alloc, closed, replies.as_slice());
    let unordered = Report {
        replies,
        pairs,
        order: Items::new(alloc),
        answers: Items::new(alloc),
    };
    let report = in_order(rt, alloc, script, unordered);
    let printed = print_report(alloc, script, &report).expect(rt, "memory");
    let mut input = Text::new(alloc);
    let before = print_script(alloc, script).expect(rt, "memory");
    input.push(before.as_slice()).expect(rt, "memory");
    input.push(printed.as_slice()).expect(rt, "memory");
    check(rt, alloc, input.into_bytes().as_slice());
    printed
}

// The report with its one order.
fn in_order(rt: &impl Abort, alloc: Global, script: &Script, report: Report) -> Report {
    if !has_order(alloc, script, &report).expect(rt, "memory") {
        panic!(rt; "it has no order");
    }
    let order = order_of(alloc, script, &report).expect(rt, "memory");
    let mut ordered = report;
    ordered.order = Items::from_vec(order);
    ordered
}

// A script and its report as one text are read, and the report is right.
fn check(rt: &impl Abort, alloc: Global, input: &[u8]) {
    let Ok((script, report)) = read_check(alloc, input) else {
        panic!(rt; "no script and report");
    };
    if !has_numbered_operations(&script) {
        panic!(rt; "too many operations");
    }
    match judge_report(alloc, &script, &report).expect(rt, "memory") {
        Judged::Yes => {}
        Judged::No { clause, place } => panic!(rt; "no {clause:?} {place}"),
    }
}
