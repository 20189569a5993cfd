ghost use Rattle.weave_report.specs.TextOf.{HasDistinctNames};

use program_defs::{Answer, Script};
use std::alloc::Global;
use std::process::Abort;
use vector_stamp::{Clock, Stamp};
use weave_data::Items;
use weave_report::{
    Reply, ReplyState, Report, ReportCause, ReportFault, print_report, read_report,
};
use weave_script::{print_script, read_check};

const BOTH: &str = "weaver 1 2 3
tx t 5 1
get v
end
phase
prog p 63 0 reach a b
steps
begin p
report 1
tx t 7:1:0,18446744073709551615 committed 1
got 1 absent
prog p 0:0:2,0 done yes
settled v t p
order p t
did 1 waits v
end
";

const BOTH_WITH_SKIPPED_LINES: &str = "\n# a script\nweaver 1 2 3
tx t 5 1\n#\n
get v
end
phase
prog p 63 0 reach a b
steps\n
begin p\n# a report
report 1\n\n
tx t 7:1:0,18446744073709551615 committed 1\n#
got 1 absent
prog p 0:0:2,0 done yes
settled v t p
order p t
did 1 waits v\n
end\n\n# the end";

// A script and its report, printed one after the other.
fn printed(rt: &impl Abort, alloc: Global, script: &Script, report: &Report) -> Vec<u8> {
    let mut printed = print_script(alloc, script).expect(rt, "memory");
    let after = print_report(alloc, script, report).expect(rt, "memory");
    printed.extend_from_slice(&after).expect(rt, "memory");
    printed
}

// Whether the script that is read before a report, and the report, are printed so.
fn is_printed_back(rt: &impl Abort, alloc: Global, text: &str) -> bool {
    let (script, report) = read_check(alloc, text.as_bytes()).expect(rt, "a report");
    printed(rt, alloc, &script, &report).as_slice() == BOTH.as_bytes()
}

#[test]
fn a_script_and_its_report_are_printed_back(rt: HostRuntime) {
    for text in [BOTH, BOTH_WITH_SKIPPED_LINES] {
        assert!(rt; is_printed_back(&rt, rt.alloc(), text));
    }
}

const READ: &str = "weaver 1 1 1
tx t 0 0
get v
get v
get v
end
prog p 0 0 show v
report 1
tx t 0:0:1 committed 1
got 1 absent
got 2 absent
got 3 absent
order t
end
";

const PRINTED: &str = "report 1
tx t 0:0:1 committed 1
got 1 absent
got 2 absent
got 3 absent
tx  unbegun
prog p 0:0:1 done yes
order t  t
end
";

// Request 9, which the script doesn't have and whose name is empty.
fn unknown() -> Reply {
    Reply {
        request: 9,
        stamp: None,
        state: ReplyState::Unbegun,
    }
}

// An answer that isn't of the program's form.
fn reached() -> Reply {
    let clock = Clock {
        epoch: 0,
        counts: [1, 0, 0, 0, 0, 0, 0, 0],
    };
    Reply {
        request: 1,
        stamp: Some(Stamp { home: 0, clock }),
        state: ReplyState::Finished(Answer::Reached(true)),
    }
}

// The report with both of these is printed.
fn add_and_print(rt: &impl Abort, alloc: Global, script: &Script, report: &mut Report) {
    report.replies.push(unknown()).expect(rt, "memory");
    report.replies.push(reached()).expect(rt, "memory");
    report.order.push(9).expect(rt, "memory");
    report.order.push(0).expect(rt, "memory");
    let printed = print_report(alloc, script, report).expect(rt, "memory");
    assert!(rt; printed.as_slice() == PRINTED.as_bytes());
}

#[test]
fn a_report_that_no_text_gives(rt: HostRuntime) {
    let alloc = rt.alloc();
    let (script, mut report) = read_check(alloc, READ.as_bytes()).expect(&rt, "a report");
    add_and_print(&rt, alloc, &script, &mut report);
}

fn empty_script(alloc: Global) -> Script
    ensures { HasDistinctNames result }
{
    Script {
        gates: 1,
        shards: 1,
        requests: Items::new(alloc),
        phases: Items::new(alloc),
        steps: None,
    }
}

// What the text is refused for, whose first line has this number.
fn fault_from(rt: &impl Abort, alloc: Global, text: &[u8], first_line: u32) -> Option<ReportFault> {
    assert!(rt; first_line >= 1 && text.len() <= (u32::MAX - first_line) as usize);
    read_report(alloc, &empty_script(alloc), text, first_line).err()
}

// The least first line, and the greatest one that a text of eight bytes may have.
#[test]
fn lines_are_counted_from_the_first_number(rt: HostRuntime) {
    let alloc = rt.alloc();
    for (text, first_line, line) in [("", 1, 1), ("report 1", 4294967287, 4294967288)] {
        let fault = fault_from(&rt, alloc, text.as_bytes(), first_line);
        let cause = ReportCause::End;
        assert!(rt; fault == Some(ReportFault::Refused { line, cause }));
    }
}
