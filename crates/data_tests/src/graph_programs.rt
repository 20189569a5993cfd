ghost use Rattle.std.specs.Prelude.{◌≡◌, false};
ghost use Rattle.program_defs.specs.PlainAnswer.{is_price};

use crate::graph_making::{chain, count, feed, star};
use crate::names::{named, numbered};
use graph_ops::Graph;
use node_program::{NodeProgram, ShowProgram};
use path_program::AnyProgram;
use program_defs::{Answer, Program, ask};
use reach_program::ReachProgram;
use std::alloc::Global;
use std::process::Abort;
use weave_data::Name;

// A path that may take every edge.
fn any_path(from: Name, to: Name, bound: u32) -> Program
    ensures { is_price result ≡ false }
{
    Program::Path {
        from,
        to,
        bound,
        pass: None,
    }
}

// How many vertices the plain answer lists.
fn count_asked(rt: &impl Abort, alloc: Global, graph: &Graph, program: &Program) -> usize
    requires { is_price program.now ≡ false }
{
    let answer = ask(alloc, graph, program).expect(rt, "memory");
    count(&answer)
}

// How many vertices a program reads, and how many its answer lists.
fn counts_fed(rt: &impl Abort, alloc: Global, graph: &Graph, program: &Program) -> (u32, usize) {
    let mut walk = AnyProgram::new(alloc, program).expect(rt, "memory");
    let reads = feed(rt, alloc, &mut walk, graph);
    let answer = walk.outcome(alloc).expect(rt, "memory");
    (reads, count(&answer))
}

// A walk is found, and how many vertices that reads.
fn reads_to_reach(rt: &impl Abort, alloc: Global, graph: &Graph, from: Name, to: Name) -> u32 {
    let mut walk = ReachProgram::new(alloc, from, to, None).expect(rt, "memory");
    let reads = feed(rt, alloc, &mut walk, graph);
    let answer = walk.outcome(alloc).expect(rt, "memory");
    assert!(rt; matches!(&answer, Answer::Reached(true)));
    reads
}

// Programs that go from the first vertex of a chain of 10,000 to the last one.
fn walk(rt: &impl Abort, alloc: Global, graph: &Graph, from: Name, to: Name) {
    for (bound, listed) in [(9_998, 0), (9_999, 10_000)] {
        assert!(rt; count_asked(rt, alloc, graph, &any_path(from, to, bound)) == listed);
    }
    let (_, listed) = counts_fed(rt, alloc, graph, &any_path(from, to, 10_000));
    assert!(rt; listed == 10_000 && reads_to_reach(rt, alloc, graph, from, to) == 10_000);
}

#[test]
fn a_long_chain(rt: HostRuntime) {
    let alloc = rt.alloc();
    let (from, to) = (numbered(&rt, 0), numbered(&rt, 9_999));
    let graph = chain(&rt, alloc, 10_000);
    walk(&rt, alloc, &graph, from, to);
}

// The answers of a program, asked and fed, list that many vertices. It is fed 1,001.
fn lists(rt: &impl Abort, alloc: Global, graph: &Graph, program: &Program, listed: usize)
    requires { is_price program.now ≡ false }
{
    assert!(rt; count_asked(rt, alloc, graph, program) == listed);
    assert!(rt; counts_fed(rt, alloc, graph, program) == (1_001, listed));
}

#[test]
fn a_star(rt: HostRuntime) {
    let alloc = rt.alloc();
    let v = named(&rt, b"v");
    let around = Program::Around {
        from: v,
        bound: 1,
        pass: None,
    };
    let path = any_path(v, numbered(&rt, 999), 1);
    let graph = star(&rt, alloc, v);
    lists(&rt, alloc, &graph, &around, 1_001);
    lists(&rt, alloc, &graph, &path, 2);
}

// A program that looks for a walk, and has read nothing yet.
fn reach_before_reads(rt: &impl Abort, alloc: Global, v: Name) {
    let reach = ReachProgram::new(alloc, v, v, None).expect(rt, "memory");
    let reached = reach.outcome(alloc).expect(rt, "memory");
    assert!(rt; matches!(&reached, Answer::Reached(false)));
}

// A program that looks around, and has read nothing yet.
fn around_before_reads(rt: &impl Abort, alloc: Global, v: Name) {
    let around = ReachProgram::around(alloc, v, 5, None).expect(rt, "memory");
    let found = around.outcome(alloc).expect(rt, "memory");
    assert!(rt; matches!(&found, Answer::Found(_)) && count(&found) == 0);
}

// A program that shows a vertex, before its read.
fn show_before_reads(rt: &impl Abort, alloc: Global, show: &ShowProgram) {
    let shown = show.outcome(alloc).expect(rt, "memory");
    assert!(rt; matches!(&shown, Answer::Shown(None)));
}

// Programs that have read nothing yet, of a vertex that is there, and the first one after its read.
#[test]
fn outcomes_before_reads(rt: HostRuntime) {
    let alloc = rt.alloc();
    let v = numbered(&rt, 0);
    reach_before_reads(&rt, alloc, v);
    around_before_reads(&rt, alloc, v);
    let mut show = ShowProgram::new(v);
    show_before_reads(&rt, alloc, &show);
    assert!(rt; feed(&rt, alloc, &mut show, &chain(&rt, alloc, 1)) == 1);
    assert!(rt; show.next_vertex() == None && show.ready() == Ok(()));
}
