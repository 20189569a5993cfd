//! Graphs that the tests have in common, and feeding a program.
ghost use Rattle.std.specs.Prelude.{◌<◌, ◌^◌, length};

use crate::names::{named, numbered};
use graph_ops::{Graph, MOST_EDGES, Op};
use node_program::NodeProgram;
use program_defs::Answer;
use std::alloc::Global;
use std::process::Abort;
use weave_data::{Copied, Name};

// Runs a transaction that passes.
pub fn run(rt: &impl Abort, alloc: Global, graph: &mut Graph, ops: &[Op])
    requires { length ops.now < 2 ^ 32 }
{
    let outcome = graph.run_tx(alloc, ops);
    assert!(rt; outcome.is_ok());
}

// A chain of that many vertices; an edge leads from the last one to a vertex that is absent.
pub fn chain(rt: &impl Abort, alloc: Global, count: usize) -> Graph {
    let edge = named(rt, b"e");
    let mut graph = Graph::new(alloc);
    for n in 0..count {
        let (v, target) = (numbered(rt, n), numbered(rt, n + 1));
        let link = Op::Link { v, edge, target };
        run(rt, alloc, &mut graph, &[Op::Create { v }, link]);
    }
    graph
}

// A vertex with edges to 1,000 others, made by one transaction.
pub fn star(rt: &impl Abort, alloc: Global, v: Name) -> Graph {
    let mut ops = Vec::new(alloc);
    ops.push(Op::Create { v }).expect(rt, "memory");
    for n in 0..1_000 {
        let target = numbered(rt, n);
        let edge = target;
        ops.push(Op::Create { v: target }).expect(rt, "memory");
        ops.push(Op::Link { v, edge, target }).expect(rt, "memory");
    }
    assert!(rt; ops.len() < 10_000);
    let mut graph = Graph::new(alloc);
    run(rt, alloc, &mut graph, &ops);
    graph
}

// Feeds a program from a graph, and says how many vertices it read.
pub fn feed<P: NodeProgram>(rt: &impl Abort, alloc: Global, walk: &mut P, graph: &Graph) -> u32 {
    for count in 0..1_000_000 {
        let Some(v) = walk.next_vertex() else {
            return count;
        };
        walk.ready().expect(rt, "memory");
        let mut state = None;
        if let Some(found) = graph.find(v) {
            assert!(rt; found.edges.len() <= MOST_EDGES);
            state = Some(found.copy(alloc).expect(rt, "memory"));
        }
        walk.see(state);
    }
    0
}

// How many vertices the answer lists.
pub fn count(answer: &Answer) -> usize {
    match answer {
        Answer::Found(vertices) => vertices.as_slice().len(),
        Answer::Walk(Some(walk)) => walk.as_slice().len(),
        _ => 0,
    }
}
