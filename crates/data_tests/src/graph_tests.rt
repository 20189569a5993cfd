ghost use Rattle.std.specs.Prelude.{◌<◌, ◌^◌, length};

use crate::graph_making::run;
use crate::names::{named, numbered};
use graph_ops::{
    Answered, Got, Graph, Op, OpFault, Part, Reason, Record, apply_op, named as named_vertices,
};
use std::alloc::Global;
use std::process::Abort;
use weave_data::{Copied, Items, Name};

// Whether the operation passes, or is refused for this reason.
fn ends(alloc: Global, state: &mut Option<Record>, op: Op, wanted: Option<Reason>) -> bool {
    match apply_op(alloc, state, &op) {
        Ok(_) => wanted == None,
        Err(OpFault::Refused(reason)) => wanted == Some(reason),
        Err(OpFault::Memory) => false,
    }
}

// An edge from the vertex to itself.
fn link(v: Name, edge: Name) -> Op {
    Op::Link { v, edge, target: v }
}

// A thousand edges of the vertex.
fn link_many(rt: &impl Abort, alloc: Global, state: &mut Option<Record>, v: Name) {
    assert!(rt; ends(alloc, state, Op::Create { v }, None));
    for n in 0..1_000 {
        let edge = numbered(rt, n);
        assert!(rt; ends(alloc, state, link(v, edge), None));
    }
}

// A vertex with a thousand edges has room for another one only after one of them is dropped.
fn link_one_more(rt: &impl Abort, alloc: Global, state: &mut Option<Record>, v: Name) {
    let (first, last) = (numbered(rt, 0), numbered(rt, 1_000));
    let rows = [
        (link(v, last), Some(Reason::Full)),
        (link(v, first), Some(Reason::EdgeExists)),
        (Op::Unlink { v, edge: first }, None),
        (link(v, last), None),
    ];
    for (op, wanted) in rows {
        assert!(rt; ends(alloc, state, op, wanted));
    }
}

#[test]
fn the_1001st_edge(rt: HostRuntime) {
    let v = named(&rt, b"v");
    let mut state = None;
    link_many(&rt, rt.alloc(), &mut state, v);
    link_one_more(&rt, rt.alloc(), &mut state, v);
}

// A vertex, another one, and an edge or key.
fn names(rt: &impl Abort) -> (Name, Name, Name) {
    (named(rt, b"v"), named(rt, b"w"), named(rt, b"e"))
}

#[test]
fn first_mentions(rt: HostRuntime) {
    let alloc = rt.alloc();
    let (v, w, edge) = names(&rt);
    let target = edge;
    let ops = [
        Op::Get { v: w },
        Op::Link { v, edge, target },
        Op::Create { v: w },
    ];
    let mentions = named_vertices(alloc, &ops).expect(&rt, "memory");
    assert!(rt; mentions.as_slice() == [w, v].as_slice());
    let ops = [
        Op::Join { v: w, edge, target },
        Op::Link { v, edge, target },
        Op::Join { v, edge, target: w },
    ];
    let mentions = named_vertices(alloc, &ops).expect(&rt, "memory");
    assert!(rt; mentions.as_slice() == [w, target, v].as_slice());
    assert!(rt; named_vertices(alloc, &[]).expect(&rt, "memory").is_empty());
}

fn set(v: Name, key: Name, value: Name) -> Op {
    Op::Set { v, key, value }
}

fn tag(v: Name, edge: Name, key: Name, value: Name) -> Op {
    Op::Tag {
        v,
        edge,
        key,
        value,
    }
}

// A graph with one vertex: a property `p`, and an edge `e` with a tag `t`.
fn one_vertex(rt: &impl Abort, alloc: Global) -> Graph {
    let (v, w, edge) = names(rt);
    let (p, t, x) = (named(rt, b"p"), named(rt, b"t"), named(rt, b"x"));
    let link = Op::Link { v, edge, target: w };
    let ops = [Op::Create { v }, set(v, p, w), link, tag(v, edge, t, x)];
    let mut graph = Graph::new(alloc);
    run(rt, alloc, &mut graph, &ops);
    graph
}

// Whether the copy of a graph with one vertex has that too.
fn is_one_copied(rt: &impl Abort, alloc: Global, v: Name) -> bool {
    let one = one_vertex(rt, alloc);
    let copied = one.copy(alloc).expect(rt, "memory");
    copied.find(v).is_some() && copied.find(v) == one.find(v)
}

// Whether the copy of a graph without vertices has none.
fn is_none_copied(rt: &impl Abort, alloc: Global, v: Name) -> bool {
    let copied = Graph::new(alloc).copy(alloc).expect(rt, "memory");
    copied.find(v).is_none()
}

// Forty vertices are made, and each second one is deleted.
fn make_forty(rt: &impl Abort, alloc: Global, graph: &mut Graph) {
    for n in 0..40 {
        let v = numbered(rt, n);
        run(rt, alloc, graph, &[Op::Create { v }]);
    }
    for n in 0..20 {
        let v = numbered(rt, n * 2);
        run(rt, alloc, graph, &[Op::Delete { v }]);
    }
}

fn copy_of_forty(rt: &impl Abort, alloc: Global) -> Graph {
    let mut graph = Graph::new(alloc);
    make_forty(rt, alloc, &mut graph);
    graph.copy(alloc).expect(rt, "memory")
}

// Copies of a graph with one vertex, of one with none, and of one with forty, of which each second one is deleted.
#[test]
fn copies_of_graphs(rt: HostRuntime) {
    let alloc = rt.alloc();
    let (v, _, _) = names(&rt);
    assert!(rt; is_one_copied(&rt, alloc, v) && is_none_copied(&rt, alloc, v));
    let copied = copy_of_forty(&rt, alloc);
    for n in 0..40 {
        assert!(rt; copied.find(numbered(&rt, n)).is_some() == (n % 2 == 1));
    }
}

// What `get` reads of a state.
fn got(rt: &impl Abort, alloc: Global, state: &mut Option<Record>) -> Option<Record> {
    let v = named(rt, b"v");
    let Ok(Answered::Got(read)) = apply_op(alloc, state, &Op::Get { v }) else {
        panic!(rt; "refused");
    };
    read
}

// Whether a copy of what was read has this state.
fn is_got_copied(
    rt: &impl Abort,
    alloc: Global,
    state: &Option<Record>,
    read: Option<Record>,
) -> bool {
    let got = Got { op: 3, state: read };
    let copied = got.copy(alloc).expect(rt, "memory");
    copied.op == 3 && copied.state == *state
}

// Whether a copy of the answer with a copy of this state has it too.
fn is_answer_copied(rt: &impl Abort, alloc: Global, state: &Option<Record>) -> bool {
    let answer = Answered::Got(state.copy(alloc).expect(rt, "memory"));
    let copied = answer.copy(alloc).expect(rt, "memory");
    match &copied {
        Answered::Got(again) => *again == *state,
        Answered::Done => false,
    }
}

// `get` reads the state, and copies of its answer have it too.
fn reads(rt: &impl Abort, alloc: Global, state: &mut Option<Record>) {
    let read = got(rt, alloc, state);
    assert!(rt; is_got_copied(rt, alloc, state, read) && is_answer_copied(rt, alloc, state));
}

// An operation passes, and a copy of its answer is that it is done.
fn does(rt: &impl Abort, alloc: Global, state: &mut Option<Record>, op: &Op) {
    let Ok(done) = apply_op(alloc, state, op) else {
        panic!(rt; "refused");
    };
    let copied = done.copy(alloc).expect(rt, "memory");
    assert!(rt; matches!(&copied, Answered::Done));
}

// The state is read after each of the operations.
fn read_after_each(rt: &impl Abort, alloc: Global, state: &mut Option<Record>, ops: &[Op]) {
    for op in ops {
        does(rt, alloc, state, op);
        reads(rt, alloc, state);
    }
}

// The states of a vertex that is absent, bare, with a property, with an edge, and with a tag of the edge.
#[test]
fn copies_of_answers(rt: HostRuntime) {
    let (v, w, edge) = names(&rt);
    let ops = [
        Op::Create { v },
        set(v, w, v),
        Op::Link { v, edge, target: w },
        tag(v, edge, w, v),
    ];
    let mut state = None;
    reads(&rt, rt.alloc(), &mut state);
    read_after_each(&rt, rt.alloc(), &mut state, &ops);
}

// Operations of each kind, each of which the graph with one vertex passes.
fn operations(rt: &impl Abort) -> [Op; 12] {
    let (v, w, edge) = names(rt);
    let (p, t, new) = (named(rt, b"p"), named(rt, b"t"), named(rt, b"new"));
    [
        set(v, p, new),
        set(v, new, w),
        Op::Unset { v, key: p },
        link(v, new),
        Op::Join {
            v,
            edge: t,
            target: v,
        },
        tag(v, edge, t, new),
        tag(v, edge, new, new),
        Op::Untag { v, edge, key: t },
        Op::Unlink { v, edge },
        Op::Get { v },
        Op::Delete { v },
        Op::Create { v: w },
    ]
}

// Whether a part with these operations is copied.
fn is_part_copied(rt: &impl Abort, alloc: Global, vertex: Name, ops: &[Op]) -> bool {
    let part = Part {
        vertex,
        before: 3,
        ops: Items::from_vec(Vec::from_slice(alloc, ops).expect(rt, "memory")),
    };
    let copied = part.copy(alloc).expect(rt, "memory");
    copied.vertex == vertex && copied.before == 3 && copied.ops.as_slice().len() == ops.len()
}

// Copies of parts of a message with none to twelve operations.
#[test]
fn copies_of_parts(rt: HostRuntime) {
    let v = named(&rt, b"v");
    let ops = operations(&rt);
    for count in 0..=ops.len() {
        assert!(rt; is_part_copied(&rt, rt.alloc(), v, &ops[..count]));
    }
}

// Runs a transaction that passes, and takes it back.
fn there_and_back(rt: &impl Abort, alloc: Global, graph: &mut Graph, ops: &[Op]) -> Graph
    requires { length ops.now < 2 ^ 32 }
{
    let Ok((_, pending)) = graph.apply(alloc, ops) else {
        panic!(rt; "refused");
    };
    pending.undo(alloc)
}

// Runs a transaction that passes, and takes it back: the graph has `v` as before, and no `w`.
fn take_back(rt: &impl Abort, alloc: Global, graph: &mut Graph, before: &Graph, ops: &[Op])
    requires { length ops.now < 2 ^ 32 }
{
    let (v, w, _) = names(rt);
    *graph = there_and_back(rt, alloc, graph, ops);
    assert!(rt; graph.find(v) == before.find(v) && graph.find(w).is_none());
}

fn take_each_back(rt: &impl Abort, alloc: Global, graph: &mut Graph, before: &Graph) {
    let ops = operations(rt);
    for op in &ops {
        take_back(rt, alloc, graph, before, &[*op]);
    }
    take_back(rt, alloc, graph, before, &ops);
}

// Each operation of its own, and then all in one transaction.
#[test]
fn operations_taken_back(rt: HostRuntime) {
    let before = one_vertex(&rt, rt.alloc());
    let mut graph = one_vertex(&rt, rt.alloc());
    take_each_back(&rt, rt.alloc(), &mut graph, &before);
}

// Runs a transaction that passes and reads one state, and keeps it. The graph has no `v` meanwhile.
fn there(rt: &impl Abort, alloc: Global, graph: &mut Graph, ops: &[Op], v: Name) -> Graph
    requires { length ops.now < 2 ^ 32 }
{
    let Ok((gots, pending)) = graph.apply(alloc, ops) else {
        panic!(rt; "refused");
    };
    if gots.len() != 1 || graph.find(v).is_some() {
        panic!(rt; "another graph");
    }
    pending.keep()
}

fn run_and_keep(rt: &impl Abort, alloc: Global, graph: &mut Graph) {
    let (v, w, _) = names(rt);
    let ops = [Op::Create { v: w }, Op::Delete { v }, Op::Get { v }];
    *graph = there(rt, alloc, graph, &ops, v);
    assert!(rt; graph.find(v).is_none() && graph.find(w).is_some());
}

// A transaction that may still be taken back has the graph, until it is kept.
#[test]
fn a_transaction_that_is_kept(rt: HostRuntime) {
    let mut graph = one_vertex(&rt, rt.alloc());
    run_and_keep(&rt, rt.alloc(), &mut graph);
}
