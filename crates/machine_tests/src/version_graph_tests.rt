ghost use Rattle.std.specs.Prelude.{◌≡◌, ◌≢◌, ◌∷◌, []};
ghost use Rattle.graph_ops.specs.declared.op.Op.TheVariants.{Create, Get};
ghost use Rattle.version_chain.specs.Chains.{update_count};
ghost use Rattle.version_graph.specs.Graphs.{chain_of, chain_or_new};

use crate::values::{name, numbered, stamp};
use graph_ops::{Name, Op, Part};
use std::alloc::Global;
use std::process::Abort;
use vector_stamp::Stamp;
use version_graph::{VersionGraph, collect_all};
use weave_data::Items;

// The part that makes a vertex.
fn create(rt: &impl Abort, alloc: Global, v: Name) -> Part
    ensures vertex { result.vertex ≡ v }
    ensures before { result.before ≡ 0 }
    ensures ops { result.ops ≡ Create v ∷ [] }
{
    let mut ops = Items::new(alloc);
    ops.push(Op::Create { v }).expect(rt, "memory");
    Part {
        vertex: v,
        before: 0,
        ops,
    }
}

// Makes three vertices, all or none. Answers whether it did.
fn create_three(
    rt: &impl Abort,
    alloc: Global,
    graph: &mut VersionGraph,
    a: Name,
    b: Name,
    c: Name,
) -> bool {
    if a == b || a == c || b == c {
        panic!(rt; "a vertex comes twice");
    }
    if graph.chain(a).is_some() || graph.chain(b).is_some() || graph.chain(c).is_some() {
        panic!(rt; "a vertex is there");
    }
    let stamp = stamp(0, 1, 0, 0);
    let parts = [
        create(rt, alloc, a),
        create(rt, alloc, b),
        create(rt, alloc, c),
    ];
    graph.apply_parts(alloc, stamp, &parts).is_ok()
}

// Each of three vertices of one transaction has one update then.
#[test]
fn three_vertices(rt: HostRuntime) {
    let alloc = rt.alloc();
    let mut graph = VersionGraph::new(alloc);
    let (a, b, c) = (name(&rt, "a"), name(&rt, "b"), name(&rt, "c"));
    assert!(rt; create_three(&rt, alloc, &mut graph, a, b, c));
    assert!(rt; (count(&graph, a), count(&graph, b), count(&graph, c)) == (1, 1, 1));
    assert!(rt; graph.chain(name(&rt, "d")).is_none());
}

// The part of a vertex that it names for the next time, and which only reads.
fn read(rt: &impl Abort, alloc: Global, v: Name, before: u64) -> Part
    ensures vertex { result.vertex ≡ v }
    ensures before { result.before ≡ before }
    ensures ops { result.ops ≡ Get v ∷ [] }
{
    let mut ops = Items::new(alloc);
    ops.push(Op::Get { v }).expect(rt, "memory");
    Part {
        vertex: v,
        before,
        ops,
    }
}

fn count(graph: &VersionGraph, v: Name) -> u64
    ensures { result ≡ update_count (chain_or_new (chain_of graph.now v)) }
{
    match graph.chain(v) {
        None => 0,
        Some(chain) => chain.count(),
    }
}

// Reads one vertex, whether it has updates or not. Reports whether it did.
fn read_one(
    rt: &impl Abort,
    alloc: Global,
    graph: &mut VersionGraph,
    stamp: Stamp,
    v: Name,
) -> bool {
    let before = count(graph, v);
    if before == u64::MAX {
        panic!(rt; "too many");
    }
    let parts = [read(rt, alloc, v, before)];
    graph.apply_parts(alloc, stamp, &parts).is_ok()
}

// Reads each of forty vertices, one after another.
fn read_forty(rt: &impl Abort, alloc: Global, graph: &mut VersionGraph, stamp: Stamp) {
    for number in 0..40 {
        let v = numbered(rt, number);
        if !read_one(rt, alloc, graph, stamp, v) {
            panic!(rt; "not read");
        }
    }
}

// Whether each of them has this many updates.
fn have_updates(rt: &impl Abort, graph: &VersionGraph, updates: u64) -> bool {
    for number in 0..40 {
        if count(graph, numbered(rt, number)) != updates {
            return false;
        }
    }
    true
}

// How many versions of a vertex are kept.
fn kept(graph: &VersionGraph, v: Name) -> usize {
    match graph.chain(v) {
        None => 0,
        Some(chain) => chain.kept(),
    }
}

// Whether this many versions of each of them are kept.
fn have_kept(rt: &impl Abort, graph: &VersionGraph, versions: usize) -> bool {
    for number in 0..40 {
        if kept(graph, numbered(rt, number)) != versions {
            return false;
        }
    }
    true
}

// An update of each of forty vertices by a message of this count. Each has that many updates then.
fn update_forty(rt: &impl Abort, alloc: Global, graph: &mut VersionGraph, own: u64, updates: u64) {
    read_forty(rt, alloc, graph, stamp(0, own, 0, 0));
    assert!(rt; have_updates(rt, graph, updates));
}

// Ten updates of each of them in turn, and one of no part.
fn update_in_turn(rt: &impl Abort, alloc: Global, graph: &mut VersionGraph) {
    for number in 0..10 {
        update_forty(rt, alloc, graph, number + 1, number + 1);
    }
    assert!(rt; graph.apply_parts(alloc, stamp(0, 11, 0, 0), &[]) == Ok(()));
    assert!(rt; have_updates(rt, graph, 10));
}

// Ten updates of each of forty vertices in turn, and one of no part. A bound of count 5 then drops the first three
// versions of each, and the next update follows the tenth. A vertex without updates stays so.
#[test]
fn updates_of_what_is_there(rt: HostRuntime) {
    let alloc = rt.alloc();
    let mut graph = VersionGraph::new(alloc);
    update_in_turn(&rt, alloc, &mut graph);
    collect_all(&mut graph, &stamp(0, 5, 0, 0).clock);
    assert!(rt; have_updates(&rt, &graph, 10) && have_kept(&rt, &graph, 7));
    update_forty(&rt, alloc, &mut graph, 12, 11);
    assert!(rt; have_kept(&rt, &graph, 8));
    assert!(rt; graph.chain(name(&rt, "v")).is_none());
}
