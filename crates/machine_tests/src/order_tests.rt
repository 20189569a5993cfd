ghost use Rattle.std.specs.Prelude.{◌≡◌, ◌<◌, length, Contains};
ghost use Rattle.weave_data.specs.Limits.{most_gates};
ghost use Rattle.vector_stamp.specs.declared.clock.Stamp.{Stamp};
ghost use Rattle.vector_stamp.specs.Coherence.{AreCoherent};
ghost use Rattle.order_graph.specs.Building.{ends_of};

use crate::events::events_in_turn;
use crate::values::stamp_in;
use order_graph::OrderGraph;
use std::alloc::Global;
use std::process::Abort;
use vector_stamp::laws::parts_and_unions_are_coherent;
use vector_stamp::{Stamp, are_coherent};

// Adds a pair of two of the events, under the condition of `add`.
fn add(rt: &impl Abort, graph: &mut OrderGraph, events: &[Stamp], earlier: &Stamp, later: &Stamp)
    requires earlier { Contains events.now earlier.now }
    requires later { Contains events.now later.now }
    requires coherent { AreCoherent events.now }
    requires known { (stamp : Stamp) → Contains (ends_of graph.old.pairs) stamp → Contains events.now stamp }
    ensures { (stamp : Stamp) → Contains (ends_of graph.new.pairs) stamp → Contains events.now stamp }
{
    parts_and_unions_are_coherent();
    assert!(rt; earlier.id() != later.id());
    if !earlier.is_unordered(later) {
        panic!(rt; "the stamps are ordered");
    }
    let back = graph.precedes(later, earlier).expect(rt, "memory");
    if back {
        panic!(rt; "the later event precedes the earlier one");
    }
    graph.add(*earlier, *later).expect(rt, "memory");
}

// Whether one of the events precedes another is this.
fn has_order(
    rt: &impl Abort,
    graph: &OrderGraph,
    events: &[Stamp],
    a: &Stamp,
    b: &Stamp,
    wanted: bool,
)
    requires a { Contains events.now a.now }
    requires b { Contains events.now b.now }
    requires coherent { AreCoherent events.now }
    requires known { (stamp : Stamp) → Contains (ends_of graph.now.pairs) stamp → Contains events.now stamp }
{
    parts_and_unions_are_coherent();
    if graph.precedes(a, b).expect(rt, "memory") != wanted {
        panic!(rt; "another order");
    }
}

// Each event but the last two is put before the next one.
fn add_first_pairs(rt: &impl Abort, graph: &mut OrderGraph, events: &[Stamp])
    requires number { length events.now ≡ 201 }
    requires coherent { AreCoherent events.now }
    requires known { (stamp : Stamp) → Contains (ends_of graph.old.pairs) stamp → Contains events.now stamp }
    ensures { (stamp : Stamp) → Contains (ends_of graph.new.pairs) stamp → Contains events.now stamp }
{
    for place in 0..199 {
        add(rt, graph, events, &events[place], &events[place + 1]);
    }
}

// The last pair puts the first event before the last one.
fn add_last_pair(rt: &impl Abort, graph: &mut OrderGraph, events: &[Stamp])
    requires number { length events.now ≡ 201 }
    requires coherent { AreCoherent events.now }
    requires known { (stamp : Stamp) → Contains (ends_of graph.old.pairs) stamp → Contains events.now stamp }
{
    assert!(rt; events[0].is_unordered(&events[200]));
    has_order(rt, graph, events, &events[0], &events[200], false);
    add(rt, graph, events, &events[199], &events[200]);
    has_order(rt, graph, events, &events[0], &events[200], true);
    has_order(rt, graph, events, &events[200], &events[0], false);
}

fn build_from_start(rt: &impl Abort, alloc: Global, events: &[Stamp]) {
    if events.len() != 201 || !are_coherent(events) {
        panic!(rt; "other events");
    }
    let mut graph = OrderGraph::new(alloc);
    graph.reserve(200).expect(rt, "memory");
    add_first_pairs(rt, &mut graph, events);
    add_last_pair(rt, &mut graph, events);
}

#[test]
fn chain_of_200_pairs(rt: HostRuntime) {
    let events = events_in_turn(&rt, rt.alloc(), 201);
    build_from_start(&rt, rt.alloc(), events.as_slice());
}

fn build_from_end(rt: &impl Abort, alloc: Global, events: &[Stamp]) {
    assert!(rt; events.len() == 100);
    assert!(rt; are_coherent(events));
    let mut graph = OrderGraph::new(alloc);
    for number in 0..99 {
        let place = 98 - number;
        add(rt, &mut graph, events, &events[place], &events[place + 1]);
    }
    has_order(rt, &graph, events, &events[0], &events[99], true);
    has_order(rt, &graph, events, &events[99], &events[0], false);
}

// The last pair first: so each event is put before those that are there, and its pair makes it precede all of them.
#[test]
fn chain_built_from_its_end(rt: HostRuntime) {
    let events = events_in_turn(&rt, rt.alloc(), 100);
    build_from_end(&rt, rt.alloc(), events.as_slice());
}

fn push_three(rt: &impl Abort, events: &mut Vec<Stamp>, home: usize)
    requires { home < most_gates }
{
    for before in 0..3 {
        let mut counts = [0; 8];
        counts[home] = before + 1;
        events
            .push(stamp_in(0, home as u32, counts))
            .expect(rt, "memory");
    }
}

// Three events of each gatekeeper, none of which hears another: those of a home are from place three times the home on.
fn three_of_each(rt: &impl Abort, alloc: Global) -> Vec<Stamp> {
    let mut events = Vec::new(alloc);
    for home in 0..8 {
        push_three(rt, &mut events, home);
    }
    events
}

fn at<'a>(rt: &impl Abort, events: &'a [Stamp], place: usize) -> &'a Stamp
    ensures { Contains events.now result.now }
{
    if place >= events.len() {
        panic!(rt; "no event");
    }
    &events[place]
}

// The later events of pairs are of one gatekeeper: its last event twice, and then the one before it.
fn put_at(rt: &impl Abort, alloc: Global, events: &[Stamp], home: usize)
    requires home { home < most_gates }
    requires coherent { AreCoherent events.now }
{
    let a = at(rt, events, (home + 1) % 8 * 3);
    let b = at(rt, events, (home + 2) % 8 * 3);
    let (middle, last) = (at(rt, events, home * 3 + 1), at(rt, events, home * 3 + 2));
    let mut graph = OrderGraph::new(alloc);
    add(rt, &mut graph, events, a, last);
    add(rt, &mut graph, events, b, last);
    add(rt, &mut graph, events, a, middle);
    has_order(rt, &graph, events, b, last, true);
    has_order(rt, &graph, events, a, middle, true);
    has_order(rt, &graph, events, b, middle, false);
    has_order(rt, &graph, events, last, a, false);
}

#[test]
fn later_events_of_each_gatekeeper(rt: HostRuntime) {
    let alloc = rt.alloc();
    let events = three_of_each(&rt, alloc);
    let events = events.as_slice();
    assert!(rt; are_coherent(events));
    for home in 0..8 {
        put_at(&rt, alloc, events, home);
    }
}

// Memory is taken for more pairs than before, for fewer and for none.
#[test]
fn takes_room(rt: HostRuntime) {
    let mut graph = OrderGraph::new(rt.alloc());
    for pairs in [0, 1, 5, 3, 1_000] {
        assert!(rt; graph.reserve(pairs) == Ok(()));
    }
}
