//! What a call decides, over the graph of the pairs so far.
ghost use Rattle.std.specs.Prelude.{◌≡◌, ◌≢◌, ◌<◌, ◌≤◌, ◌+◌, ◌^◌, ◌∷◌, ◌++◌, [], not, if◌then◌else◌, length, All, List, Contains, IfOk, IsTrue, None};
ghost use Rattle.std.specs.Vec.{vec_capacity};
ghost use Rattle.vector_stamp.specs.declared.clock.Stamp.{Stamp};
ghost use Rattle.vector_stamp.specs.Order.{id_of};
ghost use Rattle.vector_stamp.specs.Coherence.{AreCoherent};
ghost use Rattle.vector_stamp.specs.Precedence.{precedes};
ghost use Rattle.vector_stamp.specs.Settling.{refused_place, additions_from, places_of, pairs_of};
ghost use Rattle.order_graph.specs.Building.{ends_of};
ghost use Rattle.timeline_oracle.specs.Log.{settled_entry};

use order_graph::OrderGraph;
use order_graph::laws::ends_are_of_pairs;
use std::alloc::{AllocError, Global};
use vector_stamp::Stamp;
use vector_stamp::laws::{
    parts_and_unions_are_coherent, precedence_is_decided, settling_puts_all_before,
};
use weave_data::Items;
use weave_entries::{OracleDeed, OracleEntry};

/// The place of the first earlier event that the later one precedes.
pub fn first_refused(graph: &OrderGraph, earlier: &[Stamp], later: &Stamp) -> Option<u32>
    requires few { length earlier.now < 2 ^ 32 }
    requires coherent { AreCoherent (later.now ∷ earlier.now ++ ends_of graph.now.pairs) }
    ensures { result ≡ refused_place graph.now.pairs earlier.now later.now }
{
    fewer_are_coherent();
    for (place, event) in earlier.iter().enumerate() {
        if is_put_before(graph, later, event) {
            return Some(place as u32);
        }
    }
    None
}

/// Adds a pair for each earlier event that does not yet precede the later one, in their order, and adds their places.
/// There is room for all.
pub fn put_before(graph: &mut OrderGraph, earlier: &[Stamp], later: Stamp, places: &mut Vec<u32>)
    requires few { length earlier.now < 2 ^ 32 }
    requires other_ids { All (λ event. id_of event ≢ id_of later) earlier.now }
    requires coherent { AreCoherent (later ∷ earlier.now ++ ends_of graph.old.pairs) }
    requires permitted { refused_place graph.old.pairs earlier.now later ≡ None }
    requires room { length earlier.now ≤ graph.old.spare }
    requires room_of_places { length earlier.now ≤ vec_capacity places.old }
    requires no_places { places.old.items ≡ [] }
    ensures places { places.new.items ≡ places_of (additions_from 0 graph.old.pairs earlier.now later) }
    ensures not_more { length places.new.items ≤ length earlier.now }
    ensures pairs { graph.new.pairs
        ≡ graph.old.pairs ++ pairs_of (additions_from 0 graph.old.pairs earlier.now later) later }
    ensures spared { graph.old.spare ≤ graph.new.spare + length earlier.now }
{
    settling_puts_all_before();
    fewer_are_coherent();
    ends_are_of_pairs();
    for (place, event) in earlier.iter().enumerate() {
        if put_one(graph, *event, later) {
            places.push_reserved(place as u32);
        }
    }
}

// Adds a pair if the earlier event does not yet precede the later one. Reports whether it did.
fn put_one(graph: &mut OrderGraph, earlier: Stamp, later: Stamp) -> bool
    requires other_id { id_of earlier ≢ id_of later }
    requires coherent { AreCoherent (earlier ∷ later ∷ ends_of graph.old.pairs) }
    requires permitted { ¬ IsTrue (precedes graph.old.pairs later earlier) }
    requires room { 0 < graph.old.spare }
    ensures added { result ≡ not (precedes graph.old.pairs earlier later) }
    ensures pairs { graph.new.pairs
        ≡ graph.old.pairs ++ (if precedes graph.old.pairs earlier later then [] else (earlier, later) ∷ []) }
    ensures spared { graph.old.spare ≤ graph.new.spare + 1 }
{
    precedence_is_decided();
    if is_put_before(graph, &earlier, &later) {
        return false;
    }
    graph.add(earlier, later).is_ok()
}

// A part of coherent stamps is coherent.
fn fewer_are_coherent()
    ensures { (stamps others : List Stamp) → AreCoherent others
        → ((stamp : Stamp) → Contains stamps stamp → Contains others stamp) → AreCoherent stamps }
{
    parts_and_unions_are_coherent();
}

fn is_put_before(graph: &OrderGraph, a: &Stamp, b: &Stamp) -> bool
    requires { AreCoherent (a.now ∷ b.now ∷ ends_of graph.now.pairs) }
    ensures { result ≡ precedes graph.now.pairs a.now b.now }
{
    match graph.precedes(a, b) {
        Ok(answer) => answer,
        Err(_) => false,
    }
}

/// Takes the memory for that many places.
pub fn room_for(alloc: Global, places: usize) -> Result<Vec<u32>, AllocError>
    ensures none { IfOk result (λ made. made.items ≡ []) }
    ensures room { IfOk result (λ made. places ≤ vec_capacity made) }
{
    let mut made = Vec::new(alloc);
    made.reserve(places)?;
    Ok(made)
}

/// Copies the places, for which there is room.
pub(crate) fn copy_places(places: &[u32], copy: &mut Vec<u32>)
    requires none { copy.old.items ≡ [] }
    requires room { length places.now ≤ vec_capacity copy.old }
    ensures { copy.new.items ≡ places.now }
{
    for place in places {
        copy.push_reserved(*place);
    }
}

/// The entry of a call.
pub(crate) fn entry_of(
    author: u32,
    earlier: Vec<Stamp>,
    later: Stamp,
    places: Vec<u32>,
) -> OracleEntry
    ensures { settled_entry result
        ≡ record { author = author; earlier = earlier.items; later = later; places = places.items } }
{
    OracleEntry {
        author,
        deed: OracleDeed::Settled {
            earlier: Items::from_vec(earlier),
            later,
            places: Items::from_vec(places),
        },
    }
}
