//! What a replica answers to an ask.
ghost use Rattle.std.specs.Prelude.{◌≡◌, ◌≤◌, ◌+◌, ◌∷◌, ◌++◌, [], length};
ghost use Rattle.std.specs.Vec.{vec_capacity};
ghost use Rattle.vector_stamp.specs.Coherence.{AreCoherent};
ghost use Rattle.order_graph.specs.Building.{ends_of};
ghost use Rattle.oracle_chain.specs.Replay.{outcome_by, pairs_put};
ghost use Rattle.oracle_chain.specs.IsReplicaChain.{IsAsk};

use crate::ask::{Ask, Outcome};
use order_graph::OrderGraph;
use timeline_oracle::{first_refused, put_before};
use weave_data::Items;

/// Decides an ask. It takes no memory.
pub(crate) fn decide(graph: &mut OrderGraph, ask: &Ask, mut places: Vec<u32>) -> Outcome
    requires is_ask { IsAsk ask.now }
    requires coherent { AreCoherent (ask.now.later ∷ ask.now.earlier ++ ends_of graph.old.pairs) }
    requires room { length ask.now.earlier ≤ graph.old.spare }
    requires room_of_places { length ask.now.earlier ≤ vec_capacity places }
    requires no_places { places.items ≡ [] }
    ensures outcome { result ≡ outcome_by graph.old.pairs ask.now }
    ensures pairs { graph.new.pairs ≡ graph.old.pairs ++ pairs_put graph.old.pairs ask.now }
    ensures spared { graph.old.spare ≤ graph.new.spare + length ask.now.earlier }
{
    let earlier = ask.earlier.as_slice();
    if let Some(place) = first_refused(graph, earlier, &ask.later) {
        return Outcome::Precedes { place };
    }
    if ask.keep {
        put_before(graph, earlier, ask.later, &mut places);
    }
    Outcome::Settled {
        places: Items::from_vec(places),
    }
}
