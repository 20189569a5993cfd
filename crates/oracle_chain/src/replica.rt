//! One replica: its list of asks, with a single oracle over it that is kept beside the list.
ghost use Rattle.std.specs.Prelude.{◌≡◌, ◌<◌, ◌≤◌, ◌+◌, ◌∷◌, ◌++◌, [], length, OnOk, OnErr, true, false, Some, slice_get, IfOk};
ghost use Rattle.std.specs.List.{flat_map};
ghost use Rattle.std.specs.Vec.{vec_capacity};
ghost use Rattle.vector_stamp.specs.Coherence.{AreCoherent};
ghost use Rattle.oracle_chain.specs.Replay.{ask_stamps, outcomes_of};
ghost use Rattle.oracle_chain.specs.IsReplicaChain.{IsAsk};
ghost use Rattle.order_graph.specs.Building.{ends_of};

use crate::ask::{Ask, Outcome};
use crate::deciding::decide;
use order_graph::OrderGraph;
use order_graph::laws::ends_are_of_pairs;
use std::alloc::{AllocError, Global};
use std::marker::Model;
use timeline_oracle::room_for;
use vector_stamp::laws::parts_and_unions_are_coherent;

/// Whether it is live, its asks, what a single oracle answered to each, and that oracle's pairs. Contracts see the
/// first two, and for how many more asks and earlier events there is memory.
#[derive(Drop)]
pub(crate) struct Replica {
    live: bool,
    asks: Vec<Ask>,
    outcomes: Vec<Outcome>,
    graph: OrderGraph,
    spare: usize,
}

impl Model for Replica {
    ghost use Rattle.std.specs.Prelude.{◌≡◌, ◌≤◌, ◌+◌, vec_len};
    ghost use Rattle.std.specs.Vec.{vec_capacity};
    ghost use Rattle.oracle_chain.specs.Replay.{outcomes_of, pairs_after};
    ghost use Rattle.oracle_chain.specs.Held.{HeldView};

    ghost Value = { HeldView };

    ghost view = { λ r. record { live = r.live; asks = r.asks.items; room = r.spare; events = r.graph.spare } };

    ghost invariant = { λ r. (r.outcomes.items ≡ outcomes_of r.asks.items) × (r.graph.pairs ≡ pairs_after r.asks.items)
        × (vec_len r.asks + r.spare ≤ vec_capacity r.asks)
        × (vec_len r.outcomes + r.spare ≤ vec_capacity r.outcomes) };
}

impl Replica {
    /// A live replica without asks. It takes no memory.
    pub(crate) fn new(alloc: Global) -> Replica
        ensures live { result.live ≡ true }
        ensures asks { result.asks ≡ [] }
    {
        Replica {
            live: true,
            asks: Vec::new(alloc),
            outcomes: Vec::new(alloc),
            graph: OrderGraph::new(alloc),
            spare: 0,
        }
    }

    pub(crate) fn is_live(&self) -> bool
        ensures { result ≡ self.now.live }
    {
        self.live
    }

    /// It stops; its list stays.
    pub(crate) fn stop(&mut self)
        ensures live { self.new.live ≡ false }
        ensures asks { self.new.asks ≡ self.old.asks }
    {
        self.live = false;
    }

    /// Its asks.
    pub(crate) fn asks(&self) -> &[Ask]
        ensures { result.now ≡ self.now.asks }
    {
        self.asks.as_slice()
    }

    /// What a single oracle answers to each of them.
    pub(crate) fn outcomes(&self) -> &[Outcome]
        ensures { result.now ≡ outcomes_of self.now.asks }
    {
        self.outcomes.as_slice()
    }

    /// Takes the memory for that many more asks, which have that many earlier events together.
    pub(crate) fn reserve(&mut self, asks: usize, events: usize) -> Result<(), AllocError>
        ensures room { OnOk result (asks ≤ self.new.room) }
        ensures events { OnOk result (events ≤ self.new.events) }
        ensures live { self.new.live ≡ self.old.live }
        ensures asks { self.new.asks ≡ self.old.asks }
    {
        self.graph.reserve(events)?;
        if asks <= self.spare {
            return Ok(());
        }
        self.asks.reserve(asks)?;
        self.outcomes.reserve(asks)?;
        self.spare = asks;
        Ok(())
    }

    /// Appends an ask and answers it. There is room for it: it takes no memory.
    pub(crate) fn append(&mut self, ask: Ask, places: Vec<u32>)
        requires is_ask { IsAsk ask }
        requires coherent { AreCoherent (ask.later ∷ ask.earlier ++ flat_map ask_stamps self.old.asks) }
        requires room { 0 < self.old.room }
        requires events { length ask.earlier ≤ self.old.events }
        requires room_of_places { length ask.earlier ≤ vec_capacity places }
        requires no_places { places.items ≡ [] }
        ensures live { self.new.live ≡ self.old.live }
        ensures asks { self.new.asks ≡ self.old.asks ++ ask ∷ [] }
        ensures room { self.old.room ≤ self.new.room + 1 }
        ensures events { self.old.events ≤ self.new.events + length ask.earlier }
    {
        ends_are_of_pairs();
        parts_and_unions_are_coherent();
        let outcome = decide(&mut self.graph, &ask, places);
        self.outcomes.push_reserved(outcome);
        self.asks.push_reserved(ask);
        self.spare = self.spare.saturating_sub(1);
    }
}

/// Takes the memory that a replica needs for one more ask, and appends it.
pub(crate) fn append_one(alloc: Global, replica: &mut Replica, ask: Ask) -> Result<(), AllocError>
    requires is_ask { IsAsk ask }
    requires coherent { AreCoherent (ask.later ∷ ask.earlier ++ flat_map ask_stamps replica.old.asks) }
    ensures live { replica.new.live ≡ replica.old.live }
    ensures appended { OnOk result (replica.new.asks ≡ replica.old.asks ++ ask ∷ []) }
    ensures as_before { OnErr result (replica.new.asks ≡ replica.old.asks) }
{
    let places = room_for(alloc, ask.earlier.as_slice().len())?;
    replica.reserve(1, ask.earlier.as_slice().len())?;
    replica.append(ask, places);
    Ok(())
}
