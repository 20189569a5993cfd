//! The pairs, and for each of their later events a frontier.
ghost use Rattle.std.specs.Prelude.{◌≡◌, ◌≢◌, ◌<◌, ◌≤◌, ◌+◌, ◌||◌, ℕ, [], ◌∷◌, ◌++◌, List, map, length, Contains, IsTrue, IfOk, IsOk, OnOk, OnErr};
ghost use Rattle.weave_data.specs.Limits.{most_gates};
ghost use Rattle.vector_stamp.specs.Order.{stamp_before};
ghost use Rattle.vector_stamp.specs.Coherence.{AreCoherent};
ghost use Rattle.vector_stamp.specs.Precedence.{GivenPair, precedes, IsAcyclic};
ghost use Rattle.order_graph.specs.declared.chain.Event.{Event};
ghost use Rattle.order_graph.specs.Building.{ends_of, MayAdd};
ghost use Rattle.order_graph.specs.Frontiers.{at_or_before, IsFrontier};
ghost use Rattle.order_graph.specs.Chains.{AreChains, IsLedOn, IsPut, IsRisingChain, events_of, room_of, raised_chain};

use crate::chain::{Chain, Event};
use crate::frontier::{Frontier, stamps_keep_the_laws};
use std::alloc::{AllocError, Global};
use std::marker::Model;
use vector_stamp::laws::{
    coherence_is_decided, more_pairs_more_precedence, no_cycle_arises,
    parts_and_unions_are_coherent, precedence_is_decided,
};
use vector_stamp::{COUNTS, Stamp};

/// Pairs of an earlier and a later event, seen by contracts as their list, in the order in which they were added, and
/// the number of pairs for which there is memory.
///
/// For each event that is the later one of a pair it keeps, of each gatekeeper, an earlier event of a pair that
/// precedes it.
#[derive(Drop)]
pub struct OrderGraph {
    pairs: Vec<(Stamp, Stamp)>,
    chains: [Chain; COUNTS],
    spare: usize,
}

impl Model for OrderGraph {
    ghost use Rattle.std.specs.Prelude.{◌<◌, ◌≤◌, ◌+◌, ℕ, vec_len};
    ghost use Rattle.std.specs.Vec.{vec_capacity};
    ghost use Rattle.vector_stamp.specs.Precedence.{IsAcyclic};
    ghost use Rattle.order_graph.specs.Building.{ends_of};
    ghost use Rattle.order_graph.specs.Kept.{PairsView};
    ghost use Rattle.order_graph.specs.Chains.{AreChains, HasRoom};

    ghost Value = { PairsView };

    ghost view = { λ g. record { pairs = g.pairs.items; spare = g.spare } };

    ghost invariant = { λ g. IsAcyclic g.pairs.items × AreChains g.pairs.items (ends_of g.pairs.items) g.chains
        × HasRoom g.spare g.chains × (vec_len g.pairs + g.spare ≤ vec_capacity g.pairs) };
}

impl OrderGraph {
    /// A graph without pairs. It takes no memory.
    pub fn new(alloc: Global) -> OrderGraph
        ensures { result.pairs ≡ [] }
    {
        no_cycle_arises();
        OrderGraph {
            pairs: Vec::new(alloc),
            chains: no_chains(alloc),
            spare: 0,
        }
    }

    /// Whether event a precedes event b, by the pairs and the order of all stamps. The events need not be ends of
    /// pairs.
    ///
    /// It takes no memory. It looks for b's place in eight chains, each by bisection: so it takes time by the logarithm
    /// of the number of pairs.
    pub fn precedes(&self, a: &Stamp, b: &Stamp) -> Result<bool, AllocError>
        requires { AreCoherent (a.now ∷ b.now ∷ ends_of self.now.pairs) }
        ensures exact { IfOk result (λ answer. answer ≡ precedes self.now.pairs a.now b.now) }
        ensures always { IsOk result }
        ensures no_cycle { IsAcyclic self.now.pairs }
    {
        stamps_keep_the_laws();
        parts_and_unions_are_coherent();
        precedence_is_decided();
        Ok(a.is_before(b) || frontier_of(&self.chains, b).covers(a))
    }

    /// Takes the memory for that many more pairs, which may all have later events of any one gatekeeper: so at each of
    /// the eight there is room for that many.
    pub fn reserve(&mut self, pairs: usize) -> Result<(), AllocError>
        ensures room { OnOk result (pairs ≤ self.new.spare) }
        ensures never_less { self.old.spare ≤ self.new.spare }
        ensures pairs { self.new.pairs ≡ self.old.pairs }
        ensures as_before { OnErr result (self.new ≡ self.old) }
    {
        if pairs <= self.spare {
            return Ok(());
        }
        self.pairs.reserve(pairs)?;
        reserve_all(&mut self.chains, pairs)?;
        self.spare = pairs;
        Ok(())
    }

    /// Adds a pair at the end of the list.
    ///
    /// Beside such look-ups it goes up through the events of pairs that the later event precedes and the earlier one
    /// does not yet: so pairs that are added in the order of their stamps cost little, and n pairs in the opposite
    /// order n times n steps.
    /// To put in the later event it moves those of its gatekeeper that come after it.
    pub fn add(&mut self, earlier: Stamp, later: Stamp) -> Result<(), AllocError>
        requires { MayAdd self.old.pairs earlier later }
        ensures added { OnOk result (self.new.pairs ≡ self.old.pairs ++ (earlier, later) ∷ []) }
        ensures spared { OnOk result (self.old.spare ≤ self.new.spare + 1) }
        ensures room { 0 < self.old.spare → IsOk result }
        ensures as_before { OnErr result (self.new ≡ self.old) }
    {
        stamps_keep_the_laws();
        parts_and_unions_are_coherent();
        coherence_is_decided();
        no_cycle_arises();
        precedence_is_decided();
        more_pairs_more_precedence();
        let event = Event {
            stamp: later,
            frontier: frontier_of(&self.chains, &later),
        };
        let mut before = frontier_of(&self.chains, &earlier);
        before.join(&Frontier::of(&earlier));
        self.pairs.reserve(1)?;
        put_event(&mut self.chains, event)?;
        raise_all(&mut self.chains, &earlier, &later, &before);
        self.pairs.push_reserved((earlier, later));
        self.spare = self.spare.saturating_sub(1);
        Ok(())
    }
}

// A frontier of any event.
fn frontier_of(chains: &[Chain; COUNTS], event: &Stamp) -> Frontier
    ensures { (pairs : List GivenPair) → AreChains pairs (ends_of pairs) chains.now
        → AreCoherent (event.now ∷ ends_of pairs)
        → IsFrontier pairs event.now result.latest }
{
    stamps_keep_the_laws();
    coherence_is_decided();
    precedence_is_decided();
    let mut frontier = Frontier::empty();
    for chain in chains {
        if let Some(latest) = chain.latest(event) {
            frontier.join(&latest.frontier);
        }
    }
    frontier
}

fn no_chains(alloc: Global) -> [Chain; COUNTS]
    ensures eight { length result ≡ most_gates }
    ensures empty { (gate : ℕ) → events_of result gate ≡ [] }
{
    [
        Chain::new(alloc),
        Chain::new(alloc),
        Chain::new(alloc),
        Chain::new(alloc),
        Chain::new(alloc),
        Chain::new(alloc),
        Chain::new(alloc),
        Chain::new(alloc),
    ]
}

fn reserve_all(chains: &mut [Chain; COUNTS], events: usize) -> Result<(), AllocError>
    ensures eight { length chains.new ≡ length chains.old }
    ensures room { OnOk result ((gate : ℕ) → gate < length chains.old → events ≤ room_of chains.new gate) }
    ensures never_less { (gate : ℕ) → room_of chains.old gate ≤ room_of chains.new gate }
    ensures events { (gate : ℕ) → events_of chains.new gate ≡ events_of chains.old gate }
{
    for chain in chains.iter_mut() {
        chain.reserve(events)?;
    }
    Ok(())
}

// Puts the event into the chain of its gatekeeper.
fn put_event(chains: &mut [Chain; COUNTS], event: Event) -> Result<(), AllocError>
    requires home { event.stamp.home < most_gates }
    requires rising { IsRisingChain (events_of chains.old event.stamp.home) }
    requires in_turn { (other : Event) → Contains (events_of chains.old event.stamp.home) other
        → IsTrue (at_or_before other.stamp event.stamp || stamp_before event.stamp other.stamp) }
    ensures eight { length chains.new ≡ length chains.old }
    ensures put { OnOk result (IsPut (events_of chains.old event.stamp.home) event
        (events_of chains.new event.stamp.home)) }
    ensures others { (gate : ℕ) → gate ≢ event.stamp.home → events_of chains.new gate ≡ events_of chains.old gate }
    ensures spared { OnOk result ((gate : ℕ) → room_of chains.old gate ≤ room_of chains.new gate + 1) }
    ensures room { 0 < room_of chains.old event.stamp.home → IsOk result }
    ensures never_less { OnErr result ((gate : ℕ) → room_of chains.old gate ≤ room_of chains.new gate) }
    ensures as_before { OnErr result ((gate : ℕ) → events_of chains.new gate ≡ events_of chains.old gate) }
{
    let home = event.stamp.home as usize;
    chains[home].put(event)
}

fn raise_all(chains: &mut [Chain; COUNTS], earlier: &Stamp, later: &Stamp, frontier: &Frontier)
    requires earlier { (gate : ℕ) → IsLedOn earlier.now (events_of chains.old gate) }
    requires later { (gate : ℕ) → IsLedOn later.now (events_of chains.old gate) }
    ensures { chains.new ≡ map (raised_chain earlier.now later.now frontier.now.latest) chains.old }
{
    for chain in chains.iter_mut() {
        chain.raise(earlier, later, frontier);
    }
}
