//! What can be relied on about pairs and their stamps, as contracts without a body.
ghost use Rattle.std.specs.Prelude.{◌≡◌, ◌⊎◌, List, ◌∷◌, ◌++◌, Contains};
ghost use Rattle.vector_stamp.specs.declared.clock.Stamp.{Stamp};
ghost use Rattle.vector_stamp.specs.Coherence.{AreCoherent};
ghost use Rattle.vector_stamp.specs.Precedence.{GivenPair, JoinsEvents, Precedes, IsAcyclic};
ghost use Rattle.order_graph.specs.Building.{ends_of, IsBuilt};

use vector_stamp::laws::{no_cycle_arises, precedence_is_decided};

/// The pairs and the order of all coherent stamps together have no cycle: if each pair was added under the condition of
/// `add`, no stamp precedes itself.
pub fn no_cycle_is_built()
    ensures none_precedes_itself { (pairs : List GivenPair) → IsBuilt pairs → (stamp : Stamp)
        → AreCoherent (stamp ∷ ends_of pairs) → ¬ Precedes pairs stamp stamp }
    ensures acyclic { (pairs : List GivenPair) → IsBuilt pairs → IsAcyclic pairs }
{
    no_cycle_arises();
    precedence_is_decided();
}

/// The stamps of pairs are those that they join, and no others.
pub fn ends_are_of_pairs()
    ensures joined { (pairs : List GivenPair) → JoinsEvents (ends_of pairs) pairs }
    ensures no_others { (pairs : List GivenPair) (stamp : Stamp) → Contains (ends_of pairs) stamp
        → (pair : GivenPair) × Contains pairs pair × ((pair.0 ≡ stamp) ⊎ (pair.1 ≡ stamp)) }
    ensures appended { (pairs others : List GivenPair) → ends_of (pairs ++ others) ≡ ends_of pairs ++ ends_of others }
{}
