//! How the judge is asked.
ghost use Rattle.std.specs.Prelude.{◌≡◌, ◌≢◌, ◌<◌, ◌^◌, ◌∷◌, ◌++◌, ◌⊎◌, [], length, All, Contains, IsTrue, is_none, IfOk, OnErr};
ghost use Rattle.vector_stamp.specs.declared.clock.Stamp.{Stamp};
ghost use Rattle.vector_stamp.specs.Order.{id_of};
ghost use Rattle.vector_stamp.specs.Coherence.{AreCoherent};
ghost use Rattle.vector_stamp.specs.Settling.{refused_place, additions, places_of, pairs_of, entries_of_call};
ghost use Rattle.backing_store.specs.JudgeCalls.{if_permitted};

use std::alloc::{AllocError, Global};
use vector_stamp::{Judge, Refusal, Stamp};

/// Asks the judge to put the earlier events before the later one, and gives the place that it refuses.
/// It isn't asked if there is no earlier event.
pub(crate) fn ask<J: Judge>(
    alloc: Global,
    author: u32,
    judge: &mut J,
    earlier: &[Stamp],
    later: Stamp,
    keep: bool,
) -> Result<Option<u32>, AllocError>
    requires few { length earlier.now < 2 ^ 32 }
    requires other_ids { All (λ event. id_of event ≢ id_of later) earlier.now }
    requires coherent { AreCoherent (later ∷ earlier.now ++ J.known judge.old) }
    ensures place { IfOk result (λ place. place ≡ refused_place (J.pairs judge.old) earlier.now later) }
    ensures pairs { IfOk result (λ place. J.pairs judge.new ≡ J.pairs judge.old
        ++ if_permitted place (pairs_of (additions keep (J.pairs judge.old) earlier.now later) later)) }
    ensures logged { IfOk result (λ place. IsTrue J.keeps_log → J.log_of judge.new ≡ J.log_of judge.old
        ++ if_permitted place (entries_of_call author earlier.now later
        (places_of (additions keep (J.pairs judge.old) earlier.now later)))) }
    ensures known { (stamp : Stamp) → Contains (J.known judge.new) stamp
        → Contains (J.known judge.old) stamp ⊎ Contains (later ∷ earlier.now) stamp }
    ensures stay_known { (stamp : Stamp) → Contains (J.known judge.old) stamp → Contains (J.known judge.new) stamp }
    ensures not_asked { earlier.now ≡ [] → judge.new ≡ judge.old }
    ensures unchanged { OnErr result (judge.new ≡ judge.old) }
{
    if earlier.is_empty() {
        return Ok(None);
    }
    match judge.settle(alloc, author, earlier, later, keep) {
        Ok(_) => Ok(None),
        Err(Refusal::Precedes { place }) => Ok(Some(place)),
        Err(Refusal::Memory) => Err(AllocError),
    }
}
