//! A judge of events: the timeline oracle as those see it who ask it (Kronos, EuroSys 2014).
ghost use Rattle.std.specs.Prelude.{◌≡◌, ◌≢◌, ◌<◌, ◌^◌, ◌∷◌, ◌++◌, ◌⊎◌, List, Bool, IsTrue, length, All, Contains, IfOk, OnOk, IfErr, OnErr, None};
ghost use Rattle.vector_stamp.specs.declared.clock.Stamp.{Stamp};
ghost use Rattle.vector_stamp.specs.Order.{id_of};
ghost use Rattle.vector_stamp.specs.Coherence.{AreCoherent};
ghost use Rattle.vector_stamp.specs.Precedence.{GivenPair, JoinsEvents};

use crate::clock::Stamp;
use std::alloc::{AllocError, Global};
use weave_data::{Copied, Items};

/// What a judge put.
#[derive(Drop)]
pub struct Settled {
    /// The places of the earlier events for which a pair was added, counted from 0, in rising order.
    pub places: Items<u32>,
}

/// Why a judge put nothing.
#[derive(Clone, Copy, PartialEq, Eq, Debug)]
pub enum Refusal {
    /// The later event precedes the earlier one at this place, counted from 0.
    Precedes { place: u32 },
    Memory,
}

impl Copied for Settled {
    fn copy(&self, alloc: Global) -> Result<Self, AllocError> {
        Ok(Settled {
            places: self.places.copy(alloc)?,
        })
    }
}

impl From<AllocError> for Refusal {
    ghost use Rattle.std.specs.Prelude.{◌≡◌};
    ghost use Rattle.vector_stamp.specs.declared.judge.Refusal.TheVariants.{Memory};

    ghost from_gives = { λ _ refusal. refusal ≡ Memory };

    fn from(_error: AllocError) -> Refusal {
        Refusal::Memory
    }
}

/// What decides which of two events comes first, if their stamps leave it open.
pub trait Judge {
    ghost use Rattle.vector_stamp.specs.Settling.{refused_place, IsRightRefusal, additions, places_of, pairs_of, SettledEntry, entries_of_call};

    /// The pairs that it has put, in the order in which they were added.
    ghost pairs: { Self → List GivenPair };

    /// The stamps that it knows. A new judge knows none.
    ghost known: { Self → List Stamp };

    /// Whether it keeps a log.
    ghost keeps_log: { Bool };

    /// Its log, if it keeps one.
    ghost log_of: { Self → List SettledEntry };

    /// Puts each of the earlier events before the later one, unless the later one precedes one of them.
    /// With `keep` it adds a pair for each earlier event that does not yet precede the later one, in their order;
    /// without, it adds none.
    /// If it keeps a log, each call that added a pair has an entry there, with its author.
    fn settle(
        &mut self,
        alloc: Global,
        author: u32,
        earlier: &[Stamp],
        later: Stamp,
        keep: bool,
    ) -> Result<Settled, Refusal>
        requires few { length earlier.now < 2 ^ 32 }
        requires other_ids { All (λ event. id_of event ≢ id_of later) earlier.now }
        requires coherent { AreCoherent (later ∷ earlier.now ++ known self.old) }

        ensures permitted { OnOk result (refused_place (pairs self.old) earlier.now later ≡ None) }
        ensures refused { IfErr result (IsRightRefusal (pairs self.old) earlier.now later) }

        ensures places { IfOk result (λ answer.
            answer.places ≡ places_of (additions keep (pairs self.old) earlier.now later)) }
        ensures pairs { OnOk result (pairs self.new
            ≡ pairs self.old ++ pairs_of (additions keep (pairs self.old) earlier.now later) later) }
        ensures no_pair { OnErr result (pairs self.new ≡ pairs self.old) }

        // Only stamps that it is handed become known, and none is forgotten.
        ensures known { (stamp : Stamp) → Contains (known self.new) stamp
            → Contains (known self.old) stamp ⊎ Contains (later ∷ earlier.now) stamp }
        ensures stay_known { (stamp : Stamp) → Contains (known self.old) stamp → Contains (known self.new) stamp }

        ensures logged { IfOk result (λ answer. IsTrue keeps_log
            → log_of self.new ≡ log_of self.old ++ entries_of_call author earlier.now later answer.places) }
        ensures not_logged { OnErr result (IsTrue keeps_log → log_of self.new ≡ log_of self.old) }

        ensures nothing { result ≡ Err Refusal.Memory → self.new ≡ self.old };

    /// The stamps of its pairs are among those that it knows.
    ghost pairs_known: { (judge : Self) → JoinsEvents (known judge) (pairs judge) };
}
