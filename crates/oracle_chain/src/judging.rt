//! The chain as a judge: an ask is settled at all live replicas at once, or at none.
ghost use Rattle.std.specs.Prelude.{◌≡◌, ◌≢◌, ◌≤◌, ◌∷◌, ◌++◌, ◌⊎◌, ◌<◌, ◌^◌, ℕ, List, [], IsTrue, length, All, Contains, IfOk, OnOk, IfErr, OnErr, None};
ghost use Rattle.std.specs.Vec.{vec_capacity};
ghost use Rattle.vector_stamp.specs.declared.clock.Stamp.{Stamp};
ghost use Rattle.oracle_chain.specs.declared.ask.Outcome.TheVariants as variants;
ghost use Rattle.oracle_chain.specs.Chain.{pairs_of_chain};
ghost use Rattle.oracle_chain.specs.Judging.{SettlesAs};
ghost use Rattle.oracle_chain.specs.Calls.{after_settle};
ghost use Rattle.vector_stamp.specs.Order.{id_of};
ghost use Rattle.vector_stamp.specs.Coherence.{AreCoherent};
ghost use Rattle.oracle_chain.specs.IsReplicaChain.{MayAsk};

use crate::ask::{Ask, Outcome};
use crate::chain::ReplicaChain;
use crate::ends::{head, outcome_at_tail};
use crate::laws::{a_chain_settles_as_a_judge, calls_keep_the_chain};
use crate::levelling::{append_to_each, lacked_by_each, messages_to_each, reserve_in_each};
use std::alloc::{AllocError, Global};
use timeline_oracle::room_for;
use vector_stamp::laws::parts_and_unions_are_coherent;
use vector_stamp::{Judge, Refusal, Settled, Stamp};
use weave_data::Items;

impl ReplicaChain {
    // The head accepts the ask, and then each live replica gets what it lacks of the head's list. Gives the tail's
    // outcome. All memory is taken before the first list changes.
    fn settle_ask(&mut self, alloc: Global, ask: Ask) -> Result<Outcome, AllocError>
        requires { MayAsk self.old ask }
        ensures judged { IfOk result (λ outcome. SettlesAs self.old ask outcome self.new) }
        ensures settled { OnOk result (self.new ≡ after_settle self.old ask) }
        ensures as_before { OnErr result (self.new ≡ self.old) }
    {
        calls_keep_the_chain();
        a_chain_settles_as_a_judge();
        parts_and_unions_are_coherent();
        let Some(head) = head(self.replicas.as_slice()) else {
            return Err(AllocError);
        };
        let asks = self.replicas[head].asks();
        let position = asks.len() as u64;
        let lacked = lacked_by_each(alloc, self.replicas.as_slice(), asks, &ask)?;
        let sent = messages_to_each(alloc, self.replicas.as_slice(), head, position + 1)?;
        let places = room_for(alloc, ask.earlier.as_slice().len())?;
        reserve_in_each(self.replicas.as_mut_slice(), lacked.as_slice())?;
        self.messages.extend_from_slice(sent.as_slice())?;
        append_to_each(self.replicas.as_mut_slice(), lacked);
        match outcome_at_tail(self.replicas.as_slice(), position) {
            Some(outcome) => Ok(copy_into(outcome, places)),
            None => Err(AllocError),
        }
    }
}

// A copy of an outcome, for whose places there is room.
fn copy_into(outcome: &Outcome, places: Vec<u32>) -> Outcome
    requires room { (from : List ℕ) → outcome.now ≡ variants.Settled from → length from ≤ vec_capacity places }
    requires no_places { places.items ≡ [] }
    ensures { result ≡ outcome.now }
{
    match outcome {
        Outcome::Settled { places: from } => Outcome::Settled {
            places: filled(places, from.as_slice()),
        },
        Outcome::Precedes { place } => Outcome::Precedes { place: *place },
    }
}

// The places as a list, in the room that is there.
fn filled(mut room: Vec<u32>, places: &[u32]) -> Items<u32>
    requires room { length places.now ≤ vec_capacity room }
    requires no_places { room.items ≡ [] }
    ensures { result ≡ places.now }
{
    let _ = room.extend_from_slice(places);
    Items::from_vec(room)
}

/// The pairs are those after all asks of the head's list. An ask that is refused with `Precedes` stays in the lists, so
/// its stamps are known from then on; it adds no pair. It keeps no log.
impl Judge for ReplicaChain {
    ghost use Rattle.std.specs.Prelude.{◌≡◌, ◌≢◌, [], false, OnOk};
    ghost use Rattle.vector_stamp.specs.declared.judge.Refusal.TheVariants.{Memory};
    ghost use Rattle.vector_stamp.specs.Settling.{refused_place, IsRightRefusal, additions, places_of, pairs_of, SettledEntry, entries_of_call};
    ghost use Rattle.oracle_chain.specs.Chain.{pairs_of_chain, stamps_known};
    ghost use Rattle.oracle_chain.specs.Calls.{after_settle};
    ghost use Rattle.oracle_chain.specs.Joining.{chain_pairs_known};

    ghost pairs = { λ chain. pairs_of_chain chain };

    ghost known = { λ chain. stamps_known chain.replicas };

    ghost keeps_log = { false };

    ghost log_of = { λ chain. [] };

    ghost pairs_known = { chain_pairs_known };

    /// Puts each of the earlier events before the later one as a single oracle does, and says besides what the chain is
    /// afterwards: each live replica has the head's list and the ask.
    fn settle(
        &mut self,
        alloc: Global,
        author: u32,
        earlier: &[Stamp],
        later: Stamp,
        keep: bool,
    ) -> Result<Settled, Refusal>
        requires few { length earlier.now < 2 ^ 32 }
        requires other_ids { All (λ event. id_of event ≢ id_of later) earlier.now }
        requires coherent { AreCoherent (later ∷ earlier.now ++ stamps_known self.old.replicas) }
        ensures permitted { OnOk result (refused_place (pairs_of_chain self.old) earlier.now later ≡ None) }
        ensures refused { IfErr result (IsRightRefusal (pairs_of_chain self.old) earlier.now later) }
        ensures places { IfOk result (λ answer.
            answer.places ≡ places_of (additions keep (pairs_of_chain self.old) earlier.now later)) }
        ensures pairs { OnOk result (pairs_of_chain self.new
            ≡ pairs_of_chain self.old ++ pairs_of (additions keep (pairs_of_chain self.old) earlier.now later) later) }
        ensures no_pair { OnErr result (pairs_of_chain self.new ≡ pairs_of_chain self.old) }
        ensures known { (stamp : Stamp) → Contains (stamps_known self.new.replicas) stamp
            → Contains (stamps_known self.old.replicas) stamp ⊎ Contains (later ∷ earlier.now) stamp }
        ensures stay_known { (stamp : Stamp) → Contains (stamps_known self.old.replicas) stamp
            → Contains (stamps_known self.new.replicas) stamp }
        ensures logged { IfOk result (λ answer. IsTrue false
            → [] ≡ [] ++ entries_of_call author earlier.now later answer.places) }
        ensures not_logged { OnErr result (IsTrue false → ◌≡◌ {A = List SettledEntry} [] []) }
        ensures nothing { result ≡ Err Memory → self.new ≡ self.old }
        ensures settled { result ≢ Err Memory
            → self.new ≡ after_settle self.old (record { earlier = earlier.now; later = later; keep = keep }) }
    {
        let earlier = Items::from_vec(Vec::from_slice(alloc, earlier)?);
        let ask = Ask {
            earlier,
            later,
            keep,
        };
        let outcome = self.settle_ask(alloc, ask)?;
        match outcome {
            Outcome::Settled { places } => Ok(Settled { places }),
            Outcome::Precedes { place } => Err(Refusal::Precedes { place }),
        }
    }
}
