//! A store over a chain of replicas, and calls under its conditions.
ghost use Rattle.std.specs.Prelude.{◌≡◌, ◌≢◌, All, IsTrue};
ghost use Rattle.vector_stamp.specs.declared.clock.Stamp.{Stamp};
ghost use Rattle.vector_stamp.specs.Order.{id_of};
ghost use Rattle.weave_entries.specs.StoreReplay.{judged_by};
ghost use Rattle.backing_store.specs.Commits.{stamps_judged};

use crate::calls::{event, id_of_stamp};
use backing_store::Store;
use backing_store::laws::what_is_asked_is_kept;
use graph_ops::Op;
use oracle_chain::ReplicaChain;
use oracle_chain::laws::stamps_come_with_asks;
use std::alloc::Global;
use std::marker::Model;
use std::process::Abort;
use vector_stamp::laws::parts_and_unions_are_coherent;
use vector_stamp::{EventId, Stamp, are_coherent};
use weave_entries::{StoreDeed, StoreEntry, Verdict};

/// A store, its judge, and coherent events, of which are all stamps that either of them knows.
#[derive(Drop)]
pub struct StoreRow {
    alloc: Global,
    store: Store,
    chain: ReplicaChain,
    events: Vec<Stamp>,
}

impl Model for StoreRow {
    ghost use Rattle.std.specs.Prelude.{List};
    ghost use Rattle.vector_stamp.specs.declared.clock.Stamp.{Stamp};
    ghost use Rattle.backing_store.specs.Commits.{stamps_judged};
    ghost use Rattle.oracle_chain.specs.Chain.{stamps_known};
    ghost use Rattle.chain_tests.specs.Events.{AreEventsOf, KnowsEvents};

    ghost Value = { List Stamp };

    ghost view = { λ r. r.events.items };

    ghost invariant = { λ r. KnowsEvents r.events.items (stamps_known r.chain.replicas)
        × AreEventsOf (stamps_judged r.store) r.events.items };
}

fn id_in(entry: &StoreEntry) -> EventId
    ensures { result ≡ id_of (judged_by entry.now.author entry.now.deed).stamp }
{
    let StoreDeed::Judged { stamp, .. } = &entry.deed;
    id_of_stamp(stamp)
}

// Whether the stamp's id is of no judged transaction.
fn are_unjudged(log: &[StoreEntry], stamp: &Stamp) -> bool
    ensures { IsTrue result → All (λ (judged : Stamp). id_of judged ≢ id_of stamp.now) (stamps_judged log.now) }
{
    let Some((entry, entries)) = log.split_first() else {
        return true;
    };
    id_in(entry) != id_of_stamp(stamp) && are_unjudged(entries, stamp)
}

impl StoreRow {
    /// A new store over a new chain.
    pub fn new(rt: &impl Abort, alloc: Global, replicas: u32, events: Vec<Stamp>) -> StoreRow {
        stamps_come_with_asks();
        if replicas == 0 || replicas > 5 {
            panic!(rt; "another number of replicas");
        }
        if !are_coherent(events.as_slice()) {
            panic!(rt; "not coherent");
        }
        StoreRow {
            alloc,
            store: Store::new(alloc),
            chain: ReplicaChain::new(alloc, replicas).expect(rt, "memory"),
            events,
        }
    }

    /// A replica stops.
    pub fn stop(&mut self, rt: &impl Abort, replica: u32) {
        stamps_come_with_asks();
        self.chain.is_chain();
        if replica >= self.chain.count() {
            panic!(rt; "no replica");
        }
        self.chain.stop(replica).expect(rt, "it has not stopped");
    }

    /// A transaction whose stamp is the event at this place.
    pub fn commit(&mut self, rt: &impl Abort, request: u32, place: usize, ops: &[Op]) -> Verdict {
        parts_and_unions_are_coherent();
        what_is_asked_is_kept();
        let stamp = event(rt, self.events.as_slice(), place);
        if !are_unjudged(self.store.log(), &stamp) {
            panic!(rt; "the stamp was judged");
        }
        if ops.len() > 1000 {
            panic!(rt; "too many operations");
        }
        self.store
            .commit(self.alloc, 1, request, stamp, ops, &mut self.chain)
            .expect(rt, "memory")
    }
}
