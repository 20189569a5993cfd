//! Asks for which all memory is taken: so that a replica appends them without a failure.
ghost use Rattle.std.specs.Prelude.{◌≡◌, ◌≤◌, ◌<◌, ◌+◌, ◌∷◌, ◌++◌, [], List, length, sum_by, Contains, IfOk, OnOk};
ghost use Rattle.std.specs.List.{flat_map};
ghost use Rattle.vector_stamp.specs.Coherence.{AreCoherent};
ghost use Rattle.oracle_chain.specs.declared.ask.Ask.{Ask};
ghost use Rattle.oracle_chain.specs.Replay.{ask_stamps};
ghost use Rattle.oracle_chain.specs.IsReplicaChain.{IsAsk};

use crate::ask::Ask;
use crate::replica::Replica;
use std::alloc::{AllocError, Global};
use std::marker::Model;
use timeline_oracle::room_for;
use vector_stamp::laws::parts_and_unions_are_coherent;
use weave_data::Copied;

/// An ask with room for the places of its outcome. Contracts see the ask.
#[derive(Drop)]
struct Prepared {
    ask: Ask,
    places: Vec<u32>,
}

impl Model for Prepared {
    ghost use Rattle.std.specs.Prelude.{◌≡◌, ◌≤◌, [], length};
    ghost use Rattle.std.specs.Vec.{vec_capacity};
    ghost use Rattle.oracle_chain.specs.declared.ask.Ask.{Ask};

    ghost Value = { Ask };

    ghost view = { λ p. p.ask };

    ghost invariant = { λ p. (p.places.items ≡ []) × (length p.ask.earlier ≤ vec_capacity p.places) };
}

/// Copies of asks with room for their places, and how many earlier events they have together. Contracts see the asks.
#[derive(Drop)]
pub(crate) struct Lacked {
    prepared: Vec<Prepared>,
    events: usize,
}

impl Model for Lacked {
    ghost use Rattle.std.specs.Prelude.{◌≡◌, List, length, sum_by};
    ghost use Rattle.oracle_chain.specs.declared.ask.Ask.{Ask};

    ghost Value = { List Ask };

    ghost view = { λ l. l.prepared.items };

    ghost invariant = { λ l. l.events ≡ sum_by (λ (ask : Ask). length ask.earlier) l.prepared.items };
}

impl Lacked {
    /// No ask. It takes no memory.
    pub(crate) fn none(alloc: Global) -> Lacked
        ensures { result ≡ [] }
    {
        Lacked {
            prepared: Vec::new(alloc),
            events: 0,
        }
    }

    /// Copies of these asks, and of a last one.
    pub(crate) fn of(alloc: Global, asks: &[Ask], last: &Ask) -> Result<Lacked, AllocError>
        ensures { IfOk result (λ made. made ≡ asks.now ++ last.now ∷ []) }
    {
        let mut made = Lacked::none(alloc);
        for ask in asks {
            made.add(alloc, ask)?;
        }
        made.add(alloc, last)?;
        Ok(made)
    }

    // Adds a copy.
    fn add(&mut self, alloc: Global, ask: &Ask) -> Result<(), AllocError>
        ensures { OnOk result (self.new ≡ self.old ++ ask.now ∷ []) }
    {
        let Some(events) = self.events.checked_add(ask.earlier.as_slice().len()) else {
            return Err(AllocError);
        };
        let prepared = prepare(alloc, ask)?;
        self.prepared.push(prepared)?;
        self.events = events;
        Ok(())
    }
}

fn prepare(alloc: Global, ask: &Ask) -> Result<Prepared, AllocError>
    ensures { IfOk result (λ prepared. prepared ≡ ask.now) }
{
    let places = room_for(alloc, ask.earlier.as_slice().len())?;
    let ask = ask.copy(alloc)?;
    Ok(Prepared { ask, places })
}

/// Takes the memory that a replica needs to append them.
pub(crate) fn reserve_for(replica: &mut Replica, lacked: &Lacked) -> Result<(), AllocError>
    ensures room { OnOk result (length lacked.now ≤ replica.new.room) }
    ensures events { OnOk result (sum_by (λ (ask : Ask). length ask.earlier) lacked.now ≤ replica.new.events) }
    ensures live { replica.new.live ≡ replica.old.live }
    ensures asks { replica.new.asks ≡ replica.old.asks }
{
    replica.reserve(lacked.prepared.len(), lacked.events)
}

/// Appends them. There is room for all: it takes no memory.
pub(crate) fn append_all(replica: &mut Replica, lacked: Lacked)
    requires are_asks { (ask : Ask) → Contains lacked ask → IsAsk ask }
    requires coherent { AreCoherent (flat_map ask_stamps (replica.old.asks ++ lacked)) }
    requires room { length lacked ≤ replica.old.room }
    requires events { sum_by (λ (ask : Ask). length ask.earlier) lacked ≤ replica.old.events }
    ensures live { replica.new.live ≡ replica.old.live }
    ensures asks { replica.new.asks ≡ replica.old.asks ++ lacked }
{
    parts_and_unions_are_coherent();
    for one in lacked.prepared {
        append_prepared(replica, one);
    }
}

fn append_prepared(replica: &mut Replica, prepared: Prepared)
    requires is_ask { IsAsk prepared }
    requires coherent { AreCoherent (prepared.later ∷ prepared.earlier ++ flat_map ask_stamps replica.old.asks) }
    requires room { 0 < replica.old.room }
    requires events { length prepared.earlier ≤ replica.old.events }
    ensures live { replica.new.live ≡ replica.old.live }
    ensures asks { replica.new.asks ≡ replica.old.asks ++ prepared ∷ [] }
    ensures room { replica.old.room ≤ replica.new.room + 1 }
    ensures events { replica.old.events ≤ replica.new.events + length prepared.earlier }
{
    let Prepared { ask, places } = prepared;
    replica.append(ask, places);
}
