//! The single oracle with which a chain is compared.

use crate::calls::{Said, Wish, settle_wish};
use std::alloc::Global;
use std::marker::Model;
use std::process::Abort;
use timeline_oracle::Oracle;
use vector_stamp::{Stamp, are_coherent};

/// An oracle, and coherent events, of which are those of all its pairs.
#[derive(Drop)]
pub struct Single {
    alloc: Global,
    oracle: Oracle,
    events: Vec<Stamp>,
}

impl Model for Single {
    ghost use Rattle.std.specs.Prelude.{List};
    ghost use Rattle.vector_stamp.specs.declared.clock.Stamp.{Stamp};
    ghost use Rattle.order_graph.specs.Building.{ends_of};
    ghost use Rattle.timeline_oracle.specs.Log.{pairs_of_log};
    ghost use Rattle.chain_tests.specs.Events.{KnowsEvents};

    ghost Value = { List Stamp };

    ghost view = { λ r. r.events.items };

    ghost invariant = { λ r. KnowsEvents r.events.items (ends_of (pairs_of_log r.oracle)) };
}

impl Single {
    /// A new oracle.
    pub fn new(rt: &impl Abort, alloc: Global, events: Vec<Stamp>) -> Single {
        if !are_coherent(events.as_slice()) {
            panic!(rt; "not coherent");
        }
        Single {
            alloc,
            oracle: Oracle::new(alloc),
            events,
        }
    }

    /// Settles a wish.
    pub fn settle(&mut self, rt: &impl Abort, wish: Wish) -> Said {
        settle_wish(
            rt,
            self.alloc,
            &mut self.oracle,
            self.events.as_slice(),
            wish,
        )
    }
}
