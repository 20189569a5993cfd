//! A chain of replicas over given events.

use crate::calls::{Call, Said, Wish, ask_of, said_of, settle_wish};
use oracle_chain::ReplicaChain;
use oracle_chain::laws::stamps_come_with_asks;
use std::alloc::Global;
use std::marker::Model;
use std::process::Abort;
use vector_stamp::laws::parts_and_unions_are_coherent;
use vector_stamp::{Stamp, are_coherent};

/// A chain, and coherent events, of which are all stamps that it knows.
#[derive(Drop)]
pub struct ChainRow {
    alloc: Global,
    chain: ReplicaChain,
    events: Vec<Stamp>,
}

impl Model for ChainRow {
    ghost use Rattle.std.specs.Prelude.{List};
    ghost use Rattle.vector_stamp.specs.declared.clock.Stamp.{Stamp};
    ghost use Rattle.oracle_chain.specs.Chain.{stamps_known};
    ghost use Rattle.chain_tests.specs.Events.{KnowsEvents};

    ghost Value = { List Stamp };

    ghost view = { λ r. r.events.items };

    ghost invariant = { λ r. KnowsEvents r.events.items (stamps_known r.chain.replicas) };
}

impl ChainRow {
    /// A new chain.
    pub fn new(rt: &impl Abort, alloc: Global, replicas: u32, events: Vec<Stamp>) -> ChainRow {
        stamps_come_with_asks();
        if replicas == 0 || replicas > 5 {
            panic!(rt; "another number of replicas");
        }
        if !are_coherent(events.as_slice()) {
            panic!(rt; "not coherent");
        }
        ChainRow {
            alloc,
            chain: ReplicaChain::new(alloc, replicas).expect(rt, "memory"),
            events,
        }
    }

    /// Makes a call.
    pub fn call(&mut self, rt: &impl Abort, call: Call) -> Said {
        match call {
            Call::Accept(wish) => self.accept(rt, wish),
            Call::Forward(replica, position) => self.forward(rt, replica, position),
            Call::Deliver(message) => self.deliver(message),
            Call::Stop(replica) => self.stop(rt, replica),
            Call::Answer(position) => self.answer(position),
            Call::Settle(wish) => self.settle(rt, wish),
        }
    }

    fn accept(&mut self, rt: &impl Abort, wish: Wish) -> Said {
        stamps_come_with_asks();
        parts_and_unions_are_coherent();
        self.chain.is_chain();
        let ask = ask_of(rt, self.alloc, self.events.as_slice(), wish);
        match self.chain.accept(self.alloc, ask) {
            Ok(position) => Said::Position(position),
            Err(_) => Said::Full,
        }
    }

    fn forward(&mut self, rt: &impl Abort, replica: u32, position: u64) -> Said {
        if replica >= self.chain.count() {
            panic!(rt; "no replica");
        }
        match self.chain.forward(replica, position) {
            Ok(number) => Said::Message(number),
            Err(fault) => Said::Fault(fault),
        }
    }

    fn deliver(&mut self, message: u64) -> Said {
        stamps_come_with_asks();
        self.chain.is_chain();
        match self.chain.deliver(self.alloc, message) {
            Ok(became) => Said::Became(became),
            Err(fault) => Said::Fault(fault),
        }
    }

    fn stop(&mut self, rt: &impl Abort, replica: u32) -> Said {
        stamps_come_with_asks();
        self.chain.is_chain();
        if replica >= self.chain.count() {
            panic!(rt; "no replica");
        }
        match self.chain.stop(replica) {
            Ok(()) => Said::Stopped,
            Err(fault) => Said::Fault(fault),
        }
    }

    fn answer(&self, position: u64) -> Said {
        match self.chain.answer(self.alloc, position) {
            Ok(Some(outcome)) => said_of(&outcome),
            Ok(None) => Said::NoAnswer,
            Err(_) => Said::Full,
        }
    }

    fn settle(&mut self, rt: &impl Abort, wish: Wish) -> Said {
        settle_wish(
            rt,
            self.alloc,
            &mut self.chain,
            self.events.as_slice(),
            wish,
        )
    }

    /// Whether the tail has this wish at a position.
    pub fn has_asked(&self, rt: &impl Abort, position: u64, wish: Wish) -> bool {
        let wanted = ask_of(rt, self.alloc, self.events.as_slice(), wish);
        match self.chain.asked(position) {
            Some(ask) => {
                ask.earlier.as_slice() == wanted.earlier.as_slice()
                    && ask.later == wanted.later
                    && ask.keep == wanted.keep
            }
            None => false,
        }
    }

    /// Whether the tail's list ends before a position.
    pub fn has_none_at(&self, position: u64) -> bool {
        self.chain.asked(position).is_none()
    }
}
