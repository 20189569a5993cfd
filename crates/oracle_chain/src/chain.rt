//! The chain and its calls.
ghost use Rattle.std.specs.Prelude.{◌≡◌, ◌≢◌, ◌<◌, ◌≤◌, ◌⊎◌, length, slice_get, option_copied, Option, Some, None, IfOk, OnOk, IfErr, OnErr};
ghost use Rattle.oracle_chain.specs.declared.ask.ChainFault.TheVariants.{Memory, Unknown};
ghost use Rattle.oracle_chain.specs.declared.ask.Delivered.TheVariants.{Taken};
ghost use Rattle.oracle_chain.specs.Replay.{outcome_by};
ghost use Rattle.oracle_chain.specs.Chain.{tail_asks, pairs_of_chain};
ghost use Rattle.oracle_chain.specs.Calls.{new_chain, position_accepted, after_accept, forward_fault, after_forward, delivered_at, after_delivery, stop_fault, after_stop, answer_at, after_settle};
ghost use Rattle.oracle_chain.specs.IsReplicaChain.{IsReplicaChain, MayAsk};

use crate::ask::{Ask, ChainFault, Delivered, Outcome};
use crate::changes::{append_at, stop_at};
use crate::delivering::{delivery, kept_ask};
use crate::ends::{ask_at_tail, count_live, head, next_live, outcome_at_tail};
use crate::laws::calls_keep_the_chain;
use crate::message::Sent;
use crate::replica::Replica;
use std::alloc::{AllocError, Global};
use std::marker::Model;
use vector_stamp::laws::parts_and_unions_are_coherent;
use weave_data::Copied;

/// Replicas of the oracle in a chain, and all messages that were sent. The first live replica is the head, the last
/// live one the tail. Replicas, positions of asks and messages are numbered from 0.
///
/// Contracts see each replica with its list of asks, and each message with its ask.
#[derive(Drop)]
pub struct ReplicaChain {
    pub(crate) replicas: Vec<Replica>,
    pub(crate) messages: Vec<Sent>,
}

impl Model for ReplicaChain {
    ghost use Rattle.std.specs.Prelude.{◌≤◌, length, map};
    ghost use Rattle.oracle_chain.specs.Chain.{ReplicaChainView};
    ghost use Rattle.oracle_chain.specs.Held.{replica_of, chain_seen, AreKept};
    ghost use Rattle.oracle_chain.specs.IsReplicaChain.{IsReplicaChain};

    ghost Value = { ReplicaChainView };

    ghost view = { λ c. chain_seen c.replicas.items c.messages.items };

    ghost invariant = { λ c. IsReplicaChain (chain_seen c.replicas.items c.messages.items)
        × AreKept (map replica_of c.replicas.items) c.messages.items × (length c.replicas.items ≤ 5) };
}

impl ReplicaChain {
    /// That many live replicas, at least 1 and at most 5, without asks.
    pub fn new(alloc: Global, replicas: u32) -> Result<ReplicaChain, AllocError>
        requires some { 0 < replicas }
        requires few { replicas ≤ 5 }
        ensures { IfOk result (λ chain. chain ≡ new_chain replicas) }
    {
        calls_keep_the_chain();
        let mut made = Vec::with_capacity(alloc, replicas as usize)?;
        for _ in 0..replicas {
            made.push(Replica::new(alloc))?;
        }
        Ok(ReplicaChain {
            replicas: made,
            messages: Vec::new(alloc),
        })
    }

    /// How many replicas it has, live or not.
    pub fn count(&self) -> u32
        ensures { result ≡ length self.now.replicas }
    {
        self.replicas.len() as u32
    }

    /// It is a chain: so the laws hold of it.
    pub fn is_chain(&self)
        ensures { IsReplicaChain self.now }
    {
        let _ = &self.replicas;
    }

    /// The head appends the ask. The position says where the head's list has it, and is no name of it: if the head
    /// stops before the next replica has the ask, it is lost, and its position may get another ask. So a caller
    /// compares what `asked` gives there with its own ask, and asks again if it is another one.
    pub fn accept(&mut self, alloc: Global, ask: Ask) -> Result<u64, AllocError>
        requires { MayAsk self.old ask }
        ensures position { IfOk result (λ position. position ≡ position_accepted self.old) }
        ensures accepted { OnOk result (self.new ≡ after_accept self.old ask) }
        ensures as_before { OnErr result (self.new ≡ self.old) }
    {
        calls_keep_the_chain();
        parts_and_unions_are_coherent();
        let Some(head) = head(self.replicas.as_slice()) else {
            return Err(AllocError);
        };
        let position = self.replicas[head].asks().len() as u64;
        append_at(alloc, self.replicas.as_mut_slice(), head, ask)?;
        Ok(position)
    }

    /// A message with the replica's ask at a position, to the next live replica. Gives its number.
    pub fn forward(&mut self, replica: u32, position: u64) -> Result<u64, ChainFault>
        requires { replica < length self.old.replicas }
        ensures number { IfOk result (λ number. number ≡ length self.old.messages) }
        ensures no_fault { OnOk result (forward_fault self.old.replicas replica position ≡ None) }
        ensures fault { IfErr result (λ fault. (forward_fault self.old.replicas replica position ≡ Some fault)
            ⊎ ((fault ≡ Memory) × (forward_fault self.old.replicas replica position ≡ None))) }
        ensures sent { OnOk result (self.new ≡ after_forward self.old replica position) }
        ensures as_before { OnErr result (self.new ≡ self.old) }
    {
        calls_keep_the_chain();
        let sender = &self.replicas[replica as usize];
        if !sender.is_live() {
            return Err(ChainFault::Halted);
        }
        let Some(addressee) = next_live(self.replicas.as_slice(), replica as usize) else {
            return Err(ChainFault::Tail);
        };
        if position >= sender.asks().len() as u64 {
            return Err(ChainFault::Unknown);
        }
        self.messages.reserve(1)?;
        let number = self.messages.len() as u64;
        self.messages.push_reserved(Sent {
            addressee: addressee as u32,
            position,
            kept_by: replica,
        });
        Ok(number)
    }

    /// Delivers a message, which may be delivered any number of times. Says what became of it.
    pub fn deliver(&mut self, alloc: Global, message: u64) -> Result<Delivered, ChainFault>
        ensures became { IfOk result (λ became. delivered_at self.old message ≡ Some became) }
        ensures fault { IfErr result (λ fault. ((fault ≡ Unknown) × (delivered_at self.old message ≡ None))
            ⊎ ((fault ≡ Memory) × (delivered_at self.old message ≡ Some Taken))) }
        ensures delivered { OnOk result (self.new ≡ after_delivery self.old message) }
        ensures as_before { OnErr result (self.new ≡ self.old) }
    {
        calls_keep_the_chain();
        parts_and_unions_are_coherent();
        let Some(sent) = self.messages.as_slice().get(message as usize) else {
            return Err(ChainFault::Unknown);
        };
        let sent = *sent;
        let became = delivery(self.replicas.as_slice(), &sent);
        if let Delivered::Taken = became {
            let ask = kept_ask(alloc, self.replicas.as_slice(), &sent)?;
            let addressee = sent.addressee as usize;
            append_at(alloc, self.replicas.as_mut_slice(), addressee, ask)?;
        }
        Ok(became)
    }

    /// Stops a replica, which doesn't come back. Its list stays. It takes no memory.
    pub fn stop(&mut self, replica: u32) -> Result<(), ChainFault>
        requires { replica < length self.old.replicas }
        ensures stopped { OnOk result (stop_fault self.old.replicas replica ≡ None) }
        ensures fault { IfErr result (λ fault. stop_fault self.old.replicas replica ≡ Some fault) }
        ensures after { self.new ≡ after_stop self.old replica }
    {
        calls_keep_the_chain();
        let number = replica as usize;
        if !self.replicas[number].is_live() {
            return Err(ChainFault::Halted);
        }
        if count_live(self.replicas.as_slice()) == 1 {
            return Err(ChainFault::Last);
        }
        stop_at(self.replicas.as_mut_slice(), number);
        Ok(())
    }

    /// The outcome of the ask that the tail has at a position, as a copy, which alone takes memory. None if its list
    /// has no such position.
    pub fn answer(&self, alloc: Global, position: u64) -> Result<Option<Outcome>, AllocError>
        ensures answer { IfOk result (λ outcome. outcome ≡ answer_at self.now position) }
        ensures memory { OnErr result (answer_at self.now position ≢ None) }
    {
        match outcome_at_tail(self.replicas.as_slice(), position) {
            Some(outcome) => Ok(Some(outcome.copy(alloc)?)),
            None => Ok(None),
        }
    }

    /// The ask that the tail has at a position. None if its list has no such position.
    pub fn asked(&self, position: u64) -> Option<&Ask>
        ensures { option_copied result ≡ slice_get (tail_asks self.now.replicas) position }
    {
        ask_at_tail(self.replicas.as_slice(), position)
    }
}
