//! The receiving end of a channel.
ghost use Rattle.std.specs.Prelude.{◌≡◌, ◌+◌, ◌<◌, ◌≤◌, ◌↔◌, IfOk, IsSome, OnOk, OnErr, None, option_copied, if◌then◌else◌};
ghost use Rattle.shard_queue.specs.Inbox.{nothing_arrived, waiting_head, has_arrived, after_arrival, after_head};

use std::alloc::{AllocError, Global};
use std::collections::BTreeMap;
use std::marker::Model;
use vector_stamp::{Stamp, Stamped};

/// What became of a message that arrived.
#[derive(Clone, Copy, PartialEq, Eq, Debug)]
pub enum Arrival {
    /// It waits for its turn.
    Kept,
    /// Its number arrived before.
    Repeat,
}

/// The messages that wait, under their numbers, and the stamp of the last one that was processed.
/// It takes memory for what waits, and none for what was processed.
#[derive(Drop)]
pub struct Inbox<M: Stamped> {
    next: u64,
    last: Option<Stamp>,
    waiting: BTreeMap<u64, M>,
}

impl<M: Stamped> Model for Inbox<M> {
    ghost use Rattle.std.specs.Prelude.{◌≡◌, ◌↔◌, ◌-◌, ◌≤◌, None};
    ghost use Rattle.shard_queue.specs.Inbox.{Incoming};

    ghost Value = { Incoming M };

    ghost view = { λ i. record { processed = i.next - 1; last = i.last; waiting = i.waiting.entries } };

    ghost invariant = { λ i. (1 ≤ i.next) × ((i.last ≡ None) ↔ (i.next ≡ 1)) };
}

impl<M: Stamped + Drop> Inbox<M> {
    /// Nothing has arrived yet. It takes no memory.
    pub fn new(alloc: Global) -> Self
        ensures { result ≡ nothing_arrived }
    {
        Inbox {
            next: 1,
            last: None,
            waiting: BTreeMap::new(alloc),
        }
    }

    /// Whether the message of this number arrived before: it was processed, or it waits.
    pub fn has(&self, number: u64) -> bool
        ensures { result ≡ has_arrived number self.now }
    {
        number < self.next || self.waiting.contains_key(&number)
    }

    /// Takes in the message of this number, and drops it if the number arrived before. The one error is out of memory.
    pub fn arrive(&mut self, _alloc: Global, number: u64, message: M) -> Result<Arrival, AllocError>
        requires { 1 ≤ number }
        ensures answer { IfOk result (λ arrival.
            arrival ≡ (if has_arrived number self.old then Arrival.Repeat else Arrival.Kept)) }
        ensures inbox { OnOk result (self.new ≡ after_arrival number message self.old) }
        ensures refused { OnErr result (self.new ≡ self.old) }
    {
        if self.has(number) {
            return Ok(Arrival::Repeat);
        }
        self.waiting.insert(number, message)?;
        Ok(Arrival::Kept)
    }

    /// The next message in order of numbers, or `None` if it has not arrived.
    pub fn head(&self) -> Option<&M>
        ensures { option_copied result ≡ waiting_head self.now }
    {
        self.waiting.get(&self.next)
    }

    /// Goes on to the next number: the head was processed, and is dropped. It takes no memory.
    pub fn advance(&mut self)
        requires head { IsSome (waiting_head self.old) }
        requires number { self.old.processed + 1 < u64.MAX }
        ensures { self.new ≡ after_head M.stamp_of self.old }
    {
        let head = self.waiting.remove(&self.next);
        self.last = head.map(|message| message.stamp());
        self.next += 1;
    }

    /// The number of the next message to be processed.
    pub fn next(&self) -> u64
        ensures { result ≡ self.now.processed + 1 }
    {
        self.next
    }

    /// The stamp of the last message that was processed, or `None` if none was.
    pub fn last(&self) -> Option<Stamp>
        ensures stamp { result ≡ self.now.last }
        ensures none { (result ≡ None) ↔ (self.now.processed ≡ 0) }
    {
        self.last
    }
}
