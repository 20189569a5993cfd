//! A plain model of a chain of replicas: a list of asks for each replica, and all messages.

use crate::calls::{Call, Said, Wish};
use oracle_chain::{ChainFault, Delivered};
use std::alloc::Global;
use std::process::Abort;

/// Who is live, their lists, and the messages: to whom, at which position, which ask.
#[derive(Drop)]
pub struct Plain {
    live: Vec<bool>,
    lists: Vec<Vec<Wish>>,
    messages: Vec<(usize, usize, Wish)>,
}

/// That many live replicas without asks.
pub fn new_plain(rt: &impl Abort, alloc: Global, replicas: u32) -> Plain {
    let (mut live, mut lists) = (Vec::new(alloc), Vec::new(alloc));
    for _ in 0..replicas {
        live.push(true).expect(rt, "memory");
        lists.push(Vec::new(alloc)).expect(rt, "memory");
    }
    Plain {
        live,
        lists,
        messages: Vec::new(alloc),
    }
}

impl Plain {
    fn is_live(&self, replica: usize) -> bool {
        match self.live.as_slice().get(replica) {
            Some(live) => *live,
            None => false,
        }
    }

    fn list(&self, replica: usize) -> &[Wish] {
        match self.lists.as_slice().get(replica) {
            Some(list) => list.as_slice(),
            None => &[],
        }
    }

    // The first live replica from this one on.
    fn live_from(&self, start: usize) -> Option<usize> {
        for replica in start..self.live.len() {
            if self.is_live(replica) {
                return Some(replica);
            }
        }
        None
    }

    /// How long the list of the next live replica is.
    pub fn next_length(&self, replica: usize) -> u64 {
        match self.live_from(replica.saturating_add(1)) {
            Some(next) => self.list(next).len() as u64,
            None => 0,
        }
    }

    /// How many messages were sent.
    pub fn message_count(&self) -> u64 {
        self.messages.len() as u64
    }

    /// How long the tail's list is.
    pub fn tail_length(&self) -> usize {
        self.tail().len()
    }

    /// The tail's ask at a position.
    pub fn tail_ask(&self, position: usize) -> Option<Wish> {
        self.tail().get(position).copied()
    }

    // The tail's list.
    fn tail(&self) -> &[Wish] {
        let mut tail = 0;
        for replica in 0..self.live.len() {
            if self.is_live(replica) {
                tail = replica;
            }
        }
        self.list(tail)
    }

    fn append(&mut self, rt: &impl Abort, replica: usize, wish: Wish) {
        if replica >= self.lists.len() {
            panic!(rt; "no replica");
        }
        self.lists[replica].push(wish).expect(rt, "memory");
    }

    /// Makes a call.
    pub fn call(&mut self, rt: &impl Abort, call: Call) -> Said {
        match call {
            Call::Accept(wish) => self.accept(rt, wish),
            Call::Forward(replica, position) => {
                self.forward(rt, replica as usize, position as usize)
            }
            Call::Deliver(message) => self.deliver(rt, message as usize),
            Call::Stop(replica) => self.stop(rt, replica as usize),
            Call::Answer(position) => self.answer(position as usize),
            Call::Settle(wish) => self.settle(rt, wish),
        }
    }

    fn accept(&mut self, rt: &impl Abort, wish: Wish) -> Said {
        let head = self.live_from(0).expect(rt, "no head");
        let position = self.list(head).len();
        self.append(rt, head, wish);
        Said::Position(position as u64)
    }

    fn forward(&mut self, rt: &impl Abort, replica: usize, position: usize) -> Said {
        if !self.is_live(replica) {
            return Said::Fault(ChainFault::Halted);
        }
        let Some(next) = self.live_from(replica.saturating_add(1)) else {
            return Said::Fault(ChainFault::Tail);
        };
        let Some(wish) = self.list(replica).get(position).copied() else {
            return Said::Fault(ChainFault::Unknown);
        };
        let number = self.messages.len();
        self.messages
            .push((next, position, wish))
            .expect(rt, "memory");
        Said::Message(number as u64)
    }

    fn deliver(&mut self, rt: &impl Abort, message: usize) -> Said {
        let Some((replica, position, wish)) = self.messages.as_slice().get(message).copied() else {
            return Said::Fault(ChainFault::Unknown);
        };
        if !self.is_live(replica) {
            return Said::Became(Delivered::Gone);
        }
        let next = self.list(replica).len();
        if position < next {
            return Said::Became(Delivered::Repeat);
        }
        if position > next {
            return Said::Became(Delivered::Gap);
        }
        self.append(rt, replica, wish);
        Said::Became(Delivered::Taken)
    }

    fn stop(&mut self, rt: &impl Abort, replica: usize) -> Said {
        if !self.is_live(replica) {
            return Said::Fault(ChainFault::Halted);
        }
        if self.live_count() == 1 {
            return Said::Fault(ChainFault::Last);
        }
        if replica >= self.live.len() {
            panic!(rt; "no replica");
        }
        self.live[replica] = false;
        Said::Stopped
    }

    fn live_count(&self) -> usize {
        let mut count: usize = 0;
        for live in self.live.as_slice() {
            if *live {
                count = count.saturating_add(1);
            }
        }
        count
    }

    fn answer(&self, position: usize) -> Said {
        match self.tail().get(position) {
            Some(_) => Said::OutcomeAt(position as u64),
            None => Said::NoAnswer,
        }
    }

    // The head accepts the ask, and each live replica gets what it lacks of the head's list.
    fn settle(&mut self, rt: &impl Abort, wish: Wish) -> Said {
        let head = self.live_from(0).expect(rt, "no head");
        let position = self.list(head).len();
        self.append(rt, head, wish);
        for replica in head.saturating_add(1)..self.live.len() {
            if self.is_live(replica) {
                self.bring(rt, head, replica);
            }
        }
        Said::OutcomeAt(position as u64)
    }

    fn bring(&mut self, rt: &impl Abort, head: usize, replica: usize) {
        for position in self.list(replica).len()..self.list(head).len() {
            let wish = self.list(head).get(position).copied().expect(rt, "no ask");
            self.messages
                .push((replica, position, wish))
                .expect(rt, "memory");
            self.append(rt, replica, wish);
        }
    }
}
