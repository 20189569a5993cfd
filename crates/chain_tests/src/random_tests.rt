//! Random calls on a chain beside a plain model and a single oracle.

use crate::calls::{Call, Said, Wish, stamp};
use crate::chain_row::ChainRow;
use crate::plain::{Plain, new_plain};
use crate::single::Single;
use std::alloc::Global;
use std::process::Abort;
use vector_stamp::Stamp;

// The next of a fixed row of random numbers, below a bound.
fn next(state: &mut u64, bound: u64) -> u64 {
    *state = state
        .wrapping_mul(6364136223846793005)
        .wrapping_add(1442695040888963407);
    (*state >> 33) % bound.max(1)
}

// One of that many replicas.
fn random_replica(state: &mut u64, replicas: u32) -> u32 {
    (next(state, replicas as u64) % 8) as u32
}

// Two events of each of eight gatekeepers. None has heard another.
fn sixteen_events(rt: &impl Abort, alloc: Global) -> Vec<Stamp> {
    let mut events = Vec::new(alloc);
    for home in 0..8 {
        for count in 1..3 {
            let mut counts = [0; 8];
            counts[home] = count;
            events.push(stamp(home as u32, counts)).expect(rt, "memory");
        }
    }
    events
}

// An event other than this one.
fn other_event(state: &mut u64, event: u64) -> usize {
    (event.wrapping_add(1).wrapping_add(next(state, 15)) % 16) as usize
}

fn random_wish(state: &mut u64) -> Wish {
    let later = next(state, 16);
    let first = other_event(state, later);
    let second = other_event(state, later);
    Wish {
        first,
        second: if next(state, 2) == 0 {
            Some(second)
        } else {
            None
        },
        later: later as usize,
        keep: next(state, 4) != 0,
    }
}

fn random_forward(state: &mut u64, replicas: u32, plain: &Plain) -> Call {
    let replica = random_replica(state, replicas);
    let wanted = plain.next_length(replica as usize);
    if next(state, 3) == 0 {
        return Call::Forward(replica, next(state, wanted.saturating_add(3)));
    }
    Call::Forward(replica, wanted)
}

fn random_deliver(state: &mut u64, plain: &Plain) -> Call {
    let sent = plain.message_count();
    if next(state, 3) == 0 {
        return Call::Deliver(next(state, sent.saturating_add(1)));
    }
    let back = next(state, 3).saturating_add(1);
    Call::Deliver(sent.saturating_sub(back))
}

fn random_call(state: &mut u64, replicas: u32, plain: &Plain) -> Call {
    let kind = next(state, 250);
    if kind == 0 {
        return Call::Stop(random_replica(state, replicas));
    }
    if kind < 50 {
        return Call::Accept(random_wish(state));
    }
    if kind < 130 {
        return random_forward(state, replicas, plain);
    }
    if kind < 210 {
        return random_deliver(state, plain);
    }
    if kind < 240 {
        let length = plain.tail_length() as u64;
        return Call::Answer(next(state, length.saturating_add(1)));
    }
    Call::Settle(random_wish(state))
}

// A chain, a plain model of it, a single oracle, and what that answered to the asks that the tail has.
#[derive(Drop)]
struct Beside {
    row: ChainRow,
    plain: Plain,
    single: Single,
    outcomes: Vec<Said>,
}

fn new_beside(rt: &impl Abort, alloc: Global, replicas: u32) -> Beside {
    Beside {
        row: ChainRow::new(rt, alloc, replicas, sixteen_events(rt, alloc)),
        plain: new_plain(rt, alloc, replicas),
        single: Single::new(rt, alloc, sixteen_events(rt, alloc)),
        outcomes: Vec::new(alloc),
    }
}

impl Beside {
    // The single oracle settles what the tail has got since.
    fn follow(&mut self, rt: &impl Abort) {
        for position in self.outcomes.len()..self.plain.tail_length() {
            let wish = self.plain.tail_ask(position).expect(rt, "no ask");
            let said = self.single.settle(rt, wish);
            self.outcomes.push(said).expect(rt, "memory");
        }
    }

    // What the plain model says, with what the single oracle answered.
    fn wanted(&self, rt: &impl Abort, said: Said) -> Said {
        match said {
            Said::OutcomeAt(position) => self
                .outcomes
                .as_slice()
                .get(position as usize)
                .copied()
                .expect(rt, "no outcome"),
            other => other,
        }
    }

    // The chain answers a call as the plain model and the single oracle do.
    fn call(&mut self, rt: &impl Abort, call: Call) {
        let plainly = self.plain.call(rt, call);
        self.follow(rt);
        if self.row.call(rt, call) != self.wanted(rt, plainly) {
            panic!(rt; "another answer");
        }
    }

    // The tail has the plain model's asks, with the outcomes of the single oracle, and no more.
    fn compare(&mut self, rt: &impl Abort) {
        for position in 0..self.plain.tail_length() {
            let wish = self.plain.tail_ask(position).expect(rt, "no ask");
            if !self.row.has_asked(rt, position as u64, wish) {
                panic!(rt; "another list");
            }
            self.call(rt, Call::Answer(position as u64));
        }
        if !self.row.has_none_at(self.plain.tail_length() as u64) {
            panic!(rt; "a longer list");
        }
    }
}

fn random_calls(rt: &impl Abort, alloc: Global, state: &mut u64, replicas: u32, calls: u32) {
    let mut beside = new_beside(rt, alloc, replicas);
    for number in 0..calls {
        let call = random_call(state, replicas, &beside.plain);
        beside.call(rt, call);
        if number % 250 == 249 {
            beside.compare(rt);
        }
    }
}

// 10,000 calls, on ten chains of two to five replicas.
#[test]
fn random_calls_beside_a_plain_model(rt: HostRuntime) {
    let mut state = 58;
    for chain in 0..10 {
        random_calls(&rt, rt.alloc(), &mut state, chain % 4 + 2, 1000);
    }
}
