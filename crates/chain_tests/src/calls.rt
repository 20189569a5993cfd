//! Calls on a chain whose asks are of given events, and what they answer.
ghost use Rattle.std.specs.Prelude.{◌≡◌, ◌≢◌, IsTrue, All, Contains};
ghost use Rattle.vector_stamp.specs.declared.clock.Stamp.{Stamp};
ghost use Rattle.vector_stamp.specs.Order.{id_of};
ghost use Rattle.oracle_chain.specs.IsReplicaChain.{IsAsk};
ghost use Rattle.oracle_chain.specs.Replay.{ask_stamps};
ghost use Rattle.chain_tests.specs.Events.{AreEventsOf, KnowsEvents};

use oracle_chain::{Ask, ChainFault, Delivered, Outcome};
use std::alloc::Global;
use std::process::Abort;
use vector_stamp::laws::parts_and_unions_are_coherent;
use vector_stamp::{Clock, EventId, Judge, Refusal, Stamp};
use weave_data::Items;

/// An ask of one or two earlier events, each by its place in a list of events.
#[derive(Clone, Copy, PartialEq, Eq)]
pub struct Wish {
    pub first: usize,
    pub second: Option<usize>,
    pub later: usize,
    pub keep: bool,
}

#[derive(Clone, Copy)]
pub enum Call {
    Accept(Wish),
    Forward(u32, u64),
    Deliver(u64),
    Stop(u32),
    Answer(u64),
    Settle(Wish),
}

/// What a call answered. Of an outcome with places: whether the first and the second one are among them. The plain
/// model says only at which position the outcome is.
#[derive(Clone, Copy, PartialEq, Eq)]
pub enum Said {
    Position(u64),
    Message(u64),
    Became(Delivered),
    Stopped,
    NoAnswer,
    OutcomeAt(u64),
    Settled(bool, bool),
    Precedes(u32),
    Fault(ChainFault),
    Full,
}

/// A stamp of epoch 0.
pub fn stamp(home: u32, counts: [u64; 8]) -> Stamp {
    Stamp {
        home,
        clock: Clock { epoch: 0, counts },
    }
}

/// What identifies the event of a stamp.
pub fn id_of_stamp(stamp: &Stamp) -> EventId
    ensures { result ≡ id_of stamp.now }
{
    EventId {
        home: stamp.home,
        epoch: stamp.clock.epoch,
        count: stamp.own_count(),
    }
}

// Whether the event of a stamp is none of these.
fn are_others(events: &[Stamp], stamp: &Stamp) -> bool
    ensures { IsTrue result → All (λ (event : Stamp). id_of event ≢ id_of stamp.now) events.now }
{
    let Some((event, others)) = events.split_first() else {
        return true;
    };
    id_of_stamp(event) != id_of_stamp(stamp) && are_others(others, stamp)
}

/// The event at a place.
pub fn event(rt: &impl Abort, events: &[Stamp], place: usize) -> Stamp
    ensures { Contains events.now result }
{
    if place >= events.len() {
        panic!(rt; "no event");
    }
    events[place]
}

// The earlier events of a wish.
fn earlier_of(rt: &impl Abort, alloc: Global, events: &[Stamp], wish: Wish) -> Vec<Stamp>
    ensures { AreEventsOf result.items events.now }
{
    let first = event(rt, events, wish.first);
    let Some(other) = wish.second else {
        return Vec::from_slice(alloc, &[first]).expect(rt, "memory");
    };
    let second = event(rt, events, other);
    Vec::from_slice(alloc, &[first, second]).expect(rt, "memory")
}

/// The ask of a wish.
pub fn ask_of(rt: &impl Abort, alloc: Global, events: &[Stamp], wish: Wish) -> Ask
    ensures is_ask { IsAsk result }
    ensures of_events { AreEventsOf (ask_stamps result) events.now }
{
    let earlier = earlier_of(rt, alloc, events, wish);
    let later = event(rt, events, wish.later);
    if !are_others(earlier.as_slice(), &later) || earlier.len() > 2 {
        panic!(rt; "no ask");
    }
    Ask {
        earlier: Items::from_vec(earlier),
        later,
        keep: wish.keep,
    }
}

/// A judge that knows none but these events settles a wish.
pub fn settle_wish<J: Judge>(
    rt: &impl Abort,
    alloc: Global,
    judge: &mut J,
    events: &[Stamp],
    wish: Wish,
) -> Said
    requires { KnowsEvents events.now (J.known judge.old) }
    ensures { KnowsEvents events.now (J.known judge.new) }
{
    parts_and_unions_are_coherent();
    let ask = ask_of(rt, alloc, events, wish);
    match judge.settle(alloc, 0, ask.earlier.as_slice(), ask.later, ask.keep) {
        Ok(settled) => said_of_places(settled.places.as_slice()),
        Err(Refusal::Precedes { place }) => Said::Precedes(place),
        Err(Refusal::Memory) => Said::Full,
    }
}

/// What an outcome says.
pub fn said_of(outcome: &Outcome) -> Said {
    match outcome {
        Outcome::Settled { places } => said_of_places(places.as_slice()),
        Outcome::Precedes { place } => Said::Precedes(*place),
    }
}

// What an outcome with these places says.
fn said_of_places(places: &[u32]) -> Said {
    Said::Settled(places.contains(&0), places.contains(&1))
}
