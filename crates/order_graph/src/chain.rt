//! The later events of pairs that are of one gatekeeper, in the order of their stamps.
ghost use Rattle.std.specs.Prelude.{◌≡◌, ◌<◌, ◌≤◌, ◌+◌, ◌||◌, [], map, true, false, length, IsTrue, IsOk, OnOk, OnErr, Contains, option_copied};
ghost use Rattle.std.specs.List.Sorted.{IsPartitionPoint};
ghost use Rattle.vector_stamp.specs.Order.{stamp_before};
ghost use Rattle.order_graph.specs.declared.chain.Event.{Event};
ghost use Rattle.order_graph.specs.Frontiers.{at_or_before};
ghost use Rattle.order_graph.specs.Chains.{IsRisingChain, IsLatestAt, IsLedOn, IsPut, leads_to, raised_event, raised_chain};

use crate::frontier::{Frontier, is_at_or_before, stamps_keep_the_laws};
use std::alloc::{AllocError, Global};
use std::marker::Model;
use vector_stamp::Stamp;

/// The later event of a pair, with a frontier of it.
#[derive(Clone, Copy)]
pub(crate) struct Event {
    pub(crate) stamp: Stamp,
    pub(crate) frontier: Frontier,
}

/// The events of one gatekeeper. Contracts see their list, and for how many more there is memory.
#[derive(Drop)]
pub(crate) struct Chain {
    events: Vec<Event>,
}

impl Model for Chain {
    ghost use Rattle.std.specs.Prelude.{◌-◌, vec_len};
    ghost use Rattle.std.specs.Vec.{vec_capacity};
    ghost use Rattle.order_graph.specs.Chains.{EventChainView};

    ghost Value = { EventChainView };

    ghost view = { λ c. record { events = c.events.items; room = vec_capacity c.events - vec_len c.events } };
}

impl Event {
    /// Whether the stamp is the event's, or precedes the event.
    pub(crate) fn is_led_by(&self, stamp: &Stamp) -> bool
        ensures { result ≡ leads_to stamp.now self.now }
    {
        is_at_or_before(stamp, &self.stamp) || self.frontier.covers(stamp)
    }
}

impl Chain {
    /// No events. It takes no memory.
    pub(crate) fn new(alloc: Global) -> Chain
        ensures { result.events ≡ [] }
    {
        Chain {
            events: Vec::new(alloc),
        }
    }

    /// The latest event at or before the stamp.
    pub(crate) fn latest(&self, stamp: &Stamp) -> Option<&Event>
        ensures { IsRisingChain self.now.events → IsLatestAt self.now.events stamp.now (option_copied result) }
    {
        stamps_keep_the_laws();
        let events = self.events.as_slice();
        let number = number_until(events, stamp);
        if number == 0 {
            return None;
        }
        Some(&events[number - 1])
    }

    /// Takes the memory for that many more events.
    pub(crate) fn reserve(&mut self, events: usize) -> Result<(), AllocError>
        ensures room { OnOk result (events ≤ self.new.room) }
        ensures never_less { self.old.room ≤ self.new.room }
        ensures events { self.new.events ≡ self.old.events }
    {
        self.events.reserve(events)
    }

    /// Puts an event into its place, unless there is one with its stamp.
    pub(crate) fn put(&mut self, event: Event) -> Result<(), AllocError>
        requires rising { IsRisingChain self.old.events }
        requires in_turn { (other : Event) → Contains self.old.events other
            → IsTrue (at_or_before other.stamp event.stamp || stamp_before event.stamp other.stamp) }
        ensures put { OnOk result (IsPut self.old.events event self.new.events) }
        ensures spared { OnOk result (self.old.room ≤ self.new.room + 1) }
        ensures room { 0 < self.old.room → IsOk result }
        ensures never_less { OnErr result (self.old.room ≤ self.new.room) }
        ensures as_before { OnErr result (self.new.events ≡ self.old.events) }
    {
        stamps_keep_the_laws();
        let number = number_until(self.events.as_slice(), &event.stamp);
        if number > 0 && self.events[number - 1].stamp == event.stamp {
            return Ok(());
        }
        self.events.insert(number, event)?;
        Ok(())
    }

    /// Takes the events of a frontier, which lead to the earlier event, as leading to each event to which the later one
    /// leads.
    /// It goes up from the first such event, to the first one to which the earlier event already leads.
    pub(crate) fn raise(&mut self, earlier: &Stamp, later: &Stamp, frontier: &Frontier)
        requires earlier { IsLedOn earlier.now self.old.events }
        requires later { IsLedOn later.now self.old.events }
        ensures { self.new ≡ raised_chain earlier.now later.now frontier.now.latest self.old }
    {
        raise_events(self.events.as_mut_slice(), earlier, later, frontier);
    }
}

// The number of first events that are at or before the stamp.
fn number_until(events: &[Event], stamp: &Stamp) -> usize
    ensures within { result ≤ length events.now }
    ensures until { IsRisingChain events.now → IsPartitionPoint (λ (event : Event). at_or_before event.stamp stamp.now
        ≡ true)
        (λ (event : Event). at_or_before event.stamp stamp.now ≡ false) events.now result }
{
    stamps_keep_the_laws();
    events.partition_point(|event| is_at_or_before(&event.stamp, stamp))
}

// The place of the first event to which the stamp leads.
fn first_led(events: &[Event], stamp: &Stamp) -> usize
    ensures within { result ≤ length events.now }
    ensures first { IsLedOn stamp.now events.now
        → IsPartitionPoint (λ event. leads_to stamp.now event ≡ false) (λ event. leads_to stamp.now event
        ≡ true) events.now result }
{
    events.partition_point(|event| !event.is_led_by(stamp))
}

fn raise_events(events: &mut [Event], earlier: &Stamp, later: &Stamp, frontier: &Frontier)
    requires earlier { IsLedOn earlier.now events.old }
    requires later { IsLedOn later.now events.old }
    ensures { events.new ≡ map (raised_event earlier.now later.now frontier.now.latest) events.old }
{
    let from = first_led(events, later);
    for place in from..events.len() {
        if events[place].is_led_by(earlier) {
            return;
        }
        events[place].frontier.join(frontier);
    }
}
