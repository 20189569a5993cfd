//! Where the messages are that a gatekeeper sent: each is kept once, and its channel has only the place.
ghost use Rattle.std.specs.Prelude.{◌≡◌, ◌≤◌, ◌<◌, ◌+◌, ◌^◌, [], ◌∷◌, ◌++◌, length, slice_get, OnOk, OnErr, option_copied};
ghost use Rattle.std.specs.Option.{option_and_then, option_map};
ghost use Rattle.shard_queue.specs.Outbox.{sent_as};
ghost use Rattle.weave_entries.specs.declared.message.Addressed.{Addressed};
ghost use Rattle.gatekeeper.specs.Places.{message_sent_by, message_at};

use std::alloc::{AllocError, Global};
use std::marker::Model;
use weave_entries::{Addressed, GateDeed, GateEntry, Message};

/// Where a message is: the entry of the log that sent it, and its index among the messages of that entry. The log has
/// no message of a nop, so that index is one in the list of the empty messages. All from 0.
#[derive(Clone, Copy)]
pub struct Place {
    pub entry: usize,
    pub at: usize,
}

/// The places of what was sent on a channel, in order and numbered from 1. Contracts see the list, and `spare`: for how
/// many more there is room.
#[derive(Drop)]
pub struct Places {
    places: Vec<Place>,
}

impl Model for Places {
    ghost use Rattle.std.specs.Prelude.{◌-◌, vec_len, vec_capacity};
    ghost use Rattle.shard_queue.specs.Outbox.{Channel};
    ghost use Rattle.gatekeeper.specs.declared.places.Place.{Place};

    ghost Value = { Channel Place };

    ghost view = { λ c. record { sent = c.places.items; spare = vec_capacity c.places - vec_len c.places } };
}

impl Places {
    /// Nothing was sent yet. It takes no memory.
    pub fn new(alloc: Global) -> Self
        ensures { result.sent ≡ [] }
    {
        Places {
            places: Vec::new(alloc),
        }
    }

    /// Takes the room for one more. The one error is out of memory, and then the channel is as before.
    pub fn reserve(&mut self) -> Result<(), AllocError>
        ensures sent { self.new.sent ≡ self.old.sent }
        ensures room { OnOk result (1 ≤ self.new.spare) }
        ensures kept { self.old.spare ≤ self.new.spare }
        ensures refused { OnErr result (self.new ≡ self.old) }
    {
        self.places.reserve(1)?;
        Ok(())
    }

    /// Adds the place of one more message, for which there is room, and answers its number.
    pub fn push(&mut self, place: Place) -> u64
        requires { 1 ≤ self.old.spare }
        ensures sent { self.new.sent ≡ self.old.sent ++ place ∷ [] }
        ensures number { result ≡ length self.old.sent + 1 }
    {
        self.places.push_reserved(place);
        self.places.len() as u64
    }

    /// The place of the message of this number, or `None` if it was not sent.
    pub fn get(&self, number: u64) -> Option<&Place>
        ensures { option_copied result ≡ sent_as number self.now.sent }
    {
        if number == 0 {
            return None;
        }
        self.places.get((number - 1) as usize)
    }

    /// How many messages were sent: the number of the last one.
    pub fn count(&self) -> u64
        ensures count { result ≡ length self.now.sent }
        ensures small { result < 2 ^ 63 }
    {
        self.places.len() as u64
    }
}

/// The message of this number on a channel, or `None` if it was not sent.
pub fn find_message<'a>(
    channel: &Places,
    number: u64,
    log: &'a [GateEntry],
    nops: &'a [Message],
) -> Option<&'a Message>
    ensures { option_copied result ≡ option_and_then (message_at nops.now log.now) (sent_as number channel.now.sent) }
{
    let Some(place) = channel.get(number) else {
        return None;
    };
    message_at(place, log, nops)
}

// The message at a place.
fn message_at<'a>(place: &Place, log: &'a [GateEntry], nops: &'a [Message]) -> Option<&'a Message>
    ensures { option_copied result ≡ message_at nops.now log.now place.now }
{
    if place.entry < log.len() {
        message_by(&log[place.entry], place.at, nops)
    } else {
        None
    }
}

// The message of an entry at this index.
fn message_by<'a>(entry: &'a GateEntry, at: usize, nops: &'a [Message]) -> Option<&'a Message>
    ensures { option_copied result ≡ message_sent_by nops.now entry.now.deed at }
{
    match &entry.deed {
        GateDeed::Sent { messages, .. } => message_among(messages.as_slice(), at),
        GateDeed::Nop { .. } => nops.get(at),
        _ => None,
    }
}

// The message at this index of a list.
fn message_among(messages: &[Addressed], at: usize) -> Option<&Message>
    ensures { option_copied result
        ≡ option_map (λ (addressed : Addressed). addressed.message) (slice_get messages.now at) }
{
    if at < messages.len() {
        Some(&messages[at].message)
    } else {
        None
    }
}
