//! The channels of a gatekeeper, and what is sent on them.
ghost use Rattle.std.specs.Prelude.{◌≡◌, ℕ, ◌≤◌, ◌<◌, ◌+◌, ◌^◌, [], All, length, slice_get, map, count_by, IfOk, OnOk, vec_len};
ghost use Rattle.graph_ops.specs.Mentions.{named_by};
ghost use Rattle.weave_entries.specs.Sending.{shards_named, IsCountsOf};
ghost use Rattle.weave_entries.specs.declared.verdict.Counted.{Counted};
ghost use Rattle.gatekeeper.specs.Messages.{made_for, with_parted, has_parts, messages_made, CanAllGo, HasRoomAt, KeepsSent, IsSentOn, AreSent, sent_at};

use crate::flight::Flight;
use crate::parts::parts_by_shard;
use crate::places::{Place, Places};
use graph_ops::{Op, Part};
use std::alloc::{AllocError, Global};
use vector_stamp::Clock;
use weave_data::Items;
use weave_entries::{Addressed, Counted, Message, Verdict};

/// A channel to each shard, on which nothing was sent yet.
pub fn empty_channels(alloc: Global, shards: u32) -> Result<Vec<Places>, AllocError>
    ensures count { IfOk result (λ channels. vec_len channels ≡ shards) }
    ensures empty { IfOk result (λ channels. All (λ channel. channel.sent ≡ []) channels.items) }
{
    let mut channels = Vec::with_capacity(alloc, shards as usize)?;
    for _shard in 0..shards {
        channels.push(Places::new(alloc))?;
    }
    Ok(channels)
}

/// The messages of a transaction by its verdict: of a commit one to each shard that keeps a named vertex, otherwise
/// none. The one error is out of memory.
pub fn messages_of(
    alloc: Global,
    channels: &[Places],
    shards: u32,
    flight: &Flight,
    low: Clock,
    ops: &[Op],
    verdict: &Verdict,
) -> Result<Vec<Addressed>, AllocError>
    requires shards { length channels.now ≡ shards }
    requires one_shard { 1 ≤ shards }
    requires counts { IsCountsOf ops.now verdict.now }
    ensures { IfOk result (λ messages.
        messages.items ≡ messages_made channels.now shards flight.now low ops.now verdict.now) }
{
    match verdict {
        Verdict::Committed { counts, .. } => commit_messages(
            alloc,
            channels,
            shards,
            flight,
            low,
            ops,
            counts.as_slice(),
        ),
        Verdict::Conflict { .. } | Verdict::Refused { .. } => Ok(Vec::new(alloc)),
    }
}

fn commit_messages(
    alloc: Global,
    channels: &[Places],
    shards: u32,
    flight: &Flight,
    low: Clock,
    ops: &[Op],
    counts: &[Counted],
) -> Result<Vec<Addressed>, AllocError>
    requires shards { length channels.now ≡ shards }
    requires one_shard { 1 ≤ shards }
    requires counts { map (λ (counted : Counted). counted.vertex) counts.now ≡ named_by ops.now }
    ensures { IfOk result (λ messages. messages.items
        ≡ map (made_for channels.now shards flight.now low ops.now counts.now) (shards_named shards counts.now)) }
{
    let shares = parts_by_shard(alloc, shards, ops, counts)?;
    let mut messages = Vec::with_capacity(alloc, count_with_parts(shares.as_slice()))?;
    for (shard, parts) in shares.into_iter().enumerate() {
        let channel = &channels[shard];
        let number = channel.count() + 1;
        let message = Message {
            request: Some(flight.request),
            stamp: flight.stamp,
            low,
            parts,
        };
        let addressed = Addressed {
            shard: shard as u32,
            number,
            message,
        };
        add_message(&mut messages, addressed)?;
    }
    Ok(messages)
}

// How many of the shards have a part.
fn count_with_parts(shares: &[Items<Part>]) -> usize
    ensures { result ≡ count_by has_parts shares.now }
{
    let mut count = 0;
    for parts in shares {
        if !parts.as_slice().is_empty() {
            count += 1;
        }
    }
    count
}

// Adds the message, unless it has no part.
fn add_message(messages: &mut Vec<Addressed>, addressed: Addressed) -> Result<(), AllocError>
    ensures { OnOk result (messages.new.items ≡ with_parted addressed addressed.message.parts messages.old.items) }
{
    if !addressed.message.parts.as_slice().is_empty() {
        messages.push(addressed)?;
    }
    Ok(())
}

/// Takes the room for one more message to a shard. What was sent stays. The one error is out of memory.
pub fn make_room(channels: &mut Vec<Places>, shard: u32) -> Result<(), AllocError>
    requires { shard < vec_len channels.old }
    ensures kept { KeepsSent channels.old.items channels.new.items }
    ensures room { OnOk result (HasRoomAt channels.new.items shard) }
{
    let channel = &mut channels[shard as usize];
    channel.reserve()?;
    Ok(())
}

/// Takes the room for one more message to each shard. What was sent stays. The one error is out of memory.
pub fn make_all_room(channels: &mut Vec<Places>) -> Result<(), AllocError>
    requires { vec_len channels.old < 2 ^ 32 }
    ensures kept { KeepsSent channels.old.items channels.new.items }
    ensures room { OnOk result ((shard : ℕ) → shard < vec_len channels.old → HasRoomAt channels.new.items shard) }
{
    for shard in 0..channels.len() as u32 {
        make_room(channels, shard)?;
    }
    Ok(())
}

/// Adds the place of a message to the channel of its shard, which has room for it, and answers its number.
pub fn send_one(channels: &mut Vec<Places>, shard: u32, place: Place) -> u64
    requires { HasRoomAt channels.old.items shard }
    ensures number { result ≡ length (sent_at shard channels.old.items) + 1 }
    ensures sent { IsSentOn channels.old.items channels.new.items shard place }
{
    let channel = &mut channels[shard as usize];
    channel.push(place)
}

/// Adds the places of the messages of an entry to the channels of their shards, which have room for them. Each message
/// has a shard of its own.
pub fn send_all(channels: &mut Vec<Places>, entry: usize, messages: &[Addressed])
    requires { CanAllGo channels.old.items messages.now }
    ensures { AreSent channels.old.items channels.new.items entry messages.now }
{
    for at in 0..messages.len() {
        let one = &messages[at];
        send_one(channels, one.shard, Place { entry, at });
    }
}
