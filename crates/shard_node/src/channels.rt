//! The incoming channels of a shard.
ghost use Rattle.std.specs.Prelude.{◌≡◌, ◌+◌, ◌<◌, ◌^◌, All, length, IfOk, IsSome, vec_len};
ghost use Rattle.shard_queue.specs.Inbox.{nothing_arrived, waiting_head, after_head};
ghost use Rattle.shard_node.specs.declared.waiting.Waiting.{Waiting};
ghost use Rattle.shard_node.specs.Keeping.{is_channel_ready, first_not_ready};

use crate::waiting::Waiting;
use shard_queue::Inbox;
use std::alloc::{AllocError, Global};
use vector_stamp::{Stamp, Stamped};

/// A channel from each gatekeeper, on which nothing arrived yet.
pub(crate) fn empty_channels(alloc: Global, gates: u32) -> Result<Vec<Inbox<Waiting>>, AllocError>
    ensures count { IfOk result (λ channels. vec_len channels ≡ gates) }
    ensures empty { IfOk result (λ channels. All (λ channel. channel ≡ nothing_arrived) channels.items) }
{
    let mut channels = Vec::new(alloc);
    for _gate in 0..gates {
        channels.push(Inbox::new(alloc))?;
    }
    Ok(channels)
}

/// Whether the last processed message of a channel, or its head, has a stamp after this one.
pub(crate) fn is_ready(channel: &Inbox<Waiting>, stamp: &Stamp) -> bool
    ensures { result ≡ is_channel_ready stamp.now channel.now }
{
    if let Some(last) = channel.last() {
        if stamp.is_before(&last) {
            return true;
        }
    }
    let Some(head) = channel.head() else {
        return false;
    };
    stamp.is_before(&head.stamp())
}

/// The least gatekeeper whose channel is not ready.
pub(crate) fn first_unready(channels: &[Inbox<Waiting>], stamp: &Stamp) -> Option<u32>
    requires { length channels.now < 2 ^ 32 }
    ensures { result ≡ first_not_ready 0 stamp.now channels.now }
{
    for gate in 0..channels.len() {
        if !is_ready(&channels[gate], stamp) {
            return Some(gate as u32);
        }
    }
    None
}

/// Goes on to the next message of a channel, and answers the number of the one that was processed.
pub(crate) fn pass_head(channel: &mut Inbox<Waiting>) -> u64
    requires head { IsSome (waiting_head channel.old) }
    requires number { channel.old.processed + 1 < u64.MAX }
    ensures number { result ≡ channel.old.processed + 1 }
    ensures next { channel.new ≡ after_head (λ (waiting : Waiting). waiting.stamp) channel.old }
{
    let number = channel.next();
    channel.advance();
    number
}
