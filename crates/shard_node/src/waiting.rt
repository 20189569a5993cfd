//! Where the messages are that wait on a channel.
ghost use Rattle.std.specs.Prelude.{◌≡◌, option_copied};
ghost use Rattle.shard_node.specs.Keeping.{message_by, message_in, head_in};

use shard_queue::Inbox;
use vector_stamp::{Stamp, Stamped};
use weave_entries::{Message, ShardDeed, ShardEntry};

/// A message that waits: the place of its entry in the log, from 0, and its stamp. The message itself is in the log
/// alone.
#[derive(Clone, Copy)]
pub(crate) struct Waiting {
    pub(crate) place: usize,
    pub(crate) stamp: Stamp,
}

impl Stamped for Waiting {
    ghost stamp_of = { λ waiting. waiting.stamp };

    fn stamp(&self) -> Stamp {
        self.stamp
    }
}

// The message that an entry brought.
fn message_of(entry: &ShardEntry) -> Option<&Message>
    ensures { option_copied result ≡ message_by entry.now.deed }
{
    match &entry.deed {
        ShardDeed::Arrived { message, .. } => Some(message),
        ShardDeed::Applied { .. } => None,
        ShardDeed::Visited { .. } => None,
        ShardDeed::Collected { .. } => None,
    }
}

// The message that the entry at a place of the log brought.
fn message_at(log: &[ShardEntry], place: usize) -> Option<&Message>
    ensures { option_copied result ≡ message_in log.now place }
{
    if place < log.len() {
        message_of(&log[place])
    } else {
        None
    }
}

/// The next message of a channel, in the log, or `None` if it has not arrived.
pub(crate) fn head_message<'a>(
    channel: &Inbox<Waiting>,
    log: &'a [ShardEntry],
) -> Option<&'a Message>
    ensures { option_copied result ≡ head_in log.now channel.now }
{
    let Some(head) = channel.head() else {
        return None;
    };
    message_at(log, head.place)
}
