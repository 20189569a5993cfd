//! What the log of a shard says: the messages that arrived, the state of a vertex, and what was dropped.
ghost use Rattle.std.specs.Prelude.{◌≡◌, ℕ, ◌∷◌, ◌++◌, [], List, option_copied, IsTrue};
ghost use Rattle.weave_data.specs.declared.name.Name.{Name};
ghost use Rattle.weave_entries.specs.declared.shard_log.ShardEntry.{ShardEntry};
ghost use Rattle.weave_entries.specs.ShardReplay.{arrived_at, dropped_after, dropped_from, updates_in, updates_of, state_of_updates};
ghost use Rattle.machine_tests.specs.ArrivedStamps.{stamp_if, arrived_stamps};
ghost use Rattle.machine_tests.specs.LogReading.{message_applied, state_from};

use crate::passing::after_ops;
use graph_ops::{Name, Record};
use std::alloc::Global;
use std::process::Abort;
use vector_stamp::Stamp;
use weave_entries::{Message, ShardDeed, ShardEntry};

// The message that an entry brought, if it is the one of this number from this gatekeeper.
fn brought(entry: &ShardEntry, gate: u32, number: u64) -> Option<&Message>
    ensures { option_copied result ≡ arrived_at gate number (entry.now ∷ []) }
{
    match &entry.deed {
        ShardDeed::Arrived {
            gate: from,
            number: at,
            message,
        } => {
            if *from == gate && *at == number {
                Some(message)
            } else {
                None
            }
        }
        ShardDeed::Applied { .. } => None,
        ShardDeed::Visited { .. } => None,
        ShardDeed::Collected { .. } => None,
    }
}

/// The message of this number from a gatekeeper, if it has arrived.
pub fn arrived(log: &[ShardEntry], gate: u32, number: u64) -> Option<&Message>
    ensures { option_copied result ≡ arrived_at gate number log.now }
{
    let Some((entry, others)) = log.split_first() else {
        return None;
    };
    if let Some(message) = brought(entry, gate, number) {
        return Some(message);
    }
    arrived(others, gate, number)
}

// The message that an entry processed.
fn applied<'a>(log: &'a [ShardEntry], entry: &ShardEntry) -> Option<&'a Message>
    ensures { option_copied result ≡ message_applied log.now entry.now.deed }
{
    match &entry.deed {
        ShardDeed::Applied { gate, number } => arrived(log, *gate, *number),
        ShardDeed::Arrived { .. } => None,
        ShardDeed::Visited { .. } => None,
        ShardDeed::Collected { .. } => None,
    }
}

// The state of a vertex after those parts of a message that are of it.
fn after_message(
    rt: &impl Abort,
    alloc: Global,
    message: &Message,
    vertex: Name,
    mut state: Option<Record>,
) -> Option<Record>
    ensures { result ≡ state_from state (updates_in vertex message.now) }
{
    for part in message.parts.as_slice() {
        if part.vertex == vertex {
            state = after_ops(rt, alloc, part.ops.as_slice(), state);
        }
    }
    state
}

/// The state of a vertex after all updates.
pub fn state_of(rt: &impl Abort, alloc: Global, log: &[ShardEntry], vertex: Name) -> Option<Record>
    ensures { result ≡ state_of_updates (updates_of vertex log.now) }
{
    let mut state = None;
    for entry in log {
        if let Some(message) = applied(log, entry) {
            state = after_message(rt, alloc, message, vertex, state);
        }
    }
    state
}

// Adds the stamp of a message, if that has parts.
fn push_stamp(rt: &impl Abort, stamps: &mut Vec<Stamp>, message: &Message)
    ensures { stamps.new.items ≡ stamps.old.items ++ stamp_if message.now.stamp message.now.parts }
{
    if let Some(_) = message.parts.as_slice().split_first() {
        stamps.push(message.stamp).expect(rt, "memory");
    }
}

/// The stamps of all messages with parts that arrived.
pub fn stamps(rt: &impl Abort, alloc: Global, log: &[ShardEntry]) -> Vec<Stamp>
    ensures { result.items ≡ arrived_stamps log.now }
{
    let mut stamps = Vec::new(alloc);
    for entry in log {
        match &entry.deed {
            ShardDeed::Arrived { message, .. } => push_stamp(rt, &mut stamps, message),
            ShardDeed::Applied { .. } => {}
            ShardDeed::Visited { .. } => {}
            ShardDeed::Collected { .. } => {}
        }
    }
    stamps
}

// Whether nothing is dropped by an entry.
fn drops_nothing(entry: &ShardEntry) -> bool
    ensures { IsTrue result → (v : Name) (before : List ShardEntry) (dropped : ℕ)
        → dropped_after v before entry.now.deed dropped ≡ dropped }
{
    match &entry.deed {
        ShardDeed::Arrived { .. } => true,
        ShardDeed::Applied { .. } => true,
        ShardDeed::Visited { .. } => true,
        ShardDeed::Collected { bound } => bound.is_none(),
    }
}

/// Whether no collection had a bound: then nothing was dropped.
pub fn is_all_kept(log: &[ShardEntry]) -> bool
    ensures { IsTrue result → (v : Name) (before : List ShardEntry) → dropped_from v before log.now 0 ≡ 0 }
{
    let Some((entry, others)) = log.split_first() else {
        return true;
    };
    if !drops_nothing(entry) {
        return false;
    }
    is_all_kept(others)
}
