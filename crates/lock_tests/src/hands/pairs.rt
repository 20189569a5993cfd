//! The pairs of a report, as the logs of closed machines have them.

use report_rules::{Pair, Reply};
use shard_node::Shard;
use std::alloc::Global;
use std::process::Abort;
use vector_stamp::Stamp;
use weave_data::{Items, Name};
use weave_entries::{Counted, OracleDeed, OracleEntry, ShardDeed, StoreDeed, StoreEntry, Verdict};
use weaver_locks::Closed;

/// The pairs of the oracle in the order of its log, each with its requests and the vertex for which it was added.
pub fn pairs_of(rt: &impl Abort, alloc: Global, closed: &Closed, replies: &[Reply]) -> Items<Pair> {
    let mut pairs = Items::new(alloc);
    for entry in closed.oracle.log() {
        add_pairs(rt, closed, replies, entry, &mut pairs);
    }
    pairs
}

fn add_pairs(
    rt: &impl Abort,
    closed: &Closed,
    replies: &[Reply],
    entry: &OracleEntry,
    pairs: &mut Items<Pair>,
) {
    let OracleDeed::Settled {
        earlier,
        later,
        places,
    } = &entry.deed;
    let later = begun_with(rt, replies, later);
    for place in places.as_slice() {
        let pair = pair_at(
            rt,
            closed,
            replies,
            earlier.as_slice(),
            later,
            *place as usize,
        );
        pairs.push(pair).expect(rt, "memory");
    }
}

fn pair_at(
    rt: &impl Abort,
    closed: &Closed,
    replies: &[Reply],
    earlier: &[Stamp],
    later: u32,
    place: usize,
) -> Pair {
    let Some(stamp) = earlier.get(place) else {
        panic!(rt; "no event at this place");
    };
    let earlier = begun_with(rt, replies, stamp);
    let vertex = match asked_at(closed.store.log(), later, place) {
        Some(vertex) => vertex,
        None => read_after(rt, closed, earlier, later),
    };
    Pair {
        vertex,
        earlier,
        later,
    }
}

// The request that was begun with this stamp.
fn begun_with(rt: &impl Abort, replies: &[Reply], stamp: &Stamp) -> u32 {
    for reply in replies {
        if reply.stamp == Some(*stamp) {
            return reply.request;
        }
    }
    panic!(rt; "no request has this stamp")
}

// The vertex for which the store asked at this place when it judged the transaction.
fn asked_at(log: &[StoreEntry], which: u32, place: usize) -> Option<Name> {
    for entry in log {
        let StoreDeed::Judged { request, asked, .. } = &entry.deed;
        if *request == which {
            return asked.as_slice().get(place).copied();
        }
    }
    None
}

// The vertex at which the program read what the transaction left, when the oracle was asked to put it after that one.
fn read_after(rt: &impl Abort, closed: &Closed, transaction: u32, program: u32) -> Name {
    let counts = counts_of(rt, closed.store.log(), transaction);
    for shard in &closed.shards {
        if let Some(vertex) = read_in(shard, counts, program) {
            return vertex;
        }
    }
    panic!(rt; "no visit asked for this pair")
}

fn read_in(shard: &Shard, counts: &[Counted], program: u32) -> Option<Name> {
    for entry in shard.log() {
        if let Some((vertex, updates)) = asked_by(&entry.deed, program) {
            if is_update_of(counts, vertex, updates) {
                return Some(vertex);
            }
        }
    }
    None
}

// The vertex that a visit of the program read, and after how many updates, if the visit asked for a pair.
fn asked_by(deed: &ShardDeed, program: u32) -> Option<(Name, u64)> {
    match deed {
        ShardDeed::Visited {
            request,
            vertex,
            updates,
            settled: true,
            ..
        } => {
            if *request == program {
                return Some((*vertex, *updates));
            }
            None
        }
        _ => None,
    }
}

// Whether the update of this number is one of those that these counts number.
fn is_update_of(counts: &[Counted], vertex: Name, number: u64) -> bool {
    counts.iter().any(|counted| counted.vertex == vertex
        && counted.before.checked_add(1) == Some(number))
}

// What a committed transaction counted.
fn counts_of<'a>(rt: &impl Abort, log: &'a [StoreEntry], transaction: u32) -> &'a [Counted] {
    for entry in log {
        let StoreDeed::Judged {
            request,
            verdict,
            ..
        } = &entry.deed;
        if *request == transaction {
            if let Verdict::Committed { counts, .. } = verdict {
                return counts.as_slice();
            }
        }
    }
    panic!(rt; "it was not committed")
}
