//! The pairs of a report: those of the oracle, each with its two requests and the vertex for which it was added.
ghost use Rattle.std.specs.Prelude.{◌≡◌, ◌<◌, ◌^◌, ◌++◌, length, slice_get, Contains, Some, IfOk, OnOk};
ghost use Rattle.std.specs.List.{filter_map};
ghost use Rattle.std.specs.Option.{option_and_then};
ghost use Rattle.weave_data.specs.Limits.{most_gates};
ghost use Rattle.vector_stamp.specs.declared.clock.Stamp.{Stamp};
ghost use Rattle.vector_stamp.specs.Order.{id_of};
ghost use Rattle.weave_entries.specs.OracleReplay.{settled_entry};
ghost use Rattle.weave_entries.specs.StoreReplay.{judged_by};
ghost use Rattle.weave_entries.specs.declared.oracle_log.OracleEntry.{OracleEntry};
ghost use Rattle.weaver_core.specs.Marks.{all_visits, has_mark, mark_of, was_asked};
ghost use Rattle.weaver_core.specs.Reporting.{AreOfHomes, HasRequests, all_pairs_found, asked_by, found_in, key_of, pair_found, pairs_found, request_with};

use crate::marks::{VisitTable, counts_of, first_seen};
use crate::shards::Shards;
use backing_store::Store;
use report_rules::Pair;
use std::alloc::{AllocError, Global};
use std::collections::HashMap;
use timeline_oracle::Oracle;
use vector_stamp::Stamp;
use weave_data::{Items, Name};
use weave_entries::{OracleDeed, OracleEntry, StoreDeed, StoreEntry};

// The request of each event, by the event's home, epoch and count.
type Requests = HashMap<(u32, u64, u64), u32>;

/// The pairs of the oracle, in the order in which they were added. It looks once at each entry of the logs of shards
/// and oracle. The one error is out of memory.
pub(crate) fn pairs_of(
    alloc: Global,
    stamps: &[Option<Stamp>],
    shards: &Shards,
    store: &Store,
    oracle: &Oracle,
) -> Result<Items<Pair>, AllocError>
    requires few { length stamps.now < 2 ^ 32 }
    requires begun { (stamp : Stamp) → Contains stamps.now (Some stamp) → stamp.home < most_gates }
    requires settled { (entry : OracleEntry) → Contains oracle.now entry → AreOfHomes (settled_entry entry) }
    ensures { IfOk result (λ pairs. pairs ≡ all_pairs_found (request_with stamps.now) store.now
        (mark_of (request_with stamps.now) (was_asked (all_visits shards.now.logs)) store.now) oracle.now) }
{
    let requests = requests_by_event(alloc, stamps)?;
    let visits = shards.visits_that_asked(alloc)?;
    let mut pairs = Items::new(alloc);
    let log = oracle.log();
    for place in 0..log.len() {
        add_pairs_of(&mut pairs, &requests, &visits, store, &log[place])?;
    }
    Ok(pairs)
}

// Adds the pairs of an entry of the oracle.
fn add_pairs_of(
    pairs: &mut Items<Pair>,
    requests: &Requests,
    visits: &VisitTable,
    store: &Store,
    entry: &OracleEntry,
) -> Result<(), AllocError>
    requires { AreOfHomes (settled_entry entry.now) }
    ensures { OnOk result (pairs.new ≡ pairs.old ++ pairs_found (found_in requests.now.entries) store.now
        (mark_of (found_in requests.now.entries) (has_mark visits.now.entries) store.now (settled_entry entry.now))
        (settled_entry entry.now)) }
{
    let vertex = mark_of(requests, visits, store, entry);
    add_pairs(pairs, requests, store, vertex, entry)
}

// The vertex of the visit that asked for an entry of the oracle, if one did.
fn mark_of(
    requests: &Requests,
    visits: &VisitTable,
    store: &Store,
    entry: &OracleEntry,
) -> Option<Name>
    requires { AreOfHomes (settled_entry entry.now) }
    ensures { result ≡ mark_of (found_in requests.now.entries) (has_mark visits.now.entries) store.now
        (settled_entry entry.now) }
{
    let earlier = request_at(requests, earlier_in(entry), 0)?;
    let later = request_of(requests, later_in(entry))?;
    first_seen(visits, later, counts_of(store, earlier))
}

// The request of each event that was begun: the first one, should there be more.
fn requests_by_event(alloc: Global, stamps: &[Option<Stamp>]) -> Result<Requests, AllocError>
    requires few { length stamps.now < 2 ^ 32 }
    requires begun { (stamp : Stamp) → Contains stamps.now (Some stamp) → stamp.home < most_gates }
    ensures { IfOk result (λ requests. HasRequests 0 stamps.now requests.entries) }
{
    let mut requests = HashMap::new(alloc);
    let mut place = stamps.len();
    while place > 0 {
        place -= 1;
        if let Some(stamp) = stamps[place] {
            requests.insert(key_of(&stamp), place as u32)?;
        }
    }
    Ok(requests)
}

// Adds the pairs of an entry of the oracle, with the vertex that is marked for it.
fn add_pairs(
    pairs: &mut Items<Pair>,
    requests: &Requests,
    store: &Store,
    vertex: Option<Name>,
    entry: &OracleEntry,
) -> Result<(), AllocError>
    requires { AreOfHomes (settled_entry entry.now) }
    ensures { OnOk result (pairs.new
        ≡ pairs.old ++ pairs_found (found_in requests.now.entries) store.now vertex (settled_entry entry.now)) }
{
    let Some(later) = request_of(requests, later_in(entry)) else {
        return Ok(());
    };
    match vertex {
        None => add_pairs_before(
            pairs,
            requests,
            earlier_in(entry),
            asked_for(store, later),
            later,
            places_in(entry),
        ),
        Some(vertex) => add_pairs_before(
            pairs,
            requests,
            earlier_in(entry),
            &[vertex],
            later,
            places_in(entry),
        ),
    }
}

fn earlier_in(entry: &OracleEntry) -> &[Stamp]
    ensures { result.now ≡ (settled_entry entry.now).earlier }
{
    let OracleDeed::Settled { earlier, .. } = &entry.deed;
    earlier.as_slice()
}

fn later_in(entry: &OracleEntry) -> &Stamp
    ensures { result.now ≡ (settled_entry entry.now).later }
{
    let OracleDeed::Settled { later, .. } = &entry.deed;
    later
}

fn places_in(entry: &OracleEntry) -> &[u32]
    ensures { result.now ≡ (settled_entry entry.now).places }
{
    let OracleDeed::Settled { places, .. } = &entry.deed;
    places.as_slice()
}

// Adds the pairs of a later request that were added for these places.
fn add_pairs_before(
    pairs: &mut Items<Pair>,
    requests: &Requests,
    earlier: &[Stamp],
    asked: &[Name],
    later: u32,
    places: &[u32],
) -> Result<(), AllocError>
    requires { (event : Stamp) → Contains earlier.now event → event.home < most_gates }
    ensures { OnOk result (pairs.new ≡ pairs.old
        ++ filter_map (pair_found (found_in requests.now.entries) earlier.now asked.now later) places.now) }
{
    for place in places {
        if let Some(pair) = pair_at(requests, earlier, asked, later, *place as usize) {
            pairs.push(pair)?;
        }
    }
    Ok(())
}

// The pair that was added for a place.
fn pair_at(
    requests: &Requests,
    earlier: &[Stamp],
    asked: &[Name],
    later: u32,
    place: usize,
) -> Option<Pair>
    requires { (event : Stamp) → Contains earlier.now event → event.home < most_gates }
    ensures { result ≡ pair_found (found_in requests.now.entries) earlier.now asked.now later place }
{
    let earlier = request_at(requests, earlier, place)?;
    let vertex = vertex_at(asked, place)?;
    Some(Pair {
        vertex,
        earlier,
        later,
    })
}

// The request of the event at a place.
fn request_at(requests: &Requests, events: &[Stamp], place: usize) -> Option<u32>
    requires { (event : Stamp) → Contains events.now event → event.home < most_gates }
    ensures { result ≡ option_and_then (found_in requests.now.entries) (slice_get events.now place) }
{
    if place < events.len() {
        request_of(requests, &events[place])
    } else {
        None
    }
}

fn vertex_at(asked: &[Name], place: usize) -> Option<Name>
    ensures { result ≡ slice_get asked.now place }
{
    asked.get(place).copied()
}

// The vertices of which the store asked for a request.
fn asked_for(store: &Store, request: u32) -> &[Name]
    ensures { result.now ≡ asked_by store.now request }
{
    match store.judged(request) {
        None => &[],
        Some(entry) => asked_in(entry),
    }
}

fn asked_in(entry: &StoreEntry) -> &[Name]
    ensures { result.now ≡ (judged_by entry.now.author entry.now.deed).asked }
{
    let StoreDeed::Judged { asked, .. } = &entry.deed;
    asked.as_slice()
}

// The request that was begun with this stamp.
fn request_of(requests: &Requests, stamp: &Stamp) -> Option<u32>
    requires { stamp.now.home < most_gates }
    ensures { result ≡ found_in requests.now.entries stamp.now }
{
    requests.get(&key_of(stamp)).copied()
}

// The home, the epoch and the own count of an event.
fn key_of(stamp: &Stamp) -> (u32, u64, u64)
    requires { stamp.now.home < most_gates }
    ensures { result ≡ key_of (id_of stamp.now) }
{
    let id = stamp.id();
    (id.home, id.epoch, id.count)
}
