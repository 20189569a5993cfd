//! Which requests are drawn, and in which columns.

use crate::replied::{Replies, reply_places};
use program_defs::Script;
use report_rules::Report;
use std::alloc::{AllocError, Global};
use vector_stamp::Stamp;

/// A request that is drawn.
#[derive(Clone, Copy)]
pub struct Drawn {
    /// Its place in the script, from 0.
    pub request: u32,
    /// Its gatekeeper.
    pub lane: u32,
    pub session: u32,
    /// Its place in the order, from 1; 0 if it isn't there.
    pub place: u64,
}

// A request, after which place of the order it is drawn, and whether it isn't in the order.
#[derive(Clone, Copy, PartialEq, Eq, PartialOrd, Ord)]
struct Slot {
    place: u64,
    unlisted: bool,
    request: u32,
}

/// The requests that are drawn, from left to right: those from place `from` of the order on, so many; and those that
/// aren't in the order, each after the last listed one whose stamp is before its own, at most as many; those without
/// a stamp come at the end of the order.
pub fn drawn_of(
    alloc: Global,
    script: &Script,
    report: &Report,
    from: u64,
    count: u64,
) -> Result<Vec<Drawn>, AllocError> {
    let replied = reply_places(alloc, script, report)?;
    let replies = Replies {
        report,
        places: replied.as_slice(),
    };
    let mut slots = slots_of(alloc, script, &replies, from, count)?;
    slots.as_mut_slice().sort_unstable();
    drawn_in(alloc, script, slots.as_slice())
}

// What is drawn, in the script's order.
fn slots_of(
    alloc: Global,
    script: &Script,
    replies: &Replies,
    from: u64,
    count: u64,
) -> Result<Vec<Slot>, AllocError> {
    let order = replies.report.order.as_slice();
    let places = places_of(alloc, script, order)?;
    let listed = listed_stamps(alloc, replies)?;
    let end = from.saturating_add(count);
    let mut slots = Vec::new(alloc);
    let mut left = count;
    let mut request: u32 = 0;
    for place in places.as_slice() {
        let slot = slot_of(replies, listed.as_slice(), request, *place);
        request = request.saturating_add(1);
        if is_within(slot, from, end, order.len() as u64) && (!slot.unlisted || left > 0) {
            slots.push(slot)?;
            left = left.saturating_sub(u64::from(slot.unlisted));
        }
    }
    Ok(slots)
}

// For each request its first place in the order, from 1, or 0.
fn places_of(alloc: Global, script: &Script, order: &[u32]) -> Result<Vec<u64>, AllocError> {
    let mut places = Vec::new(alloc);
    for _ in script.requests.as_slice() {
        places.push(0)?;
    }
    let mut place: u64 = 0;
    for request in order {
        place = place.saturating_add(1);
        put_place(places.as_mut_slice(), *request, place);
    }
    Ok(places)
}

fn put_place(places: &mut [u64], request: u32, place: u64) {
    if let Some(first) = places.get_mut(request as usize) {
        if *first == 0 {
            *first = place;
        }
    }
}

// The stamps of the listed requests, with their places.
fn listed_stamps(alloc: Global, replies: &Replies) -> Result<Vec<(u64, Stamp)>, AllocError> {
    let mut stamps = Vec::new(alloc);
    let mut place: u64 = 0;
    for request in replies.report.order.as_slice() {
        place = place.saturating_add(1);
        if let Some(stamp) = replies.stamp_of(*request) {
            stamps.push((place, stamp))?;
        }
    }
    Ok(stamps)
}

// Where a request is drawn that has this place in the order.
fn slot_of(replies: &Replies, listed: &[(u64, Stamp)], request: u32, place: u64) -> Slot {
    if place > 0 {
        return Slot {
            place,
            unlisted: false,
            request,
        };
    }
    let after = match replies.stamp_of(request) {
        Some(stamp) => last_before(listed, &stamp),
        None => u64::MAX,
    };
    Slot {
        place: after,
        unlisted: true,
        request,
    }
}

// The last place in the order whose stamp is before this one, or 0.
fn last_before(listed: &[(u64, Stamp)], stamp: &Stamp) -> u64 {
    for (place, other) in listed.iter().rev() {
        if other.is_before(stamp) {
            return *place;
        }
    }
    0
}

// Whether a slot is among the places from one to before another, of so many.
fn is_within(slot: Slot, from: u64, end: u64, last: u64) -> bool {
    if slot.place == u64::MAX {
        return end > last;
    }
    (from <= slot.place || (slot.place == 0 && from <= 1)) && slot.place < end
}

fn drawn_in(alloc: Global, script: &Script, slots: &[Slot]) -> Result<Vec<Drawn>, AllocError> {
    let mut drawn = Vec::new(alloc);
    for slot in slots {
        if let Some(request) = script.requests.as_slice().get(slot.request as usize) {
            drawn.push(Drawn {
                request: slot.request,
                lane: request.gate,
                session: request.session,
                place: if slot.unlisted { 0 } else { slot.place },
            })?;
        }
    }
    Ok(drawn)
}
