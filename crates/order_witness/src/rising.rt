//! Whether the stamps of begun requests are apart, and whether the requests of each session begin in turn: each by a
//! sort, and a look at neighbours.
ghost use Rattle.std.specs.Prelude.{◌≡◌, ℕ, ◌||◌, ◌&&◌, ◌==◌, ◌++◌, IsTrue, IfOk, OnOk, length, map, nat_lt, option_copied};
ghost use Rattle.vector_stamp.specs.Order as stamps;
ghost use Rattle.report_rules.specs.RightReport as right;
ghost use Rattle.order_witness.specs.Begun.{stamp_in};
ghost use Rattle.order_witness.specs.Rising.{HasBegunPlaces, HasRequestPlaces, AreInTurnTo, AreStampsApart, DoSessionsTakeTurns, comes_before, request_comes_before, session_comes_before, session_entry, stamp_entry};

use crate::lookups::request_in;
use program_defs::{Request, Script};
use report_rules::Reply;
use std::alloc::{AllocError, Global};
use vector_stamp::Stamp;
use vector_stamp::laws::stamps_are_ordered;

/// Whether the stamps of each two begun requests are apart. It is never wrong when it says so.
pub fn are_stamps_apart(alloc: Global, replies: &[Reply]) -> Result<bool, AllocError>
    ensures { IfOk result (λ holds. IsTrue holds → AreStampsApart replies.now) }
{
    stamps_are_ordered();
    let parts = places_by_stamps(alloc, replies)?;
    let places = parts.as_slice();
    Ok(stamps_rise(replies, places))
}

/// The places of the begun requests, sorted by their homes, epochs and own counts.
pub fn places_by_stamps(alloc: Global, replies: &[Reply]) -> Result<Vec<usize>, AllocError>
    ensures { IfOk result (λ places. HasBegunPlaces replies.now places.items) }
{
    let mut begun = begun_by_stamps(alloc, replies)?;
    begun.sort_unstable();
    let places = last_parts(alloc, begun.as_slice())?;
    Ok(places)
}

// The begun requests, each after its home, epoch and own count.
fn begun_by_stamps(
    alloc: Global,
    replies: &[Reply],
) -> Result<Vec<(u32, u64, u64, usize)>, AllocError>
    ensures { IfOk result (λ begun.
        HasBegunPlaces replies.now (map (λ (one : ℕ × ℕ × ℕ × ℕ). one.3) begun.items)) }
{
    let mut begun = Vec::new(alloc);
    for (place, reply) in replies.iter().enumerate() {
        put_begun(&mut begun, place, &reply.stamp)?;
    }
    Ok(begun)
}

fn put_begun(
    begun: &mut Vec<(u32, u64, u64, usize)>,
    place: usize,
    stamp: &Option<Stamp>,
) -> Result<(), AllocError>
    ensures { OnOk result (begun.new.items ≡ begun.old.items ++ stamp_entry place stamp.now) }
{
    if let Some(stamp) = stamp {
        begun.push((stamp.home, stamp.clock.epoch, stamp.own_count(), place))?;
    }
    Ok(())
}

fn last_parts(alloc: Global, begun: &[(u32, u64, u64, usize)]) -> Result<Vec<usize>, AllocError>
    ensures { IfOk result (λ places. places.items ≡ map (λ (one : ℕ × ℕ × ℕ × ℕ). one.3) begun.now) }
{
    let mut places = Vec::new(alloc);
    for one in begun {
        places.push(one.3)?;
    }
    Ok(places)
}

fn stamps_rise(replies: &[Reply], places: &[usize]) -> bool
    ensures { IsTrue result → AreInTurnTo (request_comes_before replies.now) places.now (length places.now) }
{
    for next in 1..places.len() {
        let in_turn = request_comes_before(replies, places[next - 1], places[next]);
        if !in_turn {
            return false;
        }
    }
    true
}

fn request_comes_before(replies: &[Reply], a: usize, b: usize) -> bool
    ensures { result ≡ request_comes_before replies.now a b }
{
    match (stamp_in(replies, a), stamp_in(replies, b)) {
        (Some(a), Some(b)) => comes_before(&a, &b),
        _ => false,
    }
}

fn stamp_in(replies: &[Reply], place: usize) -> Option<Stamp>
    ensures { result ≡ stamp_in replies.now place }
{
    match replies.get(place) {
        Some(reply) => reply.stamp,
        None => None,
    }
}

fn comes_before(a: &Stamp, b: &Stamp) -> bool
    ensures { result ≡ comes_before a.now b.now }
{
    a.home < b.home || (a.home == b.home && has_lesser_id(a, b) && a.is_before(b))
}

fn has_lesser_id(a: &Stamp, b: &Stamp) -> bool
    ensures { result ≡ stamps.id_before a.now b.now }
{
    a.clock.epoch < b.clock.epoch
        || (a.clock.epoch == b.clock.epoch && a.own_count() < b.own_count())
}

/// Whether the requests of each session begin in turn. It is never wrong when it says so.
pub fn do_sessions_take_turns(
    alloc: Global,
    script: &Script,
    replies: &[Reply],
) -> Result<bool, AllocError>
    ensures { IfOk result (λ holds. IsTrue holds → DoSessionsTakeTurns script.now replies.now) }
{
    stamps_are_ordered();
    let mut requests = requests_by_session(alloc, script, replies)?;
    requests.sort_unstable();
    let sorted = requests.as_slice();
    let parts = second_parts(alloc, sorted)?;
    let places = parts.as_slice();
    Ok(sessions_rise(script, replies, places))
}

// The requests that have replies, each after its session.
fn requests_by_session(
    alloc: Global,
    script: &Script,
    replies: &[Reply],
) -> Result<Vec<(u32, usize)>, AllocError>
    ensures { IfOk result (λ requests.
        HasRequestPlaces script.now replies.now (map (λ (one : ℕ × ℕ). one.1) requests.items)) }
{
    let mut requests = Vec::new(alloc);
    for place in 0..replies.len() {
        put_request(&mut requests, place, request_in(script, place))?;
    }
    Ok(requests)
}

fn put_request(
    requests: &mut Vec<(u32, usize)>,
    place: usize,
    request: Option<&Request>,
) -> Result<(), AllocError>
    ensures { OnOk result (requests.new.items
        ≡ requests.old.items ++ session_entry place (option_copied request.entry)) }
{
    if let Some(request) = request {
        requests.push((request.session, place))?;
    }
    Ok(())
}

fn second_parts(alloc: Global, requests: &[(u32, usize)]) -> Result<Vec<usize>, AllocError>
    ensures { IfOk result (λ places. places.items ≡ map (λ (one : ℕ × ℕ). one.1) requests.now) }
{
    let mut places = Vec::new(alloc);
    for one in requests {
        places.push(one.1)?;
    }
    Ok(places)
}

fn sessions_rise(script: &Script, replies: &[Reply], places: &[usize]) -> bool
    ensures { IsTrue result
        → AreInTurnTo (session_comes_before script.now replies.now) places.now (length places.now) }
{
    for next in 1..places.len() {
        let in_turn = session_comes_before(script, replies, places[next - 1], places[next]);
        if !in_turn {
            return false;
        }
    }
    true
}

fn session_comes_before(script: &Script, replies: &[Reply], a: usize, b: usize) -> bool
    ensures { result ≡ session_comes_before script.now replies.now a b }
{
    match (request_in(script, a), request_in(script, b)) {
        (Some(x), Some(y)) => are_in_turn(replies, x, y, a, b),
        _ => false,
    }
}

fn are_in_turn(replies: &[Reply], x: &Request, y: &Request, a: usize, b: usize) -> bool
    ensures { result ≡ (nat_lt x.now.session y.now.session || ((x.now.session == y.now.session) && nat_lt a b
        && right.are_begun_in_turn (stamp_in replies.now a) (stamp_in replies.now b))) }
{
    x.session < y.session
        || (x.session == y.session
            && a < b
            && are_begun_in_turn(&stamp_in(replies, a), &stamp_in(replies, b)))
}

/// Whether the first is begun before the second, if the second is begun.
pub fn are_begun_in_turn(earlier: &Option<Stamp>, later: &Option<Stamp>) -> bool
    ensures { result ≡ right.are_begun_in_turn earlier.now later.now }
{
    match (earlier, later) {
        (Some(earlier), Some(later)) => earlier.is_before(later),
        (None, Some(_)) => false,
        (_, None) => true,
    }
}
