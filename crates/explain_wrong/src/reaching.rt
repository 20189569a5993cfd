//! What a request leads to, by stamps and pairs.
//!
//! The begun requests lie in lanes, one for each gatekeeper, along which stamps rise. So a request leads by its stamp
//! to the last requests of each lane, from some place on. What was reached by stamps is such a part too, and grows
//! downwards.

use explain_case::Case;
use std::alloc::{AllocError, Global};
use vector_stamp::Stamp;
use weave_data::Items;

/// A gatekeeper's part of the begun requests. Those from `reached` on were reached by stamps.
#[derive(Clone, Copy)]
struct Lane {
    first: usize,
    reached: usize,
}

/// The requests that were reached, in the order in which they were.
#[derive(Drop)]
struct Reached {
    marks: Vec<bool>,
    requests: Vec<u32>,
}

/// The first of these requests to which a request leads; those to which the fewest steps lead come first. The clause on
/// replies must hold.
///
/// A sort, and then each request and each pair is looked at once.
pub(crate) fn first_reached(
    alloc: Global,
    case: &Case,
    start: u32,
    wanted: &[u32],
) -> Result<Option<u32>, AllocError> {
    let line = requests_by_stamps(alloc, case)?;
    let mut lanes = lanes_in(alloc, case, line.as_slice())?;
    let laters = later_ends(alloc, case)?;
    let count = case.replies().len();
    let goals = marks_at(alloc, count, wanted)?;
    let mut reached = Reached {
        marks: marks_at(alloc, count, &[])?,
        requests: Vec::new(alloc),
    };
    let mut from = start;
    for place in 0..count {
        spread_stamps(
            case,
            line.as_slice(),
            lanes.as_mut_slice(),
            &mut reached,
            from,
        )?;
        spread_pairs(laters.as_slice(), &mut reached, from)?;
        let Some(next) = reached.requests.as_slice().get(place).copied() else {
            return Ok(None);
        };
        if is_marked(goals.as_slice(), next) {
            return Ok(Some(next));
        }
        from = next;
    }
    Ok(None)
}

// The begun requests by their gatekeepers, and of each in the order of their stamps.
fn requests_by_stamps(alloc: Global, case: &Case) -> Result<Vec<u32>, AllocError> {
    let mut begun: Vec<(u32, u64, u64, u32)> = Vec::new(alloc);
    for reply in case.replies() {
        if let Some(stamp) = &reply.stamp {
            begun.push((
                stamp.home,
                stamp.clock.epoch,
                stamp.own_count(),
                reply.request,
            ))?;
        }
    }
    begun.sort_unstable();
    let mut line = Vec::new(alloc);
    for one in &begun {
        line.push(one.3)?;
    }
    Ok(line)
}

// The lanes of the begun requests.
fn lanes_in(alloc: Global, case: &Case, line: &[u32]) -> Result<Vec<Lane>, AllocError> {
    let mut lanes = Vec::new(alloc);
    let mut first: usize = 0;
    for place in 0..line.len() {
        let end = place.saturating_add(1);
        if home_at(case, line, place) != home_at(case, line, end) {
            lanes.push(Lane {
                first,
                reached: end,
            })?;
            first = end;
        }
    }
    Ok(lanes)
}

// The gatekeeper of the request at a place.
fn home_at(case: &Case, line: &[u32], place: usize) -> Option<u32> {
    match line.get(place) {
        Some(request) => case.stamp(*request).map(|stamp| stamp.home),
        None => None,
    }
}

// Of each request the later ends of its pairs.
fn later_ends(alloc: Global, case: &Case) -> Result<Vec<Items<u32>>, AllocError> {
    let mut laters = Vec::new(alloc);
    for _ in case.replies() {
        laters.push(Items::new(alloc))?;
    }
    for pair in case.report.pairs.as_slice() {
        put_later(laters.as_mut_slice(), pair.earlier, pair.later)?;
    }
    Ok(laters)
}

fn put_later(laters: &mut [Items<u32>], earlier: u32, later: u32) -> Result<(), AllocError> {
    match laters.get_mut(earlier as usize) {
        Some(ends) => ends.push(later),
        None => Ok(()),
    }
}

// A mark for each of so many requests, set at these.
fn marks_at(alloc: Global, count: usize, requests: &[u32]) -> Result<Vec<bool>, AllocError> {
    let mut marks = vec![in alloc; false; count]?;
    for request in requests {
        set_mark(marks.as_mut_slice(), *request);
    }
    Ok(marks)
}

fn set_mark(marks: &mut [bool], request: u32) {
    if let Some(mark) = marks.get_mut(request as usize) {
        *mark = true;
    }
}

fn is_marked(marks: &[bool], request: u32) -> bool {
    match marks.get(request as usize) {
        Some(mark) => *mark,
        None => false,
    }
}

// Reaches what a request leads to by its stamp.
fn spread_stamps(
    case: &Case,
    line: &[u32],
    lanes: &mut [Lane],
    reached: &mut Reached,
    request: u32,
) -> Result<(), AllocError> {
    let Some(stamp) = case.stamp(request) else {
        return Ok(());
    };
    for lane in lanes.iter_mut() {
        let part = line.get(lane.first..lane.reached).unwrap_or(&[]);
        let count = reach_after(case, part, reached, &stamp)?;
        lane.reached = lane.reached.saturating_sub(count);
    }
    Ok(())
}

// Reaches the last requests of these, as long as they have a stamp after this one, and answers how many they are.
fn reach_after(
    case: &Case,
    part: &[u32],
    reached: &mut Reached,
    stamp: &Stamp,
) -> Result<usize, AllocError> {
    let mut count: usize = 0;
    for request in part.iter().rev() {
        if !is_after(case, *request, stamp) {
            return Ok(count);
        }
        reach(reached, *request)?;
        count = count.saturating_add(1);
    }
    Ok(count)
}

fn is_after(case: &Case, request: u32, stamp: &Stamp) -> bool {
    match case.stamp(request) {
        Some(later) => stamp.is_before(&later),
        None => false,
    }
}

// Reaches what a request leads to by a pair.
fn spread_pairs(
    laters: &[Items<u32>],
    reached: &mut Reached,
    request: u32,
) -> Result<(), AllocError> {
    let Some(ends) = laters.get(request as usize) else {
        return Ok(());
    };
    for later in ends.as_slice() {
        reach(reached, *later)?;
    }
    Ok(())
}

fn reach(reached: &mut Reached, request: u32) -> Result<(), AllocError> {
    if is_marked(reached.marks.as_slice(), request) {
        return Ok(());
    }
    set_mark(reached.marks.as_mut_slice(), request);
    reached.requests.push(request)?;
    Ok(())
}
