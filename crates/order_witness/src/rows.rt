//! What precedes each request, as counts, if none precedes itself: row by row, in an order in which each request comes
//! after all that leads to it.
ghost use Rattle.std.specs.Prelude.{◌≡◌, ℕ, ◌≤◌, ◌<◌, ◌-◌, ◌||◌, nat_eq, false, IsTrue, IfOk, length};
ghost use Rattle.order_witness.specs.Begun.{is_request_before};
ghost use Rattle.order_witness.specs.ByNumber.{list_at};
ghost use Rattle.order_witness.specs.Heads.{item, run_at};
ghost use Rattle.order_witness.specs.Preceding.{direct_steps};
ghost use Rattle.order_witness.specs.Rows.{AreLined, ArePlacesIn, AreRowsOfCounts, AreTurns, HadTurn, MayTakeInOneBefore, IsIncluded, IsRowOfCounts, IsTakenIn, RowsTell, is_below_last};

use crate::by_number::ByNumber;
use crate::heads::{Run, item};
use crate::lookups::is_request_before;
use crate::walk::starts;
use report_rules::Report;
use std::alloc::{AllocError, Global};
use weave_data::Items;

/// The rows of the requests that have turns; below `count` there is a row for each number.
pub fn rows_along(
    alloc: Global,
    report: &Report,
    befores: &ByNumber,
    line: &[usize],
    runs: &[Run],
    places: &[usize],
    count: usize,
    turns: &[usize],
) -> Result<Vec<Items<usize>>, AllocError>
    requires lined { AreLined (is_request_before report.now) (list_at befores.now) line.now runs.now places.now }
    requires turns { AreTurns (direct_steps report.now befores.now) turns.now count }
    ensures { IfOk result (λ rows. RowsTell (direct_steps report.now befores.now) line.now runs.now turns.now
        rows.items) }
{
    let mut rows = empty_rows(alloc, count)?;
    for turn in 0..turns.len() {
        let row = row_of(
            alloc,
            report,
            befores,
            line,
            runs,
            places,
            rows.as_slice(),
            turns,
            turn,
        )?;
        rows[turns[turn]] = row;
    }
    Ok(rows)
}

fn empty_rows(alloc: Global, count: usize) -> Result<Vec<Items<usize>>, AllocError>
    ensures { IfOk result (λ rows. length rows.items ≡ count) }
{
    let mut rows = Vec::new(alloc);
    for _ in 0..count {
        rows.push(Items::new(alloc))?;
    }
    Ok(rows)
}

// The row of the request of a turn.
fn row_of(
    alloc: Global,
    report: &Report,
    befores: &ByNumber,
    line: &[usize],
    runs: &[Run],
    places: &[usize],
    rows: &[Items<usize>],
    turns: &[usize],
    turn: usize,
) -> Result<Items<usize>, AllocError>
    requires lined { AreLined (is_request_before report.now) (list_at befores.now) line.now runs.now places.now }
    requires turns { (a : ℕ) → IsTrue (direct_steps report.now befores.now a (item turns.now turn))
        → HadTurn turns.now turn a }
    requires turn { turn < length turns.now }
    requires rows { AreRowsOfCounts (direct_steps report.now befores.now) line.now runs.now turns.now turn rows.now }
    ensures { IfOk result (λ row. IsRowOfCounts (direct_steps report.now befores.now) line.now runs.now turns.now turn
        rows.now (item turns.now turn) row) }
{
    let request = turns[turn];
    let mut storage = starts(alloc, runs)?;
    let row = storage.as_mut_slice();
    include_before(report, line, runs, places, rows, request, row);
    for earlier in befores.list_of(request as u64) {
        include(runs, row, row_in(rows, *earlier), item(places, *earlier));
    }
    for i in 0..runs.len() {
        let next = passed(report, line, &runs[i], row[i], request);
        if row[i] < next {
            let last = next - 1;
            include(runs, row, row_in(rows, item(line, last)), last);
        }
    }
    Ok(Items::from_vec(storage))
}

// Takes in the request before this one in the line, if its stamp is before: so a run is passed once for each
// gatekeeper.
fn include_before(
    report: &Report,
    line: &[usize],
    runs: &[Run],
    places: &[usize],
    rows: &[Items<usize>],
    request: usize,
    row: &mut [usize],
)
    requires { length row.old ≡ length runs.now }
    ensures size { length row.new ≡ length row.old }
    ensures followed { MayTakeInOneBefore (is_request_before report.now) runs.now places.now rows.now request row.old
        row.new }
{
    let place = item(places, request);
    if place == 0 {
        return;
    }
    let last = item(line, place - 1);
    if is_request_before(report, last, request) {
        include(runs, row, row_in(rows, last), item(places, last));
    }
}

/// The row of a request, empty past the rows.
pub fn row_in(rows: &[Items<usize>], request: usize) -> &[usize]
    ensures { result.now ≡ list_at rows.now request }
{
    match rows.get(request) {
        Some(row) => row.as_slice(),
        None => &[],
    }
}

// Joins another row, and takes in the requests of a run up to a place.
fn include(runs: &[Run], row: &mut [usize], other: &[usize], place: usize)
    requires { length row.old ≡ length runs.now }
    ensures { IsIncluded runs.now row.old other.now row.new place }
{
    for i in 0..runs.len() {
        row[i] = taken_in(&runs[i], place, row[i], item(other, i));
    }
}

fn taken_in(run: &Run, place: usize, a: usize, b: usize) -> usize
    ensures { IsTakenIn run.now place a b result }
{
    let top = if a < b { b } else { a };
    if run.next <= place && place < run.end && top <= place {
        place + 1
    } else {
        top
    }
}

// The place of a run, from one on, up to which its requests are before this one.
fn passed(report: &Report, line: &[usize], run: &Run, from: usize, request: usize) -> usize
    ensures onward { from ≤ result }
    ensures within { from < result → result ≤ run.now.end }
    ensures last { from < result → IsTrue (is_request_before report.now (item line.now (result - 1)) request) }
    ensures stopped { result < run.now.end → is_request_before report.now (item line.now result) request ≡ false }
{
    if run.end <= from {
        return from;
    }
    for place in from..run.end {
        if !is_request_before(report, item(line, place), request) {
            return place;
        }
    }
    run.end
}

/// Whether the row counts the request: of some run it is the last request that the row counts, or before that one.
pub fn counts(report: &Report, line: &[usize], runs: &[Run], row: &[usize], request: usize) -> bool
    ensures found { IsTrue result → (i : ℕ) × (i < length runs.now)
        × IsTrue (is_below_last report.now line.now (run_at runs.now i) (item row.now i) request) }
    ensures none { result ≡ false → (i : ℕ) → i < length runs.now
        → is_below_last report.now line.now (run_at runs.now i) (item row.now i) request ≡ false }
{
    for i in 0..runs.len() {
        if is_below_last(report, line, &runs[i], item(row, i), request) {
            return true;
        }
    }
    false
}

fn is_below_last(report: &Report, line: &[usize], run: &Run, top: usize, request: usize) -> bool
    ensures { result ≡ is_below_last report.now line.now run.now top request }
{
    run.next < top && is_at_or_before(report, request, item(line, top - 1))
}

fn is_at_or_before(report: &Report, a: usize, b: usize) -> bool
    ensures { result ≡ (nat_eq a b || is_request_before report.now a b) }
{
    a == b || is_request_before(report, a, b)
}

/// The place in the line of each request below `count` that it has.
pub fn places_in(alloc: Global, line: &[usize], count: usize) -> Result<Vec<usize>, AllocError>
    ensures { IfOk result (λ places. ArePlacesIn line.now count (length line.now) places.items) }
{
    let mut places = zeroes(alloc, count)?;
    for place in 0..line.len() {
        put_place(&mut places, line[place], place);
    }
    Ok(places)
}

fn zeroes(alloc: Global, count: usize) -> Result<Vec<usize>, AllocError>
    ensures { IfOk result (λ made. length made.items ≡ count) }
{
    vec![in alloc; 0; count]
}

fn put_place(places: &mut Vec<usize>, request: usize, place: usize)
    ensures size { length places.new.items ≡ length places.old.items }
    ensures here { request < length places.new.items → item places.new.items request ≡ place }
    ensures others { (r : ℕ) → ¬ (r ≡ request) → item places.new.items r ≡ item places.old.items r }
{
    if request >= places.len() {
        return;
    }
    places[request] = place;
}
