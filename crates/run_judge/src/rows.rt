//! Of each begun request how many of the first requests of each chain precede it: row by row, in an order in which each
//! request comes after all that precede it.
ghost use Rattle.std.specs.Prelude.{◌≡◌, ◌≤◌, ◌<◌, ◌-◌, ℕ, false, IsTrue, IfOk, length, replicate};
ghost use Rattle.order_witness.specs.Begun.{is_request_before};
ghost use Rattle.order_witness.specs.ByNumber.{list_at};
ghost use Rattle.order_witness.specs.Heads.{item};
ghost use Rattle.order_witness.specs.Preceding.{LeadsBySteps, direct_steps};
ghost use Rattle.order_witness.specs.Rows.{AreTurns, HadTurn};
ghost use Rattle.run_judge.specs.Chains.{AreTurnChains, spot_at};
ghost use Rattle.run_judge.specs.Rows.{AreTurnRows, IsJoined, IsPartOfRow, IsRow, IsJoinedCount};

use crate::begun::{is_request_before, item, list_at};
use crate::chains::Spot;
use crate::earlier_ends::empty_lists;
use report_rules::Report;
use std::alloc::{AllocError, Global};
use vector_stamp::laws::stamps_are_ordered;
use weave_data::Items;

/// The rows of the requests that have turns.
pub fn rows_of(
    alloc: Global,
    report: &Report,
    ends: &[Items<usize>],
    chains: &[Items<usize>],
    spots: &[Spot],
    turns: &[u32],
) -> Result<Vec<Items<usize>>, AllocError>
    requires chains { AreTurnChains (is_request_before report.now) turns.now (length turns.now) chains.now spots.now }
    requires turns { AreTurns (direct_steps report.now ends.now) turns.now (length report.now.replies) }
    ensures { IfOk result (λ rows. AreTurnRows (LeadsBySteps (direct_steps report.now ends.now)) chains.now spots.now
        turns.now (length turns.now) rows.items) }
{
    let mut rows = empty_lists(alloc, report.replies.as_slice().len())?;
    for turn in 0..turns.len() {
        let row = row_of(
            alloc,
            report,
            ends,
            chains,
            spots,
            rows.as_slice(),
            turns,
            turn,
        )?;
        rows[turns[turn] as usize] = row;
    }
    Ok(rows)
}

// The row of the request of a turn.
fn row_of(
    alloc: Global,
    report: &Report,
    ends: &[Items<usize>],
    chains: &[Items<usize>],
    spots: &[Spot],
    rows: &[Items<usize>],
    turns: &[u32],
    turn: usize,
) -> Result<Items<usize>, AllocError>
    requires chains { AreTurnChains (is_request_before report.now) turns.now (length turns.now) chains.now spots.now }
    requires turns { AreTurns (direct_steps report.now ends.now) turns.now (length report.now.replies) }
    requires turn { turn < length turns.now }
    requires rows { AreTurnRows (LeadsBySteps (direct_steps report.now ends.now)) chains.now spots.now turns.now turn
        rows.now }
    ensures { IfOk result (IsRow (LeadsBySteps (direct_steps report.now ends.now)) chains.now spots.now
        (item turns.now turn)) }
{
    stamps_are_ordered();
    let request = turns[turn] as usize;
    let mut row = zeroes(alloc, chains.len())?;
    join_one_before(report, ends, chains, spots, rows, turns, turn, &mut row);
    for earlier in list_at(ends, request) {
        let spot = spot_of(spots, *earlier);
        join(&mut row, list_at(rows, *earlier), spot.chain, spot.place);
    }
    for chain in 0..chains.len() {
        let list = chains[chain].as_slice();
        let from = item(row.as_slice(), chain);
        let next = passed(report, list, from, request);
        if from < next {
            let last = item(list, next - 1);
            join(&mut row, list_at(rows, last), chain, next);
        }
    }
    Ok(Items::from_vec(row))
}

fn zeroes(alloc: Global, count: usize) -> Result<Vec<usize>, AllocError>
    ensures { IfOk result (λ made. made.items ≡ replicate count 0) }
{
    vec![in alloc; 0; count]
}

// Joins the row of the request before this one in its chain: so each chain is passed once for each other one.
fn join_one_before(
    report: &Report,
    ends: &[Items<usize>],
    chains: &[Items<usize>],
    spots: &[Spot],
    rows: &[Items<usize>],
    turns: &[u32],
    turn: usize,
    row: &mut Vec<usize>,
)
    requires chains { AreTurnChains (is_request_before report.now) turns.now (length turns.now) chains.now spots.now }
    requires turns { AreTurns (direct_steps report.now ends.now) turns.now (length report.now.replies) }
    requires turn { turn < length turns.now }
    requires rows { AreTurnRows (LeadsBySteps (direct_steps report.now ends.now)) chains.now spots.now turns.now turn
        rows.now }
    requires part { IsPartOfRow (LeadsBySteps (direct_steps report.now ends.now)) chains.now spots.now
        (item turns.now turn) row.old.items }
    ensures { IsPartOfRow (LeadsBySteps (direct_steps report.now ends.now)) chains.now spots.now
        (item turns.now turn) row.new.items }
{
    stamps_are_ordered();
    let spot = spot_of(spots, turns[turn] as usize);
    if spot.place <= 1 {
        return;
    }
    let count = spot.place - 1;
    let last = item(list_at(chains, spot.chain), count - 1);
    join(row, list_at(rows, last), spot.chain, count);
}

/// The spot of a request.
pub fn spot_of(spots: &[Spot], request: usize) -> Spot
    ensures { result ≡ spot_at spots.now request }
{
    match spots.get(request) {
        Some(spot) => *spot,
        None => Spot { chain: 0, place: 0 },
    }
}

// Joins another row, and the first requests of a chain, that many.
fn join(row: &mut Vec<usize>, other: &[usize], chain: usize, count: usize)
    ensures { IsJoined row.old.items other.now row.new.items chain count }
{
    for index in 0..row.len() {
        row[index] = joined(chain, count, index, row[index], item(other, index));
    }
}

fn joined(chain: usize, count: usize, index: usize, a: usize, b: usize) -> usize
    ensures { IsJoinedCount chain count index a b result }
{
    let most = if a < b { b } else { a };
    if chain == index && most < count {
        count
    } else {
        most
    }
}

// The place in the list, from one on, up to which its requests are before this one.
fn passed(report: &Report, list: &[usize], from: usize, request: usize) -> usize
    ensures onward { from ≤ result }
    ensures within { from < result → result ≤ length list.now }
    ensures last { from < result → IsTrue (is_request_before report.now (item list.now (result - 1)) request) }
    ensures stopped { result < length list.now
        → is_request_before report.now (item list.now result) request ≡ false }
{
    if list.len() <= from {
        return from;
    }
    for place in from..list.len() {
        if !is_request_before(report, list[place], request) {
            return place;
        }
    }
    list.len()
}
