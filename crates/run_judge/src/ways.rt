//! Which begun request precedes which, counted once for all.
ghost use Rattle.std.specs.Prelude.{◌≡◌, ◌&&◌, IfOk, is_some};
ghost use Rattle.weave_data.specs.Facts.{AllHold};
ghost use Rattle.report_rules.specs.RightReport as right;
ghost use Rattle.report_rules.specs.PrintedOrder.{TakesAll, begun_requests};
ghost use Rattle.order_witness.specs.Begun.{request_precedes, stamp_in};
ghost use Rattle.order_witness.specs.ByNumber.{list_at};
ghost use Rattle.run_judge.specs.Rows.{is_counted};
ghost use Rattle.run_judge.specs.Ways.{TellsWays};

use crate::begun::{is_begun, item, list_at};
use crate::chains::{Spot, chains_of};
use crate::earlier_ends::earlier_ends;
use crate::outline::turns_of;
use crate::rows::{rows_of, spot_of};
use program_defs::Script;
use report_rules::{Reply, Report};
use std::alloc::{AllocError, Global};
use vector_stamp::laws::{one_pair_joins_its_ends, precedence_is_decided, stamps_are_ordered};
use weave_data::Items;

/// The begun requests in turn, in chains, and with their rows.
#[derive(Drop)]
pub struct Ways {
    pub turns: Vec<u32>,
    pub chains: Vec<Items<usize>>,
    pub spots: Vec<Spot>,
    pub rows: Vec<Items<usize>>,
}

/// What precedes each begun request of a right report.
pub fn ways_of(alloc: Global, script: &Script, report: &Report) -> Result<Ways, AllocError>
    requires replies { AllHold (right.replies_clause script.now report.now) }
    requires listing { AllHold (right.listing_clause report.now) }
    requires order { AllHold (right.order_clause script.now report.now) }
    requires pairs { AllHold (right.pairs_clause script.now report.now) }
    ensures turns { IfOk result (λ ways. TakesAll report.now (begun_requests report.now) ways.turns.items) }
    ensures tells { IfOk result (TellsWays report.now) }
{
    precedence_is_decided();
    stamps_are_ordered();
    one_pair_joins_its_ends();
    let replies = report.replies.as_slice();
    let ends = earlier_ends(alloc, replies, report.pairs.as_slice())?;
    let turns = turns_of(alloc, script, report)?;
    let chains = chains_of(alloc, report, turns.as_slice())?;
    let rows = rows_of(
        alloc,
        report,
        ends.as_slice(),
        chains.lists.as_slice(),
        chains.spots.as_slice(),
        turns.as_slice(),
    )?;
    Ok(Ways {
        turns,
        chains: chains.lists,
        spots: chains.spots,
        rows,
    })
}

/// Whether the first request precedes the second.
pub fn precedes(report: &Report, ways: &Ways, a: u32, b: u32) -> bool
    requires { TellsWays report.now ways.now }
    ensures { result ≡ request_precedes report.now a b }
{
    precedence_is_decided();
    counts_begun(report.replies.as_slice(), ways, a, b)
}

// Whether both requests are begun, and the row of the second counts the first.
fn counts_begun(replies: &[Reply], ways: &Ways, a: u32, b: u32) -> bool
    ensures { result ≡ (is_some (stamp_in replies.now a)
        && (is_some (stamp_in replies.now b) && is_counted ways.now.spots.items (list_at ways.now.rows.items b) a)) }
{
    is_begun(replies, a) && (is_begun(replies, b) && counts(ways, a, b))
}

fn counts(ways: &Ways, a: u32, b: u32) -> bool
    ensures { result ≡ is_counted ways.now.spots.items (list_at ways.now.rows.items b) a }
{
    let spot = spot_of(ways.spots.as_slice(), a as usize);
    let row = list_at(ways.rows.as_slice(), b as usize);
    spot.place <= item(row, spot.chain)
}
