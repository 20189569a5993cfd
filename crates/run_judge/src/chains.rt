//! The begun requests in chains whose stamps rise, at most one for each gatekeeper.
ghost use Rattle.std.specs.Prelude.{◌≡◌, ◌≤◌, ◌<◌, ◌+◌, ◌++◌, ◌∷◌, ℕ, [], IsTrue, IfOk, OnOk, length};
ghost use Rattle.order_witness.specs.Begun.{is_request_before};
ghost use Rattle.order_witness.specs.ByNumber.{list_at};
ghost use Rattle.order_witness.specs.Heads.{item};
ghost use Rattle.run_judge.specs.Chains.{AreTurnChains, AreRisingBy, IsAtSpot, MayGoOn, spot_at};
ghost use Rattle.run_judge.specs.declared.chains.Spot.{Spot};

use crate::begun::stamp_of;
use report_rules::Report;
use std::alloc::{AllocError, Global};
use vector_stamp::laws::stamps_are_ordered;
use weave_data::Items;

/// Where a request is: a chain, from 0, and its place in that chain, from 1.
#[derive(Clone, Copy)]
pub struct Spot {
    pub chain: usize,
    pub place: usize,
}

/// Chains, and the spot of each request that is in one.
#[derive(Drop)]
pub struct Chains {
    pub lists: Vec<Items<usize>>,
    pub spots: Vec<Spot>,
}

/// Chains of the requests that have turns. Each request goes on the first chain that ends with one of its gatekeeper
/// and with a stamp before its own, or begins a new one.
pub fn chains_of(alloc: Global, report: &Report, turns: &[u32]) -> Result<Chains, AllocError>
    requires { (k : ℕ) → k < length turns.now → item turns.now k < length report.now.replies }
    ensures { IfOk result (λ made. AreTurnChains (is_request_before report.now) turns.now (length turns.now)
        made.lists.items made.spots.items) }
{
    let mut lists = Vec::new(alloc);
    let mut spots = no_spots(alloc, report.replies.as_slice().len())?;
    for turn in 0..turns.len() {
        put(alloc, report, &mut lists, &mut spots, turns[turn] as usize)?;
    }
    Ok(Chains { lists, spots })
}

fn no_spots(alloc: Global, count: usize) -> Result<Vec<Spot>, AllocError>
    ensures { IfOk result (λ spots. length spots.items ≡ count) }
{
    let spot = Spot { chain: 0, place: 0 };
    vec![in alloc; spot; count]
}

// Puts the request at the end of a chain, and notes its spot.
fn put(
    alloc: Global,
    report: &Report,
    lists: &mut Vec<Items<usize>>,
    spots: &mut Vec<Spot>,
    request: usize,
) -> Result<(), AllocError>
    requires { request < length spots.old.items }
    ensures size { length spots.new.items ≡ length spots.old.items }
    ensures rising { OnOk result (AreRisingBy (is_request_before report.now) lists.old.items
        → AreRisingBy (is_request_before report.now) lists.new.items) }
    ensures stay { OnOk result ((spot : Spot) (a : ℕ) → IsAtSpot lists.old.items spot a
        → IsAtSpot lists.new.items spot a) }
    ensures here { OnOk result (IsAtSpot lists.new.items (spot_at spots.new.items request) request) }
    ensures others { OnOk result ((r : ℕ) → ¬ (r ≡ request)
        → spot_at spots.new.items r ≡ spot_at spots.old.items r) }
{
    stamps_are_ordered();
    let chain = chain_for(report, lists.as_slice(), request);
    make_chain(alloc, lists, chain)?;
    let place = add_at(lists, chain, request)?;
    set_spot(spots, request, Spot { chain, place });
    Ok(())
}

// Adds an empty chain, if this one isn't there.
fn make_chain(alloc: Global, lists: &mut Vec<Items<usize>>, chain: usize) -> Result<(), AllocError>
    ensures there { OnOk result (chain ≤ length lists.old.items → chain < length lists.new.items) }
    ensures no_fewer { OnOk result (length lists.old.items ≤ length lists.new.items) }
    ensures same { OnOk result ((n : ℕ) → list_at lists.new.items n ≡ list_at lists.old.items n) }
{
    if chain < lists.len() {
        return Ok(());
    }
    lists.push(Items::new(alloc))?;
    Ok(())
}

// Adds the request at the end of a chain, and answers its place.
fn add_at(lists: &mut Vec<Items<usize>>, chain: usize, request: usize) -> Result<usize, AllocError>
    requires { chain < length lists.old.items }
    ensures size { length lists.new.items ≡ length lists.old.items }
    ensures place { IfOk result (λ place. place ≡ length (list_at lists.old.items chain) + 1) }
    ensures here { OnOk result (list_at lists.new.items chain ≡ list_at lists.old.items chain ++ request ∷ []) }
    ensures others { (n : ℕ) → ¬ (n ≡ chain) → list_at lists.new.items n ≡ list_at lists.old.items n }
{
    let list = &mut lists[chain];
    list.push(request)?;
    Ok(list.as_slice().len())
}

fn set_spot(spots: &mut Vec<Spot>, request: usize, spot: Spot)
    ensures size { length spots.new.items ≡ length spots.old.items }
    ensures here { request < length spots.old.items → spot_at spots.new.items request ≡ spot }
    ensures others { (r : ℕ) → ¬ (r ≡ request) → spot_at spots.new.items r ≡ spot_at spots.old.items r }
{
    if request >= spots.len() {
        return;
    }
    spots[request] = spot;
}

// The first chain that the request may go on, or the number of chains.
fn chain_for(report: &Report, lists: &[Items<usize>], request: usize) -> usize
    ensures within { result ≤ length lists.now }
    ensures goes_on { MayGoOn (is_request_before report.now) (list_at lists.now result) request }
{
    for chain in 0..lists.len() {
        if goes_on(report, lists[chain].as_slice(), request) {
            return chain;
        }
    }
    lists.len()
}

fn goes_on(report: &Report, list: &[usize], request: usize) -> bool
    ensures { IsTrue result → MayGoOn (is_request_before report.now) list.now request }
{
    let count = list.len();
    if count == 0 {
        return false;
    }
    follows(report, list[count - 1], request)
}

// Whether the second request is of the first one's gatekeeper, with a later stamp.
fn follows(report: &Report, a: usize, b: usize) -> bool
    ensures { IsTrue result → IsTrue (is_request_before report.now a b) }
{
    match (stamp_of(report, a), stamp_of(report, b)) {
        (Some(a), Some(b)) => a.home == b.home && a.is_before(&b),
        _ => false,
    }
}
