//! A shortest chain of direct steps by which one request precedes another, and what each step is.
ghost use Rattle.std.specs.Prelude.{◌≡◌, ℕ, ◌<◌, ◌≤◌, suc, not, [], IsTrue, IfOk, OnOk, MatchOption, length};
ghost use Rattle.weave_data.specs.Facts.{AllHold};
ghost use Rattle.report_rules.specs.RightReport.{replies_clause};
ghost use Rattle.report_rules.specs.Lookups.{RequestPrecedes};
ghost use Rattle.order_witness.specs.Begun.{is_pair_between, is_request_before};
ghost use Rattle.order_witness.specs.ByNumber.{list_at};
ghost use Rattle.order_witness.specs.Chains.{IsLinkBetween, IsLinkOfStamps, IsShortestChain};
ghost use Rattle.order_witness.specs.Heads.{AreEarlierEnds, item};
ghost use Rattle.order_witness.specs.Marks.{AreRuns};
ghost use Rattle.order_witness.specs.Preceding.{AreStepsOf, direct_steps};
ghost use Rattle.order_witness.specs.Spreading.{IsFoundThrough, IsFirstPlace, IsSpreadWhole, node};

use crate::by_number::ByNumber;
use crate::heads::{Run, earlier_ends, item, runs_of};
use crate::lookups::{is_begun, is_request_before, same_session};
use crate::rising::places_by_stamps;
use crate::walk::{look, no_marks, starts};
use program_defs::Script;
use report_rules::{Pair, Reply, Report};
use std::alloc::{AllocError, Global};
use vector_stamp::laws::{one_pair_joins_its_ends, precedence_is_decided, stamps_are_ordered};

/// How a request leads directly to a later one.
#[derive(Clone, Copy, PartialEq, Eq, Debug)]
pub enum Link {
    /// Its stamp is before that one's, and both are of one session.
    Session,
    /// Its stamp is before that one's, of another session.
    Stamp,
    /// Its stamp isn't, and this pair of the report, from 0, joins it to that one.
    Joined(u64),
}

/// How the first request leads directly to the second, if it does.
pub fn link_between(script: &Script, report: &Report, a: u32, b: u32) -> Option<Link>
    ensures { IsLinkBetween script.now report.now a b result }
{
    if is_request_before(report, a as usize, b as usize) {
        return Some(link_of_stamps(script, a, b));
    }
    let replies = report.replies.as_slice();
    for (place, pair) in report.pairs.as_slice().iter().enumerate() {
        if joins(replies, pair, a, b) {
            return Some(Link::Joined(place as u64));
        }
    }
    None
}

fn link_of_stamps(script: &Script, a: u32, b: u32) -> Link
    ensures { IsLinkOfStamps script.now a b result }
{
    if same_session(script, a, b) {
        Link::Session
    } else {
        Link::Stamp
    }
}

// Whether the pair joins these two, both begun.
fn joins(replies: &[Reply], pair: &Pair, a: u32, b: u32) -> bool
    ensures { result ≡ is_pair_between replies.now a b pair.now }
{
    (a == pair.earlier && b == pair.later)
        && (is_begun(replies, pair.earlier) && is_begun(replies, pair.later))
}

/// A shortest chain of direct steps from one request to another: the requests after the first, up to the second. None
/// if the first doesn't precede the second. Each step is a `link_between`. The clause on replies must hold.
///
/// What leads to the second is found level by level: each request and each pair is looked at once.
pub fn chain_between(
    alloc: Global,
    script: &Script,
    report: &Report,
    a: u32,
    b: u32,
) -> Result<Option<Vec<usize>>, AllocError>
    requires { AllHold (replies_clause script.now report.now) }
    ensures { IfOk result (λ chain. MatchOption chain (¬ RequestPrecedes report.now a b)
        (λ requests. IsShortestChain report.now a b requests.items)) }
{
    stamps_are_ordered();
    precedence_is_decided();
    one_pair_joins_its_ends();
    let replies = report.replies.as_slice();
    let befores = earlier_ends(alloc, replies, report.pairs.as_slice())?;
    let parts = places_by_stamps(alloc, replies)?;
    let line = parts.as_slice();
    let cut = runs_of(alloc, report, line)?;
    let runs = cut.as_slice();
    chain_in(alloc, report, &befores, line, runs, a as usize, b as usize)
}

// The same, over the begun requests in runs.
fn chain_in(
    alloc: Global,
    report: &Report,
    befores: &ByNumber,
    line: &[usize],
    runs: &[Run],
    a: usize,
    b: usize,
) -> Result<Option<Vec<usize>>, AllocError>
    requires size { length befores.now ≡ length report.now.replies }
    requires ends { AreEarlierEnds report.now befores.now }
    requires runs { AreRuns (is_request_before report.now) (list_at befores.now) line.now runs.now
        (length report.now.replies) }
    requires steps { AreStepsOf report.now befores.now }
    ensures { IfOk result (λ chain. MatchOption chain (¬ RequestPrecedes report.now a b)
        (λ requests. IsShortestChain report.now a b requests.items)) }
{
    let mut found = Vec::new(alloc);
    let from = spread(alloc, report, befores, line, runs, b, &mut found)?;
    let nodes = found.as_slice();
    let Some(place) = first_place(nodes, a) else {
        return Ok(None);
    };
    let chain = follow(alloc, b, nodes, from.as_slice(), place)?;
    Ok(Some(chain))
}

// Finds all that leads to the request, and the node through which each was found.
fn spread(
    alloc: Global,
    report: &Report,
    befores: &ByNumber,
    line: &[usize],
    runs: &[Run],
    b: usize,
    found: &mut Vec<usize>,
) -> Result<Vec<usize>, AllocError>
    requires none { found.old.items ≡ [] }
    requires runs { AreRuns (is_request_before report.now) (list_at befores.now) line.now runs.now
        (length report.now.replies) }
    ensures { IfOk result (λ from. IsSpreadWhole (direct_steps report.now befores.now) b found.new.items from.items) }
{
    let mut storage = no_marks(alloc, report.replies.as_slice().len())?;
    let marked = storage.as_mut_slice();
    let mut nexts = starts(alloc, runs)?;
    let passed = nexts.as_mut_slice();
    let mut from = Vec::new(alloc);
    let mut looked = 0;
    while looked <= found.len() {
        let request = node(b, found.as_slice(), looked);
        look(report, befores, line, runs, passed, marked, found, request)?;
        fill(&mut from, looked, found.len())?;
        looked += 1;
    }
    Ok(from)
}

fn node(b: usize, found: &[usize], index: usize) -> usize
    ensures { result ≡ node b found.now index }
{
    if index == 0 {
        return b;
    }
    item(found, index - 1)
}

// Puts the number at the end until there are that many.
fn fill(numbers: &mut Vec<usize>, number: usize, count: usize) -> Result<(), AllocError>
    requires { length numbers.old.items ≤ count }
    ensures size { OnOk result (length numbers.new.items ≡ count) }
    ensures front { OnOk result ((k : ℕ) → k < length numbers.old.items
        → item numbers.new.items k ≡ item numbers.old.items k) }
    ensures added { OnOk result ((k : ℕ) → length numbers.old.items ≤ k → k < count
        → item numbers.new.items k ≡ number) }
{
    for _ in numbers.len()..count {
        numbers.push(number)?;
    }
    Ok(())
}

fn first_place(numbers: &[usize], number: usize) -> Option<usize>
    ensures { IsFirstPlace numbers.now number result }
{
    for place in 0..numbers.len() {
        if numbers[place] == number {
            return Some(place);
        }
    }
    None
}

// The nodes after one of these, each through which the one before was found.
fn follow(
    alloc: Global,
    b: usize,
    found: &[usize],
    from: &[usize],
    place: usize,
) -> Result<Vec<usize>, AllocError>
    requires place { place < length found.now }
    requires back { (i : ℕ) → i < length found.now → item from.now i ≤ i }
    ensures { IfOk result (λ chain. IsFoundThrough b found.now from.now (suc place) chain.items) }
{
    let mut chain = Vec::new(alloc);
    let mut at = place + 1;
    while at > 0 {
        at = item(from, at - 1);
        chain.push(node(b, found, at))?;
    }
    Ok(chain)
}
