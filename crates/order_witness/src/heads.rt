//! The heads of the gatekeepers' chains: of the begun requests that are left, the ones that may come next in the
//! printed order.
//!
//! The begun requests are sorted by their stamps, and cut into runs whose stamps rise, at most one for each gatekeeper.
//! Of each run only the first request that is left can be next: so each turn compares one candidate a run, and asks
//! whether the earlier ends of their pairs had their turns.
ghost use Rattle.std.specs.Prelude.{◌≡◌, ◌<◌, ◌≤◌, ◌&&◌, ℕ, IsTrue, IfOk, Some, length, map, not, is_some};
ghost use Rattle.std.specs.List.{filter, list_any};
ghost use Rattle.report_rules.specs.declared.report.Reply.{Reply};
ghost use Rattle.report_rules.specs.RightReport.{replies_clause};
ghost use Rattle.report_rules.specs.Lookups as lookups;
ghost use Rattle.program_defs.specs.declared.script.Script.{Script};
ghost use Rattle.weave_data.specs.Facts.{AllHold};
ghost use Rattle.order_witness.specs.Begun.{is_request_before};
ghost use Rattle.order_witness.specs.Choices.{IsBest, home_at, is_better, is_free};
ghost use Rattle.order_witness.specs.Heads as heads;

use crate::by_number::ByNumber;
use crate::lookups::{is_begun, is_request_before, stamp_of};
use program_defs::Script;
use report_rules::{Pair, Reply, Report};
use std::alloc::{AllocError, Global};
use vector_stamp::laws::{precedence_is_decided, stamps_are_ordered};

/// Places of the sorted requests: the next one, and the end.
#[derive(Clone, Copy)]
pub struct Run {
    pub next: usize,
    pub end: usize,
}

/// For each request the earlier ends of those of its pairs whose two ends are begun.
pub fn earlier_ends(
    alloc: Global,
    replies: &[Reply],
    pairs: &[Pair],
) -> Result<ByNumber, AllocError>
    ensures size { IfOk result (λ ends. length ends ≡ length replies.now) }
    ensures ends { IfOk result (heads.AreEndsOf replies.now pairs.now) }
{
    let mut ends = ByNumber::new(alloc, replies.len())?;
    for pair in pairs {
        if is_begun(replies, pair.earlier) && is_begun(replies, pair.later) {
            ends.put(pair.later as u64, pair.earlier as usize)?;
        }
    }
    Ok(ends)
}

/// For each reply whether its request never begins, and so has no turn.
pub fn never_begun(alloc: Global, replies: &[Reply]) -> Result<Vec<bool>, AllocError>
    ensures { IfOk result (λ done. done.items ≡ map (λ (reply : Reply). not (is_some reply.stamp)) replies.now) }
{
    let mut done = Vec::new(alloc);
    for reply in replies {
        done.push(!reply.stamp.is_some())?;
    }
    Ok(done)
}

/// The sorted requests cut into runs, each of which goes on while the stamps rise.
pub fn runs_of(alloc: Global, report: &Report, line: &[usize]) -> Result<Vec<Run>, AllocError>
    ensures rising { IfOk result (λ runs. heads.AreRising report.now line.now runs.items) }
    ensures reached { IfOk result (λ runs. (k : ℕ) → k < length line.now → heads.IsReached runs.items k) }
{
    stamps_are_ordered();
    let mut runs = Vec::new(alloc);
    let mut start = 0;
    for place in 1..line.len() {
        let rises = is_request_before(report, line[place - 1], line[place]);
        if !rises {
            runs.push(Run {
                next: start,
                end: place,
            })?;
            start = place;
        }
    }
    runs.push(Run {
        next: start,
        end: line.len(),
    })?;
    Ok(runs)
}

/// The next request in the printed order: of those left with no predecessor left, the one of the lowest home. The runs
/// and what is seen go on to the requests that are left.
pub fn next(
    alloc: Global,
    script: &Script,
    report: &Report,
    line: &[usize],
    befores: &ByNumber,
    runs: &mut [Run],
    seen: &mut [usize],
    done: &[bool],
) -> Result<Option<usize>, AllocError>
    requires replies { AllHold (replies_clause script.now report.now) }
    requires waiting { heads.AreWaiting report.now line.now befores.now runs.old seen.old done.now }
    ensures waiting { heads.AreWaiting report.now line.now befores.now runs.new seen.new done.now }
    ensures best { IfOk result (heads.IsBestLeft report.now done.now) }
{
    precedence_is_decided();
    stamps_are_ordered();
    advance(runs, line, done);
    let firsts = heads_of(alloc, line, runs)?;
    see(befores, firsts.as_slice(), done, seen);
    let ready = ready_of(alloc, befores, seen, firsts.as_slice())?;
    Ok(best_of(report, firsts.as_slice(), ready.as_slice()))
}

// Lets each run go on to its first request that is left.
fn advance(runs: &mut [Run], line: &[usize], done: &[bool])
    ensures size { length runs.new ≡ length runs.old }
    ensures each { heads.AreAdvanced line.now done.now runs.old runs.new }
{
    for run in runs.iter_mut() {
        run.next = first_left(line, done, run.next, run.end);
    }
}

// The first place from one to the end whose request is left.
fn first_left(requests: &[usize], done: &[bool], from: usize, end: usize) -> usize
    ensures { heads.IsFirstLeft requests.now done.now from end result }
{
    for place in from..end {
        if !is_done(done, item(requests, place)) {
            return place;
        }
    }
    end
}

/// The number at a place, 0 past the end.
pub fn item(requests: &[usize], place: usize) -> usize
    ensures { result ≡ heads.item requests.now place }
{
    match requests.get(place) {
        Some(request) => *request,
        None => 0,
    }
}

fn is_done(done: &[bool], request: usize) -> bool
    ensures { result ≡ heads.is_done done.now request }
{
    match done.get(request) {
        Some(is) => *is,
        None => true,
    }
}

// The first request of each run.
fn heads_of(alloc: Global, line: &[usize], runs: &[Run]) -> Result<Vec<usize>, AllocError>
    ensures { IfOk result (λ firsts. firsts.items ≡ heads.heads_of line.now runs.now) }
{
    let mut firsts = Vec::new(alloc);
    for run in runs {
        if run.next < run.end {
            firsts.push(item(line, run.next))?;
        }
    }
    Ok(firsts)
}

// Lets each of these requests look on at the earlier ends of its pairs, to the first one that is left.
fn see(befores: &ByNumber, requests: &[usize], done: &[bool], seen: &mut [usize])
    ensures size { length seen.new ≡ length seen.old }
    ensures seen { heads.AreSeenDone befores.now done.now seen.old → heads.AreSeenDone befores.now done.now seen.new }
    ensures is_left { (r : ℕ) → IsTrue (lookups.is_in r requests.now) → r < length seen.old
        → heads.IsAtLeft befores.now done.now seen.new r }
{
    for request in requests {
        see_one(befores, *request, done, seen);
    }
}

fn see_one(befores: &ByNumber, request: usize, done: &[bool], seen: &mut [usize])
    ensures size { length seen.new ≡ length seen.old }
    ensures others { (r : ℕ) → ¬ (r ≡ request) → heads.seen_by_request seen.new r ≡ heads.seen_by_request seen.old r }
    ensures first { request < length seen.old → heads.IsSeenOn befores.now done.now seen.old seen.new request }
    ensures past { length seen.old ≤ request → seen.new ≡ seen.old }
{
    if request >= seen.len() {
        return;
    }
    let ends = befores.list_of(request as u64);
    let from = seen[request];
    seen[request] = first_left(ends, done, from, ends.len());
}

// Those whose earlier ends have all had their turns.
fn ready_of(
    alloc: Global,
    befores: &ByNumber,
    seen: &[usize],
    requests: &[usize],
) -> Result<Vec<usize>, AllocError>
    ensures { IfOk result (λ ready. ready.items ≡ filter (heads.is_ready befores.now seen.now) requests.now) }
{
    requests
        .iter()
        .copied()
        .filter(|request| is_ready(befores, seen, *request))
        .collect(alloc)
}

fn is_ready(befores: &ByNumber, seen: &[usize], request: usize) -> bool
    ensures { result ≡ heads.is_ready befores.now seen.now request }
{
    befores.list_of(request as u64).len() <= item(seen, request)
}

// Among the ready requests whose stamps no head is before, the one with the lowest home.
fn best_of(report: &Report, firsts: &[usize], ready: &[usize]) -> Option<usize>
    ensures { IsBest report.now (is_request_before report.now) firsts.now ready.now result }
{
    let mut best = None;
    for request in ready {
        if is_choice(report, firsts, &best, *request) {
            best = Some(*request);
        }
    }
    best
}

// Whether it is better than the best one yet, and none of the heads is before it.
fn is_choice(report: &Report, firsts: &[usize], best: &Option<usize>, request: usize) -> bool
    ensures { result ≡ (is_better report.now best.now request
        && is_free (is_request_before report.now) firsts.now request) }
{
    is_better(report, best, request) && !is_after_one(report, firsts, request)
}

fn is_after_one(report: &Report, firsts: &[usize], request: usize) -> bool
    ensures { result ≡ list_any (λ other. is_request_before report.now other request) firsts.now }
{
    firsts
        .iter()
        .any(|other| is_request_before(report, *other, request))
}

// Whether there is none yet, or its home is below that one's.
fn is_better(report: &Report, best: &Option<usize>, request: usize) -> bool
    ensures { result ≡ is_better report.now best.now request }
{
    match best {
        None => true,
        Some(best) => home_of(report, request) < home_of(report, *best),
    }
}

fn home_of(report: &Report, request: usize) -> u32
    ensures { result ≡ home_at report.now request }
{
    match stamp_of(report, request) {
        Some(stamp) => stamp.home,
        None => 0,
    }
}
