//! One walk over the order, that marks what precedes the requests so far.
//!
//! A request is marked once, when it is found to precede one of the order so far, and then looked at, if that wasn't
//! done when it was listed: what directly leads to it is marked too. By pairs that are the earlier ends of its pairs.
//! By stamps it is, of each gatekeeper, a first part of its begun requests: so each run has a next place, up to which
//! all are marked, and goes on while the request there is before this one.
ghost use Rattle.std.specs.Prelude.{◌≡◌, ℕ, ◌≤◌, ◌<◌, ◌+◌, [], false, IsTrue, IfOk, OnOk, length, map, replicate};
ghost use Rattle.report_rules.specs.Lookups.{is_in};
ghost use Rattle.order_witness.specs.declared.heads.Run.{Run};
ghost use Rattle.order_witness.specs.Begun.{is_request_before};
ghost use Rattle.order_witness.specs.ByNumber.{list_at};
ghost use Rattle.order_witness.specs.Heads.{item};
ghost use Rattle.order_witness.specs.Preceding.{direct_steps};
ghost use Rattle.order_witness.specs.Marks.{AreAllMarked, AreLookedAt, ArePreceders, ArePassed, AreRuns, AreMoreMarked, is_marked};

use crate::by_number::ByNumber;
use crate::heads::{Run, item};
use crate::lookups::is_request_before;
use report_rules::Report;
use std::alloc::{AllocError, Global};

/// No number below the count is marked.
pub fn no_marks(alloc: Global, count: usize) -> Result<Vec<bool>, AllocError>
    ensures { IfOk result (λ marks. marks.items ≡ replicate count false) }
{
    vec![in alloc; false; count]
}

/// The first places of the runs.
pub fn starts(alloc: Global, runs: &[Run]) -> Result<Vec<usize>, AllocError>
    ensures { IfOk result (λ starts. starts.items ≡ map (λ (run : Run). run.next) runs.now) }
{
    runs.iter().map(|run| run.next).collect(alloc)
}

/// Whether the request is marked.
pub fn is_marked(marked: &[bool], request: usize) -> bool
    ensures { result ≡ is_marked marked.now request }
{
    match marked.get(request) {
        Some(is) => *is,
        None => false,
    }
}

/// Marks what precedes the request at this place of the order, if that is done for those before it.
pub fn mark_before(
    alloc: Global,
    report: &Report,
    befores: &ByNumber,
    line: &[usize],
    runs: &[Run],
    passed: &mut [usize],
    marked: &mut [bool],
    looked: &mut [bool],
    order: &[u32],
    place: usize,
) -> Result<(), AllocError>
    requires place { place < length order.now }
    requires runs { AreRuns (is_request_before report.now) (list_at befores.now) line.now runs.now (length marked.old) }
    requires passed { ArePassed line.now marked.old runs.now passed.old }
    requires marked { ArePreceders (direct_steps report.now befores.now) order.now place marked.old [] }
    requires looked { AreLookedAt (direct_steps report.now befores.now) marked.old looked.old }
    ensures size { OnOk result (length marked.new ≡ length marked.old) }
    ensures passed { OnOk result (ArePassed line.now marked.new runs.now passed.new) }
    ensures marked { OnOk result (ArePreceders (direct_steps report.now befores.now) order.now (place + 1)
        marked.new []) }
    ensures looked { OnOk result (AreLookedAt (direct_steps report.now befores.now) marked.new looked.new) }
{
    let mut due = Vec::new(alloc);
    let first = order[place] as usize;
    look_once(
        report, befores, line, runs, passed, marked, looked, &mut due, first,
    )?;
    while let Some(request) = due.pop() {
        look_once(
            report, befores, line, runs, passed, marked, looked, &mut due, request,
        )?;
    }
    Ok(())
}

// Looks at the request, unless that was done before. It is done from then on.
fn look_once(
    report: &Report,
    befores: &ByNumber,
    line: &[usize],
    runs: &[Run],
    passed: &mut [usize],
    marked: &mut [bool],
    looked: &mut [bool],
    due: &mut Vec<usize>,
    request: usize,
) -> Result<(), AllocError>
    requires runs { AreRuns (is_request_before report.now) (list_at befores.now) line.now runs.now (length marked.old) }
    requires passed { ArePassed line.now marked.old runs.now passed.old }
    requires looked { AreLookedAt (direct_steps report.now befores.now) marked.old looked.old }
    ensures passed { OnOk result (ArePassed line.now marked.new runs.now passed.new) }
    ensures all { OnOk result (AreAllMarked (direct_steps report.now befores.now) marked.new request) }
    ensures grown { OnOk result (AreMoreMarked (λ a. IsTrue (direct_steps report.now befores.now a request))
        marked.old marked.new due.old.items due.new.items) }
    ensures looked { OnOk result (AreLookedAt (direct_steps report.now befores.now) marked.new looked.new) }
{
    if is_marked(looked, request) {
        return Ok(());
    }
    look(report, befores, line, runs, passed, marked, due, request)?;
    put(looked, request);
    Ok(())
}

fn put(looked: &mut [bool], request: usize)
    ensures { (a : ℕ) → ¬ (a ≡ request) → is_marked looked.new a ≡ is_marked looked.old a }
{
    if request >= looked.len() {
        return;
    }
    looked[request] = true;
}

/// Marks what directly leads to the request, and puts what is newly marked at the end of those to look at.
pub fn look(
    report: &Report,
    befores: &ByNumber,
    line: &[usize],
    runs: &[Run],
    passed: &mut [usize],
    marked: &mut [bool],
    due: &mut Vec<usize>,
    request: usize,
) -> Result<(), AllocError>
    requires runs { AreRuns (is_request_before report.now) (list_at befores.now) line.now runs.now (length marked.old) }
    requires passed { ArePassed line.now marked.old runs.now passed.old }
    ensures passed { OnOk result (ArePassed line.now marked.new runs.now passed.new) }
    ensures all { OnOk result (AreAllMarked (direct_steps report.now befores.now) marked.new request) }
    ensures grown { OnOk result (AreMoreMarked (λ a. IsTrue (direct_steps report.now befores.now a request))
        marked.old marked.new due.old.items due.new.items) }
{
    mark_ends(befores.list_of(request as u64), marked, due)?;
    for i in 0..runs.len() {
        let next = passed[i];
        passed[i] = mark_run(report, line, &runs[i], next, marked, due, request)?;
    }
    Ok(())
}

// Marks the earlier ends of a request's pairs.
fn mark_ends(ends: &[usize], marked: &mut [bool], due: &mut Vec<usize>) -> Result<(), AllocError>
    ensures all { OnOk result ((a : ℕ) → IsTrue (is_in a ends.now) → a < length marked.old
        → IsTrue (is_marked marked.new a)) }
    ensures grown { OnOk result (AreMoreMarked (λ a. IsTrue (is_in a ends.now)) marked.old marked.new due.old.items
        due.new.items) }
{
    for earlier in ends {
        mark(marked, due, *earlier)?;
    }
    Ok(())
}

// Marks the requests of a run that are before this one, from a place on, and answers where that ends.
fn mark_run(
    report: &Report,
    line: &[usize],
    run: &Run,
    next: usize,
    marked: &mut [bool],
    due: &mut Vec<usize>,
    request: usize,
) -> Result<usize, AllocError>
    requires { (a : ℕ) → IsTrue (is_request_before report.now a request) → a < length marked.old }
    ensures onward { IfOk result (λ after. next ≤ after) }
    ensures marked { IfOk result (λ after. (k : ℕ) → next ≤ k → k < after
        → IsTrue (is_marked marked.new (item line.now k))) }
    ensures stopped { IfOk result (λ after. after < run.now.end
        → is_request_before report.now (item line.now after) request ≡ false) }
    ensures grown { OnOk result (AreMoreMarked (λ a. IsTrue (is_request_before report.now a request)) marked.old
        marked.new due.old.items due.new.items) }
{
    if run.end <= next {
        return Ok(next);
    }
    for place in next..run.end {
        let earlier = item(line, place);
        if !is_request_before(report, earlier, request) {
            return Ok(place);
        }
        mark(marked, due, earlier)?;
    }
    Ok(run.end)
}

// Marks the request, if it isn't marked, and puts it among those to look at.
fn mark(marked: &mut [bool], due: &mut Vec<usize>, request: usize) -> Result<(), AllocError>
    ensures there { OnOk result (request < length marked.old → IsTrue (is_marked marked.new request)) }
    ensures grown { OnOk result (AreMoreMarked (λ a. a ≡ request) marked.old marked.new due.old.items due.new.items) }
{
    if request >= marked.len() {
        return Ok(());
    }
    if marked[request] {
        return Ok(());
    }
    marked[request] = true;
    due.push(request)?;
    Ok(())
}
