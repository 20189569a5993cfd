//! The phases of requests, and for each request the greatest number of earlier phases.
ghost use Rattle.std.specs.Prelude.{◌≡◌, ◌<◌, ◌+◌, ◌-◌, ◌^◌, ◌==◌, ℕ, IfOk, nat_le, count_by, length, replicate, if◌then◌else◌};
ghost use Rattle.report_rules.specs.Meetings.{phase_of};
ghost use Rattle.order_witness.specs.Heads.{item};
ghost use Rattle.run_judge.specs.Begins.{AreBegins};
ghost use Rattle.run_judge.specs.Numbers as numbers;

use crate::begun::item;
use program_defs::Script;
use std::alloc::{AllocError, Global};

/// A request, by its place in the script, and its number.
#[derive(Clone, Copy)]
pub struct Numbered {
    pub request: usize,
    pub number: u64,
}

/// The phase of each request below a count.
pub fn phases_of(alloc: Global, script: &Script, count: usize) -> Result<Vec<usize>, AllocError>
    ensures size { IfOk result (λ phases. length phases.items ≡ count) }
    ensures phases { IfOk result (λ phases. (r : ℕ) → r < count → item phases.items r ≡ phase_of script.now r) }
{
    let starts = script.phases.as_slice();
    let begins = begins_of(alloc, starts, count)?;
    begun_to(alloc, starts, begins.as_slice())
}

// For each request below a count how many phases begin with it.
fn begins_of(alloc: Global, starts: &[u32], count: usize) -> Result<Vec<usize>, AllocError>
    ensures { IfOk result (λ begins. AreBegins starts.now count begins.items) }
{
    let mut begins = zeroes(alloc, count)?;
    for phase in 0..starts.len() {
        count_one(&mut begins, starts[phase] as usize);
    }
    Ok(begins)
}

fn zeroes(alloc: Global, count: usize) -> Result<Vec<usize>, AllocError>
    ensures { IfOk result (λ made. made.items ≡ replicate count 0) }
{
    vec![in alloc; 0; count]
}

// One phase more begins with the request at this place, if there is one.
fn count_one(begins: &mut Vec<usize>, place: usize)
    requires { item begins.old.items place < 2 ^ 63 }
    ensures size { length begins.new.items ≡ length begins.old.items }
    ensures counted { (r : ℕ) → r < length begins.old.items
        → item begins.new.items r ≡ item begins.old.items r + (if place == r then 1 else 0) }
{
    if place >= begins.len() {
        return;
    }
    begins[place] += 1;
}

// For each request how many phases have begun with it or before.
fn begun_to(alloc: Global, starts: &[u32], begins: &[usize]) -> Result<Vec<usize>, AllocError>
    requires { AreBegins starts.now (length begins.now) begins.now }
    ensures size { IfOk result (λ phases. length phases.items ≡ length begins.now) }
    ensures phases { IfOk result (λ phases. (r : ℕ) → r < length begins.now
        → item phases.items r ≡ count_by (λ before. nat_le before r) starts.now) }
{
    let mut phases = Vec::new(alloc);
    let mut phase = 0;
    for request in 0..begins.len() {
        phase += begins[request];
        phases.push(phase)?;
    }
    Ok(phases)
}

/// For each place the greatest number of the requests of earlier phases.
pub fn greatest_before(
    alloc: Global,
    values: &[Option<u64>],
    phases: &[usize],
) -> Result<Vec<Option<Numbered>>, AllocError>
    requires { numbers.NeverFall phases.now (length values.now) }
    ensures size { IfOk result (λ greatest. length greatest.items ≡ length values.now) }
    ensures greatest { IfOk result (λ greatest.
        numbers.AreGreatest values.now phases.now (length values.now) greatest.items) }
{
    let mut greatest = Vec::new(alloc);
    let mut earlier = None;
    let mut all = None;
    for place in 0..values.len() {
        let before = earlier_at(values, phases, place, earlier, all);
        greatest.push(before)?;
        let next = with_value(values, all, place);
        earlier = before;
        all = next;
    }
    Ok(greatest)
}

// The greatest number of earlier phases at a place: all before it count, if its phase is a new one.
fn earlier_at(
    values: &[Option<u64>],
    phases: &[usize],
    place: usize,
    earlier: Option<Numbered>,
    all: Option<Numbered>,
) -> Option<Numbered>
    requires never { numbers.NeverFall phases.now (length values.now) }
    requires within { place < length values.now }
    requires earlier { numbers.IsGreatest (numbers.HasEarlier values.now phases.now (place - 1)) earlier }
    requires all { numbers.IsGreatest (numbers.HasBefore values.now place) all }
    ensures { numbers.IsGreatest (numbers.HasEarlier values.now phases.now place) result }
{
    if place > 0 && item(phases, place - 1) < item(phases, place) {
        all
    } else {
        earlier
    }
}

// The greater one of a number and that of the request at a place.
fn with_value(values: &[Option<u64>], most: Option<Numbered>, place: usize) -> Option<Numbered>
    requires within { place < length values.now }
    requires most { numbers.IsGreatest (numbers.HasBefore values.now place) most }
    ensures { numbers.IsGreatest (numbers.HasBefore values.now (place + 1)) result }
{
    match values[place] {
        Some(number) => greater(most, place, number),
        None => most,
    }
}

fn greater(most: Option<Numbered>, request: usize, number: u64) -> Option<Numbered>
    ensures { numbers.IsGreaterOf most request number result }
{
    match most {
        Some(found) => {
            if found.number < number {
                Some(Numbered { request, number })
            } else {
                Some(found)
            }
        }
        None => Some(Numbered { request, number }),
    }
}
