//! Phases: the first reply line that doesn't keep them.
ghost use Rattle.std.specs.Prelude.{◌≡◌, ◌<◌, ℕ, None, Some, IfOk, MatchOption, length, map, slice_get};
ghost use Rattle.weave_data.specs.Facts.{AllHold};
ghost use Rattle.program_defs.specs.declared.script.Script.{Script};
ghost use Rattle.report_rules.specs.declared.report.Reply.{Reply};
ghost use Rattle.report_rules.specs.Lookups as lookups;
ghost use Rattle.report_rules.specs.Lookups.{RequestPrecedes};
ghost use Rattle.report_rules.specs.Meetings.{phase_of};
ghost use Rattle.report_rules.specs.RightReport as right;
ghost use Rattle.run_judge.specs.Numbers.{greatest_at};
ghost use Rattle.run_judge.specs.Phases as specs;
ghost use Rattle.run_judge.specs.Promises.{NoLaterPrecedes, commits_before_refusal};
ghost use Rattle.run_judge.specs.Ways.{TellsWays};

use crate::begun::{item, list_at, stamp_of};
use crate::judge::{PhaseFault, PhasePart};
use crate::peaks::{later_counted, peaks_of};
use crate::phase_numbers::{Numbered, greatest_before, phases_of};
use crate::ways::Ways;
use program_defs::Script;
use report_rules::{Reply, ReplyState, Report};
use std::alloc::{AllocError, Global};
use weave_data::Items;

/// What is known of phases: that of each request, the requests of the latest phases in the chains, and for each request
/// the greatest commit number and the greatest number of a refusal of earlier phases.
#[derive(Drop)]
pub struct Phases {
    pub phases: Vec<usize>,
    pub peaks: Vec<Items<usize>>,
    pub commits: Vec<Option<Numbered>>,
    pub refusals: Vec<Option<Numbered>>,
}

/// How a reply doesn't keep the phases, and with which request, by its place in the script.
#[derive(Clone, Copy)]
pub struct Broken {
    pub part: PhasePart,
    pub other: usize,
}

/// The first reply line that doesn't keep the phases.
pub fn first_fault(
    alloc: Global,
    script: &Script,
    report: &Report,
    ways: &Ways,
) -> Result<Option<PhaseFault>, AllocError>
    requires replies { AllHold (right.replies_clause script.now report.now) }
    requires conflicts { AllHold (right.conflicts_clause script.now report.now) }
    requires tells { TellsWays report.now ways.now }
    ensures { IfOk result (specs.IsFirstPhaseFault script.now report.now) }
{
    let known = known_of(alloc, script, report, ways)?;
    Ok(first_out_of_phase(report, ways, &known))
}

fn known_of(
    alloc: Global,
    script: &Script,
    report: &Report,
    ways: &Ways,
) -> Result<Phases, AllocError>
    ensures { IfOk result (specs.AreKnown script.now report.now ways.now) }
{
    let replies = report.replies.as_slice();
    let phases = phases_of(alloc, script, replies.len())?;
    let peaks = peaks_of(alloc, ways.chains.as_slice(), phases.as_slice())?;
    let numbers = commit_numbers(alloc, replies)?;
    let commits = greatest_before(alloc, numbers.as_slice(), phases.as_slice())?;
    let refused = refusal_numbers(alloc, replies)?;
    let refusals = greatest_before(alloc, refused.as_slice(), phases.as_slice())?;
    Ok(Phases {
        phases,
        peaks,
        commits,
        refusals,
    })
}

// The commit number of each reply that has one.
fn commit_numbers(alloc: Global, replies: &[Reply]) -> Result<Vec<Option<u64>>, AllocError>
    ensures { IfOk result (λ numbers. numbers.items ≡ specs.commit_values replies.now) }
{
    let mut numbers = Vec::new(alloc);
    for reply in replies {
        numbers.push(commit_number(&reply.state))?;
    }
    Ok(numbers)
}

fn commit_number(state: &ReplyState) -> Option<u64>
    ensures { result ≡ lookups.committed_number state.now }
{
    match state {
        ReplyState::Committed { number, .. } => Some(*number),
        _ => None,
    }
}

// For each refused reply after how many commits it is refused.
fn refusal_numbers(alloc: Global, replies: &[Reply]) -> Result<Vec<Option<u64>>, AllocError>
    ensures { IfOk result (λ numbers. numbers.items ≡ specs.refusal_values replies.now) }
{
    let mut numbers = Vec::new(alloc);
    for reply in replies {
        numbers.push(refusal_number(&reply.state))?;
    }
    Ok(numbers)
}

fn refusal_number(state: &ReplyState) -> Option<u64>
    ensures { result ≡ commits_before_refusal state.now }
{
    match state {
        ReplyState::Refused { at, .. } => Some(*at),
        _ => None,
    }
}

fn first_out_of_phase(report: &Report, ways: &Ways, known: &Phases) -> Option<PhaseFault>
    requires { TellsWays report.now ways.now }
    ensures { (script : Script) → specs.CanJudgePhases script report.now ways.now known.now
        → specs.IsFirstPhaseFault script report.now result }
{
    for (place, reply) in report.replies.as_slice().iter().enumerate() {
        let found = broken_part(report, ways, known, place, &reply.state);
        if let Some(broken) = found {
            return Some(PhaseFault {
                place: place as u64 + 1,
                part: broken.part,
                other: request_at(report, broken.other),
            });
        }
    }
    None
}

// The request of a reply.
fn request_at(report: &Report, place: usize) -> u32
    ensures { (reply : Reply) → slice_get report.now.replies place ≡ Some reply → result ≡ reply.request }
{
    match report.replies.as_slice().get(place) {
        Some(reply) => reply.request,
        None => 0,
    }
}

// How a reply doesn't keep the phases, and with which request.
fn broken_part(
    report: &Report,
    ways: &Ways,
    known: &Phases,
    place: usize,
    state: &ReplyState,
) -> Option<Broken>
    requires { TellsWays report.now ways.now }
    ensures { (script : Script) → specs.CanJudgePhases script report.now ways.now known.now
        → (reply : Reply) → slice_get report.now.replies place ≡ Some reply → reply.state ≡ state.now
        → specs.IsBrokenPart script report.now place state.now result }
{
    let precedence = later_preceding(report, ways, known, place);
    let conflict = conflict_of(known.phases.as_slice(), place, state);
    let commit = greatest_at(known.commits.as_slice(), place);
    let number = not_below(&commit, commit_number(state));
    let refused = greatest_at(known.refusals.as_slice(), place);
    let earlier_refusal = not_below(&refused, commit_number(state));
    let refusal = above(&commit, refusal_number(state));
    first_part(precedence, conflict, number, earlier_refusal, refusal)
}

// The first part that is broken, with its request.
fn first_part(
    precedence: Option<usize>,
    conflict: Option<usize>,
    number: Option<usize>,
    earlier_refusal: Option<usize>,
    refusal: Option<usize>,
) -> Option<Broken>
    ensures { result ≡ specs.first_part precedence conflict number earlier_refusal refusal }
{
    match precedence {
        Some(other) => breaks_with(PhasePart::Precedence, other),
        None => part_of_state(conflict, number, earlier_refusal, refusal),
    }
}

fn part_of_state(
    conflict: Option<usize>,
    number: Option<usize>,
    earlier_refusal: Option<usize>,
    refusal: Option<usize>,
) -> Option<Broken>
    ensures { result ≡ specs.first_part None conflict number earlier_refusal refusal }
{
    match conflict {
        Some(other) => breaks_with(PhasePart::Conflict, other),
        None => part_of_numbers(number, earlier_refusal, refusal),
    }
}

fn part_of_numbers(
    number: Option<usize>,
    earlier_refusal: Option<usize>,
    refusal: Option<usize>,
) -> Option<Broken>
    ensures { result ≡ specs.first_part None None number earlier_refusal refusal }
{
    match number {
        Some(other) => breaks_with(PhasePart::Number, other),
        None => part_of_refusals(earlier_refusal, refusal),
    }
}

fn part_of_refusals(earlier_refusal: Option<usize>, refusal: Option<usize>) -> Option<Broken>
    ensures { result ≡ specs.first_part None None None earlier_refusal refusal }
{
    match earlier_refusal {
        Some(other) => breaks_with(PhasePart::EarlierRefusal, other),
        None => part_of_refusal(refusal),
    }
}

fn part_of_refusal(refusal: Option<usize>) -> Option<Broken>
    ensures { result ≡ specs.first_part None None None None refusal }
{
    match refusal {
        Some(other) => breaks_with(PhasePart::Refusal, other),
        None => None,
    }
}

fn breaks_with(part: PhasePart, other: usize) -> Option<Broken>
    ensures { result ≡ Some (record { part = part; other = other }) }
{
    Some(Broken { part, other })
}

// A request of a later phase that precedes this one.
fn later_preceding(report: &Report, ways: &Ways, known: &Phases, place: usize) -> Option<usize>
    requires { TellsWays report.now ways.now }
    ensures { (script : Script) → specs.CanJudgePhases script report.now ways.now known.now
        → place < length report.now.replies
        → MatchOption result (NoLaterPrecedes script report.now place)
        (λ other. (phase_of script place < phase_of script other) × RequestPrecedes report.now other place) }
{
    let Some(_) = stamp_of(report, place) else {
        return None;
    };
    let phases = known.phases.as_slice();
    let row = list_at(ways.rows.as_slice(), place);
    later_counted(known.peaks.as_slice(), phases, row, item(phases, place))
}

// The newer request of a conflict, if it is of another phase.
fn conflict_of(phases: &[usize], place: usize, state: &ReplyState) -> Option<usize>
    ensures { specs.IsConflictFound phases.now place (specs.newer_of state.now) result }
{
    let Some(newer) = newer_of(state) else {
        return None;
    };
    if item(phases, place) == item(phases, newer) {
        None
    } else {
        Some(newer)
    }
}

fn newer_of(state: &ReplyState) -> Option<usize>
    ensures { result ≡ specs.newer_of state.now }
{
    match state {
        ReplyState::Conflict { newer, .. } => Some(*newer as usize),
        _ => None,
    }
}

fn greatest_at(greatest: &[Option<Numbered>], place: usize) -> Option<Numbered>
    ensures { result ≡ greatest_at greatest.now place }
{
    match greatest.get(place) {
        Some(found) => *found,
        None => None,
    }
}

// The request whose number isn't below this one.
fn not_below(greatest: &Option<Numbered>, number: Option<u64>) -> Option<usize>
    ensures { specs.IsOneNotBelow greatest.now number result }
{
    match (greatest, number) {
        (Some(found), Some(number)) => {
            if found.number < number {
                None
            } else {
                Some(found.request)
            }
        }
        _ => None,
    }
}

// The request whose number is above this one.
fn above(greatest: &Option<Numbered>, number: Option<u64>) -> Option<usize>
    ensures { specs.IsOneAbove greatest.now number result }
{
    match (greatest, number) {
        (Some(found), Some(number)) => {
            if number < found.number {
                Some(found.request)
            } else {
                None
            }
        }
        _ => None,
    }
}
