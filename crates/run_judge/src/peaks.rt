//! Of the first requests of a chain the one of the latest phase.
ghost use Rattle.std.specs.Prelude.{◌≡◌, ◌⊎◌, ◌≤◌, ℕ, List, IfOk, MatchOption, length};
ghost use Rattle.order_witness.specs.ByNumber.{list_at};
ghost use Rattle.order_witness.specs.Heads.{item};
ghost use Rattle.run_judge.specs.Numbers as numbers;

use crate::begun::{item, list_at};
use std::alloc::{AllocError, Global};
use weave_data::Items;

/// For each chain and each of its places the request of the latest phase up to there.
pub fn peaks_of(
    alloc: Global,
    chains: &[Items<usize>],
    phases: &[usize],
) -> Result<Vec<Items<usize>>, AllocError>
    ensures { IfOk result (λ peaks. numbers.ArePeaksOf phases.now chains.now peaks.items) }
{
    let mut peaks = Vec::new(alloc);
    for chain in 0..chains.len() {
        let peaks_here = peaks_in(alloc, chains[chain].as_slice(), phases)?;
        peaks.push(peaks_here)?;
    }
    Ok(peaks)
}

fn peaks_in(alloc: Global, chain: &[usize], phases: &[usize]) -> Result<Items<usize>, AllocError>
    ensures { IfOk result (λ peaks. numbers.ArePeaks phases.now chain.now peaks) }
{
    let mut peaks = Vec::new(alloc);
    let mut peak = item(chain, 0);
    for place in 0..chain.len() {
        let next = later(phases, peak, chain[place]);
        peaks.push(next)?;
        peak = next;
    }
    Ok(Items::from_vec(peaks))
}

// The second request if it is of a later phase, else the first.
fn later(phases: &[usize], a: usize, b: usize) -> usize
    ensures first { item phases.now a ≤ item phases.now result }
    ensures second { item phases.now b ≤ item phases.now result }
    ensures one { (result ≡ a) ⊎ (result ≡ b) }
{
    if item(phases, a) < item(phases, b) {
        b
    } else {
        a
    }
}

/// A request of a later phase among those that a row counts, if there is one.
pub fn later_counted(
    peaks: &[Items<usize>],
    phases: &[usize],
    row: &[usize],
    phase: usize,
) -> Option<usize>
    ensures { (chains : List (List ℕ)) → numbers.ArePeaksOf phases.now chains peaks.now
        → ((c : ℕ) → item row.now c ≤ length (list_at chains c))
        → MatchOption result (numbers.NoneLaterCounted phases.now chains row.now phase)
        (numbers.IsLaterCounted phases.now chains row.now phase) }
{
    for chain in 0..row.len() {
        let count = row[chain];
        if count > 0 {
            let peak = item(list_at(peaks, chain), count - 1);
            if phase < item(phases, peak) {
                return Some(peak);
            }
        }
    }
    None
}
