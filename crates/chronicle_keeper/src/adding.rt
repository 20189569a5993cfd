//! Adding to a tally that is shared.
ghost use Rattle.std.specs.Prelude.{◌≡◌, ◌+◌, ◌-◌, ◌^◌, ◌<◌, ◌≤◌, ℕ, [], ◌∷◌, ◌++◌, All, IfOk, OnOk, MatchResult, Err, length, slice_index_or};
ghost use mathlib.Core.List.{IsPrefix};
ghost use Rattle.chronicle.specs.Logs.{IsGrown};
ghost use Rattle.chronicle.specs.Locks.{lock_of};
ghost use Rattle.chronicle.specs.Passes.{IsReady, number_of, seen_by_pass, own_entries};
ghost use Rattle.chronicle_keeper.specs.Totals.{numbered_by, total_of};
ghost use Rattle.chronicle_keeper.specs.Additions.{HasAdded, EachAdded};

use crate::tally::{Refused, Tally};
use chronicle::{Chronicle, Pass};
use std::alloc::{AllocError, Global};
use std::sync::Wait;
use std::thread;
use std::thread::Threads;

/// Adds a number under the number of the pass. It may wait.
pub fn add<R: Wait>(
    rt: &R,
    shared: &Chronicle<Tally>,
    pass: &mut Pass<u64>,
    value: u64,
) -> Result<(), Refused>
    requires { IsReady (lock_of shared.now) pass.old }
    ensures ready { IsReady (lock_of shared.now) pass.new }
    ensures number { number_of pass.new ≡ number_of pass.old }
    ensures seen { IsPrefix (seen_by_pass pass.old) (seen_by_pass pass.new) }
    ensures own { MatchResult result (λ _. own_entries pass.new ≡ own_entries pass.old
        ++ (number_of pass.old, value) ∷ []) (λ _. own_entries pass.new ≡ own_entries pass.old) }
    ensures too_large { result ≡ Err Refused.TooLarge → 2 ^ 64 ≤ total_of (seen_by_pass pass.new) + value }
    ensures memory { result ≡ Err Refused.Memory → total_of (seen_by_pass pass.new) + value < 2 ^ 64 }
{
    let author = pass.number();
    let mut held = shared.enter(rt, pass);
    let added = held.state().add(author, value);
    held.leave(pass);
    added
}

/// The sum, in the state that the pass finds. It may wait.
pub fn total<R: Wait>(rt: &R, shared: &Chronicle<Tally>, pass: &mut Pass<u64>) -> u64
    requires { IsReady (lock_of shared.now) pass.old }
    ensures ready { IsReady (lock_of shared.now) pass.new }
    ensures number { number_of pass.new ≡ number_of pass.old }
    ensures own { own_entries pass.new ≡ own_entries pass.old }
    ensures total { result ≡ total_of (seen_by_pass pass.new) }
{
    let mut held = shared.enter(rt, pass);
    let total = held.state().total();
    held.leave(pass);
    total
}

/// Adds the numbers from `from` on that are below `to`, up to the first that is refused.
pub fn add_range<R: Wait>(
    rt: &R,
    shared: &Chronicle<Tally>,
    pass: &mut Pass<u64>,
    from: u64,
    to: u64,
) -> Result<(), Refused>
    requires ready { IsReady (lock_of shared.now) pass.old }
    requires range { from ≤ to }
    ensures ready { IsReady (lock_of shared.now) pass.new }
    ensures added { HasAdded from (to - from) pass.old pass.new }
    ensures own { OnOk result (own_entries pass.new
        ≡ own_entries pass.old ++ numbered_by (number_of pass.old) from (to - from)) }
{
    for value in from..to {
        add(rt, shared, pass, value)?;
    }
    Ok(())
}

// Each pass adds the numbers below `count`, up to the first that is refused, in a thread of its own if one can be made.
fn add_side_by_side<R: Threads + Wait + Sync>(
    rt: &R,
    shared: &Chronicle<Tally>,
    passes: &mut [Pass<u64>],
    count: u64,
)
    requires { All (IsReady (lock_of shared.now)) passes.old }
    ensures ready { All (IsReady (lock_of shared.now)) passes.new }
    ensures added { (k : ℕ) (d : _) → k < length passes.old
        → HasAdded 0 count (slice_index_or passes.old k d) (slice_index_or passes.new k d) }
{
    let threads = passes.len().max(1);
    thread::for_each_mut(
        rt,
        passes,
        threads,
        &|_, pass: &mut Pass<u64>|
            requires { IsReady (lock_of shared.now) pass.old }
            ensures { IsReady (lock_of shared.entry.now) pass.new × HasAdded 0 count pass.old pass.new }
        {
            let _ = add_range(rt, shared, pass, 0, count);
        },
    );
}

/// This many authors each add the numbers below `count`, side by side, up to the first that is refused. The tally has
/// entries of these authors alone, and each author's numbers are there once and in rising order.
pub fn tallied<R: Threads + Wait + Sync>(
    rt: &R,
    alloc: Global,
    authors: u32,
    count: u64,
) -> Result<Tally, AllocError>
    requires { 0 < authors }
    ensures authors { IfOk result (λ t. IsGrown authors [] t) }
    ensures each { IfOk result (λ t. EachAdded authors count t) }
{
    let like = Tally::new(alloc);
    let (mut shared, mut passes, vacant) = Chronicle::<Tally>::new(alloc, &like, authors)?;
    shared.fill(vacant, like);
    add_side_by_side(rt, &shared, passes.as_mut_slice(), count);
    Ok(shared.close(passes))
}
