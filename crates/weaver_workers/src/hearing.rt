//! A gatekeeper hears of another one what it has not heard yet.
ghost use Rattle.std.specs.Prelude.{◌≡◌, ◌≢◌, ℕ, ◌<◌, slice_index_or, slice_set, None, Some, IfOk, IsTrue, OnOk};
ghost use Rattle.weave_account.specs.Clocks.{IsKnown};
ghost use Rattle.weaver_locks.specs.Hands.{seen_by, IsHand};
ghost use Rattle.weaver_locks.specs.Locks.{gate_count};
ghost use Rattle.weaver_workers.specs.Carrying.{AreTold, CarriesAtGate, HasSaid, HasTold, IsUpToDate};

use std::alloc::{AllocError, Global};
use std::sync::Wait;
use vector_stamp::Clock;
use weave_data::MOST_GATES;
use weaver_locks::{Hand, Shared};

/// Room for a clock of each gatekeeper, and none in it. The one error is out of memory.
pub(crate) fn no_clocks(alloc: Global) -> Result<Vec<Option<Clock>>, AllocError>
    ensures { IfOk result (λ clocks. (from : ℕ) → slice_index_or clocks.items from None ≡ None) }
{
    let mut clocks = Vec::new(alloc);
    for _gate in 0..MOST_GATES {
        clocks.push(None)?;
    }
    Ok(clocks)
}

/// A gatekeeper hears another one's clock, as it is now, unless it has just that one from this worker: `last` has the
/// clock of each that it heard last. It doesn't hear its own. It may wait. The one error is out of memory.
pub(crate) fn hear_news<R: Wait>(
    rt: &R,
    alloc: Global,
    hand: &mut Hand,
    shared: &Shared,
    from: u32,
    to: u32,
    last: &mut Vec<Option<Clock>>,
) -> Result<(), AllocError>
    requires hand { IsHand shared.now hand.old }
    requires from { from < gate_count shared.now }
    requires to { to < gate_count shared.now }
    requires told { AreTold hand.old to last.old.items }
    ensures there { CarriesAtGate shared.now to hand.old hand.new }
    ensures told { OnOk result (AreTold hand.new to last.new.items) }
    ensures news { OnOk result (from ≢ to → IsUpToDate hand.old hand.new to from) }
{
    if from == to {
        return Ok(());
    }
    let clock = listen(rt, hand, shared, from);
    if is_last(last, from, &clock) {
        return Ok(());
    }
    hear(rt, alloc, hand, shared, to, &clock)?;
    set_last(last, from, clock);
    Ok(())
}

// The gatekeeper's clock, as it is now.
fn listen<R: Wait>(rt: &R, hand: &mut Hand, shared: &Shared, from: u32) -> Clock
    requires hand { IsHand shared.now hand.old }
    requires from { from < gate_count shared.now }
    ensures there { (to : ℕ) → CarriesAtGate shared.now to hand.old hand.new }
    ensures said { HasSaid hand.old hand.new from result }
    ensures known { IsKnown (seen_by hand.new) result }
{
    shared.say(rt, hand, from)
}

// The gatekeeper hears the clock.
fn hear<R: Wait>(
    rt: &R,
    alloc: Global,
    hand: &mut Hand,
    shared: &Shared,
    to: u32,
    clock: &Clock,
) -> Result<(), AllocError>
    requires hand { IsHand shared.now hand.old }
    requires to { to < gate_count shared.now }
    requires known { IsKnown (seen_by hand.old) clock.now }
    ensures there { CarriesAtGate shared.now to hand.old hand.new }
    ensures told { OnOk result (HasTold hand.new to clock.now) }
{
    shared.hear(rt, alloc, hand, to, clock)
}

// Whether this is the gatekeeper's clock that was heard last.
fn is_last(last: &Vec<Option<Clock>>, from: u32, clock: &Clock) -> bool
    ensures told { IsTrue result → slice_index_or last.now.items from None ≡ Some clock.now }
    ensures all { slice_index_or last.now.items from None ≡ Some clock.now → IsTrue result }
{
    match last.get(from as usize) {
        Some(found) => *found == Some(*clock),
        None => false,
    }
}

// This is the gatekeeper's clock that was heard last, if there is room for it.
fn set_last(last: &mut Vec<Option<Clock>>, from: u32, clock: Clock)
    ensures { last.new.items ≡ slice_set last.old.items from (Some clock) }
{
    if (from as usize) < last.len() {
        last[from as usize] = Some(clock);
    }
}
