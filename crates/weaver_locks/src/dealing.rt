//! Passes are dealt to hands.
ghost use Rattle.std.specs.Prelude.{◌≡◌, ◌<◌, ◌+◌, ℕ, IfOk, OnOk, slice_index_or, vec_len};
ghost use Rattle.weaver_locks.specs.Opened.{HaveFirst, IsNewHand};

use crate::hand::Hand;
use crate::locks::Locks;
use crate::rooms::Rooms;
use lock_row::deal_hand;
use std::alloc::{AllocError, Global};

// The hand with this number, which has the last pass that is left of each lock.
fn deal_last(
    alloc: Global,
    locks: &Locks,
    passes: &mut Rooms,
    number: u32,
) -> Result<Hand, AllocError>
    requires left { HaveFirst (number + 1) locks.now passes.old }
    ensures left { OnOk result (HaveFirst number locks.now passes.new) }
    ensures hand { IfOk result (λ hand. IsNewHand locks.now number hand) }
{
    let gates = deal_hand(alloc, &locks.gates, &mut passes.gates, number)?;
    let store = passes.store.take_last();
    let oracle = passes.oracle.take_last();
    let shards = deal_hand(alloc, &locks.shards, &mut passes.shards, number)?;
    Ok(Hand {
        gates,
        store,
        oracle,
        shards,
    })
}

// All hands, in the order of their numbers.
pub(crate) fn deal_hands(
    alloc: Global,
    locks: &Locks,
    mut passes: Rooms,
    count: u32,
) -> Result<Vec<Hand>, AllocError>
    requires { HaveFirst count locks.now passes }
    ensures count { IfOk result (λ hands. vec_len hands ≡ count) }
    ensures hands { IfOk result (λ hands. (k : ℕ) (h : _) → k < count
        → IsNewHand locks.now k (slice_index_or hands.items k h)) }
{
    let mut hands = Vec::with_capacity(alloc, count as usize)?;
    for dealt in 0..count {
        let hand = deal_last(alloc, locks, &mut passes, count - 1 - dealt)?;
        hands.push_reserved(hand);
    }
    hands.reverse();
    Ok(hands)
}
