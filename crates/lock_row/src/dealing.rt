//! Passes are dealt to hands.
ghost use Rattle.std.specs.Prelude.{◌≡◌, ◌+◌, IfOk, OnOk, OnErr, length, vec_len};
ghost use Rattle.lock_row.specs.Hands.{HavePasses, AreDealt};

use chronicle::{Chronicle, Machine, Pass};
use std::alloc::{AllocError, Global};

/// A hand: the pass with this number of each lock, which is the last that each has left.
pub fn deal_hand<M: Machine>(
    alloc: Global,
    locks: &[Chronicle<M>],
    passes: &mut Vec<Vec<Pass<M::Entry>>>,
    number: u32,
) -> Result<Vec<Pass<M::Entry>>, AllocError>
    requires count { length passes.old.items ≡ length locks.now }
    requires left { HavePasses (number + 1) locks.now passes.old.items }
    ensures count { length passes.new.items ≡ length locks.now }
    ensures left { OnOk result (HavePasses number locks.now passes.new.items) }
    ensures hand_count { IfOk result (λ hand. vec_len hand ≡ length locks.now) }
    ensures dealt { IfOk result (λ hand. AreDealt number locks.now hand.items) }
    ensures refused { OnErr result (passes.new ≡ passes.old) }
{
    let mut hand = Vec::with_capacity(alloc, locks.len())?;
    for place in 0..locks.len() {
        let Some(pass) = passes[place].pop() else {
            unreachable!()
        };
        hand.push_reserved(pass);
    }
    Ok(hand)
}
