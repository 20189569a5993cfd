//! A hold inside a hold.
ghost use Rattle.std.specs.Prelude.{◌≡◌, [], ◌∷◌, ◌++◌, OnOk};
ghost use Rattle.chronicle.specs.Locks.{lock_of};
ghost use Rattle.chronicle.specs.Passes.{IsReady, number_of, own_entries};
ghost use Rattle.chronicle_keeper.specs.Additions.{HasAdded};

use crate::tally::{Refused, Tally};
use chronicle::{Chronicle, Pass};
use std::sync::Wait;

/// Who has a pass of each of two locks.
#[derive(Drop)]
pub struct Owner {
    pub outer: Pass<u64>,
    pub inner: Pass<u64>,
}

/// Adds a number to both tallies, under the lock of the outer one for as long as it takes.
/// The inner lock is taken inside that hold alone, so if all go this way, both logs have one order. If one of the
/// two refuses, the other may have the number.
pub fn add_to_both<R: Wait>(
    rt: &R,
    outer: &Chronicle<Tally>,
    inner: &Chronicle<Tally>,
    owner: &mut Owner,
    value: u64,
) -> Result<(), Refused>
    requires outer { IsReady (lock_of outer.now) owner.old.outer }
    requires inner { IsReady (lock_of inner.now) owner.old.inner }
    ensures outer { IsReady (lock_of outer.now) owner.new.outer }
    ensures inner { IsReady (lock_of inner.now) owner.new.inner }
    ensures outer_added { HasAdded value 1 owner.old.outer owner.new.outer }
    ensures inner_added { HasAdded value 1 owner.old.inner owner.new.inner }
    ensures outer_own { OnOk result (own_entries owner.new.outer ≡ own_entries owner.old.outer
        ++ (number_of owner.old.outer, value) ∷ []) }
    ensures inner_own { OnOk result (own_entries owner.new.inner ≡ own_entries owner.old.inner
        ++ (number_of owner.old.inner, value) ∷ []) }
{
    let outer_author = owner.outer.number();
    let inner_author = owner.inner.number();
    let mut outside = outer.enter(rt, &mut owner.outer);
    let mut inside = inner.enter(rt, &mut owner.inner);
    let inner_added = inside.state().add(inner_author, value);
    let outer_added = outside.state().add(outer_author, value);
    inside.leave(&mut owner.inner);
    outside.leave(&mut owner.outer);
    inner_added?;
    outer_added
}
