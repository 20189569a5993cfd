//! Which versions a collection drops.
ghost use Rattle.std.specs.Prelude.{◌≡◌, pred};
ghost use Rattle.vector_stamp.specs.declared.clock.Stamp.{Stamp};
ghost use Rattle.vector_stamp.specs.Order.{is_before};
ghost use Rattle.vector_stamp.specs.Seeing.{last_place};

use vector_stamp::{Clock, Relation, Stamp};

/// How many of the updates with these stamps are older than the newest one whose clock is before the bound.
/// It is 0 if there is no such update.
pub(crate) fn older_versions(stamps: &[Stamp], bound: &Clock) -> usize
    ensures { result ≡ pred (last_place (λ (stamp : Stamp). is_before stamp.clock bound.now) stamps.now) }
{
    let mut rest = stamps;
    while let Some((newest, older)) = rest.split_last() {
        if is_before(newest, bound) {
            return older.len();
        }
        rest = older;
    }
    0
}

// Whether the stamp's clock is before the bound.
fn is_before(stamp: &Stamp, bound: &Clock) -> bool
    ensures { result ≡ is_before stamp.now.clock bound.now }
{
    stamp.clock.compare(bound) == Relation::Before
}
