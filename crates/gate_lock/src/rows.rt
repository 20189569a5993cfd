//! Notes of a row of locks.
ghost use Rattle.std.specs.Prelude.{◌≡◌, length, map, slice_index_or};
ghost use Rattle.chronicle.specs.Passes.{lock_noted};
ghost use Rattle.lock_row.specs.Meetings.{CanMeet, AllMet};

use chronicle::{Chronicle, Machine, Note, Pass};
use lock_row::meet_others;

/// Each pass meets the note of its lock, except at one place.
pub(crate) fn meet_row<M: Machine>(
    locks: &[Chronicle<M>],
    passes: &mut [Pass<M::Entry>],
    notes: &mut Vec<Note<M::Entry>>,
    except: usize,
)
    requires passes { length passes.old ≡ length locks.now }
    requires notes { length notes.old.items ≡ length locks.now }
    requires can { CanMeet locks.now passes.old notes.old.items except }
    ensures names { map lock_noted notes.new.items ≡ map lock_noted notes.old.items }
    ensures met { AllMet locks.now passes.old passes.new notes.old.items notes.new.items except }
    ensures passes { length passes.new ≡ length passes.old }
    ensures notes { length notes.new.items ≡ length notes.old.items }
    ensures pass { (d : _) → slice_index_or passes.new except d ≡ slice_index_or passes.old except d }
{
    meet_others(locks, passes, notes.as_mut_slice(), except);
}
