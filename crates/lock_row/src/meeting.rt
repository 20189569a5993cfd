//! Passes meet the notes of a machine.
ghost use Rattle.std.specs.Prelude.{◌≡◌, length, map, slice_index_or};
ghost use Rattle.chronicle.specs.Passes.{lock_noted};
ghost use Rattle.lock_row.specs.Meetings.{CanMeet, AllMet};

use chronicle::{Chronicle, Machine, Note, Pass};

/// Each pass meets the note of its lock, except at the place of the machine's own lock, whose pass is in the hold.
pub fn meet_others<M: Machine>(
    locks: &[Chronicle<M>],
    passes: &mut [Pass<M::Entry>],
    notes: &mut [Note<M::Entry>],
    except: usize,
)
    requires passes { length passes.old ≡ length locks.now }
    requires notes { length notes.old ≡ length locks.now }
    requires can { CanMeet locks.now passes.old notes.old except }
    ensures names { map lock_noted notes.new ≡ map lock_noted notes.old }
    ensures met { AllMet locks.now passes.old passes.new notes.old notes.new except }
    ensures passes { length passes.new ≡ length passes.old }
    ensures notes { length notes.new ≡ length notes.old }
    ensures pass { (d : _) → slice_index_or passes.new except d ≡ slice_index_or passes.old except d }
    ensures note { (d : _) → slice_index_or notes.new except d ≡ slice_index_or notes.old except d }
{
    for place in 0..locks.len() {
        if place != except {
            locks[place].meet(&mut passes[place], &mut notes[place]);
        }
    }
}
