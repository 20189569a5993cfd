//! The notes of a machine.
ghost use Rattle.std.specs.Prelude.{◌≡◌, IfOk, length, map, vec_len};
ghost use Rattle.chronicle.specs.Passes.{lock_noted};
ghost use Rattle.lock_row.specs.Rows.{names_of, AreReady};
ghost use Rattle.lock_row.specs.Notings.{HaveNoted, AllStay};

use chronicle::{Chronicle, Machine, Note, Pass};
use std::alloc::{AllocError, Global};

/// A note of each lock, of what a pass of that lock has seen.
pub fn note_row<M: Machine>(
    alloc: Global,
    locks: &[Chronicle<M>],
    passes: &mut [Pass<M::Entry>],
) -> Result<Vec<Note<M::Entry>>, AllocError>
    requires passes { length passes.old ≡ length locks.now }
    requires ready { AreReady locks.now passes.old }
    ensures count { IfOk result (λ r. vec_len r ≡ length locks.now) }
    ensures names { IfOk result (λ r. map lock_noted r.items ≡ names_of locks.now) }
    ensures notes { IfOk result (λ r. HaveNoted locks.now passes.old r.items) }
    ensures passes { length passes.new ≡ length passes.old }
    ensures stay { AllStay locks.now passes.old passes.new }
{
    let mut notes = Vec::with_capacity(alloc, locks.len())?;
    for place in 0..locks.len() {
        notes.push_reserved(locks[place].note(&mut passes[place]));
    }
    Ok(notes)
}
