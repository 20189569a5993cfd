//! Notes: of what a pass has seen, and in the slot of another lock.
ghost use Rattle.std.specs.Prelude.{◌≡◌, [], ◌∷◌, ◌++◌, All, IfOk, vec_len};
ghost use Rattle.chronicle.specs.Logs.{entries_of};
ghost use Rattle.chronicle.specs.Locks.{lock_of, LockStartsWith, IsFilled};
ghost use Rattle.chronicle.specs.Passes.{IsReady, IsNote, number_of, seen_by_pass, seen_by_note, own_entries};
ghost use Rattle.chronicle_keeper.specs.Totals.{numbered_by};
ghost use Rattle.chronicle_keeper.specs.Additions.{HasAdded};

use crate::adding::add_range;
use crate::tally::{Refused, Tally};
use chronicle::{Chronicle, Machine, Note, Pass};
use std::alloc::{AllocError, Global};
use std::sync::Wait;

/// A tally, with a note of another tally's log.
#[derive(Drop)]
pub struct Noted {
    pub tally: Tally,
    pub note: Note<u64>,
}

impl Machine for Noted {
    type Entry = u64;

    ghost frame = { λ _. [] };

    ghost log = { λ n. n.tally };
}

/// Adds 0, 1 and 2, makes a note, adds 3 and 4, and meets the note with the pass. Both have then seen one list, in
/// which all five entries are: they are the last of this author.
pub fn five_noted<R: Wait>(
    rt: &R,
    shared: &Chronicle<Tally>,
    pass: &mut Pass<u64>,
) -> Result<Note<u64>, Refused>
    requires { IsReady (lock_of shared.now) pass.old }
    ensures ready { IsReady (lock_of shared.now) pass.new }
    ensures added { HasAdded 0 5 pass.old pass.new }
    ensures note { IfOk result (IsNote (lock_of shared.now)) }
    ensures one { IfOk result (λ n. seen_by_note n ≡ seen_by_pass pass.new) }
    ensures five { IfOk result (λ n. entries_of (number_of pass.old) (seen_by_note n) ≡ own_entries pass.old
        ++ numbered_by (number_of pass.old) 0 5) }
{
    add_range(rt, shared, pass, 0, 3)?;
    let mut note = shared.note(pass);
    add_range(rt, shared, pass, 3, 5)?;
    shared.meet(pass, &mut note);
    Ok(note)
}

/// A lock round a tally with a note, made like a tally that has none, with three passes.
pub fn with_note(
    alloc: Global,
    like: &Tally,
    machine: Noted,
) -> Result<(Chronicle<Noted>, Vec<Pass<u64>>), AllocError>
    requires { machine.tally ≡ like.now }
    ensures lock { IfOk result (λ r. LockStartsWith (lock_of r.0) 3 [] like.now) }
    ensures filled { IfOk result (λ r. IsFilled r.0) }
    ensures count { IfOk result (λ r. vec_len r.1 ≡ 3) }
    ensures ready { IfOk result (λ r. All (IsReady (lock_of r.0)) r.1.items) }
{
    let (mut shared, passes, vacant) = Chronicle::<Noted>::new(alloc, like, 3)?;
    shared.fill(vacant, machine);
    Ok((shared, passes))
}
