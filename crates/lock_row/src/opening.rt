//! Locks of a row are opened.
ghost use Rattle.std.specs.Prelude.{◌≡◌, ℕ, IfOk, OnErr, All, length, vec_len};
ghost use Rattle.chronicle.specs.Locks.{lock_of, name_of, LockStartsWith, IsVacant};
ghost use Rattle.chronicle.specs.Passes.{IsUnopened};
ghost use Rattle.lock_row.specs.Rows.{names_of};
ghost use Rattle.lock_row.specs.Reservations.{AreUnopened};
ghost use Rattle.lock_row.specs.Openings.{AllBegin, AreVacant};
ghost use Rattle.lock_row.specs.Hands.{AreFirst, HavePasses};

use crate::bare::Bare;
use chronicle::{Chronicle, Machine, Pass, Unopened, Vacant};
use std::alloc::{AllocError, Global};
use std::snapshot::Snapshot;

// What a lock begins with: a machine without its notes, among locks of which it may keep notes.
#[derive(Drop)]
struct Like<'a, M: Machine, B: Bare> {
    bare: &'a B,
    context: &'a B::Context,
    row: Snapshot<Vec<Chronicle<M>>>,
}

impl<M: Machine, B: Bare<Entry = M::Entry>> Machine for Like<'_, M, B> {
    type Entry = M::Entry;

    ghost use Rattle.lock_row.specs.Rows.{names_of};

    ghost frame = { λ l. B.frame l.bare.now l.context.now (names_of l.row.value.items) };

    ghost log = { λ l. B.log l.bare.now };
}

// Opens one lock of a row.
fn open_beside<M: Machine, B: Bare<Entry = M::Entry>>(
    lock: &mut Chronicle<M>,
    part: Unopened<M>,
    bare: &B,
    context: &B::Context,
    row: Snapshot<Vec<Chronicle<M>>>,
) -> (Vec<Pass<M::Entry>>, Vacant<M>)
    requires { IsUnopened (lock_of lock.old) part }
    ensures name { name_of (lock_of lock.new) ≡ name_of (lock_of lock.old) }
    ensures begins { LockStartsWith (lock_of lock.new) (lock_of lock.old).passes
        (B.frame bare.now context.now (names_of row.value.items)) (B.log bare.now) }
    ensures passes { AreFirst (lock_of lock.old).passes (lock_of lock.new) result.0.items }
    ensures vacant { IsVacant (lock_of lock.new) result.1 }
{
    let like = Like { bare, context, row };
    lock.open(part, &like)
}

/// Opens each lock of a row for a machine of its own, which may keep notes of all locks of the row. It gives the passes
/// of each lock, and the empty place of each machine.
pub fn open_row<M: Machine + Drop, B: Bare<Entry = M::Entry>>(
    alloc: Global,
    locks: &mut Vec<Chronicle<M>>,
    parts: Vec<Unopened<M>>,
    machines: &[B],
    context: &B::Context,
) -> Result<(Vec<Vec<Pass<M::Entry>>>, Vec<Vacant<M>>), AllocError>
    requires parts { vec_len parts ≡ length locks.old.items }
    requires machines { length machines.now ≡ length locks.old.items }
    requires unopened { AreUnopened locks.old.items parts.items }
    ensures count { length locks.new.items ≡ length locks.old.items }
    ensures names { names_of locks.new.items ≡ names_of locks.old.items }
    ensures passes_count { IfOk result (λ r. vec_len r.0 ≡ length locks.old.items) }
    ensures vacant_count { IfOk result (λ r. vec_len r.1 ≡ length locks.old.items) }
    ensures begin { IfOk result (λ r. AllBegin (λ b. B.frame b context.now (names_of locks.old.items)) B.log
        locks.old.items locks.new.items machines.now) }
    ensures passes { IfOk result (λ r. (hands : ℕ) → All (λ c. (lock_of c).passes ≡ hands) locks.old.items
        → HavePasses hands locks.new.items r.0.items) }
    ensures vacant { IfOk result (λ r. AreVacant locks.new.items r.1.items) }
    ensures refused { OnErr result (locks.new ≡ locks.old) }
{
    let mut passes = Vec::with_capacity(alloc, locks.len())?;
    let mut vacants = Vec::with_capacity(alloc, locks.len())?;
    let mut place = 0;
    for part in parts {
        let row = Snapshot::of(&*locks);
        let (made, vacant) = open_beside(&mut locks[place], part, &machines[place], context, row);
        passes.push_reserved(made);
        vacants.push_reserved(vacant);
        place += 1;
    }
    Ok((passes, vacants))
}
