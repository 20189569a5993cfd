//! Locks that are still to be opened.
ghost use Rattle.std.specs.Prelude.{◌≡◌, ◌<◌, All, IfOk, vec_len};
ghost use Rattle.chronicle.specs.Locks.{lock_of};
ghost use Rattle.lock_row.specs.Reservations.{AreUnopened};

use chronicle::{Chronicle, Machine, Unopened};
use std::alloc::{AllocError, Global};

/// `count` locks with this many passes each, which are still to be opened, and what `open_row` needs of them.
pub fn reserve_row<M: Machine + Drop>(
    alloc: Global,
    count: u32,
    passes: u32,
) -> Result<(Vec<Chronicle<M>>, Vec<Unopened<M>>), AllocError>
    requires { 0 < passes }
    ensures locks { IfOk result (λ r. vec_len r.0 ≡ count) }
    ensures parts { IfOk result (λ r. vec_len r.1 ≡ count) }
    ensures unopened { IfOk result (λ r. AreUnopened r.0.items r.1.items) }
    ensures passes { IfOk result (λ r. All (λ c. (lock_of c).passes ≡ passes) r.0.items) }
{
    let mut locks = Vec::with_capacity(alloc, count as usize)?;
    let mut parts = Vec::with_capacity(alloc, count as usize)?;
    for _place in 0..count {
        let (lock, part) = Chronicle::<M>::reserve(alloc, passes)?;
        locks.push_reserved(lock);
        parts.push_reserved(part);
    }
    Ok((locks, parts))
}
