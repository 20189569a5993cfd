//! A row of locks is closed.
ghost use Rattle.std.specs.Prelude.{◌≡◌, All, vec_len};
ghost use Rattle.chronicle.specs.Locks.{IsFilled};
ghost use Rattle.weaver_locks.specs.ClosedRows.{AreClosed, HaveAll};
ghost use Rattle.weaver_locks.specs.Rooms.{IsRoom};

use chronicle::{Chronicle, Machine, Pass};

// Takes the machines out of the locks of a row, given all passes of each lock, and puts them into `machines`.
pub(crate) fn close_row<M: Machine + Drop>(
    locks: Vec<Chronicle<M>>,
    rooms: Vec<Vec<Pass<M::Entry>>>,
    mut machines: Vec<M>,
) -> Vec<M>
    requires count { vec_len rooms ≡ vec_len locks }
    requires filled { All IsFilled locks.items }
    requires passes { HaveAll locks.items rooms.items }
    requires room { IsRoom (vec_len locks) machines }
    ensures count { vec_len result ≡ vec_len locks }
    ensures closed { AreClosed M.frame M.log locks.items rooms.items result.items }
{
    let mut rooms = rooms.into_iter();
    for lock in locks {
        let Some(room) = rooms.next() else {
            unreachable!()
        };
        machines.push_reserved(lock.close(room));
    }
    machines
}
