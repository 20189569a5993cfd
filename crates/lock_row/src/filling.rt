//! Machines are put into the locks of a row.
ghost use Rattle.std.specs.Prelude.{◌≡◌, All, length, vec_len};
ghost use Rattle.chronicle.specs.Locks.{IsFilled};
ghost use Rattle.lock_row.specs.Rows.{names_of};
ghost use Rattle.lock_row.specs.Openings.{AreVacant, AllFit, AreOneRow};

use chronicle::{Chronicle, Machine, Vacant};

/// Puts a machine into each lock of a row. From then on the passes can enter.
pub fn fill_row<M: Machine + Drop>(
    locks: &mut Vec<Chronicle<M>>,
    vacants: Vec<Vacant<M>>,
    machines: Vec<M>,
)
    requires vacant_count { vec_len vacants ≡ length locks.old.items }
    requires machine_count { vec_len machines ≡ length locks.old.items }
    requires vacant { AreVacant locks.old.items vacants.items }
    requires fit { AllFit M.frame M.log locks.old.items machines.items }
    ensures count { length locks.new.items ≡ length locks.old.items }
    ensures names { names_of locks.new.items ≡ names_of locks.old.items }
    ensures row { AreOneRow locks.old.items locks.new.items }
    ensures filled { All IsFilled locks.new.items }
{
    let mut vacants = vacants.into_iter();
    let mut place = 0;
    for machine in machines {
        let Some(vacant) = vacants.next() else {
            unreachable!()
        };
        locks[place].fill(vacant, machine);
        place += 1;
    }
}
