//! How a pass enters the lock.
ghost use Rattle.std.specs.Prelude.{◌≡◌};

use crate::chronicle::Chronicle;
use crate::held::Held;
use crate::machine::Machine;
use crate::pass::Pass;
use crate::rule::{FREE, SLOT, TAKEN, WORD};
use crate::steps::Enters;
use atomic_table::Badge;
use std::mem;
use std::snapshot::Snapshot;
use std::sync::Wait;

impl<M: Machine> Chronicle<M> {
    ghost use mathlib.Core.List.{IsPrefix};
    ghost use Rattle.chronicle.specs.Logs.{entries_of};
    ghost use Rattle.chronicle.specs.Locks.{lock_of};
    ghost use Rattle.chronicle.specs.Passes.{IsReady, number_of, seen_by_pass, own_entries};
    ghost use Rattle.chronicle.specs.Holds.{machine_of, lock_in, log_at_entry, WentInWith};

    /// Enters with the pass. It sleeps while somebody else is in, and may wait forever.
    pub fn enter<R: Wait>(&self, rt: &R, pass: &mut Pass<M::Entry>) -> Held<'_, M>
        requires { IsReady (lock_of self.now) pass.old }
        ensures frame { M.frame (machine_of result) ≡ (lock_of self.now).frame }
        ensures log { IsPrefix (seen_by_pass pass.old) (M.log (machine_of result)) }
        ensures own { entries_of (number_of pass.old) (M.log (machine_of result)) ≡ own_entries pass.old }
        ensures entry { log_at_entry result ≡ M.log (machine_of result) }
        ensures lock { lock_in result ≡ lock_of self.now }
        ensures pass { WentInWith pass.new result }
        ensures number { number_of pass.new ≡ number_of pass.old }
    {
        pass.before = Snapshot::of(&pass.badge);
        let mut seat = mem::replace(&mut pass.badge, Badge::blank()).into_seat::<Option<M>>();
        let shared = &self.table.shared;
        let mut rung = None;
        for _ in rt.forever() {
            let found = shared.compare_exchange::<Enters>(&mut seat, WORD, FREE, TAKEN);
            if found == FREE {
                let Some(machine) = shared.exchange(&mut seat, SLOT, None) else {
                    unreachable!()
                };
                self.bell.end(rung);
                return Held {
                    chronicle: self,
                    machine,
                    seat,
                };
            }
            rung = Some(self.bell.wait(rt, rung));
        }
        unreachable!()
    }
}
