//! The workers of a phase run side by side.
ghost use Rattle.std.specs.Prelude.{◌≡◌, ℕ, ◌≤◌, false, true, length, slice_get, OnErr, OnOk, Some};
ghost use Rattle.std.specs.List.{list_all};
ghost use Rattle.program_defs.specs.Limits.{IsWithinLimits};
ghost use Rattle.weaver_workers.specs.Keeping.{AreLocksOf};
ghost use Rattle.weaver_workers.specs.Workers.{HasPhase, IsReadyForPhase};
ghost use Rattle.weave_phase.specs.Seats.{has_done_its_part, HasRun, HaveRun};
ghost use Rattle.weave_phase.specs.declared.seats.Seat.{Seat};

use crate::seats::{Seat, all_done};
use program_defs::Script;
use std::alloc::{AllocError, Global};
use std::sync::Wait;
use std::thread;
use std::thread::Threads;
use weaver_locks::Shared;
use weaver_workers::Pace;

/// The workers do their parts of the phase side by side, on as many threads as there are workers. If a thread can't be
/// made, another one does its work. The one error is that a worker is out of memory.
pub(crate) fn run_all<R: Threads + Wait + Sync, P: Pace>(
    rt: &R,
    alloc: Global,
    shared: &Shared,
    script: &Script,
    phase: u32,
    seats: &mut [Seat],
    pace: &P,
) -> Result<(), AllocError>
    requires limits { IsWithinLimits script.now }
    requires phase { HasPhase script.now phase }
    requires locks { AreLocksOf script.now shared.now }
    requires some { 1 ≤ length seats.old }
    requires ready { (k : ℕ) (seat : Seat) → slice_get seats.old k ≡ Some seat
        → IsReadyForPhase shared.now script.now phase seat.worker }
    ensures ran { HaveRun shared.now script.now phase seats.old seats.new }
    ensures done { OnOk result (list_all has_done_its_part seats.new ≡ true) }
    ensures memory { OnErr result (list_all has_done_its_part seats.new ≡ false) }
{
    let threads = seats.len();
    thread::for_each_mut(
        rt,
        seats,
        threads,
        &|_, seat: &mut Seat|
            requires { IsWithinLimits script.now × HasPhase script.now phase × AreLocksOf script.now shared.now
                × IsReadyForPhase shared.now script.now phase seat.old.worker }
            ensures { HasRun shared.entry.now script.entry.now phase seat.old seat.new }
        {
            run_one(rt, alloc, shared, script, phase, seat, pace);
        },
    );
    if !all_done(seats) {
        return Err(AllocError);
    }
    Ok(())
}

// The worker does its part of the phase, and its seat keeps the answer.
fn run_one<R: Wait, P: Pace>(
    rt: &R,
    alloc: Global,
    shared: &Shared,
    script: &Script,
    phase: u32,
    seat: &mut Seat,
    pace: &P,
)
    requires limits { IsWithinLimits script.now }
    requires phase { HasPhase script.now phase }
    requires locks { AreLocksOf script.now shared.now }
    requires ready { IsReadyForPhase shared.now script.now phase seat.old.worker }
    ensures { HasRun shared.now script.now phase seat.old seat.new }
{
    let answer = seat.worker.go(rt, alloc, shared, script, phase, pace);
    seat.answer = Some(answer);
}
