//! The laws that let a hand's calls follow one another, and tests of what a call needs.
ghost use Rattle.std.specs.Prelude.{◌≡◌, ◌≤◌};
ghost use Rattle.lock_tests.specs.OwnRequests.{OwnRequestLaws};

use crate::hands::worker::Worker;
use std::process::Abort;
use weaver_hands::HandFault;
use weaver_hands::laws::{begun_programs_run, own_reads_were_seen, programs_left_alone_go_on};
use weaver_locks::laws::{what_was_begun_may_be_heard, what_was_not_begun_stays};

/// What a worker's calls rely on.
pub fn workers_keep_their_laws()
    ensures { OwnRequestLaws }
{
    begun_programs_run();
    own_reads_were_seen();
    programs_left_alone_go_on();
    what_was_begun_may_be_heard();
    what_was_not_begun_stays();
}

/// A request that the worker has not begun.
pub fn not_begun(rt: &impl Abort, worker: &Worker, request: u32) -> u32
    ensures same { result ≡ request }
    ensures fresh { worker.now.next ≤ result }
{
    if u64::from(request) < worker.next {
        panic!(rt; "it was begun");
    }
    request
}

/// A refused transaction found its gatekeeper busy.
pub fn only_busy(rt: &impl Abort, fault: HandFault)
    ensures { fault ≡ HandFault.Busy }
{
    match fault {
        HandFault::Busy => {}
        HandFault::NotYet { .. } | HandFault::Empty | HandFault::Waits { .. } | HandFault::Memory =>
            panic!(rt; "memory"),
    }
}
