//! The laws that let a hand's calls follow one another, and tests of what a call needs.
ghost use Rattle.std.specs.Prelude.{◌≡◌, ◌<◌, Some};
ghost use Rattle.std.specs.Option.{ForSome};
ghost use Rattle.weaver_locks.specs.Locks.{shard_count};
ghost use Rattle.lock_tests.specs.Going.{WorkersLaws};

use seen_logs::laws::{accounts_have_logs_of_locks, references_go_on};
use shard_lock::laws::own_programs_are_running;
use std::process::Abort;
use vector_stamp::Stamp;
use weaver_locks::Shared;

/// What a worker's calls rely on.
pub fn workers_keep_their_laws()
    ensures { WorkersLaws }
{
    accounts_have_logs_of_locks();
    own_programs_are_running();
    references_go_on();
}

/// The last stamp, if it is asked for.
pub fn last_of(last: Option<Stamp>, asked: bool) -> Option<Stamp>
    ensures { ForSome result (λ stamp. last ≡ Some stamp) }
{
    if asked {
        return last;
    }
    None
}

/// A gatekeeper of two.
pub fn gate_of(rt: &impl Abort, gate: u32) -> u32
    ensures same { result ≡ gate }
    ensures below { result < 2 }
{
    if gate >= 2 {
        panic!(rt; "no such gatekeeper");
    }
    gate
}

/// A shard that is there.
pub fn shard_of(rt: &impl Abort, shared: &Shared, shard: u32) -> u32
    ensures same { result ≡ shard }
    ensures below { result < shard_count shared.now }
{
    if shard >= shared.shards() {
        panic!(rt; "no such shard");
    }
    shard
}
