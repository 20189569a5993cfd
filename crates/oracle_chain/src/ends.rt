//! Which replica is the head, which comes next, which is the tail, and how many are live.
ghost use Rattle.std.specs.Prelude.{◌≡◌, ◌<◌, [], map, length, slice_get, option_copied, IfSome, IfNone};
ghost use Rattle.oracle_chain.specs.Replay.{outcomes_of};
ghost use Rattle.oracle_chain.specs.Chain.{head_number, number_after, tail_number, live_count, tail_asks};
ghost use Rattle.oracle_chain.specs.Held.{replica_of};

use crate::ask::{Ask, Outcome};
use crate::replica::Replica;

/// The head.
pub(crate) fn head(replicas: &[Replica]) -> Option<usize>
    ensures { result ≡ head_number (map replica_of replicas.now) }
{
    for (number, replica) in replicas.iter().enumerate() {
        if replica.is_live() {
            return Some(number);
        }
    }
    None
}

/// The first live replica after that of this number.
pub(crate) fn next_live(replicas: &[Replica], number: usize) -> Option<usize>
    requires { number < length replicas.now }
    ensures { result ≡ number_after (map replica_of replicas.now) number }
{
    for other in number + 1..replicas.len() {
        if replicas[other].is_live() {
            return Some(other);
        }
    }
    None
}

/// The tail.
pub(crate) fn tail(replicas: &[Replica]) -> Option<usize>
    ensures { result ≡ tail_number (map replica_of replicas.now) }
{
    let mut found = None;
    for (number, replica) in replicas.iter().enumerate() {
        if replica.is_live() {
            found = Some(number);
        }
    }
    found
}

/// How many are live.
pub(crate) fn count_live(replicas: &[Replica]) -> usize
    ensures { result ≡ live_count (map replica_of replicas.now) }
{
    let mut count: usize = 0;
    for replica in replicas {
        if replica.is_live() {
            count += 1;
        }
    }
    count
}

// The replica that is the tail.
fn tail_replica(replicas: &[Replica]) -> Option<&Replica>
    ensures some { IfSome result (λ replica. replica.now.asks ≡ tail_asks (map replica_of replicas.now)) }
    ensures none { IfNone result (tail_asks (map replica_of replicas.now) ≡ []) }
{
    let Some(tail) = tail(replicas) else {
        return None;
    };
    replicas.get(tail)
}

/// The ask at a position of the tail's list.
pub(crate) fn ask_at_tail(replicas: &[Replica], position: u64) -> Option<&Ask>
    ensures { option_copied result ≡ slice_get (tail_asks (map replica_of replicas.now)) position }
{
    let Some(tail) = tail_replica(replicas) else {
        return None;
    };
    tail.asks().get(position as usize)
}

/// What a single oracle answers to it.
pub(crate) fn outcome_at_tail(replicas: &[Replica], position: u64) -> Option<&Outcome>
    ensures { option_copied result ≡ slice_get (outcomes_of (tail_asks (map replica_of replicas.now))) position }
{
    let Some(tail) = tail_replica(replicas) else {
        return None;
    };
    tail.outcomes().get(position as usize)
}
