//! The workers of a phase, each with its hand: they are seated before they run, and unseated after.
ghost use Rattle.std.specs.Prelude.{◌≡◌, ℕ, ◌<◌, ◌≤◌, ◌^◌, AllPairs, Contains, IfOk, List, None, OnOk, Some, length, map, slice_get, slice_set, vec_len};
ghost use Rattle.std.specs.List.{list_all};
ghost use Rattle.weaver_core.specs.declared.client.Client.{Client};
ghost use Rattle.weave_phase.specs.OneSeat.{IsSeated, IsUnseated};
ghost use Rattle.weave_phase.specs.Seats.{client_in, hand_in, has_done_its_part, SeatsAreDealt, ArePutBack, AreTaken};
ghost use Rattle.weave_phase.specs.declared.seats.Seat.{Seat};

use std::alloc::{AllocError, Global};
use weaver_core::Client;
use weaver_locks::Hand;
use weaver_workers::{Ended, Worker};

/// A worker of a phase, and what it answered, once it has run. It is public for the definitions alone: no call gives
/// one.
#[derive(Drop)]
pub struct Seat {
    pub(crate) worker: Worker,
    pub(crate) answer: Option<Result<Ended, AllocError>>,
}

/// Seats the workers, one for each hand: hand k works for the k-th of these sessions, whose client is taken out of its
/// place, then for a gatekeeper, then for a shard. The one error is out of memory.
pub(crate) fn seat_all(
    alloc: Global,
    hands: Vec<Hand>,
    slots: &mut Vec<Option<Client>>,
    sessions: &[u32],
    gates: u32,
) -> Result<Vec<Seat>, AllocError>
    requires enough { length sessions.now ≤ vec_len hands }
    requires few { vec_len hands < 2 ^ 32 }
    requires rising { AllPairs (λ (a b : ℕ). a < b) sessions.now }
    requires there { (session : ℕ) → Contains sessions.now session
        → (client : Client) × (slice_get slots.old.items session ≡ Some (Some client)) }
    ensures dealt { IfOk result (λ seats. (clients : List Client) → map Some clients ≡ slots.old.items
        → SeatsAreDealt sessions.now gates clients hands.items seats.items) }
    ensures taken { OnOk result (AreTaken sessions.now slots.old.items slots.new.items) }
    ensures undone { IfOk result (λ seats. (k : ℕ) (seat : Seat) → slice_get seats.items k ≡ Some seat
        → seat.answer ≡ None) }
{
    let mut seats = Vec::new(alloc);
    for (k, hand) in hands.into_iter().enumerate() {
        let worker = worker_of(k, hand, slots, sessions, gates);
        seats.push(Seat {
            worker,
            answer: None,
        })?;
    }
    Ok(seats)
}

// What the hand of number k works for.
fn worker_of(
    k: usize,
    hand: Hand,
    slots: &mut Vec<Option<Client>>,
    sessions: &[u32],
    gates: u32,
) -> Worker
    requires few { k < 2 ^ 32 }
    requires there { (session : ℕ) → slice_get sessions.now k ≡ Some session
        → (client : Client) × (slice_get slots.old.items session ≡ Some (Some client)) }
    ensures { IsSeated sessions.now gates k hand slots.old.items slots.new.items result }
{
    if k < sessions.len() {
        let client = take_client(slots, sessions[k]);
        return Worker::ClientWork { hand, client };
    }
    let other = (k - sessions.len()) as u32;
    if other < gates {
        return Worker::GateWork { hand, gate: other };
    }
    let shard = other - gates;
    Worker::ShardWork { hand, shard }
}

// Takes the client of the session out of its place.
fn take_client(slots: &mut Vec<Option<Client>>, session: u32) -> Client
    requires there { (client : Client) × (slice_get slots.old.items session ≡ Some (Some client)) }
    ensures client { slice_get slots.old.items session ≡ Some (Some result) }
    ensures left { slots.new.items ≡ slice_set slots.old.items session None }
{
    let Some(client) = slots[session as usize].take() else {
        unreachable!();
    };
    client
}

/// The hands of all seats, in their order; each client is put back into the place of its session. The one error is out
/// of memory.
pub(crate) fn unseat_all(
    alloc: Global,
    seats: Vec<Seat>,
    slots: &mut Vec<Option<Client>>,
    sessions: &[u32],
) -> Result<Vec<Hand>, AllocError>
    requires clients { (k : ℕ) (seat : Seat) → slice_get seats.items k ≡ Some seat → k < length sessions.now
        → (client : Client) × (client_in seat.worker ≡ Some client) }
    requires others { (k : ℕ) (seat : Seat) → slice_get seats.items k ≡ Some seat → length sessions.now ≤ k
        → client_in seat.worker ≡ None }
    requires enough { length sessions.now ≤ vec_len seats }
    requires rising { AllPairs (λ (a b : ℕ). a < b) sessions.now }
    requires there { (session : ℕ) → Contains sessions.now session → session < vec_len slots.old }
    ensures hands { IfOk result (λ hands. hands.items ≡ map (λ (seat : Seat). hand_in seat.worker) seats.items) }
    ensures back { OnOk result (ArePutBack sessions.now seats.items slots.old.items slots.new.items) }
{
    let mut hands = Vec::new(alloc);
    for (k, seat) in seats.into_iter().enumerate() {
        hands.push(hand_of(k, seat.worker, slots, sessions))?;
    }
    Ok(hands)
}

// The hand of worker number k; its client is put back into the place of its session.
fn hand_of(k: usize, worker: Worker, slots: &mut Vec<Option<Client>>, sessions: &[u32]) -> Hand
    requires client { k < length sessions.now → (client : Client) × (client_in worker ≡ Some client) }
    requires other { length sessions.now ≤ k → client_in worker ≡ None }
    requires there { (session : ℕ) → slice_get sessions.now k ≡ Some session → session < vec_len slots.old }
    ensures hand { result ≡ hand_in worker }
    ensures back { IsUnseated sessions.now k worker slots.old.items slots.new.items }
{
    match worker {
        Worker::ClientWork { hand, client } => {
            slots[sessions[k] as usize] = Some(client);
            hand
        }
        Worker::GateWork { hand, gate: _ } => hand,
        Worker::ShardWork { hand, shard: _ } => hand,
    }
}

/// Whether every worker has done its part.
pub(crate) fn all_done(seats: &[Seat]) -> bool
    ensures { result ≡ list_all has_done_its_part seats.now }
{
    seats.iter().all(|seat| is_done(seat))
}

// Whether the worker of the seat has.
fn is_done(seat: &Seat) -> bool
    ensures { result ≡ has_done_its_part seat.now }
{
    matches!(seat.answer, Some(Ok(_)))
}
