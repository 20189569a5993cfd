//! A hand, with what its earlier calls have shown. Its next calls rely on that.

use graph_ops::Op;
use vector_stamp::{Clock, Stamp};
use weave_data::Name;
use weave_entries::{Message, Verdict};
use weaver_locks::Hand;

/// A hand that has begun no request from `next` on.
#[derive(Drop)]
pub struct Worker {
    pub hand: Hand,
    pub next: u64,
    /// The last stamp that it began.
    pub last: Option<Stamp>,
    /// The last clock that a gatekeeper said to it.
    pub said: Option<Clock>,
    /// The program that it began, and has not finished.
    pub walk: Option<Walk>,
    /// A program of its own that has read all that it reads.
    pub ended: Option<u32>,
}

/// A program that shows a vertex.
#[derive(Clone, Copy)]
pub struct Walk {
    pub home: u32,
    pub request: u32,
    pub stamp: Stamp,
    pub vertex: Name,
}

/// A transaction that was begun, and is still to be judged.
#[derive(Clone, Copy)]
pub struct Flight {
    pub gate: u32,
    pub request: u32,
    pub stamp: Stamp,
}

/// A transaction that was judged, and is still to be sent.
#[derive(Drop)]
pub struct Judged {
    pub gate: u32,
    pub ops: Vec<Op>,
    pub verdict: Verdict,
}

/// A message that was fetched, and is still to be taken in.
#[derive(Drop)]
pub struct Fetched {
    pub gate: u32,
    pub shard: u32,
    pub number: u64,
    pub message: Message,
}

/// What a hand does next.
#[derive(Drop)]
pub enum Step {
    Any,
    Judge(Flight),
    Send(Judged),
    TakeIn(Fetched),
}

/// A worker, and what it does next.
#[derive(Drop)]
pub struct Player {
    pub worker: Worker,
    pub step: Step,
}
