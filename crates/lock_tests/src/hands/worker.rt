//! A hand, with what its earlier calls have shown. Its next calls rely on that.

use program_defs::Answer;
use vector_stamp::Stamp;
use weave_data::Items;
use weaver_core::Running;
use weaver_locks::Hand;

/// A program that was finished, and its answer.
#[derive(Drop)]
pub struct Ended {
    pub request: u32,
    pub answer: Answer,
}

/// A hand that has begun no request from `next` on.
#[derive(Drop)]
pub struct Worker {
    pub hand: Hand,
    pub next: u64,
    /// The last stamp that it began.
    pub last: Option<Stamp>,
    /// Its program that is running.
    pub walk: Option<Running>,
    /// Its programs that are finished.
    pub ended: Items<Ended>,
}
