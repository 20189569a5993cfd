//! What became of a transaction.

use graph_ops::{Got, Reason};
use vector_stamp::Stamp;

/// What became of a transaction of a kept store.
#[derive(Drop)]
pub enum Kept {
    /// It is the commit of this number, and each crash from now on leaves it.
    Committed {
        stamp: Stamp,
        number: u64,
        answers: Vec<Got>,
    },
    /// Its first refused operation, counted from 1, and the reason, after `at` commits. Nothing is kept of it.
    Refused {
        stamp: Stamp,
        op: u32,
        reason: Reason,
        at: u64,
    },
}
