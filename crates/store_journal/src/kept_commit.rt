//! What a record keeps.

use graph_ops::Op;
use vector_stamp::Stamp;
use weave_data::Items;

/// A transaction that passed, with its stamp.
#[derive(Drop)]
pub struct Commit {
    /// It is of gatekeeper 0, and counts that one's events alone.
    pub stamp: Stamp,
    pub ops: Items<Op>,
}
