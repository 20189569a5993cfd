//! How far a script has been read.

use graph_ops::Op;
use program_defs::{Request, Step};
use weave_data::{Items, Name};

/// The script so far, and the place of the next line. A transaction that has no end yet is not counted as a request.
#[derive(Drop)]
pub(crate) struct Reading {
    /// In its version `link` is a join.
    pub(crate) joins: bool,
    pub(crate) gates: u32,
    pub(crate) shards: u32,
    pub(crate) requests: Items<Request>,
    pub(crate) phases: Items<u32>,
    pub(crate) place: Place,
}

/// The place of a line in a script.
#[derive(Drop)]
pub(crate) enum Place {
    /// Before the header.
    Start,
    /// Behind the header, a transaction's end, a program or a phase.
    Between,
    /// Inside this transaction, after these operations.
    Inside { opening: Opening, ops: Items<Op> },
    /// After `steps` and these steps.
    Behind { steps: Items<Step> },
}

/// What a request's line says before its work.
#[derive(Clone, Copy)]
pub(crate) struct Opening {
    pub(crate) name: Name,
    pub(crate) session: u32,
    pub(crate) gate: u32,
}

/// How much of each limited quantity the script uses so far.
#[derive(Clone, Copy)]
pub(crate) struct Counts {
    /// The operations of the transaction that has no end yet.
    pub(crate) operations: usize,
    pub(crate) requests: usize,
    pub(crate) programs: usize,
    pub(crate) gets: usize,
    /// Different names of vertices.
    pub(crate) vertices: usize,
    pub(crate) steps: usize,
}
