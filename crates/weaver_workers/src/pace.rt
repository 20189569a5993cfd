//! What is called before and after each turn of a worker.

/// The kinds of workers of a run on threads.
#[derive(Clone, Copy, PartialEq, Eq, Debug)]
pub enum WorkKind {
    /// A session's client.
    Client,
    /// A gatekeeper.
    Gate,
    /// A shard.
    Shard,
}

/// Is called before and after each turn of each worker. It gets only the worker's kind and index and the turn's number.
pub trait Pace: Sync {
    /// Before a turn of the worker of this kind, whose session, gatekeeper or shard is number `index`.
    fn before(&self, kind: WorkKind, index: u32, turn: u32);

    /// After it.
    fn after(&self, kind: WorkKind, index: u32, turn: u32);
}

/// The pace that does nothing.
#[derive(Clone, Copy)]
pub struct NoPace;

impl Pace for NoPace {
    fn before(&self, _kind: WorkKind, _index: u32, _turn: u32) {}

    fn after(&self, _kind: WorkKind, _index: u32, _turn: u32) {}
}
