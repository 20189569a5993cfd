//! How a worker's phase ends.

/// How a worker's phase ends.
#[derive(Clone, Copy, PartialEq, Eq, Debug)]
pub enum Ended {
    /// The worker is no client, or each request of its session up to the end of the phase has its reply.
    Done,
    /// The client's next request is a transaction at this gatekeeper, where one of another hand was in flight in 16
    /// turns one after another.
    Busy { gate: u32 },
    /// The client's program is running, and this shard was not ready for it, as far as this gatekeeper is concerned.
    NotYet { shard: u32, gate: u32 },
}
