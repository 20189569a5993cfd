//! A core in its parts.
use crate::client::Client;
use backing_store::Store;
use gatekeeper::Gate;
use program_defs::Script;
use shard_node::Shard;
use timeline_oracle::Oracle;
use vector_stamp::Clock;

/// The script and the machines of a core, its sessions and its notices, each by itself: what threads work on between a
/// core's steps.
#[derive(Drop)]
pub struct Split {
    pub script: Script,
    /// In the order of their homes.
    pub gates: Vec<Gate>,
    pub store: Store,
    pub oracle: Oracle,
    /// In the order of their numbers.
    pub shards: Vec<Shard>,
    /// One for each session, in the order of the sessions' numbers.
    pub clients: Vec<Client>,
    /// The clocks that were said, in order.
    pub notices: Vec<Clock>,
}
