//! The chains of all vertices of a shard.
//!
//! A `VersionGraph` takes the parts of a transaction all or none, and `collect_all` drops old versions. Contracts see
//! it as a finite map from names to chains, with those alone that have updates.
#![tactic(auto)]

mod graph;
mod table;

pub use graph::{VersionGraph, collect_all};
