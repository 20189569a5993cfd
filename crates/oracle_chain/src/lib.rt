//! The timeline oracle on a chain of replicas (chain replication, van Renesse and Schneider 2004; Kronos, EuroSys
//! 2014).
//!
//! Messages between replicas may be lost, repeated and late, and replicas may stop. The tail gives the outcome of an
//! ask, when every live replica has the ask: so no two outcomes that were given order one pair of events both ways,
//! and none is taken back. As a judge the chain settles an ask at all live replicas at once.
#![tactic(auto)]

mod ask;
mod chain;
mod changes;
mod deciding;
mod delivering;
mod ends;
mod judging;
pub mod laws;
mod levelling;
mod message;
mod prepared;
mod replica;

pub use ask::{Ask, ChainFault, Delivered, Outcome};
pub use chain::ReplicaChain;
