//! The graph of decided orders: which of two events was put before the other, if their stamps leave it open (timeline
//! oracle of Kronos, EuroSys 2014).
//!
//! It keeps pairs, of an earlier event and a later one, and answers precedence exactly: what the pairs and the order of
//! all stamps imply together. No event precedes itself. No pair is dropped or reversed.
#![tactic(auto)]

mod chain;
mod frontier;
mod graph;
pub mod laws;

pub use graph::OrderGraph;
