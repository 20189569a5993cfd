//! The plain property graph: records of vertices, operations on them, and transactions, which run whole or not at all.
//!
//! `apply_op` does an operation to its vertex's state, and `Graph::run_tx` a transaction to a graph. Each answers
//! exactly what the definitions in `specs/Operations.antt` and `specs/PlainGraph.antt` say, limits among the reasons of
//! refusal, and changes nothing where it answers a fault.
#![tactic(auto)]

mod back;
mod graph;
mod journal;
pub mod laws;
mod mentions;
mod op;
mod part;
mod pending;
mod record;
mod rows;
mod tags;
mod tx;

pub use graph::Graph;
pub use mentions::named;
pub use op::{Answered, Fields, Op, OpFault, Reason};
pub use part::Part;
pub use pending::Pending;
pub use record::{Edge, MOST_EDGES, MOST_PROPS, MOST_TAGS, Record};
pub use rows::apply_op;
pub use tx::{Got, TxFault};
pub use weave_data::Name;
