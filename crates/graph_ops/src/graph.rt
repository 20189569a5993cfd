//! The plain graph.
ghost use Rattle.std.specs.Prelude.{◌≡◌, ◌<◌, ◌^◌, length, option_copied, Ok, Err, IfOk, OnErr};
ghost use Rattle.graph_ops.specs.PlainGraph.{empty_graph, transaction};
ghost use Rattle.graph_ops.specs.Graphs.{plain_of, IfTxRefused};
ghost use Rattle.graph_ops.specs.Slots.{states_of};

use crate::journal::{Slots, run_or_rewind};
use crate::op::Op;
use crate::record::Record;
use crate::tx::{Got, TxFault};
use std::alloc::{AllocError, Global};
use std::collections::HashMap;
use std::marker::Model;
use weave_data::{Copied, Name};

/// A graph, seen by contracts as a finite map from names to records.
#[derive(Drop)]
pub struct Graph {
    pub(crate) slots: Slots,
}

impl Model for Graph {
    ghost use Rattle.std.specs.FinMap as map;
    ghost use Rattle.graph_ops.specs.Graphs.{Vertices};
    ghost use Rattle.graph_ops.specs.Slots.{vertices_held};
    ghost use Rattle.graph_ops.specs.Codes.{coded_name, coded_record};

    ghost Value = { Vertices };

    ghost coded = { map.code coded_name coded_record };

    ghost view = { λ g. vertices_held g.slots.entries };
}

impl Graph {
    /// A graph without vertices. It takes no memory.
    pub fn new(alloc: Global) -> Graph
        ensures { plain_of result ≡ empty_graph }
    {
        Graph {
            slots: HashMap::new(alloc),
        }
    }

    /// The record of a vertex, or `None` if it is absent.
    pub fn find(&self, v: Name) -> Option<&Record>
        ensures { option_copied result ≡ plain_of self.now v }
    {
        let Some(state) = self.slots.get(&v) else {
            return None;
        };
        state.as_ref()
    }

    /// Runs a transaction: all its operations in order, or none if one is refused. After either fault the graph is as
    /// before.
    ///
    /// It costs its own operations, whatever the size of the graph and of its records. Only `get` copies a record.
    pub fn run_tx(&mut self, alloc: Global, ops: &[Op]) -> Result<Vec<Got>, TxFault>
        requires { length ops.now < 2 ^ 32 }
        ensures done { IfOk result (λ gots. transaction ops.now (plain_of self.old)
            ≡ Ok (record { graph = plain_of self.new; gots = gots.items })) }
        ensures refused { IfTxRefused result (λ stopped. transaction ops.now (plain_of self.old) ≡ Err stopped) }
        ensures unchanged { OnErr result (self.new ≡ self.old) }
    {
        match run_or_rewind(alloc, &mut self.slots, ops) {
            Ok((gots, _)) => Ok(gots),
            Err(fault) => Err(fault),
        }
    }
}

impl Copied for Graph {
    fn copy(&self, alloc: Global) -> Result<Self, AllocError> {
        Ok(Graph {
            slots: copy_slots(alloc, &self.slots)?,
        })
    }
}

fn copy_slots(alloc: Global, slots: &Slots) -> Result<Slots, AllocError>
    ensures { IfOk result (λ copied. states_of copied.entries ≡ states_of slots.now.entries) }
{
    let mut copies = HashMap::with_capacity(alloc, slots.len())?;
    for (v, state) in slots.iter() {
        copies.insert(*v, state.copy(alloc)?)?;
    }
    Ok(copies)
}
